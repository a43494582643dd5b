// The nets of the top's inputs, by names and indices.
ghost use Rattle.std.specs.Prelude.{◌≡◌, ◌<◌, ◌≤◌, ◌^◌, MatchOption, option_and_then, option_copied, option_map, slice_get};
ghost use Rattle.sg_time.specs.Spelling.{number_from};
ghost use Rattle.sg_circuit.specs.Seen.{variable_seen};
ghost use Rattle.stim_read.specs.Inputs as def;
ghost use Rattle.sg_time.specs.Ticks.{with_sign};
ghost use Rattle.stim_read.specs.Meant.{IsBeyond};
ghost use Rattle.stim_read.specs.Seen.{name_seen};

use crate::sets::Name;
use crate::top_inputs::Inputs;
use sg_circuit::{NetId, Range, Variable};
use std::slice::from_ref;

const INDEX_LIMIT: u128 = 1 << 64;

// The number of some digits, if it is below 2^64.
fn size_of(digits: &[u8]) -> Option<u64>
    ensures { MatchOption result (2 ^ 64 ≤ number_from 0 digits.now) (λ n. n ≡ number_from 0 digits.now) }
{
    let mut n = 0u128;
    for b in digits {
        n = n * 10 + u128::from(b.saturating_sub(b'0'));
        if n >= INDEX_LIMIT {
            return None;
        }
    }
    Some(n as u64)
}

fn signed(negative: bool, size: u64) -> Option<i64>
    ensures { MatchOption result (IsBeyond (with_sign negative size)) (λ i. i ≡ with_sign negative size) }
{
    let value = if negative {
        0 - i128::from(size)
    } else {
        i128::from(size)
    };
    i64::try_from(value).ok()
}

// The number that an index is, if 64 bits hold it.
fn index_of(text: &[u8]) -> Option<i64>
    ensures { MatchOption result (IsBeyond (def.index_value text.now)) (λ i. i ≡ def.index_value text.now) }
{
    match text {
        [b'-', digits @ ..] => signed(true, size_of(digits)?),
        _ => signed(false, size_of(text)?),
    }
}

fn is_within(range: Range, index: i64) -> bool
    ensures { result ≡ def.is_within range index }
{
    (range.left <= index && index <= range.right) || (range.right <= index && index <= range.left)
}

// The position of an index from the left; one out of range has none, nor has a scalar any.
fn position_at(range: Option<Range>, text: &[u8]) -> Option<usize>
    ensures { result ≡ def.position_at range (def.index_value text.now) }
{
    let range = range?;
    let index = index_of(text)?;
    if !is_within(range, index) {
        return None;
    }
    Some(index.abs_diff(range.left) as usize)
}

fn bit_of<'c>(variable: &'c Variable, text: &[u8]) -> Option<&'c NetId>
    ensures { option_copied result ≡ option_and_then (slice_get (variable_seen variable.now).bits) (def.position_at variable.now.range (def.index_value text.now)) }
{
    let place = position_at(variable.range, text)?;
    variable.bits.get(place)
}

/// The nets of a variable, left first, or of its one bit of an index; none where it has no such bit.
pub fn nets_of<'c>(variable: &'c Variable, index: Option<&[u8]>) -> Option<&'c [NetId]>
    ensures { option_map (λ nets. nets.now) result ≡ def.nets_of (option_map (λ i. i.now) index.entry) (variable_seen variable.now) }
{
    match index {
        None => Some(&variable.bits),
        Some(text) => Some(from_ref(bit_of(variable, text)?)),
    }
}

/// The nets of an input of the top, left first, or of one bit of it; none where there is no such input or bit.
pub fn nets_named<'c>(inputs: &Inputs<'c>, name: &Name) -> Option<&'c [NetId]>
    ensures { option_map (λ nets. nets.now) result ≡ def.nets_named inputs.now.circuit.now (name_seen name.now) }
{
    nets_of(inputs.named(name.name)?, name.index)
}

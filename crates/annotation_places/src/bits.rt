// The nets of a variable's bits.
ghost use Rattle.std.specs.Prelude.{◌≡◌, option_copied};
ghost use Rattle.sg_circuit.specs.Seen.{variable_seen};
ghost use Rattle.annotation_model.specs.Ports as def;

use sg_circuit::{NetId, Range, Variable};
use std::slice::from_ref;

fn is_within(range: Range, index: i64) -> bool
    ensures { result ≡ def.is_within range index }
{
    (range.left <= index && index <= range.right) || (range.right <= index && index <= range.left)
}

// The position of an index from the left; one out of range has none, nor has a scalar any (IEEE 1364-2005, 4.3.1).
fn position_at(range: Option<Range>, index: i64) -> Option<usize>
    ensures { result ≡ def.position_at range index }
{
    let range = range?;
    if !is_within(range, index) {
        return None;
    }
    Some(index.abs_diff(range.left) as usize)
}

fn one_of(net: Option<&NetId>) -> &[NetId]
    ensures { result.now ≡ def.one_of (option_copied net.entry) }
{
    match net {
        Some(net) => from_ref(net),
        None => &[],
    }
}

fn net_in(bits: &[NetId], position: Option<usize>) -> &[NetId]
    ensures { result.now ≡ def.net_in bits.now position }
{
    match position {
        Some(position) => one_of(bits.get(position)),
        None => &[],
    }
}

/// The nets of a variable, or that of the bit of an index.
pub fn bits_of(variable: &Variable, bit: Option<i64>) -> &[NetId]
    ensures { result.now ≡ def.bits_of (variable_seen variable.now) bit }
{
    match bit {
        Some(index) => net_in(&variable.bits, position_at(variable.range, index)),
        None => &variable.bits,
    }
}

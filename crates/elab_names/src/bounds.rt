// Ranges beside one another, and how wide they are.
ghost use Rattle.std.specs.Prelude.{◌≡◌, [], nat_lt, IfOk, map, find};
ghost use Rattle.std.specs.Option.{option_map};
ghost use Rattle.sg_circuit.specs.Closed.{width_of};
ghost use Rattle.elab_model.specs.Names.{bounds};
ghost use Rattle.elab_model.specs.NameFaults as def;
ghost use Rattle.elab_declared.specs.Words.{first_of};
ghost use Rattle.elab_names.specs.GivenRanges.{differing_places, is_other, is_wide, view_range};

use crate::NamedRange;
use indexmap::IndexMap;
use sg_text::{NoMemory, Place};
use std::alloc::Global;
use vl_tree::Range;

// The most bits of a vector.
const WIDTH_LIMIT: u64 = 65536;

/// The place of the first name that an earlier declaration gives another range, if there is one. Takes memory.
pub fn first_differing(alloc: Global, ranges: &[NamedRange]) -> Result<Option<Place>, NoMemory>
    ensures { IfOk result (λ place. place ≡ first_of (differing_places [] (map view_range ranges.now))) }
{
    let mut known: IndexMap<&[u8], Option<Range>> = IndexMap::new(alloc);
    for given in ranges {
        let before = known.insert(given.name.text, given.range)?;
        if is_another(before, given.range) {
            return Ok(Some(given.name.place));
        }
    }
    Ok(None)
}

/// The place of the first name whose range has more bits than a vector may have, if there is one.
pub fn first_too_wide(ranges: &[NamedRange]) -> Option<Place>
    ensures { result ≡ option_map (λ r. r.name.place) (find (λ r. is_wide (view_range r)) ranges.now) }
{
    let given = ranges.iter().find(|given| is_too_wide(given.range))?;
    Some(given.name.place)
}

fn is_another(before: Option<Option<Range>>, range: Option<Range>) -> bool
    ensures { result ≡ is_other (option_map bounds range) before }
{
    match before {
        Some(before) => !is_same_range(range, before),
        None => false,
    }
}

// Where a range stands doesn't count.
fn is_same_range(one: Option<Range>, other: Option<Range>) -> bool
    ensures { result ≡ def.is_same_range (option_map bounds one) (option_map bounds other) }
{
    match (one, other) {
        (None, None) => true,
        (Some(one), Some(other)) => one.left == other.left && one.right == other.right,
        (None, Some(_)) => false,
        (Some(_), None) => false,
    }
}

// A vector has one bit more than its bounds are apart.
fn is_too_wide(range: Option<Range>) -> bool
    ensures { result ≡ nat_lt def.width_limit (width_of (option_map bounds range)) }
{
    match range {
        Some(range) => range.left.abs_diff(range.right) >= WIDTH_LIMIT,
        None => false,
    }
}

// The copy of one terminal.
ghost use Rattle.std.specs.Prelude.{◌≡◌, List, IfOk, IfSome, map, option_to_list};
ghost use Rattle.std.specs.Option.{option_map};
ghost use Rattle.vl_tree.specs.Seen.{view_event, view_name, view_term};
ghost use Rattle.elab_ends.specs.Seen.{bits_seen, AreInRow};
ghost use Rattle.elab_lates.specs.Seen.{IsCopyInRow, IsPlaceIn, placed_seen};
ghost use Rattle.elab_model.specs.Lates as def;
ghost use Rattle.elab_model.specs.Names.{Variable};
ghost use Rattle.elab_model.specs.Terms.{term_bits};

use crate::{DelayedCopy, PlacedCopy};
use elab_ends::terms_bits;
use elab_variables::Table;
use sg_text::{NoMemory, Place};
use std::alloc::Global;
use vl_tree::{Event, Name, Term};

fn only(bits: &[usize]) -> Option<usize>
    ensures bit { (vs : List Variable) → bits_seen vs (option_to_list result) ≡ def.one_bit (bits_seen vs bits.now) }
    ensures row { (vs : List Variable) → AreInRow vs bits.now → IsPlaceIn vs result }
{
    match bits {
        [bit] => Some(*bit),
        [] => None,
        [_, _, ..] => None,
    }
}

// The place of a term's bit in the row, where it is one bit.
fn only_bit(alloc: Global, table: &Table, term: Term) -> Result<Option<usize>, NoMemory>
    ensures bit { IfOk result (λ b. bits_seen table.now (option_to_list b) ≡ def.one_bit (term_bits table.now (view_term term.entry))) }
    ensures row { IfOk result (λ b. IsPlaceIn table.now b) }
{
    let bits = terms_bits(alloc, table, &[term])?;
    Ok(only(&bits))
}

/// The copy of a terminal's bit for which a timing check asks, with the name that the text gives to the copy, if it gives one; its place is that of the name, or else `place`, the
/// check's (IEEE 1364-2005, 15.8). A terminal or a name that isn't one bit has none. Takes memory.
pub fn copy_of(
    alloc: Global,
    table: &Table,
    place: Place,
    event: &Event,
    name: &Option<Name>,
) -> Result<Option<PlacedCopy>, NoMemory>
    ensures copy { IfOk result (λ c. map (placed_seen table.now) (option_to_list c) ≡ def.copies_of table.now place (view_event event.now) (option_map view_name name.now)) }
    ensures row { IfOk result (λ c. IfSome c (λ p. IsCopyInRow table.now p.copy)) }
{
    let Some(signal) = only_bit(alloc, table, event.term)? else {
        return Ok(None);
    };
    let Some(name) = name else {
        let copy = DelayedCopy {
            signal,
            named: None,
        };
        return Ok(Some(PlacedCopy { place, copy }));
    };
    let whole = Term {
        name: *name,
        select: None,
    };
    let Some(bit) = only_bit(alloc, table, whole)? else {
        return Ok(None);
    };
    let copy = DelayedCopy {
        signal,
        named: Some(bit),
    };
    Ok(Some(PlacedCopy {
        place: name.place,
        copy,
    }))
}

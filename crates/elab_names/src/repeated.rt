// Names that stand twice, or not at all.
ghost use Rattle.std.specs.Prelude.{◌≡◌, ℕ, List, IfOk, map, not, find};
ghost use Rattle.std.specs.Option.{option_map};
ghost use Rattle.elab_model.specs.Names.{is_among};
ghost use Rattle.vl_tree.specs.Seen.{view_name};
ghost use Rattle.elab_declared.specs.Words.{IsFirstAgain, is_seen};
ghost use Rattle.elab_model.specs.Faults.{texts_of};

use indexmap::IndexSet;
use sg_text::{NoMemory, Place};
use std::alloc::Global;
use vl_tree::Name;

/// The place of the first name that stands earlier in the list too, if there is one. Takes memory.
pub fn first_repeated(alloc: Global, names: &[Name]) -> Result<Option<Place>, NoMemory>
    ensures { IfOk result (IsFirstAgain (map view_name names.now)) }
{
    let mut seen: IndexSet<&[u8]> = IndexSet::new(alloc);
    for name in names {
        if !seen.insert(name.text)? {
            return Ok(Some(name.place));
        }
    }
    Ok(None)
}

/// The first of these names that isn't one of the others, if there is one. Takes memory.
pub fn first_missing<'a>(
    alloc: Global,
    names: &[Name<'a>],
    others: &[Name],
) -> Result<Option<Name<'a>>, NoMemory>
    ensures { IfOk result (λ name. option_map view_name name ≡ find (λ n. not (is_among n.text (texts_of (map view_name others.now)))) (map view_name names.now)) }
{
    let known = set_of(alloc, others)?;
    for name in names {
        if !known.contains(name.text) {
            return Ok(Some(*name));
        }
    }
    Ok(None)
}

fn set_of<'a>(alloc: Global, names: &[Name<'a>]) -> Result<IndexSet<&'a [u8]>, NoMemory>
    ensures { IfOk result (λ set. (n : List ℕ) → is_seen n set.keys ≡ is_among n (texts_of (map view_name names.now))) }
{
    let mut seen: IndexSet<&[u8]> = IndexSet::new(alloc);
    for name in names {
        seen.insert(name.text)?;
    }
    Ok(seen)
}

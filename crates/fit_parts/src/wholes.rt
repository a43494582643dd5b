// Whether all that is below a top is in a tree.
ghost use Rattle.std.specs.Prelude.{◌≡◌, ℕ, List, true, IfOk, map, option_map};
ghost use Rattle.std.specs.List.{list_all};
ghost use Rattle.vl_tree.specs.Seen.{view_item, view_part, view_source};
ghost use Rattle.fit_parts.specs.Below.{HoldsName, IsWhole, holds, is_seen, HoldsTop};
ghost use Rattle.fit_parts.specs.Checked.{closes, item_held, stays_among};
ghost use Rattle.fit_parts.specs.Parts.{heading_seen};

use crate::below::Below;
use crate::names::{defined_names, used_names};
use crate::parts::Heading;
use crate::tops::only_top;
use indexmap::IndexSet;
use sg_text::NoMemory;
use std::alloc::Global;
use vl_tree::{Item, Part, Source};

fn item_held(item: &Item<'_>, below: &Below<'_>) -> bool
    ensures { result ≡ item_held (holds below.now) (view_item item.now) }
{
    match item {
        Item::Instances { module, .. } => below.holds(module.text),
        Item::Ports { .. }
        | Item::Nets { .. }
        | Item::Supplies { .. }
        | Item::Registers { .. }
        | Item::Assigns { .. }
        | Item::Gates { .. }
        | Item::Specify(_) => true,
    }
}

fn items_held(items: &[Item<'_>], below: &Below<'_>) -> bool
    ensures { result ≡ list_all (λ i. item_held (holds below.now) (view_item i)) items.now }
{
    items.iter().all(|item| item_held(item, below))
}

fn closes(part: &Part<'_>, below: &Below<'_>) -> bool
    ensures { result ≡ closes (holds below.now) (view_part part.now) }
{
    match part {
        Part::Module(module) => {
            !below.holds(module.name.text) || items_held(&module.items, below)
        }
        Part::Primitive(_) => true,
    }
}

fn all_close(parts: &[Part<'_>], below: &Below<'_>) -> bool
    ensures { result ≡ list_all (λ p. closes (holds below.now) (view_part p)) parts.now }
{
    parts.iter().all(|part| closes(part, below))
}

fn stays(part: &Heading<'_>, defined: &IndexSet<&[u8]>, below: &Below<'_>) -> bool
    ensures { result ≡ stays_among (λ n. is_seen n defined.now.keys) (holds below.now) (heading_seen part.now).name }
{
    match part.name {
        Some(name) => !below.holds(name) || defined.contains(name),
        None => false,
    }
}

fn all_stay(read: &[Heading<'_>], defined: &IndexSet<&[u8]>, below: &Below<'_>) -> bool
    ensures { result ≡ list_all (λ h. stays_among (λ n. is_seen n defined.now.keys) (holds below.now) (heading_seen h).name) read.now }
{
    read.iter().all(|part| stays(part, defined, below))
}

fn holds_name(name: Option<&[u8]>, below: &Below<'_>) -> bool
    ensures { result ≡ true → HoldsName (holds below.now) (option_map (λ n. n.now) name.entry) }
{
    match name {
        Some(name) => below.holds(name),
        None => below.is_all(),
    }
}

fn holds_top(
    alloc: Global,
    read: &[Heading<'_>],
    tree: &Source<'_>,
    top: Option<&[u8]>,
    below: &Below<'_>,
) -> Result<bool, NoMemory>
    ensures { IfOk result (λ held. held ≡ true → HoldsTop (holds below.now) (option_map (λ n. n.now) top.entry) (map heading_seen read.now) (view_source tree.now)) }
{
    if let Some(name) = top {
        return Ok(below.holds(name));
    }
    let used = used_names(alloc, &tree.parts)?;
    let only = only_top(alloc, read, &used)?;
    Ok(holds_name(only, below))
}

/// Whether a set of names holds all that is below the top of a tree, and no part that was read and is held is missing in it.
pub fn is_whole(
    alloc: Global,
    read: &[Heading<'_>],
    tree: &Source<'_>,
    top: Option<&[u8]>,
    below: &Below<'_>,
) -> Result<bool, NoMemory>
    ensures { IfOk result (λ whole. whole ≡ true → IsWhole (option_map (λ n. n.now) top.entry) (map heading_seen read.now) (view_source tree.now) (holds below.now)) }
{
    if !holds_top(alloc, read, tree, top, below)? {
        return Ok(false);
    }
    if !all_close(&tree.parts, below) {
        return Ok(false);
    }
    let defined = defined_names(alloc, &tree.parts)?;
    Ok(all_stay(read, &defined, below))
}

// The names that the parts of a tree have and use.
ghost use Rattle.std.specs.Prelude.{◌≡◌, ℕ, List, ◌||◌, false, IfOk, OnOk, bytes_eq, flat_map, map};
ghost use Rattle.std.specs.List.{list_any};
ghost use Rattle.vl_tree.specs.Seen.{view_item, view_part};
ghost use Rattle.fit_parts.specs.Below.{is_seen};
ghost use Rattle.fit_parts.specs.Trees.{defines, name_of, used_by, used_by_item, uses};

use indexmap::IndexSet;
use sg_text::NoMemory;
use std::alloc::Global;
use vl_tree::{Item, Part};

pub fn name_of<'a>(part: &Part<'a>) -> &'a [u8]
    ensures { result.now ≡ name_of (view_part part.now) }
{
    match part {
        Part::Module(module) => module.name.text,
        Part::Primitive(primitive) => primitive.name.text,
    }
}

/// The names of parts.
pub fn defined_names<'a>(alloc: Global, parts: &[Part<'a>]) -> Result<IndexSet<&'a [u8]>, NoMemory>
    ensures { IfOk result (λ set. (n : List ℕ) → is_seen n set.keys ≡ defines (map view_part parts.now) n) }
{
    let mut names: IndexSet<&[u8]> = IndexSet::new(alloc);
    for part in parts {
        add_name(name_of(part), &mut names)?;
    }
    Ok(names)
}

/// The names that parts use.
pub fn used_names<'a>(alloc: Global, parts: &[Part<'a>]) -> Result<IndexSet<&'a [u8]>, NoMemory>
    ensures { IfOk result (λ set. (n : List ℕ) → is_seen n set.keys ≡ uses (map view_part parts.now) n) }
{
    let mut used: IndexSet<&[u8]> = IndexSet::new(alloc);
    for part in parts {
        if let Part::Module(module) = part {
            add_items(&module.items, &mut used)?;
        }
    }
    Ok(used)
}

/// Adds the names that items use.
pub fn add_items<'a>(items: &[Item<'a>], used: &mut IndexSet<&'a [u8]>) -> Result<(), NoMemory>
    ensures { OnOk result ((n : List ℕ) → is_seen n used.new.keys ≡ (is_seen n used.old.keys || list_any (bytes_eq n) (flat_map used_by_item (map view_item items.now)))) }
{
    for item in items {
        add_item(item, used)?;
    }
    Ok(())
}

fn add_item<'a>(item: &Item<'a>, used: &mut IndexSet<&'a [u8]>) -> Result<(), NoMemory>
    ensures { OnOk result ((n : List ℕ) → is_seen n used.new.keys ≡ (is_seen n used.old.keys || list_any (bytes_eq n) (used_by_item (view_item item.now)))) }
{
    match item {
        Item::Instances { module, .. } => add_name(module.text, used)?,
        Item::Ports { .. } => {}
        Item::Nets { .. } => {}
        Item::Supplies { .. } => {}
        Item::Registers { .. } => {}
        Item::Assigns { .. } => {}
        Item::Gates { .. } => {}
        Item::Specify(_) => {}
    }
    Ok(())
}

fn add_name<'a>(name: &'a [u8], used: &mut IndexSet<&'a [u8]>) -> Result<(), NoMemory>
    ensures { OnOk result ((n : List ℕ) → is_seen n used.new.keys ≡ (is_seen n used.old.keys || (bytes_eq n name.now || false))) }
{
    used.insert(name)?;
    Ok(())
}

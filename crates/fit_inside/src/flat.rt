// Whether no cell of a tree has an instance of a module.
ghost use Rattle.std.specs.Prelude.{◌≡◌, ◌||◌, ℕ, List, false, IfOk, OnOk, bytes_eq, map};
ghost use Rattle.std.specs.List.{list_all, list_any};
ghost use Rattle.vl_tree.specs.Seen.{view_item, view_module, view_part, view_source};
ghost use Rattle.fit_inside.specs.Seen.{is_kept};
ghost use Rattle.fit_inside.specs.Inside.{is_cell, is_flat, is_flat_part, is_leaf, is_module, is_specify};

use indexmap::IndexSet;
use sg_text::NoMemory;
use std::alloc::Global;
use vl_tree::{Item, Module, Part, Source};

fn add_name<'a>(name: &'a [u8], names: &mut IndexSet<&'a [u8]>) -> Result<(), NoMemory>
    ensures { OnOk result ((n : List ℕ) → is_kept n names.new.keys ≡ (is_kept n names.old.keys || (bytes_eq n name.now || false))) }
{
    names.insert(name)?;
    Ok(())
}

// The names of the modules among parts.
fn module_names<'a>(alloc: Global, parts: &[Part<'a>]) -> Result<IndexSet<&'a [u8]>, NoMemory>
    ensures { IfOk result (λ set. (n : List ℕ) → is_kept n set.keys ≡ is_module (map view_part parts.now) n) }
{
    let mut names: IndexSet<&[u8]> = IndexSet::new(alloc);
    for part in parts {
        if let Part::Module(module) = part {
            add_name(module.name.text, &mut names)?;
        }
    }
    Ok(names)
}

fn is_specify(item: &Item<'_>) -> bool
    ensures { result ≡ is_specify (view_item item.now) }
{
    matches!(item, Item::Specify(_))
}

fn is_leaf(item: &Item<'_>, modules: &IndexSet<&[u8]>) -> bool
    ensures { result ≡ is_leaf (λ n. is_kept n modules.now.keys) (view_item item.now) }
{
    match item {
        Item::Instances { module, .. } => !modules.contains(module.text),
        Item::Ports { .. }
        | Item::Nets { .. }
        | Item::Supplies { .. }
        | Item::Registers { .. }
        | Item::Assigns { .. }
        | Item::Gates { .. }
        | Item::Specify(_) => true,
    }
}

fn any_specify(items: &[Item<'_>]) -> bool
    ensures { result ≡ list_any (λ i. is_specify (view_item i)) items.now }
{
    items.iter().any(|item| is_specify(item))
}

fn all_leaves(items: &[Item<'_>], modules: &IndexSet<&[u8]>) -> bool
    ensures { result ≡ list_all (λ i. is_leaf (λ n. is_kept n modules.now.keys) (view_item i)) items.now }
{
    items.iter().all(|item| is_leaf(item, modules))
}

fn is_cell(module: &Module<'_>) -> bool
    ensures { result ≡ is_cell (view_module module.now) }
{
    module.mark.cell || any_specify(&module.items)
}

fn is_flat_part(part: &Part<'_>, modules: &IndexSet<&[u8]>) -> bool
    ensures { result ≡ is_flat_part (λ n. is_kept n modules.now.keys) (view_part part.now) }
{
    match part {
        Part::Module(module) => !is_cell(module) || all_leaves(&module.items, modules),
        Part::Primitive(_) => true,
    }
}

fn all_flat(parts: &[Part<'_>], modules: &IndexSet<&[u8]>) -> bool
    ensures { result ≡ list_all (λ p. is_flat_part (λ n. is_kept n modules.now.keys) (view_part p)) parts.now }
{
    parts.iter().all(|part| is_flat_part(part, modules))
}

/// Whether no cell of a tree has an instance of a module. Takes memory for the names of its modules.
pub fn is_flat(alloc: Global, tree: &Source<'_>) -> Result<bool, NoMemory>
    ensures { IfOk result (λ flat. flat ≡ is_flat (view_source tree.now)) }
{
    let modules = module_names(alloc, &tree.parts)?;
    Ok(all_flat(&tree.parts, &modules))
}

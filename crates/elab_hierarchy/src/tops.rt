// Which module is the top.
ghost use Rattle.std.specs.Prelude.{◌≡◌, ℕ, List, ◌||◌, Some, None, IfOk, OnOk, IfErr, Ok, bytes_eq, option_map, map, flat_map};
ghost use Rattle.std.specs.List.{list_any};
ghost use Rattle.vl_tree.specs.Tree.{Module};
ghost use Rattle.vl_tree.specs.Seen.{view_item, view_part};
ghost use Rattle.sg_text.specs.declared.refusals.Refused.TheVariants as refused;
ghost use Rattle.elab_model.specs.HierarchyFaults.{start};
ghost use Rattle.elab_model.specs.Members.{members_of_item};
ghost use Rattle.elab_model.specs.Tops.{top_of, is_instance_of};
ghost use Rattle.elab_declared.specs.Words.{is_seen};
ghost use Rattle.elab_hierarchy.specs.Tops.{IsOnly, RefusesChoice, RefusesTop, StandsAt, chosen, is_candidate_of, part_has};

use crate::Definitions;
use elab_model::ElabKind;
use indexmap::IndexSet;
use sg_text::{NoMemory, Place, Refused};
use std::alloc::Global;
use vl_tree::{Instance, Item, Part};

const START: Place = Place { file: 0, byte: 0 };

/// The place of the top among the definitions: the module of the name, or else the only module that is no cell and of which no module has an
/// instance (IEEE 1364-2005, 12.1.1). Refuses NoTop and SeveralTops, at the first byte of the first file. Takes memory in proportion to
/// the number of names that have instances.
pub fn top(
    alloc: Global,
    definitions: &Definitions,
    name: Option<&[u8]>,
) -> Result<usize, Refused<ElabKind>>
    ensures top { IfOk result (λ i. (m : Module) × (top_of definitions.now (option_map (λ n. n.now) name.entry) ≡ Ok m) × StandsAt definitions.now i m) }
    ensures refused { IfErr result (RefusesTop definitions.now (option_map (λ n. n.now) name.entry)) }
{
    match name {
        Some(name) => top_named(definitions, name),
        None => only_top(alloc, definitions),
    }
}

fn top_named(definitions: &Definitions, name: &[u8]) -> Result<usize, Refused<ElabKind>>
    ensures top { IfOk result (λ i. (m : Module) × (top_of definitions.now (Some name.now) ≡ Ok m) × StandsAt definitions.now i m) }
    ensures refused { IfErr result (RefusesTop definitions.now (Some name.now)) }
{
    match definitions.module(name) {
        Some(place) => Ok(place),
        None => Err(fault(ElabKind::NoTop)),
    }
}

fn only_top(alloc: Global, definitions: &Definitions) -> Result<usize, Refused<ElabKind>>
    ensures top { IfOk result (λ i. (m : Module) × (top_of definitions.now None ≡ Ok m) × StandsAt definitions.now i m) }
    ensures refused { IfErr result (RefusesTop definitions.now None) }
{
    let used = instantiated(alloc, definitions.parts())?;
    only_candidate(definitions.parts(), &used)
}

// The only one of the candidates, where these names have instances.
fn only_candidate(parts: &[Part], used: &IndexSet<&[u8]>) -> Result<usize, Refused<ElabKind>>
    ensures chosen { IfOk result (IsOnly (chosen (λ n. is_seen n used.now.keys) (map view_part parts.now)) (map view_part parts.now)) }
    ensures refused { IfErr result (RefusesChoice (chosen (λ n. is_seen n used.now.keys) (map view_part parts.now))) }
{
    let mut found = None;
    for (place, part) in parts.iter().enumerate() {
        if is_candidate(part, used) {
            if found.is_some() {
                return Err(fault(ElabKind::SeveralTops));
            }
            found = Some(place);
        }
    }
    match found {
        Some(place) => Ok(place),
        None => Err(fault(ElabKind::NoTop)),
    }
}

fn fault(kind: ElabKind) -> Refused<ElabKind>
    ensures { result ≡ refused.Fault kind start }
{
    Refused::Fault { kind, place: START }
}

// A module that is no cell and that no module has an instance of.
fn is_candidate(part: &Part, used: &IndexSet<&[u8]>) -> bool
    ensures { result ≡ is_candidate_of (λ n. is_seen n used.now.keys) (view_part part.now) }
{
    match part {
        Part::Module(module) => !module.mark.cell && !used.contains(module.name.text),
        Part::Primitive(_) => false,
    }
}

// The names that modules have instances of.
fn instantiated<'a>(alloc: Global, parts: &[Part<'a>]) -> Result<IndexSet<&'a [u8]>, NoMemory>
    ensures { IfOk result (λ set. (n : List ℕ) → is_seen n set.keys ≡ list_any (part_has n) (map view_part parts.now)) }
{
    let mut used: IndexSet<&[u8]> = IndexSet::new(alloc);
    for part in parts {
        if let Part::Module(module) = part {
            add_items(&module.items, &mut used)?;
        }
    }
    Ok(used)
}

fn add_items<'a>(items: &[Item<'a>], used: &mut IndexSet<&'a [u8]>) -> Result<(), NoMemory>
    ensures { OnOk result ((n : List ℕ) → is_seen n used.new.keys ≡ (is_seen n used.old.keys || list_any (is_instance_of n) (flat_map members_of_item (map view_item items.now)))) }
{
    for item in items {
        add_item(item, used)?;
    }
    Ok(())
}

fn add_item<'a>(item: &Item<'a>, used: &mut IndexSet<&'a [u8]>) -> Result<(), NoMemory>
    ensures { OnOk result ((n : List ℕ) → is_seen n used.new.keys ≡ (is_seen n used.old.keys || list_any (is_instance_of n) (members_of_item (view_item item.now)))) }
{
    match item {
        Item::Instances {
            module,
            instances,
            ..
        } => add_used(module.text, instances, used)?,
        Item::Ports { .. } => {}
        Item::Nets { .. } => {}
        Item::Supplies { .. } => {}
        Item::Registers { .. } => {}
        Item::Assigns { .. } => {}
        Item::Gates { .. } => {}
        Item::Specify(_) => {}
    }
    Ok(())
}

fn add_used<'a>(
    name: &'a [u8],
    instances: &[Instance<'a>],
    used: &mut IndexSet<&'a [u8]>,
) -> Result<(), NoMemory>
    ensures { OnOk result ((n : List ℕ) → is_seen n used.new.keys ≡ (is_seen n used.old.keys || list_any (λ i. bytes_eq n name.now) instances.now)) }
{
    if !instances.is_empty() {
        used.insert(name)?;
    }
    Ok(())
}

// All instances below the top.
ghost use Rattle.std.specs.Prelude.{◌≡◌, ◌<◌, ◌≤◌, ◌^◌, ◌∷◌, ◌++◌, List, [], IfOk, OnOk, IfErr, length};
ghost use Rattle.sg_text.specs.declared.refusals.Refused.TheVariants as refused;
ghost use Rattle.vl_tree.specs.Tree.{Module, Source};
ghost use Rattle.elab_model.specs.Faults.{RefusesOneOf};
ghost use Rattle.elab_model.specs.Hierarchy as def;
ghost use Rattle.elab_hierarchy.specs.Tops.{StandsAt};
ghost use Rattle.elab_hierarchy.specs.Children.{AreAllWithin, IsTree};
ghost use Rattle.elab_hierarchy.specs.Placing.{ArePlaced, tree_faults};
ghost use Rattle.elab_hierarchy.specs.Growing.{AreFaultless, Breaks, Grown, IsAt, Passes, RefusesChild, ended, top_with};
ghost use Rattle.elab_hierarchy.specs.declared.instances.Placed as placed;

use crate::Definitions;
use crate::children::{Child, all_children};
use elab_model::ElabKind;
use sg_text::Refused;
use std::alloc::Global;
use vl_tree::Instance;

// The hierarchy has 64 levels.
const LEVELS_BELOW_TOP: u32 = 63;

const MAX_INSTANCES: usize = 1 << 22;

/// An instance in the hierarchy. Its number is its place in the list of all.
#[derive(Clone, Copy, Debug)]
pub struct Placed<'t, 'a> {
    /// The place of its module among the definitions.
    pub definition: usize,
    /// The number of the instance that has it; the top has none.
    pub parent: Option<u32>,
    /// Which member of its parent's module it is.
    pub member: usize,
    /// Its text; the top has none.
    pub text: Option<&'t Instance<'a>>,
    /// The number that comes after those of all instances in it.
    pub end: u32,
}

/// The instances below a top, the top itself first, in depth-first text order (IEEE 1364-2005, 12.1.2). Refuses a module that reaches itself (SelfInstance, at the
/// instance that closes the round), the first instance below the 64th level (TooDeep) and the first past 2^22 (TooMany). Takes memory in
/// proportion to the definitions and the instances.
pub fn place_instances<'t, 'a>(
    alloc: Global,
    definitions: &Definitions<'t, 'a>,
    top: usize,
) -> Result<Vec<Placed<'t, 'a>>, Refused<ElabKind>>
    ensures instances { IfOk result (λ list. (m : Module) → StandsAt definitions.now top m → ArePlaced definitions.now list.items (def.instances definitions.now m)) }
    ensures few { IfOk result (λ list. length list.items ≤ 2 ^ 22) }
    ensures faultless { OnOk result ((m : Module) → StandsAt definitions.now top m → tree_faults definitions.now m ≡ []) }
    ensures refused { IfErr result (λ r. (m : Module) → StandsAt definitions.now top m → RefusesOneOf (tree_faults definitions.now m) r) }
{
    let children = all_children(alloc, definitions)?;
    let mut list = Vec::new(alloc);
    if top >= children.len() {
        return Ok(list);
    }
    place_top(alloc, &children, LEVELS_BELOW_TOP, top, &mut list)?;
    Ok(list)
}

fn place_top<'t, 'a>(
    alloc: Global,
    children: &[Vec<Child<'t, 'a>>],
    levels: u32,
    top: usize,
    list: &mut Vec<Placed<'t, 'a>>,
) -> Result<(), Refused<ElabKind>>
    requires within { AreAllWithin (length children.now) children.now }
    requires top { top < length children.now }
    requires empty { list.old.items ≡ [] }
    ensures instances { OnOk result ((source : Source) (m : Module) → IsTree source children.now → StandsAt source top m → ArePlaced source list.new.items (def.instances_from source levels (top_with levels m))) }
    ensures few { OnOk result (length list.new.items ≤ 2 ^ 22) }
    ensures faultless { OnOk result ((source : Source) (m : Module) → IsTree source children.now → StandsAt source top m → AreFaultless source (def.instances_from source levels (top_with levels m))) }
    ensures refused { IfErr result (λ r. (source : Source) (m : Module) → IsTree source children.now → StandsAt source top m → Breaks source 0 (def.instances_from source levels (top_with levels m)) r) }
{
    let mut chain = Vec::new(alloc);
    chain.push(top)?;
    list.push(Placed {
        definition: top,
        parent: None,
        member: 0,
        text: None,
        end: 0,
    })?;
    place_below(children, levels, top, 0, &mut chain, list)?;
    set_end(list, 0);
    Ok(())
}

// Places the instances below one, whose place in the list is the last but them. The chain holds its definition and those above it.
fn place_below<'t, 'a>(
    children: &[Vec<Child<'t, 'a>>],
    levels: u32,
    definition: usize,
    number: u32,
    chain: &mut Vec<usize>,
    list: &mut Vec<Placed<'t, 'a>>,
) -> Result<(), Refused<ElabKind>>
    requires within { AreAllWithin (length children.now) children.now }
    requires definition { definition < length children.now }
    requires few { length list.old.items ≤ 2 ^ 22 }
    ensures few { OnOk result (length list.new.items ≤ 2 ^ 22) }
    ensures more { OnOk result (length list.old.items ≤ length list.new.items) }
    ensures chain { OnOk result (chain.new.items ≡ chain.old.items) }
    ensures grown { OnOk result ((source : Source) (s : def.Instance) → IsAt source children.now levels definition number chain.old.items (length list.old.items) s → Grown source levels s list.old.items list.new.items) }
    ensures refused { IfErr result (λ r. (source : Source) (s : def.Instance) → IsAt source children.now levels definition number chain.old.items (length list.old.items) s → Breaks source number (def.instances_from source levels s) r) }
{
    for child in &children[definition] {
        check_child(child, levels, chain, list.len())?;
        let own = list.len() as u32;
        chain.push(child.definition)?;
        list.push(Placed {
            definition: child.definition,
            parent: Some(number),
            member: child.member,
            text: Some(child.text),
            end: 0,
        })?;
        place_below(children, levels - 1, child.definition, own, chain, list)?;
        chain.pop();
        set_end(list, own);
    }
    Ok(())
}

// An instance may be placed next, where so many are, in an instance with so many levels below it.
fn check_child(
    child: &Child,
    levels: u32,
    chain: &[usize],
    count: usize,
) -> Result<(), Refused<ElabKind>>
    ensures passes { OnOk result (Passes levels child.now.definition chain.now count) }
    ensures refused { IfErr result (RefusesChild levels child.now chain.now count) }
{
    if chain.contains(&child.definition) {
        return Err(fault_at(child, ElabKind::SelfInstance));
    }
    if levels == 0 {
        return Err(fault_at(child, ElabKind::TooDeep));
    }
    if count >= MAX_INSTANCES {
        return Err(fault_at(child, ElabKind::TooMany));
    }
    Ok(())
}

fn fault_at(child: &Child, kind: ElabKind) -> Refused<ElabKind>
    ensures { result ≡ refused.Fault kind child.now.text.now.place }
{
    Refused::Fault {
        kind,
        place: child.text.place,
    }
}

// The instance of a number ends where the list does.
fn set_end(list: &mut Vec<Placed>, number: u32)
    requires within { number < length list.old.items }
    requires few { length list.old.items ≤ 2 ^ 22 }
    ensures length { length list.new.items ≡ length list.old.items }
    ensures ended { (before after : List placed.Placed) (p : placed.Placed) → list.old.items ≡ before ++ p ∷ after → number ≡ length before → list.new.items ≡ before ++ ended p (length list.old.items) ∷ after }
{
    let end = list.len() as u32;
    list[number as usize].end = end;
}

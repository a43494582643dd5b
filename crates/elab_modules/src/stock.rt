// The modules of instances made ready, and the primitives that their members name.
ghost use Rattle.std.specs.Prelude.{◌≡◌, ℕ, ◌<◌, ◌++◌, ◌∷◌, List, [], IfOk, OnOk, IfErr, All, None, filter_map, length, map, replicate};
ghost use Rattle.vl_tree.specs.Tree.{Module, Primitive};
ghost use Rattle.elab_model.specs.Definitions.{primitive_of};
ghost use Rattle.elab_model.specs.HierarchyFaults.{two_definitions};
ghost use Rattle.elab_variables.specs.Seen.{view_member};
ghost use Rattle.elab_hierarchy.specs.Tops.{StandsAt};
ghost use Rattle.elab_modules.specs.Reaching.{AreFirst, IsStock, IsNameReady, Stocked, HasMet, KeepsModules, RefusesMembers, RefusesModule, RefusesMet, RefusesNamed};

use crate::{Ready, prepare};
use elab_hierarchy::{Definitions, Placed};
use elab_model::ElabKind;
use elab_primitives::check_primitive;
use elab_variables::Member;
use sg_circuit::UdpUse;
use sg_text::{NoMemory, Refused};
use std::alloc::Global;
use vl_tree::Part;

const MOST_UDPS: usize = (1 << 31) - 1;

// What stands ready when the modules of these instances do, and the primitives that their members name.
pub fn reached<'t, 'a>(
    alloc: Global,
    definitions: &Definitions<'t, 'a>,
    instances: &[Placed<'t, 'a>],
    udps: &mut Vec<UdpUse>,
) -> Result<Vec<Option<Ready<'t, 'a>>>, Refused<ElabKind>>
    requires within { All (λ p. p.definition < length definitions.now) instances.now }
    requires empty { udps.old.items ≡ [] }
    ensures met { IfOk result (λ parts. HasMet definitions.now parts.items udps.new.items (map (λ p. p.definition) instances.now)) }
    ensures once { OnOk result (two_definitions definitions.now ≡ []) }
    ensures refused { IfErr result (RefusesMet definitions.now (map (λ p. p.definition) instances.now)) }
{
    let mut parts = Vec::new(alloc);
    add_nothing(definitions, &mut parts)?;
    add_modules(alloc, definitions, instances, &mut parts, udps)?;
    Ok(parts)
}

// Adds a place for each definition, at which nothing is ready yet.
fn add_nothing<'t, 'a>(
    definitions: &Definitions<'t, 'a>,
    parts: &mut Vec<Option<Ready<'t, 'a>>>,
) -> Result<(), NoMemory>
    requires { parts.old.items ≡ [] }
    ensures nothing { OnOk result (parts.new.items ≡ replicate (length definitions.now) None) }
    ensures once { OnOk result (two_definitions definitions.now ≡ []) }
{
    for _ in 0..definitions.len() {
        parts.push(None)?;
    }
    Ok(())
}

fn add_modules<'t, 'a>(
    alloc: Global,
    definitions: &Definitions<'t, 'a>,
    instances: &[Placed<'t, 'a>],
    parts: &mut [Option<Ready<'t, 'a>>],
    udps: &mut Vec<UdpUse>,
) -> Result<(), Refused<ElabKind>>
    requires within { All (λ p. p.definition < length definitions.now) instances.now }
    requires empty { HasMet definitions.now parts.old udps.old.items [] }
    ensures met { OnOk result (HasMet definitions.now parts.new udps.new.items (map (λ p. p.definition) instances.now)) }
    ensures refused { IfErr result (RefusesMet definitions.now (map (λ p. p.definition) instances.now)) }
{
    for instance in instances {
        add_module(alloc, definitions, instance.definition, parts, udps)?;
    }
    Ok(())
}

fn add_module<'t, 'a>(
    alloc: Global,
    definitions: &Definitions<'t, 'a>,
    place: usize,
    parts: &mut [Option<Ready<'t, 'a>>],
    udps: &mut Vec<UdpUse>,
) -> Result<(), Refused<ElabKind>>
    requires within { place < length definitions.now }
    requires stock { IsStock definitions.now parts.old udps.old.items }
    ensures met { OnOk result ((places : List ℕ) → HasMet definitions.now parts.old udps.old.items places → HasMet definitions.now parts.new udps.new.items (places ++ place ∷ [])) }
    ensures refused { IfErr result (λ r. (m : Module) → StandsAt definitions.now place m → RefusesModule definitions.now m r) }
{
    if parts[place].is_some() {
        return Ok(());
    }
    let module = match definitions.part(place) {
        Part::Module(module) => module,
        Part::Primitive(_) => return Ok(()),
    };
    let prepared = prepare(alloc, module)?;
    add_primitives(alloc, definitions, &prepared.members, parts, udps)?;
    parts[place] = Some(Ready::Module(prepared));
    Ok(())
}

fn add_primitives(
    alloc: Global,
    definitions: &Definitions,
    members: &[Member],
    parts: &mut [Option<Ready>],
    udps: &mut Vec<UdpUse>,
) -> Result<(), Refused<ElabKind>>
    requires stock { IsStock definitions.now parts.old udps.old.items }
    ensures stocked { OnOk result (Stocked definitions.now parts.old parts.new udps.old.items udps.new.items (map view_member members.now)) }
    ensures refused { IfErr result (RefusesMembers definitions.now (map view_member members.now)) }
{
    for member in members {
        let Member::Instance { definition, .. } = member else {
            continue;
        };
        add_primitive(alloc, definitions, definition.text, parts, udps)?;
    }
    Ok(())
}

// Makes ready the primitive of a name, if it is one.
fn add_primitive(
    alloc: Global,
    definitions: &Definitions,
    name: &[u8],
    parts: &mut [Option<Ready>],
    udps: &mut Vec<UdpUse>,
) -> Result<(), Refused<ElabKind>>
    requires stock { IsStock definitions.now parts.old udps.old.items }
    ensures stock { OnOk result (IsStock definitions.now parts.new udps.new.items) }
    ensures keeps { OnOk result (KeepsModules parts.old parts.new) }
    ensures named { OnOk result (IsNameReady definitions.now parts.new name.now) }
    ensures first { OnOk result ((met : List Primitive) → AreFirst definitions.now parts.old udps.old.items met
        → AreFirst definitions.now parts.new udps.new.items (met ++ filter_map (primitive_of definitions.now) (name.now ∷ []))) }
    ensures refused { IfErr result (RefusesNamed definitions.now name.now) }
{
    let Some(place) = definitions.find(name) else {
        return Ok(());
    };
    let Part::Primitive(primitive) = definitions.part(place) else {
        return Ok(());
    };
    if parts[place].is_some() {
        return Ok(());
    }
    let udp = check_primitive(alloc, primitive)?;
    if udps.len() >= MOST_UDPS {
        return Err(Refused::NoMemory);
    }
    let number = udps.len() as u32;
    udps.push(udp)?;
    parts[place] = Some(Ready::Primitive(number));
    Ok(())
}

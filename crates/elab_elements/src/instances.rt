// The elements of an instance.
ghost use Rattle.std.specs.Prelude.{◌≤◌, ◌+◌, ◌^◌, OnOk, IfErr, flat_map, length};
ghost use Rattle.std.specs.List.{enumerate_from};
ghost use Rattle.sg_delay.specs.declared.corners.Corner as ghost_corner;
ghost use Rattle.vl_tree.specs.Tree.{Module};
ghost use Rattle.elab_model.specs.Delays.{tick_of};
ghost use Rattle.elab_model.specs.Elements as def_elements;
ghost use Rattle.elab_model.specs.Hierarchy as def;
ghost use Rattle.elab_model.specs.Members as def_members;
ghost use Rattle.elab_model.specs.Nets.{nets};
ghost use Rattle.elab_numbering.specs.Refusals.{RefusesCount};
ghost use Rattle.elab_elements.specs.Adding.{Adds};
ghost use Rattle.elab_elements.specs.Standing.{AreMembers, IsAt};

use crate::Placing;
use crate::driven::drive;
use crate::own_legs::add_own_legs;
use crate::reading::{delays_at, end_row, first_net, inner_row, placed_at};
use crate::terminals::Terminals;
use crate::turns::add_member;
use elab_hierarchy::{Definitions, Placed};
use elab_model::ElabKind;
use elab_nets::{Library, Prepared, Rows, module_at};
use sg_circuit::NetId;
use sg_text::Refused;
use std::alloc::Global;

// The elements of the members of an instance, of the module at a place of the definitions. `start` is the number of the first instance in it.
fn add_members(
    alloc: Global,
    definitions: &Definitions,
    library: &Library,
    instances: &[Placed],
    rows: &Rows,
    number: u32,
    definition: usize,
    prepared: &Prepared,
    row: &[NetId],
    driven: &[NetId],
    start: u32,
    room: &mut Terminals,
    made: &mut Placing,
) -> Result<(), Refused<ElabKind>>
    requires at { (top : Module) × ((corner : ghost_corner.Corner) × ((s : def.Instance)
        × AreMembers definitions.now top corner instances.now library.now rows.now number definition prepared.now row.now driven.now start s)) }
    requires few { length made.old.elements.items ≤ 2 ^ 22 }
    ensures few { length made.new.elements.items ≤ 2 ^ 22 }
    ensures elements { OnOk result ((top : Module) (corner : ghost_corner.Corner) (s : def.Instance) → AreMembers definitions.now top corner instances.now library.now rows.now number definition prepared.now row.now driven.now start s
        → Adds library.now.gate_delays.items library.now.udps.items (nets definitions.now top) made.old made.new
        (flat_map (def_elements.member_elements definitions.now corner (tick_of definitions.now top) s) (enumerate_from 0 (def_members.members s.step.definition)))) }
    ensures refused { IfErr result (λ r. (top : Module) (corner : ghost_corner.Corner) (s : def.Instance) → AreMembers definitions.now top corner instances.now library.now rows.now number definition prepared.now row.now driven.now start s
        → RefusesCount (length made.old.elements.items
        + length (flat_map (def_elements.member_elements definitions.now corner (tick_of definitions.now top) s) (enumerate_from 0 (def_members.members s.step.definition)))) r) }
{
    let mut next = start;
    for (at, member) in prepared.members.iter().enumerate() {
        let delays = delays_at(library, definition, at);
        let first = first_net(rows, number as usize, at);
        next = add_member(
            alloc,
            definitions,
            library,
            instances,
            rows,
            prepared,
            number,
            row,
            driven,
            delays,
            first,
            at,
            *member,
            next,
            room,
            made,
        )?;
    }
    Ok(())
}

// The same of an instance, with what is driven inside: its own row, unless paths lead to some of its bits.
fn add_inside(
    alloc: Global,
    definitions: &Definitions,
    library: &Library,
    instances: &[Placed],
    rows: &Rows,
    number: u32,
    driven: &mut Vec<NetId>,
    room: &mut Terminals,
    made: &mut Placing,
) -> Result<(), Refused<ElabKind>>
    requires at { (top : Module) × ((corner : ghost_corner.Corner) × ((s : def.Instance) × IsAt definitions.now top corner instances.now library.now rows.now number s)) }
    requires few { length made.old.elements.items ≤ 2 ^ 22 }
    ensures few { length made.new.elements.items ≤ 2 ^ 22 }
    ensures elements { OnOk result ((top : Module) (corner : ghost_corner.Corner) (s : def.Instance) → IsAt definitions.now top corner instances.now library.now rows.now number s
        → Adds library.now.gate_delays.items library.now.udps.items (nets definitions.now top) made.old made.new
        (flat_map (def_elements.member_elements definitions.now corner (tick_of definitions.now top) s) (enumerate_from 0 (def_members.members s.step.definition)))) }
    ensures refused { IfErr result (λ r. (top : Module) (corner : ghost_corner.Corner) (s : def.Instance) → IsAt definitions.now top corner instances.now library.now rows.now number s
        → RefusesCount (length made.old.elements.items
        + length (flat_map (def_elements.member_elements definitions.now corner (tick_of definitions.now top) s) (enumerate_from 0 (def_members.members s.step.definition)))) r) }
{
    let definition = placed_at(instances, number).definition;
    let prepared = module_at(library, definition);
    let row = inner_row(rows, number as usize, prepared.table.bits());
    let bits = &prepared.ends.bits;
    if bits.is_empty() {
        return add_members(
            alloc,
            definitions,
            library,
            instances,
            rows,
            number,
            definition,
            prepared,
            row,
            row,
            number + 1,
            room,
            made,
        );
    }
    let ends = end_row(rows, number as usize, bits.len());
    drive(alloc, row, bits, ends, driven)?;
    add_members(
        alloc,
        definitions,
        library,
        instances,
        rows,
        number,
        definition,
        prepared,
        row,
        driven,
        number + 1,
        room,
        made,
    )
}

/// Adds the elements of the instance of a number: its Legs, where it is a leaf, then those of its members.
pub fn add_instance(
    alloc: Global,
    definitions: &Definitions,
    library: &Library,
    instances: &[Placed],
    rows: &Rows,
    number: u32,
    driven: &mut Vec<NetId>,
    room: &mut Terminals,
    made: &mut Placing,
) -> Result<(), Refused<ElabKind>>
    requires at { (top : Module) × ((corner : ghost_corner.Corner) × ((s : def.Instance) × IsAt definitions.now top corner instances.now library.now rows.now number s)) }
    requires few { length made.old.elements.items ≤ 2 ^ 22 }
    ensures few { length made.new.elements.items ≤ 2 ^ 22 }
    ensures elements { OnOk result ((top : Module) (corner : ghost_corner.Corner) (s : def.Instance) → IsAt definitions.now top corner instances.now library.now rows.now number s
        → Adds library.now.gate_delays.items library.now.udps.items (nets definitions.now top) made.old made.new (def_elements.elements_of definitions.now corner (tick_of definitions.now top) s)) }
    ensures refused { IfErr result (λ r. (top : Module) (corner : ghost_corner.Corner) (s : def.Instance) → IsAt definitions.now top corner instances.now library.now rows.now number s
        → RefusesCount (length made.old.elements.items + length (def_elements.elements_of definitions.now corner (tick_of definitions.now top) s)) r) }
{
    add_own_legs(library, instances, rows, number, made)?;
    add_inside(
        alloc,
        definitions,
        library,
        instances,
        rows,
        number,
        driven,
        room,
        made,
    )
}

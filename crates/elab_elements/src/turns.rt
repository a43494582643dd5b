// The elements of a member, and the instances that are members.
ghost use Rattle.std.specs.Prelude.{◌≤◌, ◌+◌, ◌^◌, ℕ, Option, OnOk, IfOk, IfErr, length};
ghost use Rattle.sg_delay.specs.declared.corners.Corner as ghost_corner;
ghost use Rattle.vl_tree.specs.Seen.{view_instance, view_name};
ghost use Rattle.vl_tree.specs.Tree.{Delay as SeenDelay, Module};
ghost use Rattle.elab_model.specs.Delays.{tick_of};
ghost use Rattle.elab_model.specs.Elements as def_elements;
ghost use Rattle.elab_model.specs.Hierarchy as def;
ghost use Rattle.elab_model.specs.Members as def_members;
ghost use Rattle.elab_model.specs.Nets.{nets};
ghost use Rattle.elab_nets.specs.ReadyOfModules.{IsPrepared};
ghost use Rattle.elab_numbering.specs.Refusals.{RefusesCount};
ghost use Rattle.elab_variables.specs.Seen.{view_member};
ghost use Rattle.elab_elements.specs.Adding.{Adds};
ghost use Rattle.elab_elements.specs.Next.{IsNext};
ghost use Rattle.elab_elements.specs.Standing.{IsMember};

use crate::Placing;
use crate::children::add_child;
use crate::lates::add_own_lates;
use crate::members::{add_assignment, add_declared, add_gate, add_supply_net};
use crate::paths::add_own_paths;
use crate::primitives::add_primitive;
use crate::reading::primitive_at;
use crate::terminals::Terminals;
use elab_hierarchy::{Definitions, Placed};
use elab_model::ElabKind;
use elab_nets::{Library, Prepared, Rows};
use elab_variables::{Member, Table};
use sg_circuit::NetId;
use sg_text::Refused;
use std::alloc::Global;
use vl_tree::{Instance, Name};

// The elements of an instance of the definition of a name; answers the number of the next instance.
fn add_named(
    alloc: Global,
    definitions: &Definitions,
    library: &Library,
    instances: &[Placed],
    rows: &Rows,
    table: &Table,
    number: u32,
    row: &[NetId],
    driven: &[NetId],
    delays: u32,
    first: NetId,
    name: Name,
    text: &Instance,
    next: u32,
    room: &mut Terminals,
    made: &mut Placing,
) -> Result<u32, Refused<ElabKind>>
    requires at { (top : Module) × ((corner : ghost_corner.Corner) × ((k : ℕ) × ((d : Option SeenDelay) × ((s : def.Instance)
        × IsMember definitions.now top corner instances.now library.now rows.now number table.now row.now driven.now delays first next k (def_members.instance (view_name name) d (view_instance text.now)) s)))) }
    requires first { first ≤ 2 ^ 22 }
    requires few { length made.old.elements.items ≤ 2 ^ 22 }
    ensures few { length made.new.elements.items ≤ 2 ^ 22 }
    ensures next { IfOk result (λ n. (top : Module) (corner : ghost_corner.Corner) (k : ℕ) (d : Option SeenDelay) (s : def.Instance)
        → IsMember definitions.now top corner instances.now library.now rows.now number table.now row.now driven.now delays first next k (def_members.instance (view_name name.entry) d (view_instance text.now)) s
        → IsNext definitions.now s (k + 1) n) }
    ensures elements { OnOk result ((top : Module) (corner : ghost_corner.Corner) (k : ℕ) (d : Option SeenDelay) (s : def.Instance)
        → IsMember definitions.now top corner instances.now library.now rows.now number table.now row.now driven.now delays first next k (def_members.instance (view_name name.entry) d (view_instance text.now)) s
        → Adds library.now.gate_delays.items library.now.udps.items (nets definitions.now top) made.old made.new
        (def_elements.member_elements definitions.now corner (tick_of definitions.now top) s (k, def_members.instance (view_name name.entry) d (view_instance text.now)))) }
    ensures refused { IfErr result (λ r. (top : Module) (corner : ghost_corner.Corner) (k : ℕ) (d : Option SeenDelay) (s : def.Instance)
        → IsMember definitions.now top corner instances.now library.now rows.now number table.now row.now driven.now delays first next k (def_members.instance (view_name name.entry) d (view_instance text.now)) s
        → RefusesCount (length made.old.elements.items
        + length (def_elements.member_elements definitions.now corner (tick_of definitions.now top) s (k, def_members.instance (view_name name.entry) d (view_instance text.now)))) r) }
{
    let Some(place) = definitions.find(name.text) else {
        return Ok(next);
    };
    let Some(udp) = primitive_at(library, place) else {
        return add_child(
            alloc, library, instances, rows, number, table, text, next, made,
        );
    };
    add_primitive(
        table,
        number,
        text.place,
        udp,
        delays,
        &text.connections,
        first,
        row,
        driven,
        room,
        made,
    )?;
    Ok(next)
}

/// Adds the elements of the member that stands at a place of the module; answers the number of the next instance. `delays` is the place of its delays; the nets of its constants have
/// the numbers from `first` on.
pub fn add_member(
    alloc: Global,
    definitions: &Definitions,
    library: &Library,
    instances: &[Placed],
    rows: &Rows,
    prepared: &Prepared,
    number: u32,
    row: &[NetId],
    driven: &[NetId],
    delays: u32,
    first: NetId,
    at: usize,
    member: Member,
    next: u32,
    room: &mut Terminals,
    made: &mut Placing,
) -> Result<u32, Refused<ElabKind>>
    requires at { (top : Module) × ((corner : ghost_corner.Corner) × ((s : def.Instance)
        × (IsPrepared prepared.now s.step.definition × IsMember definitions.now top corner instances.now library.now rows.now number prepared.now.table row.now driven.now delays first next at (view_member member) s))) }
    requires first { first ≤ 2 ^ 22 }
    requires few { length made.old.elements.items ≤ 2 ^ 22 }
    ensures few { length made.new.elements.items ≤ 2 ^ 22 }
    ensures next { IfOk result (λ n. (top : Module) (corner : ghost_corner.Corner) (s : def.Instance) → IsPrepared prepared.now s.step.definition
        → IsMember definitions.now top corner instances.now library.now rows.now number prepared.now.table row.now driven.now delays first next at (view_member member.entry) s → IsNext definitions.now s (at + 1) n) }
    ensures elements { OnOk result ((top : Module) (corner : ghost_corner.Corner) (s : def.Instance) → IsPrepared prepared.now s.step.definition
        → IsMember definitions.now top corner instances.now library.now rows.now number prepared.now.table row.now driven.now delays first next at (view_member member.entry) s
        → Adds library.now.gate_delays.items library.now.udps.items (nets definitions.now top) made.old made.new
        (def_elements.member_elements definitions.now corner (tick_of definitions.now top) s (at, view_member member.entry))) }
    ensures refused { IfErr result (λ r. (top : Module) (corner : ghost_corner.Corner) (s : def.Instance) → IsPrepared prepared.now s.step.definition
        → IsMember definitions.now top corner instances.now library.now rows.now number prepared.now.table row.now driven.now delays first next at (view_member member.entry) s
        → RefusesCount (length made.old.elements.items + length (def_elements.member_elements definitions.now corner (tick_of definitions.now top) s (at, view_member member.entry))) r) }
{
    let table = &prepared.table;
    match member {
        Member::Declared { name, value } => {
            add_declared(table, number, name, value, row, driven, room, made)?;
            Ok(next)
        }
        Member::Assignment(join) => {
            add_assignment(
                table,
                number,
                join.place,
                &join.left,
                &join.right,
                row,
                driven,
                room,
                made,
            )?;
            Ok(next)
        }
        Member::Supply { name, value } => {
            add_supply_net(table, number, name, value, row, driven, room, made)?;
            Ok(next)
        }
        Member::Gate { kind, instance, .. } => {
            add_gate(
                table,
                number,
                instance.place,
                kind,
                delays,
                &instance.terminals,
                first,
                row,
                driven,
                room,
                made,
            )?;
            Ok(next)
        }
        Member::Instance {
            definition,
            instance,
            ..
        } => add_named(
            alloc,
            definitions,
            library,
            instances,
            rows,
            table,
            number,
            row,
            driven,
            delays,
            first,
            definition,
            instance,
            next,
            room,
            made,
        ),
        Member::Path(path) => {
            add_own_paths(rows, prepared, number, at, path.place, row, made)?;
            Ok(next)
        }
        Member::Check(_) => {
            add_own_lates(prepared, number, at, first, row, driven, made)?;
            Ok(next)
        }
    }
}

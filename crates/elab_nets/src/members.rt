// The nets of members that no variable names, and what lies outside of the children.
ghost use Rattle.std.specs.Prelude.{◌≡◌, ◌≤◌, ◌<◌, ◌+◌, ◌^◌, ◌++◌, ℕ, Option, Some, IfOk, OnOk, IfErr, length, map, option_map, slice_get};
ghost use Rattle.sg_delay.specs.declared.corners.Corner as ghost_corner;
ghost use Rattle.vl_tree.specs.Tree.{Delay as SeenDelay, Module as SeenModule, Named, Source, a_module};
ghost use Rattle.vl_tree.specs.Seen.{view_gate_instance, view_instance, view_name};
ghost use Rattle.elab_hierarchy.specs.Tops.{StandsAt};
ghost use Rattle.elab_model.specs.Definitions.{definition_of};
ghost use Rattle.elab_model.specs.Hierarchy as def;
ghost use Rattle.elab_model.specs.Members as def_members;
ghost use Rattle.elab_model.specs.Names.{variables};
ghost use Rattle.elab_model.specs.Nets.{nets, member_nets};
ghost use Rattle.elab_modules.specs.Ready.{HasReady, IsPrepared};
ghost use Rattle.elab_numbering.specs.Refusals.{RefusesCount};
ghost use Rattle.elab_variables.specs.Seen.{view_member};
ghost use Rattle.elab_nets.specs.Parts.{is_module};
ghost use Rattle.elab_nets.specs.Terminals.{primitive_nets};
ghost use Rattle.elab_nets.specs.Turns.{HasTurn, IsNext, IsSeenTo};
ghost use Rattle.elab_model.specs.Numbered.{undriven};

use crate::Rows;
use crate::copies::add_lates;
use crate::ends::add_ends;
use crate::member_bits::{TerminalBits, connection_bits, terminal_bits};
use crate::outside::add_outside;
use crate::parts::row_of;
use crate::terminals::add_terminals;
use elab_hierarchy::{Definitions, Placed};
use elab_model::ElabKind;
use elab_modules::{Library, Prepared, find_module, output_count};
use elab_variables::{Member, Table};
use sg_circuit::Net;
use sg_logic::GateKind;
use sg_text::Refused;
use std::alloc::Global;
use vl_tree::{GateInstance, Instance, Name, Part};

// Adds the nets of constants at the inputs of a gate.
fn add_gate(
    alloc: Global,
    table: &Table,
    scope: u32,
    kind: GateKind,
    instance: &GateInstance,
    bits: &mut TerminalBits,
    nets: &mut Vec<Net>,
) -> Result<(), Refused<ElabKind>>
    requires few { length nets.old.items ≤ 2 ^ 22 }
    ensures few { length nets.new.items ≤ 2 ^ 22 }
    ensures nets { OnOk result ((source : Source) (s : def.Instance) (k : ℕ) (d : Option SeenDelay) → table.now ≡ variables s.step.definition → s.step.number ≡ scope
        → nets.new.items ≡ nets.old.items ++ map undriven (member_nets source s (k, def_members.gate kind d (view_gate_instance instance.now)))) }
    ensures refused { IfErr result (λ r. (source : Source) (s : def.Instance) (k : ℕ) (d : Option SeenDelay) → table.now ≡ variables s.step.definition → s.step.number ≡ scope
        → RefusesCount (length nets.old.items + length (member_nets source s (k, def_members.gate kind d (view_gate_instance instance.now)))) r) }
{
    let outputs = output_count(kind, instance.terminals.len());
    terminal_bits(table, outputs, &instance.terminals, bits)?;
    add_terminals(alloc, table, scope, &bits.outputs, &bits.inputs, nets)
}

// The same of a primitive.
fn add_primitive(
    alloc: Global,
    table: &Table,
    scope: u32,
    instance: &Instance,
    bits: &mut TerminalBits,
    nets: &mut Vec<Net>,
) -> Result<(), Refused<ElabKind>>
    requires few { length nets.old.items ≤ 2 ^ 22 }
    ensures few { length nets.new.items ≤ 2 ^ 22 }
    ensures nets { OnOk result ((s : def.Instance) (k : ℕ) → table.now ≡ variables s.step.definition → s.step.number ≡ scope
        → nets.new.items ≡ nets.old.items ++ map undriven (primitive_nets s k (view_instance instance.now))) }
    ensures refused { IfErr result (λ r. (s : def.Instance) (k : ℕ) → table.now ≡ variables s.step.definition → s.step.number ≡ scope
        → RefusesCount (length nets.old.items + length (primitive_nets s k (view_instance instance.now))) r) }
{
    connection_bits(table, 1, &instance.connections, bits)?;
    add_terminals(alloc, table, scope, &bits.outputs, &bits.inputs, nets)
}

// Adds what lies outside of an instance of the module at a place of the definitions, the next child. Answers the number of the child behind it.
// Each lookup finds something where the lists stand for a hierarchy.
fn add_child(
    alloc: Global,
    library: &Library,
    instances: &[Placed],
    table: &Table,
    number: u32,
    place: usize,
    text: &Instance,
    next: u32,
    rows: &mut Rows,
) -> Result<u32, Refused<ElabKind>>
    requires instances { length instances.now ≤ 2 ^ 22 }
    requires few { length rows.old.nets.items ≤ 2 ^ 22 }
    ensures few { length rows.new.nets.items ≤ 2 ^ 22 }
    ensures seen { IfOk result (λ after. (source : Source) (top m : SeenModule) (corner : ghost_corner.Corner) (turn : HasTurn source top corner library.now instances.now rows.old table.now number) (k : ℕ) (n : Named) (d : Option SeenDelay)
        → (at : IsNext source turn.before turn.s (k, def_members.instance n d (view_instance text.now)) next (length rows.old.nets.items)) → definition_of source n.text ≡ Some (a_module m) → StandsAt source place m → HasReady library.now.parts.items place
        → IsSeenTo source top turn.s (k, def_members.instance n d (view_instance text.now)) at.levels next after at.behind rows.old rows.new) }
    ensures refused { IfErr result (λ r. (source : Source) (top m : SeenModule) (corner : ghost_corner.Corner) (turn : HasTurn source top corner library.now instances.now rows.old table.now number) (k : ℕ) (n : Named) (d : Option SeenDelay)
        → IsNext source turn.before turn.s (k, def_members.instance n d (view_instance text.now)) next (length rows.old.nets.items) → definition_of source n.text ≡ Some (a_module m) → StandsAt source place m → HasReady library.now.parts.items place
        → RefusesCount (length (nets source top)) r) }
{
    let Some(child) = find_module(library, place) else {
        return Ok(next);
    };
    let index = next as usize;
    let Some(placed) = instances.get(index) else {
        return Ok(next);
    };
    let Some(row) = row_of(&rows.starts, &rows.inner, number as usize, table.bits()) else {
        return Ok(next);
    };
    if index >= rows.outer_starts.len() {
        return Ok(next);
    }
    rows.outer_starts[index] = rows.outer.len();
    let leaf = placed.end == next + 1;
    add_outside(
        alloc,
        table,
        row,
        number,
        child,
        text,
        leaf,
        &mut rows.outer,
        &mut rows.nets,
    )?;
    Ok(placed.end)
}

// The nets of an instance of the definition of a name, and what lies outside of it.
fn add_named(
    alloc: Global,
    definitions: &Definitions,
    library: &Library,
    instances: &[Placed],
    table: &Table,
    number: u32,
    name: Name,
    text: &Instance,
    next: u32,
    bits: &mut TerminalBits,
    rows: &mut Rows,
) -> Result<u32, Refused<ElabKind>>
    requires instances { length instances.now ≤ 2 ^ 22 }
    requires few { length rows.old.nets.items ≤ 2 ^ 22 }
    ensures few { length rows.new.nets.items ≤ 2 ^ 22 }
    ensures seen { IfOk result (λ after. (top : SeenModule) (corner : ghost_corner.Corner) (turn : HasTurn definitions.now top corner library.now instances.now rows.old table.now number) (k : ℕ) (d : Option SeenDelay)
        → (at : IsNext definitions.now turn.before turn.s (k, def_members.instance (view_name name.entry) d (view_instance text.now)) next (length rows.old.nets.items))
        → IsSeenTo definitions.now top turn.s (k, def_members.instance (view_name name.entry) d (view_instance text.now)) at.levels next after at.behind rows.old rows.new) }
    ensures refused { IfErr result (λ r. (top : SeenModule) (corner : ghost_corner.Corner) (turn : HasTurn definitions.now top corner library.now instances.now rows.old table.now number) (k : ℕ) (d : Option SeenDelay)
        → IsNext definitions.now turn.before turn.s (k, def_members.instance (view_name name.entry) d (view_instance text.now)) next (length rows.old.nets.items)
        → RefusesCount (length (nets definitions.now top)) r) }
{
    let Some(place) = definitions.find(name.text) else {
        return Ok(next);
    };
    if is_module(definitions, place) {
        return add_child(
            alloc, library, instances, table, number, place, text, next, rows,
        );
    }
    add_primitive(alloc, table, number, text, bits, &mut rows.nets)?;
    Ok(next)
}

fn is_module(definitions: &Definitions, place: usize) -> bool
    requires { place < length definitions.now }
    ensures { option_map is_module (slice_get definitions.now place) ≡ Some result }
{
    match definitions.part(place) {
        Part::Module(_) => true,
        Part::Primitive(_) => false,
    }
}

/// The nets of the member of a number, and what lies outside of the child that it is. Answers the number of the next child.
pub fn add_member(
    alloc: Global,
    definitions: &Definitions,
    library: &Library,
    instances: &[Placed],
    prepared: &Prepared,
    number: u32,
    index: usize,
    member: Member,
    next: u32,
    bits: &mut TerminalBits,
    rows: &mut Rows,
) -> Result<u32, Refused<ElabKind>>
    requires instances { length instances.now ≤ 2 ^ 22 }
    requires few { length rows.old.nets.items ≤ 2 ^ 22 }
    ensures few { length rows.new.nets.items ≤ 2 ^ 22 }
    ensures seen { IfOk result (λ after. (top : SeenModule) (corner : ghost_corner.Corner) (turn : HasTurn definitions.now top corner library.now instances.now rows.old prepared.now.table number)
        → IsPrepared prepared.now turn.s.step.definition → (at : IsNext definitions.now turn.before turn.s (index, view_member member.entry) next (length rows.old.nets.items))
        → IsSeenTo definitions.now top turn.s (index, view_member member.entry) at.levels next after at.behind rows.old rows.new) }
    ensures refused { IfErr result (λ r. (top : SeenModule) (corner : ghost_corner.Corner) (turn : HasTurn definitions.now top corner library.now instances.now rows.old prepared.now.table number)
        → IsPrepared prepared.now turn.s.step.definition → IsNext definitions.now turn.before turn.s (index, view_member member.entry) next (length rows.old.nets.items)
        → RefusesCount (length (nets definitions.now top)) r) }
{
    let table = &prepared.table;
    match member {
        Member::Declared { .. } | Member::Assignment(_) | Member::Supply { .. } => Ok(next),
        Member::Gate { kind, instance, .. } => {
            add_gate(alloc, table, number, kind, instance, bits, &mut rows.nets)?;
            Ok(next)
        }
        Member::Instance {
            definition,
            instance,
            ..
        } => add_named(
            alloc,
            definitions,
            library,
            instances,
            table,
            number,
            definition,
            instance,
            next,
            bits,
            rows,
        ),
        Member::Path(_) => {
            add_ends(
                alloc,
                prepared,
                number,
                index,
                &mut rows.ends,
                &mut rows.nets,
            )?;
            Ok(next)
        }
        Member::Check(_) => {
            add_lates(alloc, prepared, number, index, &mut rows.nets)?;
            Ok(next)
        }
    }
}

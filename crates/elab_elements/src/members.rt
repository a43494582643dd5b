// The elements of one member.
ghost use Rattle.std.specs.Prelude.{◌≡◌, ◌≤◌, ◌<◌, ◌+◌, ◌^◌, ℕ, List, OnOk, IfErr, length, map, flat_map};
ghost use Rattle.sg_circuit.specs.Circuit.{Gate};
ghost use Rattle.sg_circuit.specs.Seen.{delays_at};
ghost use Rattle.sg_circuit.specs.declared.elements.UdpUse as ghost_udps;
ghost use Rattle.sg_delay.specs.declared.gates.GateDelays as ghost_delays;
ghost use Rattle.vl_tree.specs.Seen.{view_expression, view_name};
ghost use Rattle.vl_tree.specs.Tree.{Source as GhostSource};
ghost use Rattle.elab_laws.specs.Handing.{all_bits};
ghost use Rattle.elab_model.specs.Bits as def_bits;
ghost use Rattle.elab_model.specs.Elements as def_elements;
ghost use Rattle.elab_model.specs.Hierarchy as def;
ghost use Rattle.elab_model.specs.Leaves.{whole};
ghost use Rattle.elab_model.specs.Nets.{OwnNet};
ghost use Rattle.elab_numbering.specs.Refusals.{RefusesCount};
ghost use Rattle.elab_elements.specs.Adding.{Adds, IsHere, HasDriven, HasTerminals};
ghost use Rattle.elab_elements.specs.Terminals.{outputs_of, inputs_of};

use crate::Placing;
use crate::gates::add_terminal_elements;
use crate::passes::{add_passes, add_supply};
use crate::terminals::{Terminals, add_terminals};
use elab_bits::{add_bits, add_variable};
use elab_model::ElabKind;
use elab_nets::output_count;
use elab_variables::Table;
use sg_circuit::{ElementKind, NetId};
use sg_logic::{GateKind, Value};
use sg_text::{Place, Refused};
use vl_tree::{Expression, Name};

/// Adds the Passes of an assignment (IEEE 1364-2005, 6.1).
pub fn add_assignment(
    table: &Table,
    scope: u32,
    place: Place,
    left: &Expression,
    right: &Expression,
    row: &[NetId],
    driven: &[NetId],
    room: &mut Terminals,
    made: &mut Placing,
) -> Result<(), Refused<ElabKind>>
    requires row { length row.now ≡ length (all_bits table.now) }
    requires driven { length driven.now ≡ length (all_bits table.now) }
    requires few { length made.old.elements.items ≤ 2 ^ 22 }
    ensures few { length made.new.elements.items ≤ 2 ^ 22 }
    ensures passes { OnOk result ((delays : List ghost_delays.GateDelays) (udps : List ghost_udps.UdpUse) (all : List OwnNet) (source : GhostSource) (s : def.Instance) → IsHere all source s scope table.now row.now → HasDriven all source s table.now driven.now
        → Adds delays udps all made.old made.new (def_elements.passes source s place (def_bits.bits table.now (view_expression left.now)) (def_bits.bits table.now (view_expression right.now)))) }
    ensures refused { IfErr result (λ r. (all : List OwnNet) (source : GhostSource) (s : def.Instance) → IsHere all source s scope table.now row.now → HasDriven all source s table.now driven.now
        → RefusesCount (length made.old.elements.items + length (def_elements.passes source s place (def_bits.bits table.now (view_expression left.now)) (def_bits.bits table.now (view_expression right.now)))) r) }
{
    room.left.clear();
    room.right.clear();
    add_bits(table, left, &mut room.left)?;
    add_bits(table, right, &mut room.right)?;
    add_passes(
        table,
        scope,
        place,
        &room.left,
        &room.right,
        row,
        driven,
        made,
    )
}

/// Adds the Passes of a net that is assigned where it is declared (IEEE 1364-2005, 6.1.1).
pub fn add_declared(
    table: &Table,
    scope: u32,
    name: Name,
    value: &Expression,
    row: &[NetId],
    driven: &[NetId],
    room: &mut Terminals,
    made: &mut Placing,
) -> Result<(), Refused<ElabKind>>
    requires row { length row.now ≡ length (all_bits table.now) }
    requires driven { length driven.now ≡ length (all_bits table.now) }
    requires few { length made.old.elements.items ≤ 2 ^ 22 }
    ensures few { length made.new.elements.items ≤ 2 ^ 22 }
    ensures passes { OnOk result ((delays : List ghost_delays.GateDelays) (udps : List ghost_udps.UdpUse) (all : List OwnNet) (source : GhostSource) (s : def.Instance) → IsHere all source s scope table.now row.now → HasDriven all source s table.now driven.now
        → Adds delays udps all made.old made.new (def_elements.passes source s name.entry.place (def_bits.leaf_bits table.now (whole (view_name name.entry))) (def_bits.bits table.now (view_expression value.now)))) }
    ensures refused { IfErr result (λ r. (all : List OwnNet) (source : GhostSource) (s : def.Instance) → IsHere all source s scope table.now row.now → HasDriven all source s table.now driven.now
        → RefusesCount (length made.old.elements.items + length (def_elements.passes source s name.entry.place (def_bits.leaf_bits table.now (whole (view_name name.entry))) (def_bits.bits table.now (view_expression value.now)))) r) }
{
    room.left.clear();
    room.right.clear();
    add_variable(table, name, &mut room.left)?;
    add_bits(table, value, &mut room.right)?;
    add_passes(
        table,
        scope,
        name.place,
        &room.left,
        &room.right,
        row,
        driven,
        made,
    )
}

/// Adds the Passes of a supply net (IEEE 1364-2005, 4.6).
pub fn add_supply_net(
    table: &Table,
    scope: u32,
    name: Name,
    value: Value,
    row: &[NetId],
    driven: &[NetId],
    room: &mut Terminals,
    made: &mut Placing,
) -> Result<(), Refused<ElabKind>>
    requires row { length row.now ≡ length (all_bits table.now) }
    requires driven { length driven.now ≡ length (all_bits table.now) }
    requires few { length made.old.elements.items ≤ 2 ^ 22 }
    ensures few { length made.new.elements.items ≤ 2 ^ 22 }
    ensures passes { OnOk result ((delays : List ghost_delays.GateDelays) (udps : List ghost_udps.UdpUse) (all : List OwnNet) (source : GhostSource) (s : def.Instance) → IsHere all source s scope table.now row.now → HasDriven all source s table.now driven.now
        → Adds delays udps all made.old made.new (flat_map (λ b. def_elements.pass_to source s name.entry.place (b, def_bits.constant name.entry.place value)) (def_bits.leaf_bits table.now (whole (view_name name.entry))))) }
    ensures refused { IfErr result (λ r. (all : List OwnNet) (source : GhostSource) (s : def.Instance) → IsHere all source s scope table.now row.now → HasDriven all source s table.now driven.now
        → RefusesCount (length made.old.elements.items + length (flat_map (λ b. def_elements.pass_to source s name.entry.place (b, def_bits.constant name.entry.place value)) (def_bits.leaf_bits table.now (whole (view_name name.entry))))) r) }
{
    room.left.clear();
    add_variable(table, name, &mut room.left)?;
    add_supply(
        table, scope, name.place, value, &room.left, row, driven, made,
    )
}

/// Adds the elements of a gate (IEEE 1364-2005, 7.1). `delays` is the place of its delays.
pub fn add_gate(
    table: &Table,
    scope: u32,
    place: Place,
    kind: GateKind,
    delays: u32,
    terminals: &[Expression],
    first: NetId,
    row: &[NetId],
    driven: &[NetId],
    room: &mut Terminals,
    made: &mut Placing,
) -> Result<(), Refused<ElabKind>>
    requires row { length row.now ≡ length (all_bits table.now) }
    requires driven { length driven.now ≡ length (all_bits table.now) }
    requires first { first ≤ 2 ^ 22 }
    requires few { length made.old.elements.items ≤ 2 ^ 22 }
    ensures few { length made.new.elements.items ≤ 2 ^ 22 }
    ensures elements { OnOk result ((listed : List ghost_delays.GateDelays) (udps : List ghost_udps.UdpUse) (all : List OwnNet) (source : GhostSource) (s : def.Instance) (k : ℕ)
        → IsHere all source s scope table.now row.now → HasDriven all source s table.now driven.now
        → HasTerminals all s k first (outputs_of table.now (def_elements.output_count kind (length (map view_expression terminals.now))) (map view_expression terminals.now)) (inputs_of table.now (def_elements.output_count kind (length (map view_expression terminals.now))) (map view_expression terminals.now))
        → delays < length listed
        → Adds listed udps all made.old made.new (def_elements.terminal_elements source s place k (Gate kind (delays_at listed delays))
        (outputs_of table.now (def_elements.output_count kind (length (map view_expression terminals.now))) (map view_expression terminals.now)) (inputs_of table.now (def_elements.output_count kind (length (map view_expression terminals.now))) (map view_expression terminals.now)))) }
    ensures refused { IfErr result (λ r. (listed : List ghost_delays.GateDelays) (source : GhostSource) (s : def.Instance) (k : ℕ)
        → RefusesCount (length made.old.elements.items + length (def_elements.terminal_elements source s place k (Gate kind (delays_at listed delays))
        (outputs_of table.now (def_elements.output_count kind (length (map view_expression terminals.now))) (map view_expression terminals.now)) (inputs_of table.now (def_elements.output_count kind (length (map view_expression terminals.now))) (map view_expression terminals.now)))) r) }
{
    room.left.clear();
    room.right.clear();
    let outputs = output_count(kind, terminals.len());
    add_terminals(table, terminals, outputs, room)?;
    let kind = ElementKind::Gate { kind, delays };
    add_terminal_elements(
        table,
        scope,
        place,
        kind,
        &room.left,
        &room.right,
        first,
        row,
        driven,
        made,
    )
}

// The values that elements compute.
ghost use Rattle.std.specs.Prelude.{◌≡◌, ◌<◌, ◌≤◌, ◌+◌, All, length};
ghost use Rattle.std.specs.Vec.{vec_capacity};
ghost use Rattle.sg_logic.specs.Gate.{gate_value, TakesInputs as GateTakes};
ghost use Rattle.sg_model.specs.Values.{value_at};
ghost use Rattle.udp_rows.specs.Meaning.{Primitive, udp_next};
ghost use Rattle.udp_table.specs.Cells.{IsTableOf, IsWhole};
ghost use Rattle.sg_circuit.specs.Closed.{TakesInputs};
ghost use Rattle.sg_circuit.specs.Seen.{kind_seen, IsIndexed};
ghost use Rattle.sim_machine.specs.Cells.{HasBrief};
ghost use Rattle.sim_machine.specs.Elements.{AreTables};
ghost use Rattle.sim_machine.specs.Inputs.{HasRoom, IsRoomier};
ghost use Rattle.sim_machine.specs.Simulated.{values_at, value_of_kind};

use crate::cells::Brief;
use sg_circuit::{Element, ElementKind, NetId, Parts};
use sg_logic::{GateKind, Value, gate};
use sg_steps::Steps;
use std::sync::ledger::Ledger;
use udp_table::Table;

// The values of some nets, put into a list with room for them.
fn read_nets(nets: &[NetId], values: &[Value], out: &mut Vec<Value>)
    requires within { All (λ n. n < length values.now) nets.now }
    requires room { length nets.now ≤ vec_capacity out.old }
    ensures values { out.new.items ≡ values_at nets.now values.now }
    ensures capacity { vec_capacity out.old ≤ vec_capacity out.new }
{
    out.clear();
    for net in nets {
        let pushed = out.push(values[*net as usize]);
        prove!(pushed.is_ok());
    }
}

/// The values of an element's inputs before a round and after it, in room that is made for the widest element.
#[derive(Drop)]
pub struct Inputs {
    pub before: Vec<Value>,
    pub after: Vec<Value>,
}

// The value of a primitive's element after a round, in one step.
fn compute_udp<L: Ledger>(
    table: &Table,
    nets: &[NetId],
    state: Value,
    before: &[Value],
    values: &[Value],
    inputs: &mut Inputs,
    steps: &mut Steps<L>,
) -> Value
    requires before { All (λ n. n < length before.now) nets.now }
    requires after { All (λ n. n < length values.now) nets.now }
    requires room { HasRoom inputs.old (length nets.now) }
    requires whole { IsWhole table.now }
    requires takes { length nets.now ≡ table.now.inputs }
    ensures value { (udp : Primitive) → IsTableOf udp table.now → result ≡ udp_next udp (values_at nets.now before.now) (values_at nets.now values.now) state }
    ensures room { IsRoomier inputs.old inputs.new }
    ensures steps { steps.new ≡ steps.old + 1 }
{
    read_nets(nets, before, &mut inputs.before);
    read_nets(nets, values, &mut inputs.after);
    table.next(&inputs.before, &inputs.after, state, steps)
}

// The value of a gate's element after a round, in one step.
fn compute_gate<L: Ledger>(
    kind: GateKind,
    nets: &[NetId],
    values: &[Value],
    inputs: &mut Inputs,
    steps: &mut Steps<L>,
) -> Value
    requires after { All (λ n. n < length values.now) nets.now }
    requires room { HasRoom inputs.old (length nets.now) }
    requires takes { GateTakes kind (length nets.now) }
    ensures value { result ≡ gate_value kind (values_at nets.now values.now) }
    ensures room { IsRoomier inputs.old inputs.new }
    ensures steps { steps.new ≡ steps.old + 1 }
{
    read_nets(nets, values, &mut inputs.after);
    steps.tick();
    gate(kind, &inputs.after)
}

// The value of the one net that an element reads, in one step.
fn compute_pass<L: Ledger>(nets: &[NetId], values: &[Value], steps: &mut Steps<L>) -> Value
    requires after { All (λ n. n < length values.now) nets.now }
    requires takes { length nets.now ≡ 1 }
    ensures value { result ≡ value_at (values_at nets.now values.now) 0 }
    ensures steps { steps.new ≡ steps.old + 1 }
{
    steps.tick();
    values[nets[0] as usize]
}

/// An element's value after a round, in one step.
pub fn compute<L: Ledger>(
    parts: &Parts,
    tables: &[Table],
    item: &Element,
    state: Value,
    before: &[Value],
    values: &[Value],
    inputs: &mut Inputs,
    steps: &mut Steps<L>,
) -> Value
    requires before { All (λ n. n < length before.now) item.now.inputs.items }
    requires after { All (λ n. n < length values.now) item.now.inputs.items }
    requires room { HasRoom inputs.old (length item.now.inputs.items) }
    requires indexed { IsIndexed parts.now item.now.kind }
    requires tables { AreTables parts.now.udps.items tables.now }
    requires takes { TakesInputs (kind_seen parts.now item.now.kind) (length item.now.inputs.items) }
    ensures value { result ≡ value_of_kind (kind_seen parts.now item.now.kind) (values_at item.now.inputs.items before.now) (values_at item.now.inputs.items values.now) state }
    ensures room { IsRoomier inputs.old inputs.new }
    ensures steps { steps.new ≡ steps.old + 1 }
{
    match item.kind {
        ElementKind::Gate { kind, .. } => compute_gate(kind, &item.inputs, values, inputs, steps),
        ElementKind::Udp { udp, .. } => {
            let table = &tables[udp as usize];
            compute_udp(table, &item.inputs, state, before, values, inputs, steps)
        }
        ElementKind::Pass {
            constant: Some(value),
        } => {
            steps.tick();
            value
        }
        ElementKind::Pass { constant: None } | ElementKind::Leg { .. } | ElementKind::Late { .. } =>
            compute_pass(&item.inputs, values, steps),
        ElementKind::Path { .. } => compute_pass(&item.inputs, values, steps),
    }
}

/// The same, by the element's cell.
pub fn compute_by_cell<L: Ledger>(
    parts: &Parts,
    tables: &[Table],
    brief: Brief,
    item: &Element,
    state: Value,
    before: &[Value],
    values: &[Value],
    inputs: &mut Inputs,
    steps: &mut Steps<L>,
) -> Value
    requires brief { HasBrief item.now.kind item.now.inputs.items brief }
    requires before { All (λ n. n < length before.now) item.now.inputs.items }
    requires after { All (λ n. n < length values.now) item.now.inputs.items }
    requires room { HasRoom inputs.old (length item.now.inputs.items) }
    requires indexed { IsIndexed parts.now item.now.kind }
    requires tables { AreTables parts.now.udps.items tables.now }
    requires takes { TakesInputs (kind_seen parts.now item.now.kind) (length item.now.inputs.items) }
    ensures value { result ≡ value_of_kind (kind_seen parts.now item.now.kind) (values_at item.now.inputs.items before.now) (values_at item.now.inputs.items values.now) state }
    ensures room { IsRoomier inputs.old inputs.new }
    ensures steps { steps.new ≡ steps.old + 1 }
{
    match brief {
        Brief::Whole => compute(parts, tables, item, state, before, values, inputs, steps),
        Brief::Copy { input } => {
            steps.tick();
            values[input as usize]
        }
        Brief::One { gate: kind, input } => {
            steps.tick();
            gate(kind, &[values[input as usize]])
        }
        Brief::Two {
            gate: kind,
            first,
            second,
        } => {
            steps.tick();
            gate(kind, &[values[first as usize], values[second as usize]])
        }
    }
}

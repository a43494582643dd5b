// The elements of a circuit, with what each computed last.
ghost use Rattle.std.specs.Prelude.{◌≡◌, ◌≤◌, [], All, IfOk, length, map};
ghost use Rattle.sg_circuit.specs.Seen.{kind_seen, IsIndexed};
ghost use Rattle.sim_machine.specs.Elements.{AreTables};
ghost use Rattle.sim_machine.specs.Simulated.{first_of_kind, first_state};

use crate::cells::{Cell, cells_of};
use crate::computing::{Inputs, compute_by_cell};
use crate::nets::NetsAfter;
use crate::placing::place_by_kind;
use fan_round::{Elements, Stamp};
use immediate_list::Immediate;
use path_pick::Marks;
use pulse_list::Agenda;
use sg_circuit::{Circuit, Element, ElementKind, Parts, UdpUse};
use sg_logic::Value;
use sg_steps::Steps;
use sg_text::NoMemory;
use std::alloc::Global;
use std::marker::Model;
use std::sync::ledger::Ledger;
use time_checks::Latest;
use udp_table::Table;

/// The elements of a circuit, with the value that each computed last.
#[derive(Drop)]
pub struct CircuitElements<'a> {
    parts: &'a Parts,
    // what is known of the events of its timing checks before its run
    earlier: &'a [Latest],
    // the compiled table of each primitive
    tables: Vec<Table>,
    states: Vec<Value>,
    inputs: Inputs,
    // of the nets, for whoever picks a path
    marks: Marks,
    // of each what an evaluation reads of it first
    cells: Vec<Cell>,
}

impl<'a> Model for CircuitElements<'a> {
    ghost use Rattle.std.specs.Coded.{codes, coded_ℕ};
    ghost use Rattle.cond_expr.specs.Codes.{coded_cond};
    ghost use Rattle.sim_machine.specs.Elements.{ElementsSeen};

    ghost Value = { ElementsSeen };

    ghost coded = { Prim.hlevel (codes, coded_cond coded_ℕ) };

    ghost use Rattle.std.specs.Prelude.{◌≡◌, length};
    ghost use Rattle.sg_circuit.specs.Seen.{circuit_seen};
    ghost use Rattle.sim_machine.specs.Cells.{AreCells};
    ghost use Rattle.sim_machine.specs.Evaluable.{AreEvaluable};

    ghost view = { λ g. record { circuit = circuit_seen g.parts.now; earlier = g.earlier.now; states = g.states.items } };

    ghost invariant = { λ g. AreEvaluable g.parts.now g.tables.items g.states.items g.inputs × (g.marks ≡ length g.parts.now.nets.items) × AreCells g.parts.now g.parts.now.elements.items g.cells.items };
}

// The value that an element computed last, before time 0.
fn first_value(parts: &Parts, kind: ElementKind) -> Value
    requires { IsIndexed parts.now kind }
    ensures { result ≡ first_of_kind (kind_seen parts.now kind) }
{
    match kind {
        ElementKind::Udp { udp, .. } => parts.udps[udp as usize].first,
        ElementKind::Gate { .. }
        | ElementKind::Pass { .. }
        | ElementKind::Leg { .. }
        | ElementKind::Path { .. }
        | ElementKind::Late { .. } => Value::X,
    }
}

// These of all elements.
fn first_values(alloc: Global, parts: &Parts, elements: &[Element]) -> Result<Vec<Value>, NoMemory>
    requires { All (λ e. IsIndexed parts.now e.kind) elements.now }
    ensures { IfOk result (λ v. v.items ≡ map (λ e. first_of_kind (kind_seen parts.now e.kind)) elements.now) }
{
    let mut states = Vec::with_capacity(alloc, elements.len())?;
    for element in elements {
        states.push(first_value(parts, element.kind))?;
    }
    Ok(states)
}

/// So many inputs the widest element has.
pub fn widest(elements: &[Element]) -> usize
    ensures { All (λ e. length e.inputs.items ≤ result) elements.now }
{
    let mut width: usize = 0;
    for element in elements {
        width = width.max(element.inputs.len());
    }
    width
}

/// The compiled tables of primitives.
pub fn compile(alloc: Global, udps: &[UdpUse]) -> Result<Vec<Table>, NoMemory>
    ensures { IfOk result (λ v. AreTables udps.now v.items) }
{
    let mut tables = Vec::with_capacity(alloc, udps.len())?;
    for udp in udps {
        tables.push(Table::build(alloc, &udp.rows)?)?;
    }
    Ok(tables)
}

impl<'a> CircuitElements<'a> {
    /// The elements of a circuit that computed these values last, where this was known of the events of its timing checks.
    pub fn of_states(
        alloc: Global,
        circuit: &'a Circuit,
        earlier: &'a [Latest],
        states: Vec<Value>,
    ) -> Result<CircuitElements<'a>, NoMemory>
        requires { length states.items ≡ length circuit.now.elements }
        ensures { IfOk result (λ g. g ≡ record { circuit = circuit.now; earlier = earlier.now; states = states.items }) }
    {
        let parts = circuit.parts();
        let tables = compile(alloc, &parts.udps)?;
        let width = widest(&parts.elements);
        let before = Vec::with_capacity(alloc, width)?;
        let after = Vec::with_capacity(alloc, width)?;
        let marks = Marks::new(alloc, parts.nets.len())?;
        let cells = cells_of(alloc, parts, &parts.elements)?;
        Ok(CircuitElements {
            parts,
            earlier,
            tables,
            states,
            inputs: Inputs { before, after },
            marks,
            cells,
        })
    }

    /// The elements of a circuit as they are before time 0. It compiles the circuit's primitives, and takes memory in
    /// proportion to their tables and to the numbers of elements and nets.
    pub fn new(alloc: Global, circuit: &'a Circuit) -> Result<CircuitElements<'a>, NoMemory>
        ensures { IfOk result (λ g. g ≡ record { circuit = circuit.now; earlier = []; states = (first_state circuit.now).states }) }
    {
        let parts = circuit.parts();
        let states = first_values(alloc, parts, &parts.elements)?;
        CircuitElements::of_states(alloc, circuit, &[], states)
    }

    /// The value that each computed last.
    pub fn states(&self) -> &[Value]
        ensures { result.now ≡ self.now.states }
    {
        &self.states
    }
}

impl<'a, A: Agenda, L: Ledger> Elements<Immediate<A>, L> for CircuitElements<'a> {
    ghost use Rattle.std.specs.Prelude.{length};
    ghost use Rattle.sim_machine.specs.Simulated.{machine_since};

    ghost machine = { λ g. machine_since g.circuit g.earlier };

    ghost states = { λ g. g.states };

    ghost net_count = { λ g. length g.circuit.nets };

    fn evaluate(
        &mut self,
        agenda: &mut Immediate<A>,
        element: u32,
        now: u64,
        before: &[Value],
        values: &[Value],
        stamps: &[Option<Stamp>],
        steps: &mut Steps<L>,
    ) {
        let at = element as usize;
        let parts = self.parts;
        let item = &parts.elements[at];
        let cell = self.cells[at];
        let state = self.states[at];
        let inputs = &mut self.inputs;
        let value = compute_by_cell(
            parts,
            &self.tables,
            cell.brief,
            item,
            state,
            before,
            values,
            inputs,
            steps,
        );
        self.states[at] = value;
        let present = values[cell.output as usize];
        let nets = NetsAfter { values, stamps };
        let marks = &mut self.marks;
        place_by_kind(
            agenda,
            parts,
            element,
            item,
            cell.at_once,
            present,
            now,
            value,
            &nets,
            marks,
        );
    }
}

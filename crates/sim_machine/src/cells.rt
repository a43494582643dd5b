// What an evaluation reads of an element first, in one record.
ghost use Rattle.std.specs.Prelude.{◌≤◌, All, IfOk};
ghost use Rattle.sg_circuit.specs.Seen.{IsIndexed};
ghost use Rattle.sg_circuit.specs.declared.elements.ElementKind.{ElementKind as KindSeen};
ghost use Rattle.sim_machine.specs.Cells.{AreCells, HasBrief, IsCell, IsCopying, IsGate};

use crate::at_once::is_undelayed;
use sg_circuit::{Element, ElementKind, NetId, Parts};
use sg_logic::GateKind;
use sg_text::NoMemory;
use std::alloc::Global;
use std::mem::size_of;

/// By what an element computes its value.
#[derive(Clone, Copy)]
pub enum Brief {
    /// By its kind and all its inputs.
    Whole,
    /// It has the value of a net.
    Copy {
        input: NetId,
    },
    /// It is a gate of one input.
    One {
        gate: GateKind,
        input: NetId,
    },
    /// It is a gate of two.
    Two {
        gate: GateKind,
        first: NetId,
        second: NetId,
    },
}

/// By what an element computes its value, the net that it drives, and whether it places every value at once.
#[derive(Clone, Copy)]
pub struct Cell {
    pub brief: Brief,
    pub output: NetId,
    pub at_once: bool,
}

const _: () = prove!(size_of::<Cell>() <= 20);

fn brief_of_gate(gate: GateKind, inputs: &[NetId]) -> Brief
    ensures { (k : KindSeen) → IsGate gate k → HasBrief k inputs.now result }
{
    match inputs {
        [input] => Brief::One {
            gate,
            input: *input,
        },
        [first, second] => Brief::Two {
            gate,
            first: *first,
            second: *second,
        },
        _ => Brief::Whole,
    }
}

fn brief_of_one(inputs: &[NetId]) -> Brief
    ensures { (k : KindSeen) → IsCopying k → HasBrief k inputs.now result }
{
    if let [input] = inputs {
        Brief::Copy { input: *input }
    } else {
        Brief::Whole
    }
}

fn brief_of(element: &Element) -> Brief
    ensures { HasBrief element.now.kind element.now.inputs.items result }
{
    match element.kind {
        ElementKind::Gate { kind, .. } => brief_of_gate(kind, &element.inputs),
        ElementKind::Udp { .. } | ElementKind::Pass { constant: Some(_) } => Brief::Whole,
        ElementKind::Pass { constant: None }
        | ElementKind::Leg { .. }
        | ElementKind::Path { .. }
        | ElementKind::Late { .. } => brief_of_one(&element.inputs),
    }
}

fn cell_of(parts: &Parts, element: &Element) -> Cell
    requires indexed { IsIndexed parts.now element.now.kind }
    requires counts { All (λ d. d.count ≤ 3) parts.now.gate_delays.items }
    ensures { IsCell parts.now element.now result }
{
    Cell {
        brief: brief_of(element),
        output: element.output,
        at_once: is_undelayed(parts, element.kind),
    }
}

/// The cells of these elements.
pub fn cells_of(alloc: Global, parts: &Parts, elements: &[Element]) -> Result<Vec<Cell>, NoMemory>
    requires counts { All (λ d. d.count ≤ 3) parts.now.gate_delays.items }
    requires indexed { All (λ e. IsIndexed parts.now e.kind) elements.now }
    ensures { IfOk result (λ v. AreCells parts.now elements.now v.items) }
{
    let mut cells = Vec::with_capacity(alloc, elements.len())?;
    for element in elements {
        cells.push(cell_of(parts, element))?;
    }
    Ok(cells)
}

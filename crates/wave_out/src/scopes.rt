// The scopes of a circuit in the order of a dump's header.
ghost use Rattle.std.specs.Prelude.{◌≡◌, ◌++◌, ◌∷◌, ◌<◌, ◌^◌, [], All, IfOk, OnOk, length, map, reverse};
ghost use Rattle.sg_circuit.specs.Closed.{IsClosed};
ghost use Rattle.sg_circuit.specs.Seen.{circuit_seen, scope_seen};
ghost use Rattle.wave_out.specs.Scopes.{visits};
ghost use Rattle.wave_out.specs.Walk.{inner_of, parent_pins, pin_of, AreChildren, GoesOn, IsVisit};

use sg_circuit::{Circuit, FanOut, Pin, Scope};
use sg_text::NoMemory;
use std::alloc::Global;

/// A scope is entered, or the scope entered last is left.
#[derive(Clone, Copy, Debug, PartialEq, Eq)]
pub enum Visit {
    Enters(u32),
    Leaves,
}

fn push_pin(pins: &mut Vec<Pin>, scope: u32, parent: Option<u32>) -> Result<(), NoMemory>
    ensures { OnOk result (pins.new.items ≡ pins.old.items ++ pin_of scope parent) }
{
    if let Some(parent) = parent {
        pins.push(Pin {
            net: parent,
            element: scope,
        })?;
    }
    Ok(())
}

// Each scope's number under its parent's.
fn pins_of(alloc: Global, scopes: &[Scope]) -> Result<Vec<Pin>, NoMemory>
    requires { length scopes.now < 2 ^ 31 }
    ensures { IfOk result (λ pins. pins.items ≡ parent_pins 0 (map (λ s. scope_seen s) scopes.now)) }
{
    let mut pins = Vec::new(alloc);
    for (number, scope) in scopes.iter().enumerate() {
        push_pin(&mut pins, number as u32, scope.parent)?;
    }
    Ok(pins)
}

// The child scopes of each scope, in their order.
fn children_of(alloc: Global, circuit: &Circuit) -> Result<FanOut, NoMemory>
    ensures made { IfOk result (λ table. AreChildren circuit.now table) }
    ensures closed { IsClosed circuit.now }
{
    let scopes = &circuit.parts().scopes;
    let pins = pins_of(alloc, scopes)?;
    FanOut::of_pins(alloc, scopes.len() as u32, &pins)
}

fn push_children(pending: &mut Vec<Visit>, children: &[u32]) -> Result<(), NoMemory>
    ensures { OnOk result (pending.new.items ≡ pending.old.items ++ map Visit.Enters (reverse children.now)) }
{
    for i in (0..children.len()).rev() {
        pending.push(Visit::Enters(children[i]))?;
    }
    Ok(())
}

// What follows the visit of a scope: its child scopes, and then its end.
fn push_inner(pending: &mut Vec<Visit>, children: &FanOut, visit: Visit) -> Result<(), NoMemory>
    requires { IsVisit (length children.now) visit }
    ensures { OnOk result (pending.new.items ≡ pending.old.items ++ inner_of children.now visit) }
{
    match visit {
        Visit::Enters(scope) => {
            pending.push(Visit::Leaves)?;
            push_children(pending, children.of(scope))
        }
        Visit::Leaves => Ok(()),
    }
}

// The top, if there is one.
fn begin(alloc: Global, circuit: &Circuit) -> Result<Vec<Visit>, NoMemory>
    ensures { IfOk result (λ pending. GoesOn circuit.now [] pending.items) }
{
    let mut pending = Vec::new(alloc);
    if !circuit.parts().scopes.is_empty() {
        pending.push(Visit::Enters(0))?;
    }
    Ok(pending)
}

/// The scopes of a circuit, in the order of a dump's header. It takes time and memory in proportion to them.
pub fn visits_of(alloc: Global, circuit: &Circuit) -> Result<Vec<Visit>, NoMemory>
    ensures { IfOk result (λ made. made.items ≡ visits circuit.now) }
{
    let children = children_of(alloc, circuit)?;
    let mut pending = begin(alloc, circuit)?;
    let mut made = Vec::new(alloc);
    while let Some(visit) = pending.pop() {
        made.push(visit)?;
        push_inner(&mut pending, &children, visit)?;
    }
    Ok(made)
}

// What each scope has: the elements with delays, and the timing checks.
ghost use Rattle.std.specs.Prelude.{◌≡◌, ◌<◌, ◌^◌, ◌++◌, All, IfOk, OnOk, length};
ghost use Rattle.late_limits.specs.Grouping.{element_scope, pin_by, pins_by};
ghost use Rattle.sg_circuit.specs.Pins.{HasPins};
ghost use Rattle.sg_circuit.specs.Closed.{IsClosed};
ghost use Rattle.sg_circuit.specs.Seen.{circuit_seen};
ghost use Rattle.written_entries.specs.Groups.{AreGroups, any_check, check_scope, is_delayed};

use sg_circuit::{Check, Element, ElementKind, FanOut, Parts, Pin};
use sg_text::NoMemory;
use std::alloc::Global;

/// What each scope has, by its number.
#[derive(Drop)]
pub struct Groups {
    pub elements: FanOut,
    pub checks: FanOut,
}

fn add_element(pins: &mut Vec<Pin>, number: u32, element: &Element) -> Result<(), NoMemory>
    ensures { OnOk result (pins.new.items ≡ pins.old.items ++ pin_by element_scope is_delayed number element.now) }
{
    if let ElementKind::Leg { .. } | ElementKind::Path { .. } = element.kind {
        pins.push(Pin {
            net: element.scope,
            element: number,
        })?;
    }
    Ok(())
}

fn element_pins(alloc: Global, elements: &[Element]) -> Result<Vec<Pin>, NoMemory>
    requires { length elements.now < 2 ^ 31 }
    ensures { IfOk result (λ pins. pins.items ≡ pins_by element_scope is_delayed 0 elements.now) }
{
    let mut pins = Vec::new(alloc);
    for (number, element) in elements.iter().enumerate() {
        add_element(&mut pins, number as u32, element)?;
    }
    Ok(pins)
}

/// The legs and the elements with specify paths of each scope, by their numbers, in order.
pub fn elements_by_scope(
    alloc: Global,
    elements: &[Element],
    scopes: u32,
) -> Result<FanOut, NoMemory>
    requires few { length elements.now < 2 ^ 31 }
    requires scopes { All (λ e. e.scope < scopes) elements.now }
    ensures table { IfOk result (λ table. HasPins (pins_by element_scope is_delayed 0 elements.now) table) }
    ensures scopes { IfOk result (λ table. length table ≡ scopes) }
{
    let pins = element_pins(alloc, elements)?;
    FanOut::of_pins(alloc, scopes, &pins)
}

fn check_pins(alloc: Global, checks: &[Check]) -> Result<Vec<Pin>, NoMemory>
    requires { length checks.now < 2 ^ 31 }
    ensures { IfOk result (λ pins. pins.items ≡ pins_by check_scope any_check 0 checks.now) }
{
    let mut pins = Vec::new(alloc);
    for (number, check) in checks.iter().enumerate() {
        pins.push(Pin {
            net: check.scope,
            element: number as u32,
        })?;
    }
    Ok(pins)
}

/// The timing checks of each scope, by their numbers, in order.
pub fn checks_by_scope(alloc: Global, checks: &[Check], scopes: u32) -> Result<FanOut, NoMemory>
    requires few { length checks.now < 2 ^ 31 }
    requires scopes { All (λ k. k.scope < scopes) checks.now }
    ensures table { IfOk result (λ table. HasPins (pins_by check_scope any_check 0 checks.now) table) }
    ensures scopes { IfOk result (λ table. length table ≡ scopes) }
{
    let pins = check_pins(alloc, checks)?;
    FanOut::of_pins(alloc, scopes, &pins)
}

/// What each scope of a circuit has. Takes time and memory in proportion to the circuit.
pub fn groups_of(alloc: Global, parts: &Parts) -> Result<Groups, NoMemory>
    requires { IsClosed (circuit_seen parts.now) }
    ensures { IfOk result (AreGroups parts.now) }
{
    let scopes = parts.scopes.len() as u32;
    Ok(Groups {
        elements: elements_by_scope(alloc, &parts.elements, scopes)?,
        checks: checks_by_scope(alloc, &parts.checks, scopes)?,
    })
}

// What each scope has: timing checks that take limits below 0, and Lates.
ghost use Rattle.std.specs.Prelude.{◌≡◌, ◌<◌, ◌^◌, ◌++◌, ◌↔◌, IfOk, IsTrue, OnOk, length, zip};
ghost use Rattle.sg_circuit.specs.Closed.{TakesLates};
ghost use Rattle.late_limits.specs.Found.{AreLates, AreWindows};
ghost use Rattle.late_limits.specs.Grouping.{check_scope, element_scope, is_among, is_late_among, pin_by, pins_by};

use sg_circuit::{Check, CheckKind, CheckTiming, Element, ElementKind, FanOut, Pin};
use sg_text::NoMemory;
use std::alloc::Global;

fn takes_lates(kind: CheckKind) -> bool
    ensures { IsTrue result ↔ TakesLates kind }
{
    matches!(kind, CheckKind::Setuphold | CheckKind::Recrem)
}

fn add_window(
    pins: &mut Vec<Pin>,
    scopes: u32,
    number: usize,
    check: &Check,
    timing: &CheckTiming,
) -> Result<(), NoMemory>
    ensures { OnOk result (pins.new.items ≡ pins.old.items ++ pin_by check_scope (is_among scopes) number (check.now, timing.now)) }
{
    if !takes_lates(timing.kind) || check.scope >= scopes {
        return Ok(());
    }
    let Ok(element) = u32::try_from(number) else {
        return Err(NoMemory);
    };
    pins.push(Pin {
        net: check.scope,
        element,
    })?;
    Ok(())
}

fn windows(
    alloc: Global,
    checks: &[Check],
    timings: &[CheckTiming],
    scopes: u32,
) -> Result<Vec<Pin>, NoMemory>
    requires { length checks.now ≡ length timings.now }
    ensures { IfOk result (λ pins. pins.items ≡ pins_by check_scope (is_among scopes) 0 (zip checks.now timings.now)) }
{
    let mut pins = Vec::new(alloc);
    for number in 0..checks.len() {
        add_window(&mut pins, scopes, number, &checks[number], &timings[number])?;
    }
    Ok(pins)
}

/// The checks of each scope that take limits below 0, by their numbers, in order. `NoMemory` too where there are 2^32 checks.
pub(crate) fn windows_by_scope(
    alloc: Global,
    checks: &[Check],
    timings: &[CheckTiming],
    scopes: u32,
) -> Result<FanOut, NoMemory>
    requires { length checks.now ≡ length timings.now }
    ensures windows { IfOk result (λ table. AreWindows checks.now timings.now table) }
    ensures scopes { IfOk result (λ table. length table ≡ scopes) }
{
    let pins = windows(alloc, checks, timings, scopes)?;
    FanOut::of_pins(alloc, scopes, &pins)
}

fn add_late(
    pins: &mut Vec<Pin>,
    scopes: u32,
    number: u32,
    element: &Element,
) -> Result<(), NoMemory>
    ensures { OnOk result (pins.new.items ≡ pins.old.items ++ pin_by element_scope (is_late_among scopes) number element.now) }
{
    if element.scope >= scopes {
        return Ok(());
    }
    if let ElementKind::Late { .. } = element.kind {
        pins.push(Pin {
            net: element.scope,
            element: number,
        })?;
    }
    Ok(())
}

fn lates(alloc: Global, elements: &[Element], scopes: u32) -> Result<Vec<Pin>, NoMemory>
    requires { length elements.now < 2 ^ 31 }
    ensures { IfOk result (λ pins. pins.items ≡ pins_by element_scope (is_late_among scopes) 0 elements.now) }
{
    let mut pins = Vec::new(alloc);
    for (number, element) in elements.iter().enumerate() {
        add_late(&mut pins, scopes, number as u32, element)?;
    }
    Ok(pins)
}

/// The Lates of each of the first so many scopes, by their numbers, in order. Takes time and memory in proportion to the elements and the scopes.
pub fn lates_by_scope(alloc: Global, elements: &[Element], scopes: u32) -> Result<FanOut, NoMemory>
    requires { length elements.now < 2 ^ 31 }
    ensures lates { IfOk result (λ table. AreLates elements.now table) }
    ensures scopes { IfOk result (λ table. length table ≡ scopes) }
{
    let pins = lates(alloc, elements, scopes)?;
    FanOut::of_pins(alloc, scopes, &pins)
}

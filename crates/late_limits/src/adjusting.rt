// What limits below 0 ask of a circuit.
ghost use Rattle.std.specs.Prelude.{◌≡◌, ℕ, IfOk, length, map};
ghost use Rattle.sg_circuit.specs.declared.checks.CheckTiming as timing_seen;
ghost use Rattle.sg_circuit.specs.Circuit.{Circuit as CircuitSeen};
ghost use Rattle.sg_circuit.specs.Signals.{AreShort};
ghost use Rattle.late_limits.specs.Adjustments.{with_limits, IsAdjustmentOf, IsLike};
ghost use Rattle.late_limits.specs.Found.{AreAllShort, AreAmong, AreFound};

use crate::groups::{lates_by_scope, windows_by_scope};
use crate::scopes::adjust_scope;
use crate::signals::Signals;
use sg_circuit::{CheckTiming, Circuit, FanOut, Parts, Zero};
use sg_text::NoMemory;
use std::alloc::Global;

/// The delay of an element of the kind Late, in ticks.
#[derive(Clone, Copy, Debug, PartialEq, Eq)]
pub struct LateDelay {
    pub element: u32,
    pub delay: u64,
}

/// What the signals of a circuit come to: the delays of its Lates, and the limits that are taken as 0, both scope by scope.
#[derive(Debug, Drop)]
pub struct Adjustment {
    pub delays: Vec<LateDelay>,
    pub zeroed: Vec<Zero>,
}

/// The limits of timing checks as they are.
pub fn limits_of(alloc: Global, timings: &[CheckTiming]) -> Result<Vec<[i64; 2]>, NoMemory>
    ensures { IfOk result (λ v. v.items ≡ map (λ (t : timing_seen.CheckTiming). t.limits) timings.now) }
{
    let mut limits = Vec::with_capacity(alloc, timings.len())?;
    for timing in timings {
        limits.push(timing.limits)?;
    }
    Ok(limits)
}

// Scope after scope.
fn adjust_all(
    alloc: Global,
    parts: &Parts,
    limits: &[[i64; 2]],
    windows: &FanOut,
    lates: &FanOut,
    scopes: u32,
) -> Result<Adjustment, NoMemory>
    requires there { AreAmong (length parts.now.check_timings.items) windows.now }
    requires lates { AreAmong (length parts.now.elements.items) lates.now }
    requires each_check { length limits.now ≡ length parts.now.check_timings.items }
    requires short { AreAllShort parts.now.check_timings.items limits.now windows.now }
    requires scopes { length windows.now ≡ scopes }
    requires as_many { length lates.now ≡ scopes }
    ensures { IfOk result (λ found. AreFound parts.now.check_timings.items limits.now parts.now.elements.items windows.now lates.now scopes found) }
{
    let mut signals = Signals::new(alloc);
    let mut found = Adjustment {
        delays: Vec::new(alloc),
        zeroed: Vec::new(alloc),
    };
    for scope in 0..scopes {
        let checks = windows.of(scope);
        let late = lates.of(scope);
        adjust_scope(alloc, &mut signals, parts, limits, checks, late, &mut found)?;
    }
    Ok(found)
}

/// The least delays of a circuit's Lates by which no limit of its timing checks, with these limits in place of its own, is below 0 once it is moved by them; and the limits that are taken as 0
/// in order that there are such delays (IEEE 1364-2005, 15.8). All of it scope by scope. Takes memory in proportion to the checks, elements and scopes, and to the greatest number of a signal's
/// net.
pub fn adjust(alloc: Global, circuit: &Circuit, limits: &[[i64; 2]]) -> Result<Adjustment, NoMemory>
    requires each_check { length limits.now ≡ length circuit.now.check_timings }
    requires short { (scope : ℕ) → AreShort circuit.now.checks (with_limits circuit.now.check_timings limits.now) scope }
    ensures { IfOk result (λ a. (made : CircuitSeen) → IsLike circuit.now limits.now made → IsAdjustmentOf made a) }
{
    let parts = circuit.parts();
    let scopes = parts.scopes.len() as u32;
    let windows = windows_by_scope(alloc, &parts.checks, &parts.check_timings, scopes)?;
    let lates = lates_by_scope(alloc, &parts.elements, scopes)?;
    let found = adjust_all(alloc, parts, limits, &windows, &lates, scopes)?;
    Ok(found)
}

// What limits below 0 ask of one scope.
ghost use Rattle.std.specs.Prelude.{◌≡◌, ◌++◌, ◌<◌, ◌^◌, All, IfOk, OnOk, length, map};
ghost use Rattle.neg_limits.specs.Pairs.{delay_at};
ghost use Rattle.neg_limits.specs.Zeroing.{IsAdjusted};
ghost use Rattle.late_limits.specs.Adjusted.{copied, zero_of};
ghost use Rattle.late_limits.specs.Found.{delay_of, pairs_at, signals_at, windows_at, AreShortAt, IsScopeFound};

use crate::pairs::{limit_of, meet_all, pairs_of, part_of};
use crate::signals::Signals;
use crate::{Adjustment, LateDelay};
use neg_limits::{Solution, Zeroed, solve};
use sg_circuit::{CheckTiming, Element, NetId, Parts, Zero};
use sg_text::NoMemory;
use std::alloc::Global;

fn copied(inputs: &[NetId]) -> NetId
    ensures { result ≡ copied inputs.now }
{
    match inputs {
        [net, ..] => *net,
        [] => 0,
    }
}

fn delay_at(delays: &[u64], signal: u32) -> u64
    ensures { result ≡ delay_at delays.now signal }
{
    match delays.get(signal as usize) {
        Some(delay) => *delay,
        None => 0,
    }
}

// A Late has the delay of the signal that it copies.
fn delay_of(elements: &[Element], signals: &Signals, delays: &[u64], late: u32) -> LateDelay
    requires { late < length elements.now }
    ensures { result ≡ delay_of elements.now signals.now delays.now late }
{
    let net = copied(&elements[late as usize].inputs);
    LateDelay {
        element: late,
        delay: delay_at(delays, signals.number(net)),
    }
}

fn add_delays(
    found: &mut Vec<LateDelay>,
    elements: &[Element],
    signals: &Signals,
    delays: &[u64],
    lates: &[u32],
) -> Result<(), NoMemory>
    requires { All (λ e. e < length elements.now) lates.now }
    ensures { OnOk result (found.new.items ≡ found.old.items ++ map (delay_of elements.now signals.now delays.now) lates.now) }
{
    for late in lates {
        found.push(delay_of(elements, signals, delays, *late))?;
    }
    Ok(())
}

// A limit that is taken as 0, by its check and its place in the check's text.
fn zero_of(timings: &[CheckTiming], limits: &[[i64; 2]], checks: &[u32], zeroed: Zeroed) -> Zero
    requires pair { zeroed.pair < length checks.now }
    requires there { All (λ k. k < length timings.now) checks.now }
    requires each_check { length limits.now ≡ length timings.now }
    ensures { result ≡ zero_of (windows_at timings.now limits.now checks.now) zeroed }
{
    let check = checks[zeroed.pair as usize];
    let kind = timings[check as usize].kind;
    Zero {
        check,
        part: part_of(kind, zeroed.hold),
        value: limit_of(kind, &limits[check as usize], zeroed.hold),
    }
}

fn add_zeroes(
    found: &mut Vec<Zero>,
    timings: &[CheckTiming],
    limits: &[[i64; 2]],
    checks: &[u32],
    zeroed: &[Zeroed],
) -> Result<(), NoMemory>
    requires pairs { All (λ z. z.pair < length checks.now) zeroed.now }
    requires there { All (λ k. k < length timings.now) checks.now }
    requires each_check { length limits.now ≡ length timings.now }
    ensures { OnOk result (found.new.items ≡ found.old.items ++ map (zero_of (windows_at timings.now limits.now checks.now)) zeroed.now) }
{
    for limit in zeroed {
        found.push(zero_of(timings, limits, checks, *limit))?;
    }
    Ok(())
}

// Numbers the signals of a scope's checks, and solves their pairs.
fn solve_scope(
    alloc: Global,
    signals: &mut Signals,
    timings: &[CheckTiming],
    limits: &[[i64; 2]],
    checks: &[u32],
) -> Result<Solution, NoMemory>
    requires there { All (λ k. k < length timings.now) checks.now }
    requires each_check { length limits.now ≡ length timings.now }
    requires short { AreShortAt timings.now limits.now checks.now }
    ensures signals { OnOk result (signals.new ≡ signals_at timings.now checks.now) }
    ensures adjusted { IfOk result (λ s. IsAdjusted (length (signals_at timings.now checks.now)) (pairs_at timings.now limits.now checks.now) s.zeroed.items s.delays.items) }
    ensures short { IfOk result (λ s. All (λ d. d < 2 ^ 60) s.delays.items) }
{
    meet_all(signals, timings, checks)?;
    let pairs = pairs_of(alloc, signals, timings, limits, checks)?;
    let solution = solve(alloc, &pairs, signals.count())?;
    Ok(solution)
}

/// Adds what the checks of one scope, by their numbers, ask of its Lates, and their limits that are taken as 0.
pub(crate) fn adjust_scope(
    alloc: Global,
    signals: &mut Signals,
    parts: &Parts,
    limits: &[[i64; 2]],
    checks: &[u32],
    lates: &[u32],
    found: &mut Adjustment,
) -> Result<(), NoMemory>
    requires there { All (λ k. k < length parts.now.check_timings.items) checks.now }
    requires lates { All (λ e. e < length parts.now.elements.items) lates.now }
    requires each_check { length limits.now ≡ length parts.now.check_timings.items }
    requires short { AreShortAt parts.now.check_timings.items limits.now checks.now }
    ensures { OnOk result (IsScopeFound parts.now.check_timings.items limits.now parts.now.elements.items checks.now lates.now found.old found.new) }
{
    let timings = &parts.check_timings;
    let solution = solve_scope(alloc, signals, timings, limits, checks)?;
    add_delays(
        &mut found.delays,
        &parts.elements,
        signals,
        &solution.delays,
        lates,
    )?;
    add_zeroes(&mut found.zeroed, timings, limits, checks, &solution.zeroed)
}

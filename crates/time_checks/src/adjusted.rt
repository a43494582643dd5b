// Timing checks as they look at a circuit (IEEE 1364-2005, 15.8).
ghost use Rattle.std.specs.Prelude.{◌≡◌, ◌<◌, ◌^◌, ◌∷◌, [], ℕ, List, All, IfOk, false, true, length, map, replicate, slice_index_or, unsigned_abs};
ghost use Rattle.std.specs.List.{enumerate_from};
ghost use Rattle.sg_circuit.specs.declared.checks.CheckTiming.{CheckTiming as CheckTimingSeen};
ghost use Rattle.sg_circuit.specs.declared.checks.Zero.{Zero as ZeroSeen};
ghost use Rattle.sg_circuit.specs.Circuit.{element_at};
ghost use Rattle.sg_circuit.specs.Closed.{IsClosed};
ghost use Rattle.sg_circuit.specs.Seen.{circuit_seen};
ghost use Rattle.sg_circuit.specs.Signals.{takes_lates};
ghost use Rattle.time_checks.specs.Adjusted as def;
ghost use Rattle.time_checks.specs.AdjustedSeen.{adjusted_seen, all_seen, left, zeroed_at, AreMarks};
ghost use Rattle.time_checks.specs.Parts.{parts_of};

use crate::Part;
use sg_circuit::{CheckKind, CheckTiming, Circuit, ElementKind, NetId, Parts, Zero};
use sg_text::NoMemory;
use std::alloc::Global;

/// A timing check, with the nets at which its events are seen, the limits that decide, in ticks, in the order of its parts, and how
/// late its signals are seen. Its conditions read nets that aren't delayed.
#[derive(Drop)]
pub struct AdjustedCheck<'a> {
    pub timing: &'a CheckTiming,
    pub refer: NetId,
    /// That of the data event, where there is one.
    pub datum: NetId,
    pub windows: [i64; 2],
    pub refer_delay: u64,
    pub datum_delay: u64,
}

// The limits that are taken as 0 are marked.
fn mark(marks: &mut [[bool; 2]], zeroed: &[Zero])
    requires within { All (λ z. (z.check < length marks.old) × (z.part < 2)) zeroed.now }
    requires none { marks.old ≡ replicate (length marks.old) (false ∷ false ∷ []) }
    ensures marks { AreMarks zeroed.now marks.new }
    ensures length { length marks.new ≡ length marks.old }
{
    for zero in zeroed {
        marks[zero.check as usize][zero.part as usize] = true;
    }
}

// Which limits of each check are taken as 0.
fn zeroed_limits(alloc: Global, checks: usize, zeroed: &[Zero]) -> Result<Vec<[bool; 2]>, NoMemory>
    requires within { All (λ z. (z.check < checks) × (z.part < 2)) zeroed.now }
    ensures marks { IfOk result (λ marks. AreMarks zeroed.now marks.items) }
    ensures length { IfOk result (λ marks. length marks.items ≡ checks) }
{
    let mut marks = vec![in alloc; [false; 2]; checks]?;
    mark(&mut marks, zeroed);
    Ok(marks)
}

// A limit between delayed signals.
fn moved(part: Part, refer_delay: u64, datum_delay: u64, limit: i64) -> i64
    requires refer { refer_delay < 2 ^ 60 }
    requires datum { datum_delay < 2 ^ 60 }
    requires limit { unsigned_abs limit < 2 ^ 60 }
    ensures { result ≡ def.moved part refer_delay datum_delay limit }
{
    let refer = refer_delay as i64;
    let datum = datum_delay as i64;
    match part {
        Part::Setup | Part::Removal => limit + refer - datum,
        Part::Hold | Part::Recovery => limit - refer + datum,
        Part::Width | Part::Period | Part::Skew => limit,
    }
}

fn limit_left(zeroed: bool, limit: i64) -> i64
    ensures value { result ≡ left zeroed limit }
    ensures small { unsigned_abs limit < 2 ^ 60 → unsigned_abs result < 2 ^ 60 }
{
    if zeroed { 0 } else { limit }
}

// The limits that decide, of a check that takes limits below 0.
fn windows(timing: &CheckTiming, zeroed: [bool; 2], refer_delay: u64, datum_delay: u64) -> [i64; 2]
    requires kind { takes_lates timing.now.kind ≡ true }
    requires limits { All (λ l. unsigned_abs l < 2 ^ 60) timing.now.limits }
    requires refer { refer_delay < 2 ^ 60 }
    requires datum { datum_delay < 2 ^ 60 }
    ensures { (zeroes : List ZeroSeen) (check : ℕ) → zeroed ≡ zeroed_at zeroes check
        → result ≡ map (def.window_of zeroes check timing.now refer_delay datum_delay) (enumerate_from 0 (parts_of timing.now.kind)) }
{
    let first = limit_left(zeroed[0], timing.limits[0]);
    let second = limit_left(zeroed[1], timing.limits[1]);
    let (one, other) = match timing.kind {
        CheckKind::Recrem => (Part::Recovery, Part::Removal),
        _ => (Part::Setup, Part::Hold),
    };
    [
        moved(one, refer_delay, datum_delay, first),
        moved(other, refer_delay, datum_delay, second),
    ]
}

// The net that an element drives.
fn output_of(parts: &Parts, element: u32) -> NetId
    requires { element < length parts.now.elements.items }
    ensures { result ≡ (element_at (circuit_seen parts.now) element).output }
{
    parts.elements[element as usize].output
}

// How late an element is; 0 where it is no Late.
fn delay_of(parts: &Parts, element: u32) -> u64
    requires within { element < length parts.now.elements.items }
    requires closed { IsClosed (circuit_seen parts.now) }
    ensures delay { result ≡ def.late_delay (circuit_seen parts.now) element }
    ensures small { result < 2 ^ 60 }
{
    match parts.elements[element as usize].kind {
        ElementKind::Late { delay } => delay,
        _ => 0,
    }
}

// A check whose windows are its limits.
fn plain(timing: &CheckTiming) -> AdjustedCheck<'_>
    ensures { adjusted_seen result ≡ def.plain_check timing.now }
{
    AdjustedCheck {
        timing,
        refer: timing.refer.net,
        datum: match &timing.datum {
            Some(event) => event.net,
            None => 0,
        },
        windows: timing.limits,
        refer_delay: 0,
        datum_delay: 0,
    }
}

// A check with Lates.
fn delayed<'a>(
    parts: &Parts,
    timing: &'a CheckTiming,
    lates: [u32; 2],
    zeroed: [bool; 2],
) -> AdjustedCheck<'a>
    requires closed { IsClosed (circuit_seen parts.now) }
    requires refer { slice_index_or lates 0 0 < length parts.now.elements.items }
    requires datum { slice_index_or lates 1 0 < length parts.now.elements.items }
    requires kind { takes_lates timing.now.kind ≡ true }
    requires limits { All (λ l. unsigned_abs l < 2 ^ 60) timing.now.limits }
    ensures { (check : ℕ) → zeroed ≡ zeroed_at parts.now.zeroed.items check
        → adjusted_seen result ≡ def.delayed_check (circuit_seen parts.now) check timing.now (slice_index_or lates 0 0) (slice_index_or lates 1 0) }
{
    let [refer, datum] = lates;
    let refer_delay = delay_of(parts, refer);
    let datum_delay = delay_of(parts, datum);
    AdjustedCheck {
        timing,
        refer: output_of(parts, refer),
        datum: output_of(parts, datum),
        windows: windows(timing, zeroed, refer_delay, datum_delay),
        refer_delay,
        datum_delay,
    }
}

// One of the checks of a circuit.
fn adjusted_check(parts: &Parts, check: usize, zeroed: [bool; 2]) -> AdjustedCheck<'_>
    requires closed { IsClosed (circuit_seen parts.now) }
    requires check { check < length parts.now.check_timings.items }
    requires zeroed { zeroed ≡ zeroed_at parts.now.zeroed.items check }
    ensures { (d : CheckTimingSeen) → adjusted_seen result ≡ def.adjusted_check (circuit_seen parts.now) (check, slice_index_or parts.now.check_timings.items check d) }
{
    let timing = &parts.check_timings[check];
    match timing.late {
        Some(lates) => delayed(parts, timing, lates, zeroed),
        None => plain(timing),
    }
}

/// The timing checks of a circuit, as they look at it. Takes time and memory in proportion to them.
pub fn adjusted_checks(alloc: Global, circuit: &Circuit) -> Result<Vec<AdjustedCheck<'_>>, NoMemory>
    ensures { IfOk result (λ checks. all_seen checks.items ≡ def.adjusted_checks circuit.now) }
{
    let parts = circuit.parts();
    let marks = zeroed_limits(alloc, parts.check_timings.len(), &parts.zeroed)?;
    let mut checks = Vec::with_capacity(alloc, marks.len())?;
    for check in 0..marks.len() {
        checks.push(adjusted_check(parts, check, marks[check]))?;
    }
    Ok(checks)
}

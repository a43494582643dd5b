// The violations of a timing check at a snapshot.
ghost use Rattle.std.specs.Prelude.{◌≡◌, ◌++◌, ◌<◌, OnOk, map};
ghost use Rattle.time_checks.specs.Kept.{found_at, violated_kept};
ghost use Rattle.time_checks.specs.AdjustedSeen.{adjusted_seen};
ghost use Rattle.time_checks.specs.Seen.{violation_seen, Continues};
ghost use Rattle.time_checks.specs.Violations.{limit_at, listed, window_at};

use crate::adjusted::AdjustedCheck;
use crate::events::Events;
use crate::parts::parts;
use crate::recent::{Recent, below};
use crate::windows::{Pair, hold_times, setup_times, size_of, skew_times, width_times};
use crate::{Part, Violation};
use sg_text::NoMemory;

/// A snapshot as a check sees it: its time, what happens, and the latest times before it and after it.
#[derive(Clone, Copy)]
pub struct Instant {
    pub time: u64,
    pub events: Events,
    pub before: Recent,
    pub after: Recent,
}

// The events by which a part is violated, if it is.
fn violating(part: Part, limit: i64, threshold: u64, now: Instant) -> Option<Pair>
    ensures { result ≡ violated_kept part limit threshold now }
{
    let size = size_of(limit);
    let Instant {
        time,
        events,
        before,
        after,
    } = now;
    match part {
        Part::Setup | Part::Removal => {
            setup_times(size, time, events.refer, below(before, time))
        }
        Part::Hold | Part::Recovery => hold_times(
            size,
            time,
            events.refer,
            events.datum,
            after.refer,
            after.datum,
        ),
        Part::Width => width_times(size, threshold, time, events.back, before.refer),
        Part::Period => width_times(size, 0, time, events.refer, before.refer),
        Part::Skew => skew_times(limit, time, events.datum, after.refer),
    }
}

// Adds a violation with these times, less how late the signals are seen, if there are some.
fn add(
    violations: &mut Vec<Violation>,
    number: u32,
    check: &AdjustedCheck<'_>,
    part: Part,
    limit: i64,
    times: Option<Pair>,
) -> Result<(), NoMemory>
    ensures found { OnOk result (map (λ v. violation_seen v) violations.new.items ≡ map (λ v. violation_seen v) violations.old.items ++ listed number (adjusted_seen check.now) part limit times) }
    ensures kept { Continues violations.old.items violations.new.items }
{
    if let Some((refer_time, datum_time)) = times {
        violations.push(Violation {
            check: number,
            part,
            refer_time: refer_time.saturating_sub(check.refer_delay),
            datum_time: datum_time.saturating_sub(check.datum_delay),
            limit,
        })?;
    }
    Ok(())
}

// Adds the violation of the part that stands at a place among a check's parts, if there is one.
fn judge_part(
    number: u32,
    check: &AdjustedCheck<'_>,
    place: usize,
    part: Part,
    now: Instant,
    violations: &mut Vec<Violation>,
) -> Result<(), NoMemory>
    requires { place < 2 }
    ensures found { OnOk result (map (λ v. violation_seen v) violations.new.items ≡ map (λ v. violation_seen v) violations.old.items
        ++ listed number (adjusted_seen check.now) part (limit_at (adjusted_seen check.now) place) (violated_kept part (window_at (adjusted_seen check.now) place) check.now.timing.now.threshold now)) }
    ensures kept { Continues violations.old.items violations.new.items }
{
    let times = violating(part, check.windows[place], check.timing.threshold, now);
    add(
        violations,
        number,
        check,
        part,
        check.timing.limits[place],
        times,
    )
}

/// Adds a check's violations.
pub fn judge(
    number: u32,
    check: &AdjustedCheck<'_>,
    now: Instant,
    violations: &mut Vec<Violation>,
) -> Result<(), NoMemory>
    ensures found { OnOk result (map (λ v. violation_seen v) violations.new.items ≡ map (λ v. violation_seen v) violations.old.items ++ found_at number (adjusted_seen check.now) now) }
    ensures kept { Continues violations.old.items violations.new.items }
{
    let (first, second) = parts(check.timing.kind);
    judge_part(number, check, 0, first, now, violations)?;
    if let Some(second) = second {
        judge_part(number, check, 1, second, now, violations)?;
    }
    Ok(())
}

// A snapshot as all timing checks see it.
ghost use Rattle.std.specs.Prelude.{◌≡◌, ◌++◌, ◌<◌, All, OnOk, length, map, slice_set};
ghost use Rattle.std.specs.List.{flat_map};
ghost use Rattle.sg_circuit.specs.FanOut.{IsFanOut};
ghost use Rattle.sg_logic.specs.declared.values.Value.TheVariants.{X};
ghost use Rattle.sg_model.specs.Values.{value_at};
ghost use Rattle.fan_round.specs.Lists.{at_places};
ghost use Rattle.fan_round.specs.Rounds.{IsOnce};
ghost use Rattle.fan_round.specs.States.{IsIdle};
ghost use Rattle.time_checks.specs.Checking.{found_in, latest_at, next_at, no_times, IsReady, SeesChanges};
ghost use Rattle.time_checks.specs.AdjustedSeen.{adjusted_seen, all_seen};
ghost use Rattle.time_checks.specs.Seen.{violation_seen, Continues};
ghost use Rattle.time_checks.specs.Watching.{watch_by};
ghost use Rattle.time_checks.specs.Within.{IsCheckWithin};

use crate::Violation;
use crate::adjusted::AdjustedCheck;
use crate::events::events_of;
use crate::judging::{Instant, judge};
use crate::recent::{Recent, after};
use crate::touching::list_touched;
use crate::watches::Watch;
use fan_round::{WorkList, clear_work};
use sg_circuit::{FanOut, NetId};
use sg_logic::Value;
use sg_text::NoMemory;

// One check: its violations are added, and its latest times put.
fn see_check(
    checks: &[AdjustedCheck<'_>],
    watches: &[Watch],
    number: u32,
    last: &[Value],
    values: &[Value],
    time: u64,
    latest: &mut [Recent],
    violations: &mut Vec<Violation>,
) -> Result<(), NoMemory>
    requires number { number < length checks.now }
    requires watches { watches.now ≡ map (λ c. watch_by c) (all_seen checks.now) }
    requires within { All (λ c. IsCheckWithin (adjusted_seen c) (length values.now)) checks.now }
    requires as_many { length last.now ≡ length values.now }
    requires each_check { length latest.old ≡ length checks.now }
    ensures latest { latest.new ≡ slice_set latest.old number (next_at (all_seen checks.now) last.now values.now time number (latest_at latest.old number)) }
    ensures found { OnOk result (map (λ v. violation_seen v) violations.new.items ≡ map (λ v. violation_seen v) violations.old.items ++ found_in (all_seen checks.now) last.now values.now time latest.old number) }
    ensures kept { Continues violations.old.items violations.new.items }
{
    let check = &checks[number as usize];
    let before = latest[number as usize];
    let events = events_of(check, &watches[number as usize], last, values);
    let after = after(before, events, time);
    latest[number as usize] = after;
    let now = Instant {
        time,
        events,
        before,
        after,
    };
    judge(number, check, now, violations)
}

// These checks, one after another.
fn see_checks(
    checks: &[AdjustedCheck<'_>],
    watches: &[Watch],
    work: &[u32],
    last: &[Value],
    values: &[Value],
    time: u64,
    latest: &mut [Recent],
    violations: &mut Vec<Violation>,
) -> Result<(), NoMemory>
    requires watches { watches.now ≡ map (λ c. watch_by c) (all_seen checks.now) }
    requires work { All (λ k. k < length checks.now) work.now }
    requires once { IsOnce work.now }
    requires within { All (λ c. IsCheckWithin (adjusted_seen c) (length values.now)) checks.now }
    requires as_many { length last.now ≡ length values.now }
    requires each_check { length latest.old ≡ length checks.now }
    ensures latest { OnOk result (latest.new ≡ at_places (next_at (all_seen checks.now) last.now values.now time) no_times work.now latest.old) }
    ensures found { OnOk result (map (λ v. violation_seen v) violations.new.items ≡ map (λ v. violation_seen v) violations.old.items ++ flat_map (found_in (all_seen checks.now) last.now values.now time latest.old) work.now) }
    ensures kept { Continues violations.old.items violations.new.items }
{
    for number in work {
        see_check(
            checks, watches, *number, last, values, time, latest, violations,
        )?;
    }
    Ok(())
}

/// The nets at the last snapshot are those at this one: only the changed ones are gone over.
pub fn follow(last: &mut [Value], values: &[Value], changed: &[NetId])
    requires as_many { length last.old ≡ length values.now }
    requires nets { All (λ net. net < length values.now) changed.now }
    ensures { last.new ≡ at_places (λ net old. value_at values.now net) X changed.now last.old }
{
    for net in changed {
        last[*net as usize] = values[*net as usize];
    }
}

/// The checks see what changed between two snapshots: violations are added, and the latest times put. It takes time in proportion to the changed nets and to the checks with a terminal on one of them, and to
/// putting these in order.
pub fn see_changes(
    checks: &[AdjustedCheck<'_>],
    watches: &[Watch],
    index: &FanOut,
    work: &mut WorkList,
    changed: &[NetId],
    last: &[Value],
    values: &[Value],
    time: u64,
    latest: &mut [Recent],
    violations: &mut Vec<Violation>,
) -> Result<(), NoMemory>
    requires ready { IsReady (all_seen checks.now) (length values.now) index.now work.old latest.old }
    requires watches { watches.now ≡ map (λ c. watch_by c) (all_seen checks.now) }
    requires as_many { length last.now ≡ length values.now }
    requires nets { All (λ net. net < length values.now) changed.now }
    ensures idle { IsIdle work.new (length checks.now) }
    ensures seen { OnOk result (SeesChanges (all_seen checks.now) changed.now last.now values.now time latest.old latest.new (map (λ v. violation_seen v) violations.old.items) (map (λ v. violation_seen v) violations.new.items)) }
    ensures kept { Continues violations.old.items violations.new.items }
{
    list_touched(changed, last, values, index, watches, work);
    let seen = see_checks(
        checks, watches, &work.list, last, values, time, latest, violations,
    );
    clear_work(&mut work.marks, &mut work.list);
    seen
}

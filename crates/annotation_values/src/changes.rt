// What a value of a list makes of one transition.
ghost use Rattle.std.specs.Prelude.{◌≡◌, ◌<◌, OnErr, OnOk, Some, false, slice_index_or, slice_set, true};
ghost use Rattle.sg_circuit.specs.Timings.{Timing};
ghost use Rattle.std.specs.Option.{option_map};
ghost use Rattle.sdf_meaning.specs.MeantSeen.{view_delay_value, view_limit_pair};
ghost use Rattle.sg_circuit.specs.TimingsSeen.{timings_of};
ghost use Rattle.sg_time.specs.Ticks as times;
ghost use Rattle.annotation_model.specs.Applied as def;
ghost use Rattle.annotation_values.specs.Seen.{grid_seen};
ghost use Rattle.annotation_values.specs.Transitions.{transition_seen, TellsTiming};

use crate::grids::Grid;
use crate::values::{TooLarge, chosen, chosen_limits, new_limit, sum_of};
use sdf_tree::DelayValue;
use sg_delay::Limit;

/// A transition's delay in ticks, and the limits of its pulses.
#[derive(Clone, Copy)]
pub struct Transition {
    pub delay: u64,
    pub limit: Limit,
}

fn is_large(ticks: i128) -> bool
    ensures { result ≡ def.is_large ticks }
{
    ticks.unsigned_abs() >= 1 << 60
}

// What lies below 0 is 0.
fn delay_of(ticks: i128) -> u64
    requires { def.is_large ticks ≡ false }
    ensures { result ≡ times.above ticks }
{
    if ticks < 0 { 0 } else { ticks as u64 }
}

// A delay and limits that aren't too large.
fn changed_by(
    increment: bool,
    delay: i64,
    limits: Option<(i64, i64)>,
    old: Transition,
) -> Result<Transition, TooLarge>
    requires delay { def.is_large delay ≡ false }
    requires limits { def.are_large limits ≡ false }
    ensures { TellsTiming (def.is_change_large increment (Some (record { delay = delay; limits = limits })) (transition_seen old)) (def.changed increment (Some (record { delay = delay; limits = limits })) (transition_seen old)) result }
{
    let sum = sum_of(increment, delay, old.delay);
    if is_large(sum) {
        return Err(TooLarge);
    }
    Ok(Transition {
        delay: delay_of(sum),
        limit: new_limit(limits, old.limit),
    })
}

// A delay that isn't too large, with the limits of its value.
fn with_delay(
    grid: Grid,
    increment: bool,
    delay: i64,
    value: &DelayValue,
    old: Transition,
) -> Result<Transition, TooLarge>
    requires { def.is_large delay ≡ false }
    ensures { TellsTiming (def.is_change_large increment (Some (record { delay = delay; limits = def.chosen_limits (grid_seen grid) (option_map view_limit_pair value.now.limits) })) (transition_seen old)) (def.changed increment (Some (record { delay = delay; limits = def.chosen_limits (grid_seen grid) (option_map view_limit_pair value.now.limits) })) (transition_seen old)) result }
{
    match chosen_limits(grid, &value.limits) {
        Ok(limits) => changed_by(increment, delay, limits, old),
        Err(refused) => Err(refused),
    }
}

/// A transition after a value of a list (IEEE 1497-2001, delay values): the same where the value has no delay for the corner. A value or
/// a sum of 2^60 ticks or more is TooLarge.
pub fn changed(
    grid: Grid,
    increment: bool,
    value: &DelayValue,
    old: Transition,
) -> Result<Transition, TooLarge>
    ensures { TellsTiming (def.is_change_large increment (def.change_of (grid_seen grid) (view_delay_value value.now)) (transition_seen old)) (def.changed increment (def.change_of (grid_seen grid) (view_delay_value value.now)) (transition_seen old)) result }
{
    match chosen(grid, &value.delay) {
        Ok(chosen) => match chosen {
            Some(delay) => with_delay(grid, increment, delay, value, old),
            None => Ok(old),
        },
        Err(refused) => Err(refused),
    }
}

/// One of the twelve transitions.
pub fn transition_at(delays: &[u64; 12], limits: &[Limit; 12], i: usize) -> Transition
    requires { i < 12 }
    ensures { (t : Timing) → transition_seen result ≡ slice_index_or (timings_of delays.now limits.now) i t }
{
    Transition {
        delay: delays[i],
        limit: limits[i],
    }
}

/// Sets one of the twelve transitions.
pub fn set_transition(delays: &mut [u64; 12], limits: &mut [Limit; 12], i: usize, new: Transition)
    requires { i < 12 }
    ensures { timings_of delays.new limits.new ≡ slice_set (timings_of delays.old limits.old) i (transition_seen new) }
{
    delays[i] = new.delay;
    limits[i] = new.limit;
}

/// Changes one of the twelve transitions by a value of a list; one that is TooLarge leaves it as it was.
pub fn change_at(
    grid: Grid,
    increment: bool,
    value: &DelayValue,
    delays: &mut [u64; 12],
    limits: &mut [Limit; 12],
    i: usize,
) -> Result<(), TooLarge>
    requires { i < 12 }
    ensures fine { OnOk result ((t : Timing) → def.is_change_large increment (def.change_of (grid_seen grid) (view_delay_value value.now)) (slice_index_or (timings_of delays.old limits.old) i t) ≡ false) }
    ensures changed { OnOk result ((t : Timing) → timings_of delays.new limits.new ≡ slice_set (timings_of delays.old limits.old) i (def.changed increment (def.change_of (grid_seen grid) (view_delay_value value.now)) (slice_index_or (timings_of delays.old limits.old) i t))) }
    ensures told { OnErr result ((t : Timing) → def.is_change_large increment (def.change_of (grid_seen grid) (view_delay_value value.now)) (slice_index_or (timings_of delays.old limits.old) i t) ≡ true) }
{
    let old = transition_at(delays, limits, i);
    let new = changed(grid, increment, value, old)?;
    set_transition(delays, limits, i, new);
    Ok(())
}

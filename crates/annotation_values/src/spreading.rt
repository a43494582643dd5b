// A list of delays over all twelve transitions.
ghost use Rattle.std.specs.Prelude.{◌≡◌, ◌≤◌, None, if◌then◌else◌, is_some, length};
ghost use Rattle.std.specs.List.{list_any};
ghost use Rattle.sg_circuit.specs.TimingsSeen.{leg_timing_seen, timings_of};
ghost use Rattle.sg_delay.specs.Expansion.{six};
ghost use Rattle.annotation_model.specs.Applied as def;
ghost use Rattle.annotation_values.specs.Changes.{change_seen, changes_seen, in_order};
ghost use Rattle.annotation_values.specs.Leg.{TellsAll};
ghost use Rattle.annotation_values.specs.Seen.{grid_seen};
ghost use Rattle.annotation_values.specs.Transitions.{transition_seen};

use crate::changes::{Transition, transition_at};
use crate::grids::Grid;
use crate::lists::change_list;
use crate::values::TooLarge;
use sdf_tree::DelayValue;
use sg_circuit::LegTiming;
use sg_delay::{Delays12, Limit, Limits12};

// What a list of 1, 2, 3 or 6 gives to the changes between 0, 1 and z, in the order 01, 10, 0z, z1, 1z, z0.
fn six_of(values: &[DelayValue]) -> Option<[DelayValue; 6]>
    ensures { result ≡ in_order (six values.now) }
{
    match values {
        [all] => Some([*all; 6]),
        [rise, fall] => Some([*rise, *fall, *rise, *rise, *fall, *fall]),
        [rise, fall, off] => Some([*rise, *fall, *off, *rise, *off, *fall]),
        [t01, t10, t0z, tz1, t1z, tz0] => Some([*t01, *t10, *t0z, *tz1, *t1z, *tz0]),
        _ => None,
    }
}

// The one with the lesser delay; of equal ones the first.
fn lesser(a: Transition, b: Transition) -> Transition
    ensures { transition_seen result ≡ def.lesser (transition_seen a) (transition_seen b) }
{
    if a.delay <= b.delay { a } else { b }
}

// The one with the greater delay; of equal ones the first.
fn greater(a: Transition, b: Transition) -> Transition
    ensures { transition_seen result ≡ def.greater (transition_seen a) (transition_seen b) }
{
    if b.delay <= a.delay { a } else { b }
}

// Whether a value gives something at the corner.
fn is_given(grid: Grid, value: &DelayValue) -> bool
    ensures { result ≡ is_some (change_seen (grid_seen grid) value.now) }
{
    value.delay.part(grid.corner).is_some()
}

// Whether one of these values gives something at the corner.
fn is_some_given(grid: Grid, values: &[DelayValue]) -> bool
    ensures { result ≡ list_any (λ v. is_some (change_seen (grid_seen grid) v)) values.now }
{
    values.iter().any(|value| is_given(grid, value))
}

// The transitions after a value for each, as far as there are values.
fn with_each(
    grid: Grid,
    increment: bool,
    values: &[DelayValue],
    timing: &LegTiming,
) -> Result<LegTiming, TooLarge>
    requires { length values.now ≤ 12 }
    ensures { TellsAll (def.is_each_large increment (changes_seen (grid_seen grid) values.now) (leg_timing_seen timing.now)) (def.changed_each increment (changes_seen (grid_seen grid) values.now) (leg_timing_seen timing.now)) result }
{
    let mut delays = timing.delays.at;
    let mut limits = timing.limits.at;
    change_list(grid, increment, values, &mut delays, &mut limits)?;
    Ok(LegTiming {
        delays: Delays12 { at: delays },
        limits: Limits12 { at: limits },
    })
}

// The transitions to and from x anew, from those between 0, 1 and z, each with the limits of the one whose delay it takes.
fn with_x(delays: &[u64; 12], limits: &[Limit; 12]) -> LegTiming
    ensures { leg_timing_seen result ≡ def.with_x (timings_of delays.now limits.now) }
{
    let t01 = transition_at(delays, limits, 0);
    let t10 = transition_at(delays, limits, 1);
    let t0z = transition_at(delays, limits, 2);
    let tz1 = transition_at(delays, limits, 3);
    let t1z = transition_at(delays, limits, 4);
    let tz0 = transition_at(delays, limits, 5);
    let t0x = lesser(t0z, t01);
    let tx1 = greater(tz1, t01);
    let t1x = lesser(t1z, t10);
    let tx0 = greater(tz0, t10);
    let txz = greater(t1z, t0z);
    let tzx = lesser(tz1, tz0);
    LegTiming {
        delays: Delays12 {
            at: [
                t01.delay, t10.delay, t0z.delay, tz1.delay, t1z.delay, tz0.delay, t0x.delay,
                tx1.delay, t1x.delay, tx0.delay, txz.delay, tzx.delay,
            ],
        },
        limits: Limits12 {
            at: [
                t01.limit, t10.limit, t0z.limit, tz1.limit, t1z.limit, tz0.limit, t0x.limit,
                tx1.limit, t1x.limit, tx0.limit, txz.limit, tzx.limit,
            ],
        },
    }
}

// Those to and from x anew where it is wanted.
fn with_x_if(wanted: bool, timing: LegTiming) -> LegTiming
    ensures { leg_timing_seen result ≡ (if wanted then def.with_x (leg_timing_seen timing) else leg_timing_seen timing) }
{
    if wanted {
        with_x(&timing.delays.at, &timing.limits.at)
    } else {
        timing
    }
}

// What is given for each change between 0, 1 and z; where something is, those to and from x follow.
fn with_six(
    grid: Grid,
    increment: bool,
    six: &[DelayValue; 6],
    timing: &LegTiming,
) -> Result<LegTiming, TooLarge>
    ensures { TellsAll (def.is_each_large increment (changes_seen (grid_seen grid) six.now) (leg_timing_seen timing.now)) (if list_any (λ c. is_some c) (changes_seen (grid_seen grid) six.now) then def.with_x (def.changed_each increment (changes_seen (grid_seen grid) six.now) (leg_timing_seen timing.now)) else def.changed_each increment (changes_seen (grid_seen grid) six.now) (leg_timing_seen timing.now)) result }
{
    match with_each(grid, increment, six, timing) {
        Ok(new) => Ok(with_x_if(is_some_given(grid, six), new)),
        Err(refused) => Err(refused),
    }
}

// Twelve values are for one transition each; a list of another length gives nothing.
fn with_twelve(
    grid: Grid,
    increment: bool,
    values: &[DelayValue],
    timing: &LegTiming,
) -> Result<LegTiming, TooLarge>
    requires { six values.now ≡ None }
    ensures { TellsAll (def.is_each_large increment (def.spread (changes_seen (grid_seen grid) values.now)) (leg_timing_seen timing.now)) (def.with_changes increment (changes_seen (grid_seen grid) values.now) (leg_timing_seen timing.now)) result }
{
    if values.len() != 12 {
        return Ok(*timing);
    }
    with_each(grid, increment, values, timing)
}

/// The timing of a path or a leg after a list of 1, 2, 3, 6 or 12 values (IEEE 1497-2001, delay values): twelve change each transition that
/// has a value for the corner; fewer change those between 0, 1 and z, and where something is given those to and from x are made
/// anew. A list of another length changes nothing. A value or a sum of 2^60 ticks or more is TooLarge.
pub fn with_list(
    grid: Grid,
    increment: bool,
    values: &[DelayValue],
    timing: &LegTiming,
) -> Result<LegTiming, TooLarge>
    ensures { TellsAll (def.is_each_large increment (def.spread (changes_seen (grid_seen grid) values.now)) (leg_timing_seen timing.now)) (def.with_changes increment (changes_seen (grid_seen grid) values.now) (leg_timing_seen timing.now)) result }
{
    match six_of(values) {
        Some(six) => with_six(grid, increment, &six, timing),
        None => with_twelve(grid, increment, values, timing),
    }
}

// Limits of pulses for all transitions of a path.
ghost use Rattle.std.specs.Prelude.{ℕ, ◌≡◌, ◌<◌, ◌^◌, OnErr, OnOk, Some, false, length, map, not, nat_lt, replicate, true};
ghost use Rattle.std.specs.Option.{option_map};
ghost use Rattle.sdf_meaning.specs.MeantSeen.{view_triple};
ghost use Rattle.sg_circuit.specs.TimingsSeen.{leg_timing_seen, limit_seen, timings_of};
ghost use Rattle.sg_time.specs.Seen.{number as number_seen};
ghost use Rattle.annotation_model.specs.Applied as def;
ghost use Rattle.annotation_values.specs.Leg.{TellsAll, TellsLimit};
ghost use Rattle.annotation_values.specs.Seen.{grid_seen, Tells};

use crate::grids::Grid;
use crate::values::{TooLarge, both, limit_of};
use sg_circuit::LegTiming;
use sg_delay::{Limit, Limits12, Triple, Widths};
use sg_time::Decimal;

// A missing error limit is the reject limit.
fn pulse_limits(
    grid: Grid,
    reject: &Triple,
    error: &Option<Triple>,
) -> Result<Option<(i64, i64)>, TooLarge>
    ensures { Tells (def.are_large (def.pulse_limits (grid_seen grid) (view_triple reject.now) (option_map view_triple error.now))) (def.pulse_limits (grid_seen grid) (view_triple reject.now) (option_map view_triple error.now)) result }
{
    match error {
        Some(error) => both(grid, reject, error),
        None => both(grid, reject, reject),
    }
}

fn set_all(limit: Limit, limits: &mut [Limit; 12])
    ensures { limits.new ≡ replicate (length limits.old) limit }
{
    *limits = [limit; 12];
}

// The same limit for all twelve.
fn with_limit(limit: Limit, timing: &LegTiming) -> LegTiming
    ensures { (w : ℕ × ℕ) → limit_seen limit ≡ Some w → leg_timing_seen result ≡ map (def.limited w) (leg_timing_seen timing.now) }
{
    let mut limits = timing.limits.at;
    set_all(limit, &mut limits);
    LegTiming {
        delays: timing.delays,
        limits: Limits12 { at: limits },
    }
}

// The same two limits for all twelve, where there are any.
fn with_both(limits: Option<(i64, i64)>, timing: &LegTiming) -> LegTiming
    ensures { leg_timing_seen result ≡ def.with_pulses limits (leg_timing_seen timing.now) }
{
    match limits {
        Some(limits) => with_limit(limit_of(limits), timing),
        None => *timing,
    }
}

/// The timing of a path after PATHPULSE (IEEE 1497-2001): the two limits, in ticks, for all twelve transitions, where both have a value for
/// the corner; a missing second one is the first. What lies below 0 is 0. 2^60 ticks and more is TooLarge.
pub fn with_pulses(
    grid: Grid,
    reject: &Triple,
    error: &Option<Triple>,
    timing: &LegTiming,
) -> Result<LegTiming, TooLarge>
    ensures { TellsAll (def.are_large (def.pulse_limits (grid_seen grid) (view_triple reject.now) (option_map view_triple error.now))) (def.with_pulses (def.pulse_limits (grid_seen grid) (view_triple reject.now) (option_map view_triple error.now)) (leg_timing_seen timing.now)) result }
{
    match pulse_limits(grid, reject, error) {
        Ok(limits) => Ok(with_both(limits, timing)),
        Err(refused) => Err(refused),
    }
}

// Those percentages of a delay.
fn percent_limit(reject: &Decimal, error: &Decimal, delay: u64) -> Result<Limit, TooLarge>
    ensures { TellsLimit (not (nat_lt (def.percents (number_seen reject.now, number_seen error.now) delay).1 (2 ^ 60))) (def.percents (number_seen reject.now, number_seen error.now) delay) result }
{
    match reject.percent_of(delay) {
        Ok(reject) => match error.percent_of(delay) {
            Ok(error) => Ok(Limit::Own(Widths {
                reject,
                error: u64::max(reject, error),
            })),
            Err(_) => Err(TooLarge),
        },
        Err(_) => Err(TooLarge),
    }
}

// Each transition's limits are those percentages of its delay.
fn set_percents(
    reject: &Decimal,
    error: &Decimal,
    delays: &[u64; 12],
    limits: &mut [Limit; 12],
) -> Result<(), TooLarge>
    ensures fine { OnOk result (def.is_percent_large (Some (number_seen reject.now, number_seen error.now)) (timings_of delays.now limits.old) ≡ false) }
    ensures changed { OnOk result (timings_of delays.now limits.new ≡ def.with_percents (Some (number_seen reject.now, number_seen error.now)) (timings_of delays.now limits.old)) }
    ensures told { OnErr result (def.is_percent_large (Some (number_seen reject.now, number_seen error.now)) (timings_of delays.now limits.old) ≡ true) }
{
    for i in 0..12 {
        limits[i] = percent_limit(reject, error, delays[i])?;
    }
    Ok(())
}

// Two percentages.
fn with_numbers(
    reject: &Decimal,
    error: &Decimal,
    timing: &LegTiming,
) -> Result<LegTiming, TooLarge>
    ensures { TellsAll (def.is_percent_large (Some (number_seen reject.now, number_seen error.now)) (leg_timing_seen timing.now)) (def.with_percents (Some (number_seen reject.now, number_seen error.now)) (leg_timing_seen timing.now)) result }
{
    let delays = timing.delays.at;
    let mut limits = timing.limits.at;
    set_percents(reject, error, &delays, &mut limits)?;
    Ok(LegTiming {
        delays: timing.delays,
        limits: Limits12 { at: limits },
    })
}

// Two percentages, where both have a value for the corner.
fn with_parts(
    grid: Grid,
    reject: &Triple,
    error: &Triple,
    timing: &LegTiming,
) -> Result<LegTiming, TooLarge>
    ensures { TellsAll (def.is_percent_large (def.both_numbers (def.part_of grid.corner (view_triple reject.now)) (def.part_of grid.corner (view_triple error.now))) (leg_timing_seen timing.now)) (def.with_percents (def.both_numbers (def.part_of grid.corner (view_triple reject.now)) (def.part_of grid.corner (view_triple error.now))) (leg_timing_seen timing.now)) result }
{
    match reject.part(grid.corner) {
        Some(first) => match error.part(grid.corner) {
            Some(second) => with_numbers(&first, &second, timing),
            None => Ok(*timing),
        },
        None => Ok(*timing),
    }
}

/// The timing of a path after PATHPULSEPERCENT (IEEE 1497-2001): the two limits of each transition, in ticks, are those percentages of its
/// delay as it stands, where both have a value for the corner; a missing second one is the first. What lies below 0 is 0. 2^60 ticks and
/// more is TooLarge.
pub fn with_percents(
    grid: Grid,
    reject: &Triple,
    error: &Option<Triple>,
    timing: &LegTiming,
) -> Result<LegTiming, TooLarge>
    ensures { TellsAll (def.is_percent_large (def.pulse_numbers (grid_seen grid) (view_triple reject.now) (option_map view_triple error.now)) (leg_timing_seen timing.now)) (def.with_percents (def.pulse_numbers (grid_seen grid) (view_triple reject.now) (option_map view_triple error.now)) (leg_timing_seen timing.now)) result }
{
    match error {
        Some(error) => with_parts(grid, reject, error, timing),
        None => with_parts(grid, reject, reject, timing),
    }
}

// Values in ticks.
ghost use Rattle.std.specs.Prelude.{◌≡◌, ◌<◌, ◌^◌, ◌||◌, IfOk, IfSome, Some, unsigned_abs};
ghost use Rattle.sdf_meaning.specs.MeantSeen.{view_limit_pair, view_triple};
ghost use Rattle.sg_circuit.specs.TimingsSeen.{limit_seen};
ghost use Rattle.sg_time.specs.Seen.{number as number_seen};
ghost use Rattle.sg_time.specs.Ticks as times;
ghost use Rattle.annotation_model.specs.Applied as def;
ghost use Rattle.std.specs.Option.{option_map};
ghost use Rattle.annotation_values.specs.Seen.{grid_seen, is_value_large, Tells};

use crate::grids::Grid;
use sdf_tree::LimitPair;
use sg_delay::{Limit, Triple, Widths};
use sg_time::Decimal;

/// A value, or what it makes, is 2^60 ticks or more, or as far below 0.
#[derive(Clone, Copy)]
pub struct TooLarge;

/// So many ticks a number of a file is; below 0 too. 2^60 and more is TooLarge.
pub fn ticks(grid: Grid, number: &Decimal) -> Result<i64, TooLarge>
    ensures told { Tells (def.is_large (def.ticks_of (grid_seen grid) (number_seen number.now))) (def.ticks_of (grid_seen grid) (number_seen number.now)) result }
    ensures fits { IfOk result (λ t. unsigned_abs t < 2 ^ 60) }
{
    match number.to_ticks(grid.unit, grid.precision, grid.tick) {
        Ok(ticks) => Ok(ticks),
        Err(_) => Err(TooLarge),
    }
}

/// The value of a triple's corner in ticks, if it has one (IEEE 1497-2001, triples).
pub fn chosen(grid: Grid, triple: &Triple) -> Result<Option<i64>, TooLarge>
    ensures told { Tells (is_value_large (def.chosen (grid_seen grid) (view_triple triple.now))) (def.chosen (grid_seen grid) (view_triple triple.now)) result }
    ensures fits { IfOk result (λ o. IfSome o (λ t. unsigned_abs t < 2 ^ 60)) }
{
    match triple.part(grid.corner) {
        Some(number) => match ticks(grid, &number) {
            Ok(ticks) => Ok(Some(ticks)),
            Err(error) => Err(error),
        },
        None => Ok(None),
    }
}

/// A number of ticks; what lies below 0 is 0.
pub fn above(ticks: i64) -> u64
    ensures { result ≡ times.above ticks }
{
    if ticks < 0 { 0 } else { ticks as u64 }
}

/// A delay, in ticks, replaces the one before it, or is added to it (IEEE 1497-2001, ABSOLUTE and INCREMENT).
pub fn sum_of(increment: bool, delay: i64, old: u64) -> i128
    ensures { result ≡ def.sum_of increment delay old }
{
    if increment {
        i128::from(old) + i128::from(delay)
    } else {
        i128::from(delay)
    }
}

// Two numbers of ticks.
fn pair(grid: Grid, reject: &Decimal, error: &Decimal) -> Result<Option<(i64, i64)>, TooLarge>
    ensures { Tells (def.is_large (def.ticks_of (grid_seen grid) (number_seen reject.now)) || def.is_large (def.ticks_of (grid_seen grid) (number_seen error.now))) (Some (def.ticks_of (grid_seen grid) (number_seen reject.now), def.ticks_of (grid_seen grid) (number_seen error.now))) result }
{
    match ticks(grid, reject) {
        Ok(reject) => match ticks(grid, error) {
            Ok(error) => Ok(Some((reject, error))),
            Err(refused) => Err(refused),
        },
        Err(refused) => Err(refused),
    }
}

/// Two limits in ticks, where both have a value for the corner; else none.
pub fn both(grid: Grid, reject: &Triple, error: &Triple) -> Result<Option<(i64, i64)>, TooLarge>
    ensures { Tells (def.are_large (def.both (def.chosen (grid_seen grid) (view_triple reject.now)) (def.chosen (grid_seen grid) (view_triple error.now)))) (def.both (def.chosen (grid_seen grid) (view_triple reject.now)) (def.chosen (grid_seen grid) (view_triple error.now))) result }
{
    match reject.part(grid.corner) {
        Some(first) => match error.part(grid.corner) {
            Some(second) => pair(grid, &first, &second),
            None => Ok(None),
        },
        None => Ok(None),
    }
}

/// The limits of pulses of a value of a list, in ticks, where both are given (IEEE 1497-2001, delay values).
pub fn chosen_limits(grid: Grid, limits: &Option<LimitPair>) -> Result<Option<(i64, i64)>, TooLarge>
    ensures { Tells (def.are_large (def.chosen_limits (grid_seen grid) (option_map view_limit_pair limits.now))) (def.chosen_limits (grid_seen grid) (option_map view_limit_pair limits.now)) result }
{
    match limits {
        Some(pair) => both(grid, &pair.reject, &pair.error),
        None => Ok(None),
    }
}

/// Two limits in ticks. What lies below 0 is 0, and the error limit isn't below the reject limit.
pub fn limit_of(limits: (i64, i64)) -> Limit
    ensures { limit_seen result ≡ Some (def.limits_from limits) }
{
    let (reject, error) = limits;
    Limit::Own(Widths {
        reject: above(reject),
        error: u64::max(above(reject), above(error)),
    })
}

/// Limits, in ticks, replace those before them; without any they stay. What lies below 0 is 0.
pub fn new_limit(limits: Option<(i64, i64)>, old: Limit) -> Limit
    ensures { limit_seen result ≡ def.new_limits limits (limit_seen old) }
{
    match limits {
        Some(limits) => limit_of(limits),
        None => old,
    }
}

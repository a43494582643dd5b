// Limits of timing checks.
ghost use Rattle.std.specs.Prelude.{ℤ, ◌≡◌, ◌<◌, Some, slice_index_or};
ghost use Rattle.sdf_meaning.specs.MeantSeen.{view_cell_check, view_triple};
ghost use Rattle.sdf_tree.specs.Meant.{pair_check, single_check, window_check};
ghost use Rattle.sdf_tree.specs.Written.{Terminal};
ghost use Rattle.annotation_model.specs.Applied as def;
ghost use Rattle.annotation_model.specs.Matching as matching;
ghost use Rattle.annotation_values.specs.Seen.{grid_seen, Tells};
ghost use Rattle.annotation_values.specs.Limits.{bounds_seen, changed_limits, parts_seen, TellsLimits};
ghost use Rattle.std.specs.Option.{option_map};

use crate::bounds::Bounds;
use crate::grids::Grid;
use crate::values::{TooLarge, chosen};
use sdf_tree::{CellCheck, PairCheck, SingleCheck, WindowCheck};
use sg_circuit::CheckKind;
use sg_delay::Triple;

// The limit of a part in ticks; without a value for the corner it stays.
fn limit_or(bounds: Bounds, limit: Option<i64>, old: i64) -> i64
    ensures { result ≡ def.limit_or (bounds_seen bounds).signed limit old }
{
    match (limit, bounds) {
        (Some(limit), Bounds::Signed { .. }) => limit,
        (Some(limit), Bounds::Unsigned) => i64::max(limit, 0),
        (None, _) => old,
    }
}

fn limit_at(bounds: Bounds, limit: Option<i64>, limits: &[i64; 2], part: usize) -> i64
    requires { part < 2 }
    ensures { (d : ℤ) → result ≡ def.limit_or (bounds_seen bounds).signed limit (slice_index_or limits.now part d) }
{
    limit_or(bounds, limit, limits[part])
}

// Whether a limit's size, as often as it weighs, is 2^60 ticks or more.
fn is_limit_large(bounds: Bounds, limit: i64) -> bool
    ensures { result ≡ def.is_limit_large (bounds_seen bounds).weight (Some limit) }
{
    u128::from(limit.unsigned_abs()) * u128::from(bounds.weight()) >= 1 << 60
}

fn chosen_limit(bounds: Bounds, grid: Grid, limit: &Triple) -> Result<Option<i64>, TooLarge>
    ensures { Tells (def.is_limit_large (bounds_seen bounds).weight (def.chosen (grid_seen grid) (view_triple limit.now))) (def.chosen (grid_seen grid) (view_triple limit.now)) result }
{
    match chosen(grid, limit) {
        Ok(Some(ticks)) if is_limit_large(bounds, ticks) => Err(TooLarge),
        Ok(ticks) => Ok(ticks),
        Err(refused) => Err(refused),
    }
}

fn chosen_if(bounds: Bounds, grid: Grid, limit: &Option<Triple>) -> Result<Option<i64>, TooLarge>
    ensures { Tells (def.is_limit_large (bounds_seen bounds).weight (def.chosen_if (grid_seen grid) (option_map view_triple limit.now))) (def.chosen_if (grid_seen grid) (option_map view_triple limit.now)) result }
{
    match limit {
        Some(limit) => chosen_limit(bounds, grid, limit),
        None => Ok(None),
    }
}

fn for_pair(check: PairCheck, limit: &Triple, kind: CheckKind) -> (Option<Triple>, Option<Triple>)
    ensures { (f s : Terminal) → parts_seen result ≡ matching.limits_for (pair_check check f s (view_triple limit.now)) kind }
{
    match (check, kind) {
        (PairCheck::Setup, CheckKind::Setup) => (Some(*limit), None),
        (PairCheck::Setup, CheckKind::Setuphold) => (Some(*limit), None),
        (PairCheck::Hold, CheckKind::Hold) => (Some(*limit), None),
        (PairCheck::Hold, CheckKind::Setuphold) => (None, Some(*limit)),
        (PairCheck::Recovery, CheckKind::Recovery) => (Some(*limit), None),
        (PairCheck::Recovery, CheckKind::Recrem) => (Some(*limit), None),
        (PairCheck::Removal, CheckKind::Removal) => (Some(*limit), None),
        (PairCheck::Removal, CheckKind::Recrem) => (None, Some(*limit)),
        (PairCheck::Skew, CheckKind::Skew) => (Some(*limit), None),
        _ => (None, None),
    }
}

fn for_window(
    check: WindowCheck,
    first: &Triple,
    second: &Triple,
    kind: CheckKind,
) -> (Option<Triple>, Option<Triple>)
    ensures { (f s : Terminal) → parts_seen result ≡ matching.limits_for (window_check check f s (view_triple first.now) (view_triple second.now)) kind }
{
    match (check, kind) {
        (WindowCheck::SetupHold, CheckKind::Setuphold) => (Some(*first), Some(*second)),
        (WindowCheck::SetupHold, CheckKind::Setup) => (Some(*first), None),
        (WindowCheck::SetupHold, CheckKind::Hold) => (Some(*second), None),
        (WindowCheck::RecRem, CheckKind::Recrem) => (Some(*first), Some(*second)),
        (WindowCheck::RecRem, CheckKind::Recovery) => (Some(*first), None),
        (WindowCheck::RecRem, CheckKind::Removal) => (Some(*second), None),
        _ => (None, None),
    }
}

fn for_single(
    check: SingleCheck,
    limit: &Triple,
    kind: CheckKind,
) -> (Option<Triple>, Option<Triple>)
    ensures { (t : Terminal) → parts_seen result ≡ matching.limits_for (single_check check t (view_triple limit.now)) kind }
{
    match (check, kind) {
        (SingleCheck::Width, CheckKind::Width) => (Some(*limit), None),
        (SingleCheck::Period, CheckKind::Period) => (Some(*limit), None),
        _ => (None, None),
    }
}

/// Which limit an entry gives to the first part of a timing check, and which to the second (IEEE 1497-2001, timing check entries).
pub fn limits_for(check: &CellCheck<'_>, kind: CheckKind) -> (Option<Triple>, Option<Triple>)
    ensures { parts_seen result ≡ matching.limits_for (view_cell_check check.now) kind }
{
    match check {
        CellCheck::Pair { check, limit, .. } => for_pair(*check, limit, kind),
        CellCheck::Window {
            check,
            first_limit,
            second_limit,
            ..
        } => for_window(*check, first_limit, second_limit, kind),
        CellCheck::Single { check, limit, .. } => for_single(*check, limit, kind),
    }
}

fn with_both(bounds: Bounds, first: Option<i64>, second: Option<i64>, limits: &[i64; 2]) -> [i64; 2]
    ensures { result ≡ changed_limits (bounds_seen bounds).signed first second limits.now }
{
    [
        limit_at(bounds, first, limits, 0),
        limit_at(bounds, second, limits, 1),
    ]
}

/// The limits of a timing check, in ticks, after those that an entry gives to its parts (IEEE 1497-2001, timing check entries): one that is
/// given replaces the one before it, and one below 0 is 0 where there may be none. A size that, as often as it weighs, is 2^60 ticks or more
/// is TooLarge.
pub fn with_limits(
    bounds: Bounds,
    grid: Grid,
    first: &Option<Triple>,
    second: &Option<Triple>,
    limits: &[i64; 2],
) -> Result<[i64; 2], TooLarge>
    ensures { TellsLimits (def.are_limits_large (bounds_seen bounds) (grid_seen grid) (option_map view_triple first.now, option_map view_triple second.now)) (def.with_limits (bounds_seen bounds) (grid_seen grid) (option_map view_triple first.now, option_map view_triple second.now) limits.now) result }
{
    match chosen_if(bounds, grid, first) {
        Ok(first) => match chosen_if(bounds, grid, second) {
            Ok(second) => Ok(with_both(bounds, first, second, limits)),
            Err(refused) => Err(refused),
        },
        Err(refused) => Err(refused),
    }
}

/// The limits of a timing check of a kind, in ticks, after an entry that is for it (IEEE 1497-2001, timing check entries): those of the parts
/// that the entry gives a value for the corner are replaced, by 0 where none may lie below. A size that, as often as it weighs, is 2^60 ticks
/// or more is TooLarge.
pub fn apply_check(
    grid: Grid,
    check: &CellCheck<'_>,
    kind: CheckKind,
    bounds: Bounds,
    limits: &[i64; 2],
) -> Result<[i64; 2], TooLarge>
    ensures { TellsLimits (def.are_limits_large (bounds_seen bounds) (grid_seen grid) (matching.limits_for (view_cell_check check.now) kind)) (def.with_limits (bounds_seen bounds) (grid_seen grid) (matching.limits_for (view_cell_check check.now) kind) limits.now) result }
{
    let (first, second) = limits_for(check, kind);
    with_limits(bounds, grid, &first, &second, limits)
}

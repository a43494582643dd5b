// Limits of timing checks in ticks.
ghost use Rattle.std.specs.Prelude.{◌≡◌, ◌+◌, ◌*◌, ◌<◌, ◌^◌, ◌-ℤ◌, pos, false, if◌then◌else◌, IfOk, flat_map, unsigned_abs};
ghost use Rattle.vl_tree.specs.Seen.{view_limit, view_signed};
ghost use Rattle.specify_model.specs.CheckFaults as faults;
ghost use Rattle.specify_model.specs.Checks as def;
ghost use Rattle.specify_model.specs.Faults.{unknown_faults};
ghost use Rattle.specify_values.specs.Seen.{is_too_long, measured, values_of};
ghost use Rattle.specify_values.specs.Telling.{Tells};

use crate::amounts::{amount_ticks, check_known, place_of};
use crate::measures::Measure;
use crate::parameters::Parameters;
use elab_model::ElabKind;
use sg_delay::Corner;
use sg_text::Refused;
use vl_tree::{Limit, SignedAmount};

const LIMIT: u128 = 1 << 60;

// Refuses a specparam that there isn't, in any part.
fn check_parts_known(parameters: &Parameters, limit: &Limit) -> Result<(), Refused<ElabKind>>
    ensures { Tells (flat_map (λ a. unknown_faults (values_of parameters.now) a.amount) (faults.limit_parts (view_limit limit.now))) result }
{
    match limit {
        Limit::One(part) => check_known(parameters, &part.amount),
        Limit::Three { min, typ, max } => {
            check_known(parameters, &min.amount)?;
            check_known(parameters, &typ.amount)?;
            check_known(parameters, &max.amount)
        }
    }
}

// The part that a corner takes.
fn corner_part<'a>(corner: Corner, limit: &Limit<'a>) -> SignedAmount<'a>
    ensures { view_signed result ≡ def.corner_limit corner (view_limit limit.now) }
{
    match (limit, corner) {
        (Limit::One(part), _) => *part,
        (Limit::Three { min, .. }, Corner::Min) => *min,
        (Limit::Three { typ, .. }, Corner::Typ) => *typ,
        (Limit::Three { max, .. }, Corner::Max) => *max,
    }
}

// A size comes to 2^60 ticks once each of so many signals bears it, and once besides.
fn is_heavy(ticks: u64, signals: usize) -> bool
    ensures { result ≡ is_too_long (ticks * (signals + 1)) }
{
    u128::from(ticks) * (signals as u128 + 1) >= LIMIT
}

// The size of a part. Refuses one that is too long (BadDelay, at the amount).
fn part_ticks(
    by: Measure,
    parameters: &Parameters,
    signals: usize,
    part: &SignedAmount,
) -> Result<u64, Refused<ElabKind>>
    ensures size { IfOk result (λ n. n ≡ def.size_ticks (measured by) (values_of parameters.now) (view_signed part.now)) }
    ensures fits { IfOk result (λ n. is_too_long n ≡ false) }
    ensures told { Tells (faults.heavy_faults (signals + 1) (measured by) (values_of parameters.now) (view_signed part.now)) result }
{
    let ticks = amount_ticks(by, parameters, &part.amount)?;
    if is_heavy(ticks, signals) {
        return Err(Refused::Fault {
            kind: ElabKind::BadDelay,
            place: place_of(&part.amount),
        });
    }
    Ok(ticks)
}

fn signed(negative: bool, ticks: u64) -> i64
    requires { ticks < 2 ^ 60 }
    ensures signed { result ≡ (if negative then (pos 0 -ℤ pos ticks) else pos ticks) }
    ensures fits { unsigned_abs result < 2 ^ 60 }
{
    if negative {
        -(ticks as i64)
    } else {
        ticks as i64
    }
}

/// The limit of a timing check in ticks (IEEE 1364-2005, clause 15), which may lie below 0. Refuses a specparam that there isn't, in any of its parts, and of the corner's part what comes to
/// 2^60 ticks and more where it is added up once, and once more for each of so many signals (BadDelay), at the amount. Takes no memory.
pub fn limit_ticks(
    by: Measure,
    parameters: &Parameters,
    signals: usize,
    limit: &Limit,
) -> Result<i64, Refused<ElabKind>>
    ensures ticks { IfOk result (λ l. l ≡ def.limit_ticks (measured by) (values_of parameters.now) (view_limit limit.now)) }
    ensures fits { IfOk result (λ l. unsigned_abs l < 2 ^ 60) }
    ensures told { Tells (faults.limit_faults (signals + 1) (measured by) (values_of parameters.now) (view_limit limit.now)) result }
{
    check_parts_known(parameters, limit)?;
    let part = corner_part(by.corner, limit);
    let ticks = part_ticks(by, parameters, signals, &part)?;
    Ok(signed(part.negative, ticks))
}

/// The threshold of a timing check in ticks, which has no sign (IEEE 1364-2005, 15.3.4). Refuses what `limit_ticks` does without signals. Takes no memory.
pub fn threshold_ticks(
    by: Measure,
    parameters: &Parameters,
    threshold: &Limit,
) -> Result<u64, Refused<ElabKind>>
    ensures ticks { IfOk result (λ n. n ≡ def.size_ticks (measured by) (values_of parameters.now) (def.corner_limit by.corner (view_limit threshold.now))) }
    ensures told { Tells (faults.limit_faults 1 (measured by) (values_of parameters.now) (view_limit threshold.now)) result }
{
    check_parts_known(parameters, threshold)?;
    part_ticks(by, parameters, 0, &corner_part(by.corner, threshold))
}

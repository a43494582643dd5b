// Numbers of a corner in ticks.
ghost use Rattle.std.specs.Prelude.{◌≡◌, ◌≤ℤ◌, true, false, nat_le, IfSome, IfNone};
ghost use Rattle.std.specs.Option.{OnSome};
ghost use Rattle.sg_time.specs.Seen.{number};
ghost use Rattle.vl_tree.specs.Seen.{view_mtm};
ghost use Rattle.vl_tree.specs.SeenOfToken.{timescale};
ghost use Rattle.elab_model.specs.Delays.{corner_part, ticks_of};
ghost use Rattle.elab_model.specs.TerminalFaults.{delay_limit};

use sg_circuit::Corner;
use sg_time::{Decimal, Scale, Unit};
use vl_tree::MinTypMax;

/// A corner's part of a value in ticks, where it stands in a module of this scale (IEEE 1364-2005, 7.14.1, 19.8). None for 2^60 and more. Takes no memory.
pub fn ticks(corner: Corner, tick: Unit, scale: Scale, value: &MinTypMax) -> Option<u64>
    requires { tick.power ≤ℤ scale.precision.power }
    ensures size { IfSome result (λ n. n ≡ ticks_of corner tick.power (timescale scale) (view_mtm value.now)) }
    ensures fits { OnSome result (nat_le delay_limit (ticks_of corner tick.power (timescale scale) (view_mtm value.now)) ≡ false) }
    ensures too_long { IfNone result (nat_le delay_limit (ticks_of corner tick.power (timescale scale) (view_mtm value.now)) ≡ true) }
{
    match part(corner, value).to_ticks(scale.unit, scale.precision, tick) {
        Ok(ticks) => Some(ticks.unsigned_abs()),
        Err(_) => None,
    }
}

// The part of a value that a corner takes.
fn part(corner: Corner, value: &MinTypMax) -> Decimal
    ensures { number result ≡ corner_part corner (view_mtm value.now) }
{
    match (value, corner) {
        (MinTypMax::One(value), _) => *value,
        (MinTypMax::Three { min, .. }, Corner::Min) => *min,
        (MinTypMax::Three { typ, .. }, Corner::Typ) => *typ,
        (MinTypMax::Three { max, .. }, Corner::Max) => *max,
    }
}

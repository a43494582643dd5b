// Times in whole ticks.
ghost use Rattle.std.specs.Prelude.{◌≡◌, ◌*◌, ◌^◌, ◌<◌};
ghost use Rattle.sg_time.specs.Seen.{number};
ghost use Rattle.stim_read.specs.Times.{power_in};
ghost use Rattle.stim_read.specs.Meant.{scale_seen, fraction_ticks, time_ticks};

use crate::StimKind;
use sg_time::{Decimal, Unit};

/// The unit of times, and what one tick is.
#[derive(Clone, Copy, Debug)]
pub struct Scale {
    pub unit: Unit,
    pub tick: Unit,
}

const LIMIT: u128 = 1 << 60;

// How many powers of ten the last digit of a time is above the tick.
fn power_in(scale: Scale, time: &Decimal) -> i64
    ensures { result ≡ power_in (scale_seen scale) (number time.now) }
{
    i64::from(time.exponent) + i64::from(scale.unit.power - scale.tick.power)
}

fn below_limit(size: u128) -> Result<u64, StimKind>
    ensures { result ≡ fraction_ticks size 1 }
{
    if size < LIMIT {
        Ok(size as u64)
    } else {
        Err(StimKind::TooLarge)
    }
}

// size * 10^places
fn times_power(size: u64, places: u64) -> Result<u64, StimKind>
    requires { size < 10 ^ 18 }
    ensures { result ≡ fraction_ticks (size * 10 ^ places) 1 }
{
    if size == 0 {
        return Ok(0);
    }
    if places > 18 {
        return Err(StimKind::TooLarge);
    }
    below_limit(u128::from(size) * 10u128.pow(places as u32))
}

// size / 10^places
fn over_power(size: u64, places: u64) -> Result<u64, StimKind>
    requires { size < 10 ^ 18 }
    ensures { result ≡ fraction_ticks size (10 ^ places) }
{
    if size == 0 {
        return Ok(0);
    }
    if places > 18 {
        return Err(StimKind::NotWholeTick);
    }
    over(size, 10u64.pow(places as u32))
}

fn over(size: u64, divisor: u64) -> Result<u64, StimKind>
    requires some { 0 < divisor }
    requires few { size < 10 ^ 18 }
    ensures { result ≡ fraction_ticks size divisor }
{
    if size % divisor != 0 {
        return Err(StimKind::NotWholeTick);
    }
    Ok(size / divisor)
}

/// The ticks that a time is, if it is a whole number below 2^60 of them; else `NotWholeTick` or `TooLarge`.
pub fn ticks_of(scale: Scale, time: &Decimal) -> Result<u64, StimKind>
    ensures { result ≡ time_ticks (scale_seen scale) (number time.now) }
{
    let power = power_in(scale, time);
    if power < 0 {
        over_power(time.digits, power.unsigned_abs())
    } else {
        times_power(time.digits, power.unsigned_abs())
    }
}

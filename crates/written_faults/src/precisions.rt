// Precisions of modules, in ticks.
ghost use Rattle.std.specs.Prelude.{◌≡◌, ◌^◌, ◌-ℤ◌, ◌<◌};
ghost use Rattle.sg_time.specs.Ticks.{above};

use sg_time::Unit;

// By how many zeroes one power of ten is more than another; none where it is less.
fn zeroes(power: i8, least: i8) -> u32
    ensures { result ≡ above (power -ℤ least) }
{
    if power <= least {
        return 0;
    }
    u32::from(power.abs_diff(least))
}

/// So many ticks a precision is; one that is shorter than a tick counts as one.
pub fn ticks_of(precision: Unit, tick: Unit) -> u64
    ensures { result ≡ 10 ^ above (precision.power -ℤ tick.power) }
{
    10u64.pow(zeroes(precision.power, tick.power))
}

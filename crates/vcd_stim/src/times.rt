// Times in whole ticks.
ghost use Rattle.std.specs.Prelude.{◌≡◌, ◌-ℤ◌, ◌==◌, ◌*◌, ◌^◌, ◌<◌, ◌≤◌, length, MatchOption};
ghost use Rattle.std.specs.List.{prefix_len};
ghost use Rattle.sg_time.specs.Spelling.{number_from};
ghost use Rattle.vcd_stim.specs.Meant.{scale_seen, fraction_ticks, time_ticks};

use vcd_model::VcdKind;

/// The powers of ten of a second that the dump's unit and the circuit's tick are.
#[derive(Clone, Copy, Debug)]
pub struct Scale {
    pub unit: i8,
    pub tick: i8,
}

const LIMIT: u128 = 1 << 60;

// More than any number of 19 digits.
const NUMBER_LIMIT: u128 = 1 << 68;

/// How many zeros some digits begin with.
pub fn zeros(digits: &[u8]) -> usize
    ensures size { result ≡ prefix_len (λ b. b == 48) digits.now }
    ensures within { result ≤ length digits.now }
{
    digits.iter().take_while(|b| **b == b'0').count()
}

/// The number of some digits, if it is below 2^68.
pub fn number_of(digits: &[u8]) -> Option<u128>
    ensures { MatchOption result (2 ^ 68 ≤ number_from 0 digits.now) (λ n. (n ≡ number_from 0 digits.now) × (n < 2 ^ 68)) }
{
    let mut n = 0u128;
    for b in digits {
        n = n * 10 + u128::from(b.saturating_sub(b'0'));
        if n >= NUMBER_LIMIT {
            return None;
        }
    }
    Some(n)
}

// How many powers of ten the unit is above the tick.
fn power_in(scale: Scale) -> i32
    ensures { result ≡ (scale_seen scale).unit -ℤ (scale_seen scale).tick }
{
    i32::from(scale.unit) - i32::from(scale.tick)
}

fn below_limit(number: u128) -> Result<u64, VcdKind>
    ensures { result ≡ fraction_ticks number 1 }
{
    if number < LIMIT {
        Ok(number as u64)
    } else {
        Err(VcdKind::TooLarge)
    }
}

// number * 10^places
fn times_power(number: u128, places: u32) -> Result<u64, VcdKind>
    requires { number < 2 ^ 68 }
    ensures { result ≡ fraction_ticks (number * 10 ^ places) 1 }
{
    if number == 0 {
        return Ok(0);
    }
    if places > 18 {
        return Err(VcdKind::TooLarge);
    }
    below_limit(number * 10u128.pow(places))
}

// number / 10^places
fn over_power(number: u128, places: u32) -> Result<u64, VcdKind>
    requires { number < 2 ^ 68 }
    ensures { result ≡ fraction_ticks number (10 ^ places) }
{
    if number == 0 {
        return Ok(0);
    }
    if places > 20 {
        return Err(VcdKind::NotWholeTick);
    }
    over(number, 10u128.pow(places))
}

fn over(number: u128, divisor: u128) -> Result<u64, VcdKind>
    requires { 0 < divisor }
    ensures { result ≡ fraction_ticks number divisor }
{
    if number % divisor != 0 {
        return Err(VcdKind::NotWholeTick);
    }
    below_limit(number / divisor)
}

/// The ticks that a time is, if it is a whole number below 2^60 of them; else `NotWholeTick` or `TooLarge`.
pub fn ticks_of(scale: Scale, number: u128) -> Result<u64, VcdKind>
    requires { number < 2 ^ 68 }
    ensures { result ≡ time_ticks (scale_seen scale) number }
{
    let power = power_in(scale);
    if power < 0 {
        over_power(number, power.unsigned_abs())
    } else {
        times_power(number, power.unsigned_abs())
    }
}

// The numbers of a file as they are meant.
ghost use Rattle.std.specs.Prelude.{◌≡◌, ◌^◌, IfOk, length, map, nat_lt};
ghost use Rattle.std.specs.Option.{option_map};
ghost use Rattle.sg_time.specs.Seen.{number as seen_number, outcome};
ghost use Rattle.sdf_tree.specs.Meant as meant;
ghost use Rattle.sdf_tree.specs.Seen.{view_delay, view_limits, view_number, view_value};
ghost use Rattle.sdf_meaning.specs.MeantSeen.{view_delay_value, view_limit_pair, view_triple};

use sdf_tree::{DelayValue, LimitPair, WrittenDelay, WrittenLimits, WrittenNumber, WrittenValue};
use sg_delay::Triple;
use sg_text::NoMemory;
use sg_time::{Decimal, TimeError};
use std::alloc::Global;

// No file has a word of so many bytes.
const LONGEST: usize = 1 << 30;

const ZERO: Decimal = Decimal {
    digits: 0,
    exponent: 0,
    negative: false,
};

fn is_short(text: &[u8]) -> bool
    ensures { result ≡ nat_lt (length text.now) (2 ^ 30) }
{
    text.len() < LONGEST
}

/// What a word is as a decimal.
pub fn decimal_of(text: &[u8]) -> Result<Decimal, TimeError>
    ensures { outcome result ≡ meant.decimal_of text.now }
{
    if !is_short(text) {
        return Err(TimeError::TooManyDigits);
    }
    Decimal::read(text)
}

/// The number that a word is, and 0 where it is none.
pub fn number_of(number: WrittenNumber<'_>) -> Decimal
    ensures { seen_number result ≡ meant.number_of (view_number number.entry) }
{
    decimal_of(number.text).unwrap_or(ZERO)
}

fn corner_of(number: Option<WrittenNumber<'_>>) -> Option<Decimal>
    ensures { option_map seen_number result ≡ option_map meant.number_of (option_map view_number number.entry) }
{
    let number = number?;
    Some(number_of(number))
}

/// A value for each corner.
pub fn triple_of(value: WrittenValue<'_>) -> Triple
    ensures { view_triple result ≡ meant.triple_of (view_value value.entry) }
{
    Triple {
        min: corner_of(value.min),
        typ: corner_of(value.typ),
        max: corner_of(value.max),
    }
}

/// `[ value ]`
pub fn optional_triple(value: Option<WrittenValue<'_>>) -> Option<Triple>
    ensures { option_map view_triple result ≡ option_map meant.triple_of (option_map view_value value.entry) }
{
    let value = value?;
    Some(triple_of(value))
}

// A single limit is both.
fn limit_pair_of(limits: &WrittenLimits<'_>) -> LimitPair
    ensures { view_limit_pair result ≡ meant.limit_pair_of (view_limits limits.now) }
{
    let reject = triple_of(limits.reject);
    match limits.error {
        Some(error) => LimitPair {
            reject,
            error: triple_of(error),
        },
        None => LimitPair {
            reject,
            error: reject,
        },
    }
}

fn delay_value_of(delay: &WrittenDelay<'_>) -> DelayValue
    ensures { view_delay_value result ≡ meant.delay_value_of (view_delay delay.now) }
{
    let limits = match &delay.limits {
        Some(limits) => Some(limit_pair_of(limits)),
        None => None,
    };
    DelayValue {
        delay: triple_of(delay.delay),
        limits,
    }
}

/// The values of a list.
pub fn delay_values(alloc: Global, delays: &[WrittenDelay<'_>]) -> Result<Vec<DelayValue>, NoMemory>
    ensures { IfOk result (λ values. map view_delay_value values.items ≡ map meant.delay_value_of (map view_delay delays.now)) }
{
    let mut values = Vec::with_capacity(alloc, delays.len())?;
    for delay in delays {
        values.push(delay_value_of(delay))?;
    }
    Ok(values)
}

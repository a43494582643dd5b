// The words of `timescale`, and the scale that they say.
ghost use Rattle.std.specs.Prelude.{◌≡◌, ◌≤ℤ◌, ◌-ℤ◌, pos, ℤ, Option, Some, None, map, IfSome};
ghost use Rattle.std.specs.Option.{option_map};
ghost use Rattle.vl_lex.specs.Directives.{tens_of, unit_of, power_of, scale_from, scale_of};
ghost use Rattle.vl_lex.specs.StateBridge.{word};
ghost use Rattle.vl_token.specs.Seen.{timescale};

use crate::directives::Word;
use sg_time::{Scale, Unit};
use vl_pieces::is_word;

fn tens_of(bytes: &[u8]) -> Option<i8>
    ensures value { result ≡ tens_of bytes.now }
    ensures low { IfSome result (λ n. pos 0 ≤ℤ n) }
    ensures high { IfSome result (λ n. n ≤ℤ pos 2) }
{
    if is_word(bytes, "1") {
        Some(0)
    } else if is_word(bytes, "10") {
        Some(1)
    } else if is_word(bytes, "100") {
        Some(2)
    } else {
        None
    }
}

fn unit_of(bytes: &[u8]) -> Option<i8>
    ensures value { result ≡ unit_of bytes.now }
    ensures low { IfSome result (λ n. pos 0 ≤ℤ n) }
    ensures high { IfSome result (λ n. n ≤ℤ pos 15) }
{
    if is_word(bytes, "s") {
        Some(0)
    } else if is_word(bytes, "ms") {
        Some(3)
    } else if is_word(bytes, "us") {
        Some(6)
    } else if is_word(bytes, "ns") {
        Some(9)
    } else if is_word(bytes, "ps") {
        Some(12)
    } else if is_word(bytes, "fs") {
        Some(15)
    } else {
        None
    }
}

fn power_from(tens: i8, unit: i8) -> Unit
    requires tens_low { pos 0 ≤ℤ tens }
    requires tens_high { tens ≤ℤ pos 2 }
    requires unit_low { pos 0 ≤ℤ unit }
    requires unit_high { unit ≤ℤ pos 15 }
    ensures { result.power ≡ tens -ℤ unit }
{
    Unit { power: tens - unit }
}

// A number and a unit, as 100 ps.
fn power_of(number: &[u8], unit: &[u8]) -> Option<Unit>
    ensures { option_map (λ u. u.power) result ≡ power_of (tens_of number.now) (unit_of unit.now) }
{
    Some(power_from(tens_of(number)?, unit_of(unit)?))
}

fn scale_from(unit: Option<Unit>, precision: Option<Unit>) -> Option<Scale>
    ensures { option_map timescale result ≡ scale_from (option_map (λ u. u.power) unit) (option_map (λ u. u.power) precision) }
{
    let unit = unit?;
    let precision = precision?;
    if unit.power < precision.power {
        None
    } else {
        Some(Scale { unit, precision })
    }
}

// What the words of a timescale say.
pub fn scale_of(words: &[Word]) -> Option<Scale>
    ensures { option_map timescale result ≡ scale_of (map word words.now) }
{
    let [number, unit, slash, other_number, other_unit] = words else {
        return None;
    };
    if is_word(slash.bytes, "/") {
        scale_from(
            power_of(number.bytes, unit.bytes),
            power_of(other_number.bytes, other_unit.bytes),
        )
    } else {
        None
    }
}

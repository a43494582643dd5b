// Decimals compared.
ghost use Rattle.std.specs.Prelude.{◌≡◌, ◌≤◌, ◌*◌, ◌^◌};
ghost use Rattle.std.specs.Int.{int_gap};
ghost use Rattle.sg_time.specs.Seen.{number as seen_number};
ghost use Rattle.sdf_tree.specs.Faults as faults;
ghost use Rattle.sdf_meaning.specs.Sizes.{few_places, near_size};

use sg_time::Decimal;

// A decimal's digits are fewer than ten to this power.
const MOST_PLACES: u64 = 18;

/// How far an exponent is above another.
fn gap(from: i32, to: i32) -> u64
    ensures { result ≡ int_gap from to }
{
    if to <= from {
        return 0;
    }
    (i64::from(to) - i64::from(from)).unsigned_abs()
}

fn few_places(places: u64) -> u32
    ensures value { result ≡ few_places places }
    ensures few { result ≤ 18 }
{
    if places <= MOST_PLACES {
        places as u32
    } else {
        18
    }
}

fn size(digits: u64, places: u32) -> u128
    requires { places ≤ 18 }
    ensures { result ≡ digits * 10 ^ places }
{
    u128::from(digits) * 10u128.pow(places)
}

/// How often a decimal has the lesser of two powers of ten, its own and another's, as far as that tells them apart.
fn near_size(decimal: Decimal, other: Decimal) -> u128
    ensures { result ≡ near_size (seen_number decimal) (seen_number other) }
{
    let places = few_places(gap(other.exponent, decimal.exponent));
    size(decimal.digits, places)
}

fn is_less(negative: bool, other_negative: bool, size: u128, other: u128) -> bool
    ensures { result ≡ faults.is_less negative other_negative size other }
{
    match (negative, other_negative) {
        (false, false) => size < other,
        (false, true) => false,
        (true, false) => size > 0 || other > 0,
        (true, true) => other < size,
    }
}

/// Whether a decimal is below another.
pub fn is_below(decimal: Decimal, other: Decimal) -> bool
    ensures { result ≡ faults.is_below (seen_number decimal) (seen_number other) }
{
    let near = near_size(decimal, other);
    let other_near = near_size(other, decimal);
    is_less(decimal.negative, other.negative, near, other_near)
}

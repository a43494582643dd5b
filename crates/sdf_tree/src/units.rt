// The unit of a file's values.
ghost use Rattle.std.specs.Prelude.{◌≡◌, ◌≤◌, ◌≤ℤ◌, ◌+ℤ◌, pos, length, IfSome};
ghost use Rattle.std.specs.Option.{option_map};
ghost use Rattle.sdf_tree.specs.Words as words;

use sg_time::Unit;

/// The power of ten of 1, 10 or 100.
pub fn scale_power(text: &[u8]) -> Option<u8>
    ensures power { result ≡ words.scale_power text.now }
    ensures few { IfSome result (λ n. n ≤ 2) }
{
    match text {
        b"1" | b"1.0" => Some(0),
        b"10" | b"10.0" => Some(1),
        b"100" | b"100.0" => Some(2),
        _ => None,
    }
}

/// A unit of time, from `s` to `fs`.
pub fn unit_of(text: &[u8]) -> Option<Unit>
    ensures power { option_map (λ u. u.power) result ≡ words.unit_power text.now }
    ensures at_most { IfSome result (λ u. u.power ≤ℤ pos 0) }
{
    match text {
        b"s" => Some(Unit { power: 0 }),
        b"ms" => Some(Unit { power: -3 }),
        b"us" => Some(Unit { power: -6 }),
        b"ns" => Some(Unit { power: -9 }),
        b"ps" => Some(Unit { power: -12 }),
        b"fs" => Some(Unit { power: -15 }),
        _ => None,
    }
}

/// So many times ten units.
pub fn scaled(scale: u8, unit: Unit) -> Unit
    requires few { scale ≤ 2 }
    requires at_most { unit.power ≤ℤ pos 0 }
    ensures { result.power ≡ pos scale +ℤ unit.power }
{
    Unit {
        power: unit.power + scale as i8,
    }
}

// How many bytes at the front are digits and points.
fn scale_len(text: &[u8]) -> usize
    ensures size { result ≡ words.scale_len text.now }
    ensures within { result ≤ length text.now }
{
    text.iter()
        .take_while(|b| b.is_ascii_digit() || **b == b'.')
        .count()
}

/// A number and a unit in one word.
pub fn joined_unit(text: &[u8]) -> Option<Unit>
    ensures { option_map (λ u. u.power) result ≡ words.joined_power text.now }
{
    let (number, unit) = text.split_at(scale_len(text));
    let scale = scale_power(number)?;
    let unit = unit_of(unit)?;
    Some(scaled(scale, unit))
}

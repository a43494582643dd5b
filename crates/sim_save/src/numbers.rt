// Numbers and letters, each a word.
ghost use Rattle.std.specs.Prelude.{◌≡◌, ℕ, ℤ, ◌∷◌, [], decimal, MatchOption};
ghost use Rattle.std.specs.Fmt.{signed_decimal};
ghost use Rattle.wave_out.specs.Vcd.{value_letter};
ghost use Rattle.sim_save.specs.Breaks.{event_text};
ghost use Rattle.sim_save.specs.Faults.{IsPower, IsTime};
ghost use Rattle.sim_save.specs.Taking.{Is32, Is64, IsOfForm, NoneOfForm};

use itoa::Buffer;
use sg_logic::Value;
use std::str;

/// The number whose digits these are, with no leading zeros.
pub fn number_of(word: &[u8]) -> Option<u64>
    ensures { MatchOption result (NoneOfForm Is64 decimal word.now) (λ n. IsOfForm Is64 decimal word.now n) }
{
    let n: u64 = str::from_utf8(word).ok()?.parse().ok()?;
    let mut buffer = Buffer::new();
    if buffer.format(n).as_bytes() == word {
        Some(n)
    } else {
        None
    }
}

/// The same of a number of things.
pub fn count_of(word: &[u8]) -> Option<u32>
    ensures { MatchOption result (NoneOfForm Is32 decimal word.now) (λ n. IsOfForm Is32 decimal word.now n) }
{
    let n: u32 = str::from_utf8(word).ok()?.parse().ok()?;
    let mut buffer = Buffer::new();
    if buffer.format(n).as_bytes() == word {
        Some(n)
    } else {
        None
    }
}

/// The power of ten with this sign and these digits.
pub fn power_of(word: &[u8]) -> Option<i8>
    ensures { MatchOption result (NoneOfForm IsPower signed_decimal word.now) (λ z. IsOfForm IsPower signed_decimal word.now z) }
{
    let power: i8 = str::from_utf8(word).ok()?.parse().ok()?;
    let mut buffer = Buffer::new();
    if buffer.format(power).as_bytes() == word {
        Some(power)
    } else {
        None
    }
}

/// The value with this letter.
pub fn value_of(word: &[u8]) -> Option<Value>
    ensures { MatchOption result (NoneOfForm (λ v. Unit {0}) (λ v. value_letter v ∷ []) word.now) (λ v. IsOfForm (λ v. Unit {0}) (λ v. value_letter v ∷ []) word.now v) }
{
    match word {
        [b'0'] => Some(Value::Zero),
        [b'1'] => Some(Value::One),
        [b'x'] => Some(Value::X),
        [b'z'] => Some(Value::Z),
        _ => None,
    }
}

/// The time of a check's latest event, or none for `-`.
pub fn event_of(word: &[u8]) -> Option<Option<u64>>
    ensures { MatchOption result (NoneOfForm IsTime event_text word.now) (λ e. IsOfForm IsTime event_text word.now e) }
{
    if word == b"-".as_slice() {
        return Some(None);
    }
    let time = number_of(word)?;
    Some(Some(time))
}

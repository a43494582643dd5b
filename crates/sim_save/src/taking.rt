// Words taken from the front of a text.
ghost use Rattle.std.specs.Prelude.{◌≡◌, ℕ, ◌++◌, ◌∷◌, [], MatchOption};
ghost use Rattle.std.specs.Fmt.{signed_decimal};
ghost use Rattle.std.specs.List.{position, position_or_len};
ghost use Rattle.sim_save.specs.Breaks.{EndsWord, IsWord, is_break};
ghost use Rattle.sim_save.specs.Faults.{IsPower, IsTime};
ghost use Rattle.sim_save.specs.Lines.{event_word, letter, number, word};
ghost use Rattle.sim_save.specs.Taking.{Is32, Is64, IsTaken, NoneTaken, NotBehind};

use crate::numbers::{count_of, event_of, number_of, power_of, value_of};
use sg_logic::Value;

/// What follows this front.
pub fn take_front<'a>(text: &'a [u8], front: &[u8]) -> Option<&'a [u8]>
    ensures { MatchOption result (NotBehind front.now text.now) (λ rest. text.now ≡ front.now ++ rest.now) }
{
    text.strip_prefix(front)
}

fn first_break(text: &[u8]) -> Option<usize>
    ensures { result ≡ position is_break text.now }
{
    text.iter().position(|b| *b == b' ' || *b == b'\n')
}

fn word_end(text: &[u8]) -> usize
    ensures { result ≡ position_or_len is_break text.now }
{
    first_break(text).unwrap_or(text.len())
}

fn take_word(text: &[u8]) -> Option<(&[u8], &[u8])>
    ensures { MatchOption result (NotBehind (32 ∷ []) text.now) (λ r. IsTaken IsWord word text.now r.0.now r.1.now) }
{
    let words = take_front(text, b" ")?;
    Some(words.split_at(word_end(words)))
}

/// A number.
pub fn take_number(text: &[u8]) -> Option<(u64, &[u8])>
    ensures { MatchOption result (NoneTaken Is64 number text.now) (λ r. IsTaken Is64 number text.now r.0 r.1.now) }
{
    let (digits, rest) = take_word(text)?;
    let n = number_of(digits)?;
    Some((n, rest))
}

/// A number of things.
pub fn take_count(text: &[u8]) -> Option<(u32, &[u8])>
    ensures { MatchOption result (NoneTaken Is32 number text.now) (λ r. IsTaken Is32 number text.now r.0 r.1.now) }
{
    let (digits, rest) = take_word(text)?;
    let n = count_of(digits)?;
    Some((n, rest))
}

/// A power of ten.
pub fn take_power(text: &[u8]) -> Option<(i8, &[u8])>
    ensures { MatchOption result (NoneTaken IsPower (λ z. word (signed_decimal z)) text.now) (λ r. IsTaken IsPower (λ z. word (signed_decimal z)) text.now r.0 r.1.now) }
{
    let (digits, rest) = take_word(text)?;
    let power = power_of(digits)?;
    Some((power, rest))
}

/// The letter of a value.
pub fn take_letter(text: &[u8]) -> Option<(Value, &[u8])>
    ensures { MatchOption result (NoneTaken (λ v. Unit {0}) letter text.now) (λ r. IsTaken (λ v. Unit {0}) letter text.now r.0 r.1.now) }
{
    let (letter, rest) = take_word(text)?;
    let value = value_of(letter)?;
    Some((value, rest))
}

/// The time of a check's latest event, or `-`.
pub fn take_event(text: &[u8]) -> Option<(Option<u64>, &[u8])>
    ensures { MatchOption result (NoneTaken IsTime event_word text.now) (λ r. IsTaken IsTime event_word text.now r.0 r.1.now) }
{
    let (time, rest) = take_word(text)?;
    let event = event_of(time)?;
    Some((event, rest))
}

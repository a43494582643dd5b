// Ranges of `$var`, and its width.
ghost use Rattle.std.specs.Prelude.{◌≡◌, ◌≢◌, ◌≤◌, ◌<◌, ◌^◌, ◌&&◌, ◌+◌, ◌++◌, ◌∷◌, [], List, ℕ, length, true, false, drop, take, reverse, MatchOption, nat_le};
ghost use Rattle.sg_time.specs.Spelling.{number_from};
ghost use Rattle.vcd_form.specs.Kinds as def;

use crate::kinds::are_digits;

fn is_number(text: &[u8]) -> bool
    ensures { result ≡ def.is_number text.now }
{
    are_digits(text) && text.len() <= 18
}

fn is_int(text: &[u8]) -> bool
    ensures { result ≡ def.is_int text.now }
{
    match text {
        [b'-', rest @ ..] => is_number(rest),
        _ => is_number(text),
    }
}

// How many bytes stand before the first `:`.
fn cut(text: &[u8]) -> usize
    ensures size { result ≡ def.cut text.now }
    ensures within { result ≤ length text.now }
{
    text.iter().take_while(|b| **b != b':').count()
}

fn left_of(text: &[u8]) -> &[u8]
    ensures { result.now ≡ take (def.cut text.now) text.now }
{
    &text[..cut(text)]
}

// What stands behind the first `:`.
fn right_of(text: &[u8]) -> &[u8]
    ensures { result.now ≡ drop (def.cut text.now + 1) text.now }
{
    match &text[cut(text)..] {
        [_, right @ ..] => right,
        none => none,
    }
}

fn are_two(text: &[u8]) -> bool
    ensures { result ≡ (def.is_int (take (def.cut text.now) text.now) && def.is_int (drop (def.cut text.now + 1) text.now)) }
{
    is_int(left_of(text)) && is_int(right_of(text))
}

fn is_inside(text: &[u8]) -> bool
    ensures { result ≡ def.is_inside text.now }
{
    is_int(text) || are_two(text)
}

// What stands before a `]` at the end.
fn before_bracket(text: &[u8]) -> Option<&[u8]>
    ensures { MatchOption result ((front : List ℕ) → text.now ≢ front ++ 93 ∷ []) (λ front. text.now ≡ front.now ++ 93 ∷ []) }
{
    match text {
        [front @ .., b']'] => Some(front),
        _ => None,
    }
}

#[tactic(auto, using(crate::proofs::RangeLaws::bracket_ends, crate::proofs::RangeLaws::no_bracket))]
fn ends_in_bracket(text: &[u8]) -> bool
    ensures { result ≡ def.ends_in_bracket (reverse text.now) }
{
    match before_bracket(text) {
        Some(front) => is_inside(front),
        None => false,
    }
}

/// Whether a text is a range.
pub fn is_range_text(text: &[u8]) -> bool
    ensures { result ≡ def.is_range_text text.now }
{
    match text {
        [first, rest @ ..] => *first == b'[' && ends_in_bracket(rest),
        [] => false,
    }
}

/// Whether a word is a range.
#[tactic(auto, using(crate::proofs::KindLaws::range_is))]
pub fn is_range(text: &[u8]) -> bool
    ensures { result ≡ def.is_range (def.kind_of_text text.now) }
{
    is_range_text(text)
}

// The number that digits spell.
fn number_of(digits: &[u8]) -> u32
    requires { number_from 0 digits.now < 2 ^ 32 }
    ensures { result ≡ number_from 0 digits.now }
{
    let mut number: u32 = 0;
    let mut rest = digits;
    while let [digit, tail @ ..] = rest {
        number = number * 10 + u32::from(digit.saturating_sub(b'0'));
        rest = tail;
    }
    number
}

fn are_few_digits(text: &[u8]) -> bool
    ensures { result ≡ (def.are_digits text.now && nat_le (length text.now) 9) }
{
    are_digits(text) && text.len() <= 9
}

/// The width that a word is.
#[tactic(auto, using(crate::proofs::KindLaws::width_is, crate::proofs::RangeLaws::few_are_small))]
pub fn width_of(text: &[u8]) -> Option<u32>
    ensures { MatchOption result (def.is_width (def.kind_of_text text.now) ≡ false) (λ n. (def.is_width (def.kind_of_text text.now) ≡ true) × (n ≡ number_from 0 text.now)) }
{
    if !are_few_digits(text) {
        return None;
    }
    let width = number_of(text);
    if width > 0 { Some(width) } else { None }
}

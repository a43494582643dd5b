// A set `n=v`, read.
ghost use Rattle.std.specs.Prelude.{◌≡◌, ◌≢◌, ◌++◌, ◌∷◌, [], ◌≤◌, List, ℕ, MatchOption, IfOk, option_map, reverse, map, length};
ghost use Rattle.std.specs.List.{list_all, prefix_len};
ghost use Rattle.std.specs.Char.{is_ascii_digit};
ghost use Rattle.sg_text.specs.Names.{is_name_byte};
ghost use Rattle.stim_read.specs.Sets as def;
ghost use Rattle.stim_read.specs.Forms.{sets_in};
ghost use Rattle.stim_read.specs.Seen.{name_seen, set_seen};

use sg_text::{is_name_byte, is_simple_name};
use std::alloc::{AllocError, Global};

/// The name of an input, and the index of one of its bits as it is written.
#[derive(Clone, Copy, Debug)]
pub struct Name<'a> {
    pub name: &'a [u8],
    pub index: Option<&'a [u8]>,
}

/// A set as it is written.
#[derive(Clone, Copy, Debug)]
pub struct SetText<'a> {
    pub target: Name<'a>,
    pub digits: &'a [u8],
}

// All bytes but the last one, and that.
fn last_off(word: &[u8]) -> Option<(&[u8], u8)>
    ensures { MatchOption result (word.now ≡ []) (λ p. word.now ≡ p.0.now ++ p.1 ∷ []) }
{
    match word {
        [front @ .., last] => Some((front, *last)),
        [] => None,
    }
}

// What is before and behind the last `=`.
fn cut(word: &[u8]) -> Option<(&[u8], &[u8])>
    ensures { option_map (λ p. (p.0.now, p.1.now)) result ≡ def.cut word.now }
{
    let mut left = word;
    while let Some((front, last)) = last_off(left) {
        if last == b'=' {
            return Some((front, &word[left.len()..]));
        }
        left = front;
    }
    None
}

fn are_decimal(bytes: &[u8]) -> bool
    ensures { result ≡ list_all is_ascii_digit bytes.now }
{
    bytes.iter().all(|b| b.is_ascii_digit())
}

fn is_number(digits: &[u8]) -> bool
    ensures { result ≡ def.is_number digits.now }
{
    digits.len() > 0 && digits.len() <= 18 && are_decimal(digits)
}

fn is_index(text: &[u8]) -> bool
    ensures { result ≡ def.is_index text.now }
{
    match text {
        [b'-', digits @ ..] => is_number(digits),
        _ => is_number(text),
    }
}

// What is before the `]` at the end.
fn before_bracket(text: &[u8]) -> Option<&[u8]>
    ensures { MatchOption result ((front : List ℕ) → text.now ≢ front ++ 93 ∷ []) (λ front. text.now ≡ front.now ++ 93 ∷ []) }
{
    match text {
        [front @ .., b']'] => Some(front),
        _ => None,
    }
}

fn index_of(text: &[u8]) -> Option<&[u8]>
    ensures { option_map (λ i. i.now) result ≡ def.index_from_back (reverse text.now) }
{
    let index = before_bracket(text)?;
    if is_index(index) { Some(index) } else { None }
}

fn name_size(text: &[u8]) -> usize
    ensures size { result ≡ prefix_len is_name_byte text.now }
    ensures within { result ≤ length text.now }
{
    text.iter().take_while(|b| is_name_byte(**b)).count()
}

fn with_index<'a>(name: &'a [u8], rest: &'a [u8]) -> Option<Name<'a>>
    ensures { option_map (λ n. name_seen n) result ≡ def.with_index name.now rest.now }
{
    match rest {
        [] => Some(Name { name, index: None }),
        [b'[', text @ ..] => {
            let index = index_of(text)?;
            Some(Name {
                name,
                index: Some(index),
            })
        }
        _ => None,
    }
}

fn plain_name(text: &[u8]) -> Option<Name<'_>>
    ensures { option_map (λ n. name_seen n) result ≡ def.plain_name text.now }
{
    let (name, rest) = text.split_at(name_size(text));
    if is_simple_name(name) {
        with_index(name, rest)
    } else {
        None
    }
}

fn name_of(text: &[u8]) -> Option<Name<'_>>
    ensures { option_map (λ n. name_seen n) result ≡ def.name_in text.now }
{
    match text {
        [b'\\', name @ ..] => Some(Name { name, index: None }),
        _ => plain_name(text),
    }
}

fn is_digit(byte: u8) -> bool
    ensures { result ≡ def.is_digit byte }
{
    matches!(byte, b'0' | b'1' | b'x' | b'z')
}

fn are_digits(bytes: &[u8]) -> bool
    ensures { result ≡ def.are_digits bytes.now }
{
    bytes.len() > 0 && all_digits(bytes)
}

fn all_digits(bytes: &[u8]) -> bool
    ensures { result ≡ list_all def.is_digit bytes.now }
{
    bytes.iter().all(|b| is_digit(*b))
}

fn named_set<'a>(name: &'a [u8], digits: &'a [u8]) -> Option<SetText<'a>>
    ensures { option_map (λ s. set_seen s) result ≡ def.set_of (name.now, digits.now) }
{
    if !are_digits(digits) {
        return None;
    }
    let target = name_of(name)?;
    Some(SetText { target, digits })
}

/// The set that a word is, if it is one.
#[tactic(auto, unfolding(crate::specs::Sets::set_in))]
pub fn set_of(word: &[u8]) -> Option<SetText<'_>>
    ensures { option_map (λ s. set_seen s) result ≡ def.set_in word.now }
{
    let (name, digits) = cut(word)?;
    named_set(name, digits)
}

/// The sets that words are, if each is one.
pub fn sets_of<'a>(
    alloc: Global,
    words: &[&'a [u8]],
) -> Result<Option<Vec<SetText<'a>>>, AllocError>
    ensures { IfOk result (λ read. option_map (λ sets. map (λ s. set_seen s) sets.items) read ≡ sets_in (map (λ w. w.now) words.now)) }
{
    let mut sets = Vec::new(alloc);
    let mut rest = words;
    while let [word, more @ ..] = rest {
        let Some(set) = set_of(word) else {
            return Ok(None);
        };
        sets.push(set)?;
        rest = more;
    }
    Ok(Some(sets))
}

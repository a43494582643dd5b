// The word that a text begins with, and the bit select at a word's end.
ghost use Rattle.std.specs.Prelude.{◌≡◌, ◌≤◌, ◌<◌, ◌^◌, length, IfSome, None};
ghost use Rattle.std.specs.List.{prefix_len};
ghost use Rattle.std.specs.Char.{is_ascii_digit};
ghost use Rattle.sdf_lex.specs.Words.{is_closing, is_sized, size_of, index_of};
ghost use Rattle.sdf_lex.specs.PieceBridge.{bracket_with, measured, run_of};

use crate::letters::{Letter, next_letter, with_last};
use vl_token::number_of;

// A bit select's number has at most so many digits.
const MOST_DIGITS: usize = 18;

fn bracket_with(letter: Letter, at: usize, before: Option<usize>) -> Option<usize>
    ensures { result ≡ bracket_with letter at before }
{
    if letter.is_bracket() {
        Some(at)
    } else {
        before
    }
}

// How many bytes the word has, none where there is no word, and where its last unescaped bracket stands.
pub fn first_word(text: &[u8]) -> (usize, Option<usize>)
    ensures size { result.0 ≡ (measured 0 None (run_of None text.now)).0 }
    ensures bracket { result.1 ≡ (measured 0 None (run_of None text.now)).1 }
    ensures within { result.0 ≤ length text.now }
{
    let mut size = 0;
    let mut bracket = None;
    let mut ends = None;
    let mut rest = text;
    while let Some(letter) = next_letter(ends, rest) {
        let (_, tail) = rest.split_at(letter.size());
        bracket = bracket_with(letter, size, bracket);
        ends = Some(with_last(ends, letter));
        size += letter.size();
        rest = tail;
    }
    (size, bracket)
}

fn digits_len(bytes: &[u8]) -> usize
    ensures size { result ≡ prefix_len is_ascii_digit bytes.now }
    ensures within { result ≤ length bytes.now }
{
    bytes.iter().take_while(|b| b.is_ascii_digit()).count()
}

fn is_closing(bytes: &[u8]) -> bool
    ensures { result ≡ is_closing bytes.now }
{
    match bytes {
        [b] => *b == b']',
        _ => false,
    }
}

fn is_sized(count: usize, behind: &[u8]) -> bool
    ensures { result ≡ is_sized count behind.now }
{
    count >= 1 && count <= MOST_DIGITS && is_closing(behind)
}

// The number that 1 to 18 digits and a closing bracket spell.
fn size_of(bytes: &[u8]) -> Option<u64>
    ensures value { result ≡ size_of bytes.now }
    ensures small { IfSome result (λ n. n < 10 ^ 18) }
{
    let count = digits_len(bytes);
    let (digits, behind) = bytes.split_at(count);
    if !is_sized(count, behind) {
        return None;
    }
    number_of(digits)
}

// The index that stands behind a word's last unescaped bracket, if nothing else does.
pub fn index_of(behind: &[u8]) -> Option<i64>
    ensures { result ≡ index_of behind.now }
{
    match behind {
        [] => None,
        [b'-', bytes @ ..] => {
            let size = size_of(bytes)?;
            Some(-(size as i64))
        }
        _ => {
            let size = size_of(behind)?;
            Some(size as i64)
        }
    }
}

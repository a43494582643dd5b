// What a text begins with: blanks, names, symbols, ends.
ghost use Rattle.std.specs.Prelude.{◌≡◌, ◌≤◌, ◌<◌, length, nat_eq, IfSome};
ghost use Rattle.std.specs.List.{prefix_len, list_any};
ghost use lib.Pointwise.{pointwise};
ghost use Rattle.sg_text.specs.Names.{is_name_byte};
ghost use Rattle.vl_pieces.specs.Bytes.{is_blank, first_of, is_graphic, is_inline};
ghost use Rattle.vl_pieces.specs.Ends.{end_from, end_of, quote_from, quote_end};
ghost use Rattle.vl_pieces.specs.Pieces.{is_symbol};
ghost use Rattle.vl_pieces.specs.Bytes.{same_bytes};

use sg_text::{is_name_byte, is_name_start};
use vl_token::symbol_of;

/// What a text begins with.
#[derive(Clone, Copy, Debug, PartialEq, Eq)]
pub enum First {
    Blank,
    Letter,
    Backslash,
    Dollar,
    Quote,
    Tick,
    Apostrophe,
    Slash,
    Paren,
    Mark,
    Bad,
}

pub fn is_blank(b: u8) -> bool
    ensures { result ≡ is_blank b }
{
    b == b' ' || b == b'\t' || b == b'\n' || b == b'\r' || b == 12
}

pub fn first_of(b: u8) -> First
    ensures { result ≡ first_of b }
{
    if is_blank(b) {
        First::Blank
    } else if is_name_start(b) {
        First::Letter
    } else if b == b'\\' {
        First::Backslash
    } else if b == b'$' {
        First::Dollar
    } else if b == b'"' {
        First::Quote
    } else if b == b'`' {
        First::Tick
    } else if b == b'\'' {
        First::Apostrophe
    } else if b == b'/' {
        First::Slash
    } else if b == b'(' {
        First::Paren
    } else if b.is_ascii_graphic() {
        First::Mark
    } else {
        First::Bad
    }
}

// How many bytes at the front are of a name.
pub fn name_len(bytes: &[u8]) -> usize
    ensures size { result ≡ prefix_len is_name_byte bytes.now }
    ensures within { result ≤ length bytes.now }
{
    bytes.iter().take_while(|b| is_name_byte(**b)).count()
}

// How many bytes at the front are printable.
pub fn graphic_len(bytes: &[u8]) -> usize
    ensures size { result ≡ prefix_len is_graphic bytes.now }
    ensures within { result ≤ length bytes.now }
{
    bytes.iter().take_while(|b| b.is_ascii_graphic()).count()
}

// How many bytes there are to the end of the line.
pub fn line_len(bytes: &[u8]) -> usize
    ensures size { result ≡ prefix_len is_inline bytes.now }
    ensures within { result ≤ length bytes.now }
{
    bytes.iter().take_while(|b| **b != b'\n').count()
}

// How many bytes there are up to and with the first two of these.
pub fn end_of(first: u8, second: u8, text: &[u8]) -> Option<usize>
    ensures value { result ≡ end_of first second text.now }
    ensures within { IfSome result (λ n. n ≤ length text.now) }
{
    let mut rest = text;
    let mut n = 0;
    while let [x, tail @ ..] = rest {
        if *x == first && tail.first() == Some(&second) {
            return Some(n + 2);
        }
        n += 1;
        rest = tail;
    }
    None
}

// How many bytes there are up to and with the first quote.
pub fn quote_end(text: &[u8]) -> Option<usize>
    ensures value { result ≡ quote_end text.now }
    ensures within { IfSome result (λ n. n ≤ length text.now) }
{
    let mut rest = text;
    let mut n = 0;
    while let [x, tail @ ..] = rest {
        if *x == b'"' {
            return Some(n + 1);
        }
        n += 1;
        rest = tail;
    }
    None
}

// Whether the bytes are one of the words.
pub fn is_among(words: &[&str], bytes: &[u8]) -> bool
    ensures { result ≡ list_any (λ word. pointwise nat_eq word.now bytes.now) words.now }
{
    words.iter().any(|word| word.as_bytes() == bytes)
}

#[tactic(auto, unfolding(crate::specs::Pieces::is_symbol))]
pub fn is_symbol(bytes: &[u8]) -> bool
    ensures { result ≡ is_symbol bytes.now }
{
    symbol_of(bytes).is_some()
}

// Whether the bytes are this word.
pub fn is_word(bytes: &[u8], word: &str) -> bool
    ensures { result ≡ same_bytes bytes.now word.now }
{
    bytes == word.as_bytes()
}

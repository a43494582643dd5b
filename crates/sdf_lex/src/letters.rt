// What words are made of.
ghost use Rattle.std.specs.Prelude.{◌≡◌, ◌≤◌, ◌+◌, length, IfSome};
ghost use Rattle.sdf_lex.specs.Bytes.{class_of};
ghost use Rattle.sdf_lex.specs.Words.{written, byte_of, is_numeric, is_exponent, is_bracket, may_sign, may_be, with_last};
ghost use Rattle.sdf_lex.specs.PieceBridge.{escaped_letter, next_letter};

use crate::bytes::{
    ByteClass, begins_comment, begins_number, class_of, is_good, is_number_start, is_sign,
};

/// A byte of a word, or a backslash with the byte after it.
#[derive(Clone, Copy, Debug, PartialEq, Eq)]
pub enum Letter {
    Plain(u8),
    Escaped(u8),
}

/// The first letter of a word so far, and its last.
#[derive(Clone, Copy, Debug, PartialEq, Eq)]
pub struct Ends {
    pub first: Letter,
    pub last: Letter,
}

impl Letter {
    // How many bytes it is written with.
    pub fn size(self) -> usize
        ensures { result ≡ length (written self) }
    {
        match self {
            Letter::Plain(_) => 1,
            Letter::Escaped(_) => 2,
        }
    }

    // The byte without its backslash.
    pub fn byte(self) -> u8
        ensures { result ≡ byte_of self }
    {
        match self {
            Letter::Plain(b) | Letter::Escaped(b) => b,
        }
    }

    fn is_numeric(self) -> bool
        ensures { result ≡ is_numeric self }
    {
        match self {
            Letter::Plain(b) => is_sign(b) || is_number_start(b),
            Letter::Escaped(_) => false,
        }
    }

    fn is_exponent(self) -> bool
        ensures { result ≡ is_exponent self }
    {
        match self {
            Letter::Plain(b) | Letter::Escaped(b) => b == b'e' || b == b'E',
        }
    }

    pub fn is_bracket(self) -> bool
        ensures { result ≡ is_bracket self }
    {
        match self {
            Letter::Plain(b) => b == b'[',
            Letter::Escaped(_) => false,
        }
    }
}

// Whether a sign belongs to the word with these ends so far.
fn may_sign(ends: Option<Ends>, b: u8, after: &[u8]) -> bool
    ensures { result ≡ may_sign ends b after.now }
{
    match ends {
        None => begins_number(after),
        Some(ends) => {
            (ends.first.is_numeric() && ends.last.is_exponent())
                || (b == b'-' && ends.last.is_bracket())
        }
    }
}

fn may_be(class: ByteClass, ends: Option<Ends>, b: u8, after: &[u8]) -> bool
    ensures { result ≡ may_be class ends b after.now }
{
    match class {
        ByteClass::Plain => true,
        ByteClass::Slash => !begins_comment(after),
        ByteClass::Sign => may_sign(ends, b, after),
        _ => false,
    }
}

fn escaped_letter(after: &[u8]) -> Option<Letter>
    ensures value { result ≡ escaped_letter after.now }
    ensures within { IfSome result (λ l. length (written l) ≤ length after.now + 1) }
{
    match after {
        [b, ..] if is_good(*b) => Some(Letter::Escaped(*b)),
        _ => None,
    }
}

// The letter that goes on a word with these ends so far.
pub fn next_letter(ends: Option<Ends>, text: &[u8]) -> Option<Letter>
    ensures value { result ≡ next_letter ends text.now }
    ensures within { IfSome result (λ l. length (written l) ≤ length text.now) }
{
    let [b, after @ ..] = text else {
        return None;
    };
    if *b == b'\\' {
        return escaped_letter(after);
    }
    if !may_be(class_of(*b), ends, *b, after) {
        return None;
    }
    Some(Letter::Plain(*b))
}

// The ends with one letter more.
pub fn with_last(ends: Option<Ends>, letter: Letter) -> Ends
    ensures { result ≡ with_last ends letter }
{
    match ends {
        None => Ends {
            first: letter,
            last: letter,
        },
        Some(ends) => Ends {
            first: ends.first,
            last: letter,
        },
    }
}

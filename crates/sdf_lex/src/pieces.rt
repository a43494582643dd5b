// The piece that a text begins with.
ghost use Rattle.std.specs.Prelude.{◌≡◌, ◌≤◌, ◌<◌, ◌+◌, ◌∷◌, length};
ghost use Rattle.sdf_lex.specs.Pieces.{spelling};
ghost use Rattle.sdf_lex.specs.PieceBridge.{slash_cut, quote_cut, class_cut, other_cut, first_cut, first_piece, kind_of, IsWithin, is_bad_kind};

use crate::bytes::{ByteClass, class_of, comment_len, line_len, unquoted_len};
use crate::operators::symbol_len;
use crate::words::first_word;

/// What a piece of a text is.
#[derive(Clone, Copy, Debug, PartialEq, Eq)]
pub enum Kind {
    /// A blank or a comment.
    Gap,
    /// A word, and where its last unescaped bracket stands in it.
    Word(Option<usize>),
    Text,
    UnendedText,
    /// An operator, or a `=` alone.
    Symbol,
    /// Another printable byte.
    Mark,
    Bad,
}

// The comment that a slash begins.
fn slash_cut(rest: &[u8]) -> (Kind, usize)
    ensures kind { result.0 ≡ (slash_cut rest.now).0 }
    ensures size { result.1 ≡ (slash_cut rest.now).1 }
{
    match rest {
        [] => (Kind::Mark, 1),
        [b'/', comment @ ..] => (Kind::Gap, 2 + line_len(comment)),
        [_, comment @ ..] => match comment_len(comment) {
            Some(n) => (Kind::Gap, 2 + n),
            None => (Kind::Gap, 2 + comment.len()),
        },
    }
}

// The text that a quote begins.
fn quote_cut(rest: &[u8]) -> (Kind, usize)
    ensures kind { result.0 ≡ (quote_cut rest.now).0 }
    ensures size { result.1 ≡ (quote_cut rest.now).1 }
{
    let n = unquoted_len(rest);
    if n < rest.len() {
        (Kind::Text, 2 + n)
    } else {
        (Kind::UnendedText, 1 + rest.len())
    }
}

fn class_cut(class: ByteClass, text: &[u8]) -> (Kind, usize)
    ensures kind { result.0 ≡ (class_cut class text.now).0 }
    ensures size { result.1 ≡ (class_cut class text.now).1 }
{
    match class {
        ByteClass::Blank => (Kind::Gap, 1),
        ByteClass::Operator => (Kind::Symbol, symbol_len(text)),
        ByteClass::Bad => (Kind::Bad, 1),
        _ => (Kind::Mark, 1),
    }
}

// The first piece of a text that begins with no word.
fn other_cut(b: u8, rest: &[u8], text: &[u8]) -> (Kind, usize)
    requires { text.now ≡ b ∷ rest.now }
    ensures kind { result.0 ≡ (other_cut b rest.now).0 }
    ensures size { result.1 ≡ (other_cut b rest.now).1 }
{
    if b == b'"' {
        quote_cut(rest)
    } else if b == b'/' {
        slash_cut(rest)
    } else {
        class_cut(class_of(b), text)
    }
}

// The kind of the first piece, and how many bytes it has.
fn first_cut(text: &[u8]) -> (Kind, usize)
    ensures kind { result.0 ≡ (first_cut text.now).0 }
    ensures size { result.1 ≡ (first_cut text.now).1 }
{
    let [b, rest @ ..] = text else {
        return (Kind::Bad, 0);
    };
    let (size, bracket) = first_word(text);
    if size == 0 {
        return other_cut(*b, rest, text);
    }
    (Kind::Word(bracket), size)
}

/// The kind of the first piece of a text, and how many bytes it has.
pub fn first_piece(text: &[u8]) -> (Kind, usize)
    requires { 0 < length text.now }
    ensures kind { result.0 ≡ kind_of (first_piece text.now) }
    ensures size { result.1 ≡ length (spelling (first_piece text.now)) }
    ensures some { 0 < result.1 }
    ensures within { result.1 ≤ length text.now }
    ensures bracket { IsWithin result.0 result.1 }
{
    first_cut(text)
}

// Whether a piece of this kind is a fault.
pub fn is_bad(kind: Kind) -> bool
    ensures { result ≡ is_bad_kind kind }
{
    matches!(kind, Kind::Bad)
}

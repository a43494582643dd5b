// What the bytes of SDF files begin.
ghost use Rattle.std.specs.Prelude.{◌≡◌, ◌≤◌, length, IfSome};
ghost use Rattle.std.specs.List.{prefix_len};
ghost use Rattle.vl_pieces.specs.Bytes.{is_inline};
ghost use Rattle.vl_pieces.specs.Ends.{end_of};
ghost use Rattle.sdf_lex.specs.Bytes.{is_word_mark, is_sign, is_operator_byte, class_of, is_good, is_unquoted, is_number_start, begins_number, begins_comment};

use sg_text::is_name_byte;
use vl_pieces::is_blank;

/// What a byte may begin.
#[derive(Clone, Copy, Debug, PartialEq, Eq)]
pub enum ByteClass {
    Blank,
    /// A byte of words, wherever it stands.
    Plain,
    Slash,
    Sign,
    Backslash,
    Quote,
    /// The first byte of an operator.
    Operator,
    /// Another printable byte.
    Mark,
    Bad,
}

fn is_word_mark(b: u8) -> bool
    ensures { result ≡ is_word_mark b }
{
    b == b'.' || b == b'[' || b == b']' || b == b'\''
}

pub fn is_sign(b: u8) -> bool
    ensures { result ≡ is_sign b }
{
    b == b'+' || b == b'-'
}

fn is_operator_byte(b: u8) -> bool
    ensures { result ≡ is_operator_byte b }
{
    b == b'~' || b == b'!' || b == b'&' || b == b'|' || b == b'^' || b == b'='
}

#[tactic(auto, unfolding(crate::specs::Bytes::class_of))]
pub fn class_of(b: u8) -> ByteClass
    ensures { result ≡ class_of b }
{
    if is_blank(b) {
        ByteClass::Blank
    } else if is_name_byte(b) || is_word_mark(b) {
        ByteClass::Plain
    } else if b == b'/' {
        ByteClass::Slash
    } else if is_sign(b) {
        ByteClass::Sign
    } else if b == b'\\' {
        ByteClass::Backslash
    } else if b == b'"' {
        ByteClass::Quote
    } else if is_operator_byte(b) {
        ByteClass::Operator
    } else if b.is_ascii_graphic() {
        ByteClass::Mark
    } else {
        ByteClass::Bad
    }
}

pub fn is_good(b: u8) -> bool
    ensures { result ≡ is_good (class_of b) }
{
    !matches!(class_of(b), ByteClass::Bad)
}

pub fn is_number_start(b: u8) -> bool
    ensures { result ≡ is_number_start b }
{
    b.is_ascii_digit() || b == b'.'
}

pub fn begins_number(text: &[u8]) -> bool
    ensures { result ≡ begins_number text.now }
{
    match text {
        [b, ..] => is_number_start(*b),
        [] => false,
    }
}

// Whether a slash before the text begins a comment with it.
pub fn begins_comment(text: &[u8]) -> bool
    ensures { result ≡ begins_comment text.now }
{
    match text {
        [b, ..] => *b == b'/' || *b == b'*',
        [] => false,
    }
}

// How many bytes there are to the end of the line.
pub fn line_len(text: &[u8]) -> usize
    ensures size { result ≡ prefix_len is_inline text.now }
    ensures within { result ≤ length text.now }
{
    text.iter().take_while(|b| **b != b'\n').count()
}

// How many bytes there are before the first quote.
pub fn unquoted_len(text: &[u8]) -> usize
    ensures size { result ≡ prefix_len is_unquoted text.now }
    ensures within { result ≤ length text.now }
{
    text.iter().take_while(|b| **b != b'"').count()
}

// How many bytes there are up to and with the end of a comment.
pub fn comment_len(text: &[u8]) -> Option<usize>
    ensures value { result ≡ end_of 42 47 text.now }
    ensures within { IfSome result (λ n. n ≤ length text.now) }
{
    let mut rest = text;
    let mut n = 0;
    while let [x, tail @ ..] = rest {
        if *x == b'*' && tail.first() == Some(&b'/') {
            return Some(n + 2);
        }
        n += 1;
        rest = tail;
    }
    None
}

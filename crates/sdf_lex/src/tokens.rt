// The tokens of SDF files.
ghost use Rattle.std.specs.Prelude.{◌≡◌, take};
ghost use Rattle.sdf_lex.specs.Seen.{lexeme};

use cond_expr::Op;
use sg_text::Place;
use std::mem::size_of;

/// What a token is (IEEE 1497-2001, the clause on lexical elements). Its bytes are parts of the file.
#[derive(Clone, Copy, Debug, PartialEq)]
pub enum Lexeme<'a> {
    /// A word without a bit select at its end, as it is written.
    Word(&'a [u8]),
    /// A word that ends with a bit select, and how many bytes stand before the select, maybe none. A `Select` comes next.
    Selected { size: u32, whole: &'a [u8] },
    /// The bit select `[n]` at the end of the word before it, with n of 1 to 18 digits.
    Select(i64),
    /// What stands between double quotes.
    Text(&'a [u8]),
    /// A text without its closing quote, to the end of the file.
    UnendedText,
    /// An operator of conditions.
    Operator(Op),
    /// `(`
    Left,
    /// `)`
    Right,
    /// `:`
    Colon,
    /// `*`
    Star,
    /// Another printable byte.
    Other(u8),
}

/// A token, and the byte of the file at which it stands.
#[derive(Clone, Copy, Debug, PartialEq)]
pub struct Token<'a> {
    pub byte: u32,
    pub lexeme: Lexeme<'a>,
}

// A large file has millions of them: the size of a `Selected` stands first, so that it shares the eight bytes of the tag.
const _: () = prove!(size_of::<Token<'static>>() == 32);

impl Token<'_> {
    /// Where it stands, in file 0.
    pub fn place(&self) -> Place
        ensures { result ≡ (lexeme self.now).place }
    {
        Place {
            file: 0,
            byte: self.byte as u64,
        }
    }
}

/// What stands before the bit select of a `Selected`: so many of its bytes.
pub fn before_select(whole: &[u8], size: u32) -> &[u8]
    ensures { result.now ≡ take size whole.now }
{
    let size = size as usize;
    if size < whole.len() {
        &whole[..size]
    } else {
        whole
    }
}

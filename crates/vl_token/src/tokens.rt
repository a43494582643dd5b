// The tokens of netlists.
use crate::bases::Base;
use crate::constants::Constant;
use crate::symbols::Symbol;
use sg_logic::Value;
use sg_text::{Keyword, Place};
use sg_time::{Decimal, Scale};

/// What a module takes from the directives before it.
#[derive(Clone, Copy, Debug, PartialEq, Eq)]
pub struct Mark {
    /// Its scale of time: 1 ns / 1 ps where no `` `timescale`` stands before it.
    pub scale: Scale,
    /// Whether it is a cell.
    pub cell: bool,
    /// Whether its nets may be implicit.
    pub implicit: bool,
}

/// What a token is. Its texts are parts of the files.
#[derive(Clone, Copy, Debug, PartialEq)]
pub enum TokenKind<'a> {
    /// The word `module` or `macromodule`.
    Module(Mark),
    /// Another word of the grammar.
    Word(Keyword),
    /// A reserved word of a construct that is left out.
    LeftOut(&'a [u8]),
    /// A name, an escaped one without its backslash.
    Name(&'a [u8]),
    /// A name that begins with `$`.
    System(&'a [u8]),
    /// A number, and whether its spelling is 1 to 18 digits and nothing else.
    Number { value: Decimal, whole: bool },
    /// A constant with a width.
    Sized(Constant<'a>),
    /// A constant without a width, as `'b1`.
    Unsized { base: Base, digits: &'a [u8] },
    /// A change of an `edge` list: two of 0, 1 and x, where z is read as x.
    Pair { from: Value, to: Value },
    Symbol(Symbol),
    /// A byte of a table.
    Byte(u8),
    /// What no rule takes.
    Other(&'a [u8]),
}

/// A token, and where it stands. What a macro gives stands at the macro's outermost use.
#[derive(Clone, Copy, Debug, PartialEq)]
pub struct Token<'a> {
    pub kind: TokenKind<'a>,
    pub place: Place,
}

// A netlist of 10 MB has about four million tokens.
const TOKEN_SIZE: usize = std::mem::size_of::<Token<'static>>();

const _: () = prove!(TOKEN_SIZE == 48);

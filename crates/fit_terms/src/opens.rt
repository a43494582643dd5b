// Operators and brackets of an expression (IEEE 1364-2005, 5.1).
use fit_gates::{Bitwise, Logical, Reduction};
use vl_token::{Symbol, Token, TokenKind};

/// An operator before an operand.
#[derive(Clone, Copy)]
pub enum Prefix {
    Inverted,
    Reduced(Reduction),
}

/// An operator between two.
#[derive(Clone, Copy)]
pub enum Infix {
    Bitwise(Bitwise),
    Logical(Logical),
    Compared(bool),
    Matched(bool),
}

/// What was begun and waits for its end.
#[derive(Clone, Copy)]
pub enum Open {
    Paren,
    /// A brace, and how many parts stand before the last comma.
    Brace(usize),
    /// A brace whose one part stands so many times.
    Times(usize),
    Before(Prefix),
    Between(Infix),
    Question,
    Colon,
}

fn is_symbol(token: Option<&Token<'_>>, symbol: Symbol) -> bool {
    match token {
        Some(token) => fit_items::is_symbol(token, symbol),
        None => false,
    }
}

/// The operator that begins at a symbol, and how many symbols it has: `~&` and `~|` have two.
pub fn prefix_of(symbol: Symbol, next: Option<&Token<'_>>) -> Option<(Prefix, usize)> {
    match symbol {
        Symbol::Tilde if is_symbol(next, Symbol::And) => {
            Some((Prefix::Reduced(Reduction::Nand), 2))
        }
        Symbol::Tilde if is_symbol(next, Symbol::Or) => Some((Prefix::Reduced(Reduction::Nor), 2)),
        Symbol::Tilde => Some((Prefix::Inverted, 1)),
        Symbol::Bang => Some((Prefix::Reduced(Reduction::Nor), 1)),
        Symbol::And => Some((Prefix::Reduced(Reduction::And), 1)),
        Symbol::Or => Some((Prefix::Reduced(Reduction::Or), 1)),
        Symbol::Xor => Some((Prefix::Reduced(Reduction::Xor), 1)),
        Symbol::TildeXor | Symbol::XorTilde => Some((Prefix::Reduced(Reduction::Xnor), 1)),
        _ => None,
    }
}

pub fn infix_of(symbol: Symbol) -> Option<Infix> {
    match symbol {
        Symbol::And => Some(Infix::Bitwise(Bitwise::And)),
        Symbol::Or => Some(Infix::Bitwise(Bitwise::Or)),
        Symbol::Xor => Some(Infix::Bitwise(Bitwise::Xor)),
        Symbol::TildeXor | Symbol::XorTilde => Some(Infix::Bitwise(Bitwise::Xnor)),
        Symbol::AndAnd => Some(Infix::Logical(Logical::And)),
        Symbol::OrOr => Some(Infix::Logical(Logical::Or)),
        Symbol::Equal => Some(Infix::Compared(true)),
        Symbol::Unequal => Some(Infix::Compared(false)),
        Symbol::CaseEqual => Some(Infix::Matched(true)),
        Symbol::CaseUnequal => Some(Infix::Matched(false)),
        _ => None,
    }
}

/// The level of what is closed where a whole operand is wanted.
pub const ALL: u8 = 1;
/// The level of the operators that bind tighter than `?`.
pub const OPERATORS: u8 = 2;

/// How tight an operator binds (IEEE 1364-2005, table 5-4).
pub fn level_of(infix: Infix) -> u8 {
    match infix {
        Infix::Logical(Logical::Or) => 2,
        Infix::Logical(Logical::And) => 3,
        Infix::Bitwise(Bitwise::Or) => 4,
        Infix::Bitwise(Bitwise::Xor | Bitwise::Xnor) => 5,
        Infix::Bitwise(Bitwise::And) => 6,
        Infix::Compared(_) | Infix::Matched(_) => 7,
    }
}

/// How tight what was begun binds what stands behind it; 0 where it waits for its own end.
pub fn hold_of(open: Open) -> u8 {
    match open {
        Open::Before(_) => 8,
        Open::Between(infix) => level_of(infix),
        Open::Colon => ALL,
        _ => 0,
    }
}

/// Whether it is `?`.
pub fn is_question(token: &Token<'_>) -> bool {
    match token.kind {
        TokenKind::Other([b'?']) => true,
        _ => false,
    }
}

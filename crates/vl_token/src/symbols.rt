// The symbols of netlists.
ghost use Rattle.std.specs.Prelude.{◌≡◌, map};
ghost use Rattle.vl_token.specs.Symbols.{symbol_number, symbol_in, symbol_of};
ghost use Rattle.vl_token.specs.Seen.{row};

/// A symbol, one variant for each spelling (IEEE 1364-2005, the clause on operators).
#[derive(Clone, Copy, Debug)]
pub enum Symbol {
    /// `=>`
    Parallel,
    /// `*>`
    Full,
    /// `&&&`
    AndAndAnd,
    /// `&&`
    AndAnd,
    /// `&`
    And,
    /// `||`
    OrOr,
    /// `|`
    Or,
    /// `===`
    CaseEqual,
    /// `==`
    Equal,
    /// `=`
    Assign,
    /// `!==`
    CaseUnequal,
    /// `!=`
    Unequal,
    /// `!`
    Bang,
    /// `~^`
    TildeXor,
    /// `^~`
    XorTilde,
    /// `^`
    Xor,
    /// `~`
    Tilde,
    /// `(`
    LeftParen,
    /// `)`
    RightParen,
    /// `[`
    LeftBracket,
    /// `]`
    RightBracket,
    /// `{`
    LeftBrace,
    /// `}`
    RightBrace,
    /// `,`
    Comma,
    /// `;`
    Semicolon,
    /// `:`
    Colon,
    /// `.`
    Point,
    /// `#`
    Hash,
    /// `+`
    Plus,
    /// `-`
    Minus,
}

// In the order of the definition.
const SYMBOLS: [(&str, Symbol); 30] = [
    ("=>", Symbol::Parallel),
    ("*>", Symbol::Full),
    ("&&&", Symbol::AndAndAnd),
    ("&&", Symbol::AndAnd),
    ("&", Symbol::And),
    ("||", Symbol::OrOr),
    ("|", Symbol::Or),
    ("===", Symbol::CaseEqual),
    ("==", Symbol::Equal),
    ("=", Symbol::Assign),
    ("!==", Symbol::CaseUnequal),
    ("!=", Symbol::Unequal),
    ("!", Symbol::Bang),
    ("~^", Symbol::TildeXor),
    ("^~", Symbol::XorTilde),
    ("^", Symbol::Xor),
    ("~", Symbol::Tilde),
    ("(", Symbol::LeftParen),
    (")", Symbol::RightParen),
    ("[", Symbol::LeftBracket),
    ("]", Symbol::RightBracket),
    ("{", Symbol::LeftBrace),
    ("}", Symbol::RightBrace),
    (",", Symbol::Comma),
    (";", Symbol::Semicolon),
    (":", Symbol::Colon),
    (".", Symbol::Point),
    ("#", Symbol::Hash),
    ("+", Symbol::Plus),
    ("-", Symbol::Minus),
];

impl Symbol {
    /// Its number among the symbols.
    pub fn number(self) -> u8
        ensures { result ≡ symbol_number self }
    {
        match self {
            Symbol::Parallel => 0,
            Symbol::Full => 1,
            Symbol::AndAndAnd => 2,
            Symbol::AndAnd => 3,
            Symbol::And => 4,
            Symbol::OrOr => 5,
            Symbol::Or => 6,
            Symbol::CaseEqual => 7,
            Symbol::Equal => 8,
            Symbol::Assign => 9,
            Symbol::CaseUnequal => 10,
            Symbol::Unequal => 11,
            Symbol::Bang => 12,
            Symbol::TildeXor => 13,
            Symbol::XorTilde => 14,
            Symbol::Xor => 15,
            Symbol::Tilde => 16,
            Symbol::LeftParen => 17,
            Symbol::RightParen => 18,
            Symbol::LeftBracket => 19,
            Symbol::RightBracket => 20,
            Symbol::LeftBrace => 21,
            Symbol::RightBrace => 22,
            Symbol::Comma => 23,
            Symbol::Semicolon => 24,
            Symbol::Colon => 25,
            Symbol::Point => 26,
            Symbol::Hash => 27,
            Symbol::Plus => 28,
            Symbol::Minus => 29,
        }
    }
}

impl PartialEq for Symbol {
    ghost use Rattle.std.specs.Prelude.{nat_eq};
    ghost use Rattle.std.specs.Ordering.{on};
    ghost use Rattle.std.specs.Cmp.Rules.{comparing};
    ghost use Rattle.std.proofs.Common.{rules};

    ghost eq = { on symbol_number nat_eq };

    ghost laws = { Prim.search (comparing, rules) };

    fn eq(&self, other: &Symbol) -> bool {
        self.number() == other.number()
    }
}

impl Eq for Symbol {
    ghost use Rattle.std.specs.Cmp.Rules.{comparing};
    ghost use Rattle.std.proofs.Common.{rules};

    ghost laws = { Prim.search (comparing, rules) };
}

// The symbol of the first of the rows with these bytes.
fn symbol_in(rows: &[(&str, Symbol)], bytes: &[u8]) -> Option<Symbol>
    ensures { result ≡ symbol_in bytes.now (map row rows.now) }
{
    let mut rest = rows;
    while let [(spelling, symbol), tail @ ..] = rest {
        if spelling.as_bytes() == bytes {
            return Some(*symbol);
        }
        rest = tail;
    }
    None
}

/// The symbol that is spelled so.
pub fn symbol_of(bytes: &[u8]) -> Option<Symbol>
    ensures { result ≡ symbol_of bytes.now }
{
    symbol_in(&SYMBOLS, bytes)
}

// Tokens that mean the same, and the operators of conditions.
ghost use Rattle.std.specs.Prelude.{◌≡◌, true};
ghost use Rattle.vl_token.specs.Seen.{meaning};
ghost use Rattle.fit_checks.specs.Forms as forms;
ghost use Rattle.fit_checks.specs.Written as written;
ghost use Rattle.fit_checks.specs.WrittenSeen.{kinds_seen, tokens_seen};

use sg_text::Keyword;
use vl_token::{Symbol, Token, TokenKind};

/// Whether it is `==` or `!=`.
pub fn is_equality(token: &Token<'_>) -> bool
    ensures { result ≡ written.is_equality (meaning token.now.kind) }
{
    match token.kind {
        TokenKind::Symbol(Symbol::Equal | Symbol::Unequal) => true,
        _ => false,
    }
}

/// Whether it is another operator of conditions.
pub fn is_operator(token: &Token<'_>) -> bool
    ensures { result ≡ written.is_operator (meaning token.now.kind) }
{
    match token.kind {
        TokenKind::Symbol(
            Symbol::AndAnd
            | Symbol::And
            | Symbol::OrOr
            | Symbol::Or
            | Symbol::CaseEqual
            | Symbol::CaseUnequal
            | Symbol::Bang
            | Symbol::TildeXor
            | Symbol::XorTilde
            | Symbol::Xor
            | Symbol::Tilde,
        ) => true,
        _ => false,
    }
}

pub fn is_minus(token: &Token<'_>) -> bool
    ensures { result ≡ forms.is_minus (meaning token.now.kind) }
{
    match token.kind {
        TokenKind::Symbol(Symbol::Minus) => true,
        _ => false,
    }
}

// Whether two words of edges are the same.
fn is_same_edge(a: Keyword, b: Keyword) -> bool
    ensures { result ≡ true → a ≡ b }
{
    match (a, b) {
        (Keyword::Posedge, Keyword::Posedge)
        | (Keyword::Negedge, Keyword::Negedge)
        | (Keyword::Edge, Keyword::Edge) => true,
        _ => false,
    }
}

// Whether two tokens of a check mean the same.
#[tactic(auto, using(crate::proofs::TokenLaws::same_symbol))]
fn is_same(a: TokenKind<'_>, b: TokenKind<'_>) -> bool
    ensures { result ≡ true → meaning a.entry ≡ meaning b.entry }
{
    match (a, b) {
        (TokenKind::Symbol(x), TokenKind::Symbol(y)) => x.number() == y.number(),
        (TokenKind::Name(x), TokenKind::Name(y)) => x == y,
        (TokenKind::System(x), TokenKind::System(y)) => x == y,
        (TokenKind::Word(x), TokenKind::Word(y)) => is_same_edge(x, y),
        (
            TokenKind::Number { value, whole },
            TokenKind::Number {
                value: other,
                whole: other_whole,
            },
        ) => {
            value.digits == other.digits
                && value.exponent == other.exponent
                && value.negative == other.negative
                && whole == other_whole
        }
        (TokenKind::Sized(x), TokenKind::Sized(y)) => {
            x.digits == y.digits && x.width == y.width && x.base == y.base
        }
        (
            TokenKind::Unsized { base, digits },
            TokenKind::Unsized {
                base: other,
                digits: other_digits,
            },
        ) => base == other && digits == other_digits,
        (
            TokenKind::Pair { from, to },
            TokenKind::Pair {
                from: other_from,
                to: other_to,
            },
        ) => from == other_from && to == other_to,
        _ => false,
    }
}

/// Whether tokens that were made mean the same as others.
pub fn are_same(made: &[TokenKind<'_>], tokens: &[Token<'_>]) -> bool
    ensures { result ≡ true → kinds_seen made.now ≡ tokens_seen tokens.now }
{
    let mut left = made;
    let mut others = tokens;
    while let [kind, more @ ..] = left {
        let [token, rest @ ..] = others else {
            return false;
        };
        if !is_same(*kind, token.kind) {
            return false;
        }
        left = more;
        others = rest;
    }
    others.is_empty()
}

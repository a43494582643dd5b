// A whole file, piece by piece.
ghost use Rattle.std.specs.Prelude.{◌≡◌, ◌≤◌, ◌<◌, ◌+◌, ◌-◌, ◌^◌, ◌++◌, ◌∷◌, [], List, length, take, drop, map, nat_lt, IfSome, IfOk, IfErr, OnOk};
ghost use Rattle.sdf_lex.specs.Seen.{meaning, lexeme};
ghost use Rattle.sdf_lex.specs.Operators.{operator_of};
ghost use Rattle.sdf_lex.specs.Pieces.{here, symbol_meaning};
ghost use Rattle.sdf_lex.specs.PieceBridge.{bracket_tokens, first_mark, kind_tokens, IsWithin};
ghost use Rattle.sdf_lex.specs.Tokens.{Lexeme as LexemeSeen};
ghost use Rattle.sdf_lex.specs.Lexes.{Outcome, LexesFrom, Lexes, Stands, Tells, IsLexedBy, IsRefusedBy};

use crate::faults::LexKind;
use crate::operators::operator_of;
use crate::pieces::{Kind, first_piece, is_bad};
use crate::tokens::{Lexeme, Token};
use crate::words::index_of;
use sg_text::{NoMemory, Place, Refused};
use std::alloc::Global;

// How many bytes a file may have.
const LARGEST: usize = 1 << 28;

fn fault(kind: LexKind, at: usize) -> Refused<LexKind>
    ensures { result ≡ Refused.Fault kind (record { file = 0; byte = at }) }
{
    let byte = at as u64;
    Refused::Fault {
        kind,
        place: Place { file: 0, byte },
    }
}

fn push<'a>(tokens: &mut Vec<Token<'a>>, at: usize, found: Lexeme<'a>) -> Result<(), NoMemory>
    requires { at ≤ 2 ^ 28 }
    ensures { OnOk result (map lexeme tokens.new.items ≡ map lexeme tokens.old.items ++ here (meaning found.entry) at ∷ []) }
{
    tokens.push(Token {
        byte: at as u32,
        lexeme: found,
    })?;
    Ok(())
}

// What stands between a piece's first byte and its last.
fn inside(bytes: &[u8]) -> &[u8]
    ensures { result.now ≡ take (length bytes.now - 2) (drop 1 bytes.now) }
{
    match bytes {
        [_, inside @ .., _] => inside,
        _ => &[],
    }
}

fn symbol(bytes: &[u8]) -> Lexeme<'_>
    ensures { meaning result ≡ symbol_meaning bytes.now (operator_of bytes.now) }
{
    if let Some(operator) = operator_of(bytes) {
        return Lexeme::Operator(operator);
    }
    match bytes {
        [b, ..] => Lexeme::Other(*b),
        [] => Lexeme::Other(0),
    }
}

fn mark(bytes: &[u8]) -> Lexeme<'_>
    ensures { meaning result ≡ first_mark bytes.now }
{
    match bytes {
        [b'(', ..] => Lexeme::Left,
        [b')', ..] => Lexeme::Right,
        [b':', ..] => Lexeme::Colon,
        [b'*', ..] => Lexeme::Star,
        [b, ..] => Lexeme::Other(*b),
        [] => Lexeme::Other(0),
    }
}

// The tokens of a word whose last unescaped bracket stands at this byte of it.
fn push_word<'a>(
    tokens: &mut Vec<Token<'a>>,
    at: usize,
    bytes: &'a [u8],
    bracket: Option<usize>,
) -> Result<(), NoMemory>
    requires few { at + length bytes.now ≤ 2 ^ 28 }
    requires inside { IfSome bracket (λ n. n < length bytes.now) }
    ensures { OnOk result (map lexeme tokens.new.items ≡ map lexeme tokens.old.items ++ bracket_tokens at bytes.now bracket) }
{
    let Some(n) = bracket else {
        return push(tokens, at, Lexeme::Word(bytes));
    };
    let Some(index) = index_of(&bytes[n + 1..]) else {
        return push(tokens, at, Lexeme::Word(bytes));
    };
    let size = n as u32;
    push(tokens, at, Lexeme::Selected { size, whole: bytes })?;
    push(tokens, at + n, Lexeme::Select(index))
}

// The tokens of a piece of a kind.
fn push_piece<'a>(
    tokens: &mut Vec<Token<'a>>,
    at: usize,
    kind: Kind,
    bytes: &'a [u8],
) -> Result<(), NoMemory>
    requires few { at + length bytes.now ≤ 2 ^ 28 }
    requires inside { IsWithin kind (length bytes.now) }
    ensures { OnOk result (map lexeme tokens.new.items ≡ map lexeme tokens.old.items ++ kind_tokens at kind bytes.now) }
{
    match kind {
        Kind::Gap | Kind::Bad => Ok(()),
        Kind::Word(bracket) => push_word(tokens, at, bytes, bracket),
        Kind::Text => push(tokens, at, Lexeme::Text(inside(bytes))),
        Kind::UnendedText => push(tokens, at, Lexeme::UnendedText),
        Kind::Symbol => push(tokens, at, symbol(bytes)),
        Kind::Mark => push(tokens, at, mark(bytes)),
    }
}

fn is_too_large(bytes: &[u8]) -> bool
    ensures { result ≡ nat_lt (2 ^ 28) (length bytes.now) }
{
    bytes.len() > LARGEST
}

/// Puts the tokens of the first piece of a text behind others, and answers how many bytes the piece has. The text begins at byte `at`
/// of its file. A bad byte is the fault at it.
pub fn lex_piece<'a>(
    tokens: &mut Vec<Token<'a>>,
    at: usize,
    rest: &'a [u8],
) -> Result<usize, Refused<LexKind>>
    requires some { 0 < length rest.now }
    requires few { at + length rest.now ≤ 2 ^ 28 }
    ensures size { IfOk result (λ size. (0 < size) × (size ≤ length rest.now)) }
    // Behind them stands what comes of the rest.
    ensures found { IfOk result (λ size. IsLexedBy at rest.now size (map lexeme tokens.old.items) (map lexeme tokens.new.items)) }
    ensures refused { (before : List LexemeSeen) → IfErr result (λ r. IsRefusedBy before at rest.now r) }
{
    let (kind, size) = first_piece(rest);
    if is_bad(kind) {
        return Err(fault(LexKind::BadByte, at));
    }
    push_piece(tokens, at, kind, &rest[..size])?;
    Ok(size)
}

fn lex_small(alloc: Global, bytes: &[u8]) -> Result<Vec<Token<'_>>, Refused<LexKind>>
    requires { length bytes.now ≤ 2 ^ 28 }
    ensures { Stands (LexesFrom [] 0 bytes.now) result }
{
    let mut tokens = Vec::new(alloc);
    let mut at = 0;
    let mut rest = bytes;
    while !rest.is_empty() {
        let size = lex_piece(&mut tokens, at, rest)?;
        at += size;
        rest = &rest[size..];
    }
    Ok(tokens)
}

/// The tokens of an SDF file (IEEE 1497-2001, the clause on lexical elements), as file 0.
///
/// Their texts are parts of the file. A file of more than 2^28 bytes is `FileTooLarge` at that byte; else the first bad
/// byte is answered, if there is one. Takes memory for the tokens.
pub fn lex(alloc: Global, bytes: &[u8]) -> Result<Vec<Token<'_>>, Refused<LexKind>>
    // The tokens or the fault that it answers stand.
    ensures found { Stands (Lexes bytes.now) result }
    // No others stand.
    ensures only { (o : Outcome) → Lexes bytes.now o → Tells o result }
{
    if is_too_large(bytes) {
        return Err(fault(LexKind::FileTooLarge, LARGEST));
    }
    lex_small(alloc, bytes)
}

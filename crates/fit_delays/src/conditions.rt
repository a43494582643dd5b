// Conditions, as they are spelled and as they are meant.
use crate::groups::slice;
use crate::meanings::meaning_of;
use crate::spelling::{push_integer, push_name};
use cond_expr::{Op, Phase, Tok, after, ended};
use sdf_lex::{Lexeme, Token, before_select, called, is_name};
use sdf_tree::constant_of;
use sg_logic::Value;
use sg_text::NoMemory;
use std::alloc::Global;

// No file has so many parentheses.
const MOST_OPEN: u64 = 1 << 32;

/// A condition: its words without parentheses round the whole in one spelling, which two conditions share if their words are the same;
/// and a text that they share if they hold for the same values of their nets, as far as operators of one bit are rewritten.
#[derive(Drop)]
pub struct Condition {
    pub spelled: Vec<u8>,
    pub meant: Vec<u8>,
}

impl Condition {
    /// Takes memory.
    pub fn copy(&self, alloc: Global) -> Result<Condition, NoMemory> {
        Ok(Condition {
            spelled: Vec::from_slice(alloc, &self.spelled)?,
            meant: Vec::from_slice(alloc, &self.meant)?,
        })
    }
}

/// How an operator is written.
pub fn op_text(op: Op) -> &'static [u8] {
    match op {
        Op::Tilde => b"~",
        Op::Bang => b"!",
        Op::And => b"&",
        Op::Or => b"|",
        Op::Xor => b"^",
        Op::Equal => b"==",
        Op::Unequal => b"!=",
        Op::CaseEqual => b"===",
        Op::CaseUnequal => b"!==",
        Op::TildeXor => b"~^",
        Op::XorTilde => b"^~",
        Op::AndAnd => b"&&",
        Op::OrOr => b"||",
    }
}

/// How a constant of one bit is written.
pub fn value_text(value: Value) -> &'static [u8] {
    match value {
        Value::Zero => b"1'b0",
        Value::One => b"1'b1",
        Value::X => b"1'bx",
        Value::Z => b"1'bz",
    }
}

/// Whether an operator stands before its operand, behind this word.
pub fn is_before(last: Option<&Tok<Vec<u8>>>) -> bool {
    match last {
        None | Some(Tok::Op(_)) | Some(Tok::Left) => true,
        _ => false,
    }
}

fn push_op(text: &mut Vec<u8>, op: Op, last: Option<&Tok<Vec<u8>>>) -> Result<(), NoMemory> {
    if !is_before(last) {
        text.push(b' ')?;
        text.extend_from_slice(op_text(op))?;
        text.push(b' ')?;
        return Ok(());
    }
    text.extend_from_slice(op_text(op))?;
    Ok(())
}

fn push_tok(
    text: &mut Vec<u8>,
    tok: &Tok<Vec<u8>>,
    last: Option<&Tok<Vec<u8>>>,
) -> Result<(), NoMemory> {
    match tok {
        Tok::Name(name) => push_name(text, name)?,
        Tok::Index(n) => {
            text.push(b'[')?;
            push_integer(text, *n)?;
            text.push(b']')?;
        }
        Tok::Const(value) => text.extend_from_slice(value_text(*value))?,
        Tok::Op(op) => push_op(text, *op, last)?,
        Tok::Left => text.push(b'(')?,
        Tok::Right => text.push(b')')?,
    }
    Ok(())
}

// A blank keeps two operators before an operand apart.
fn push_gap(
    text: &mut Vec<u8>,
    tok: &Tok<Vec<u8>>,
    last: Option<&Tok<Vec<u8>>>,
) -> Result<(), NoMemory> {
    if let (Tok::Op(_), Some(Tok::Op(_))) = (tok, last) {
        if text.last() != Some(&b' ') {
            text.push(b' ')?;
        }
    }
    Ok(())
}

fn spelled(alloc: Global, toks: &[Tok<Vec<u8>>]) -> Result<Vec<u8>, NoMemory> {
    let mut text = Vec::new(alloc);
    let mut last = None;
    for tok in toks {
        push_gap(&mut text, tok, last)?;
        push_tok(&mut text, tok, last)?;
        last = Some(tok);
    }
    Ok(text)
}

// How many pairs of parentheses enclose all: the least depth at which another word stands.
fn enclosing_pairs(toks: &[Tok<Vec<u8>>]) -> usize {
    let mut open: usize = 0;
    let mut least = usize::MAX;
    for tok in toks {
        match tok {
            Tok::Left => open = open.saturating_add(1),
            Tok::Right => open = open.saturating_sub(1),
            _ => least = least.min(open),
        }
    }
    least
}

// Without so many words at each end.
fn without_ends(toks: &[Tok<Vec<u8>>], size: usize) -> &[Tok<Vec<u8>>] {
    let end = toks.len().saturating_sub(size);
    if size <= end {
        &toks[size..end]
    } else {
        &toks[..0]
    }
}

/// The condition of these words, which are one. Takes memory.
pub fn condition_of(alloc: Global, toks: &[Tok<Vec<u8>>]) -> Result<Condition, NoMemory> {
    Ok(Condition {
        spelled: spelled(alloc, without_ends(toks, enclosing_pairs(toks)))?,
        meant: meaning_of(alloc, toks)?,
    })
}

// A name as it is called, if a word is one.
fn name_tok(alloc: Global, word: &[u8]) -> Result<Option<Tok<Vec<u8>>>, NoMemory> {
    if !is_name(word) {
        return Ok(None);
    }
    Ok(Some(Tok::Name(called(alloc, word)?)))
}

// A word of a file: a constant, or else a name.
fn word_tok(alloc: Global, word: &[u8]) -> Result<Option<Tok<Vec<u8>>>, NoMemory> {
    match constant_of(alloc, word)? {
        Some(value) => Ok(Some(Tok::Const(value))),
        None => name_tok(alloc, word),
    }
}

fn tok_of(alloc: Global, token: &Token<'_>) -> Result<Option<Tok<Vec<u8>>>, NoMemory> {
    match token.lexeme {
        Lexeme::Word(word) => word_tok(alloc, word),
        Lexeme::Selected { size, whole } => name_tok(alloc, before_select(whole, size)),
        Lexeme::Select(n) => Ok(Some(Tok::Index(n))),
        Lexeme::Operator(op) => Ok(Some(Tok::Op(op))),
        Lexeme::Left => Ok(Some(Tok::Left)),
        Lexeme::Right => Ok(Some(Tok::Right)),
        _ => Ok(None),
    }
}

// Whether words are a condition, by the grammar of those that are taken.
fn is_condition(toks: &[Tok<Vec<u8>>]) -> bool {
    let mut open: u64 = 0;
    let mut phase = Phase::Operand;
    for tok in toks {
        if open >= MOST_OPEN {
            return false;
        }
        match after(open, phase, tok) {
            Some((behind, next)) => {
                open = behind;
                phase = next;
            }
            None => return false,
        }
    }
    ended(open, phase)
}

/// The condition that some tokens spell, if they spell one. Takes memory.
pub fn written_condition(
    alloc: Global,
    tokens: &[Token<'_>],
) -> Result<Option<Condition>, NoMemory> {
    let mut toks = Vec::new(alloc);
    for token in tokens {
        let Some(tok) = tok_of(alloc, token)? else {
            return Ok(None);
        };
        toks.push(tok)?;
    }
    if !is_condition(&toks) {
        return Ok(None);
    }
    Ok(Some(condition_of(alloc, &toks)?))
}

fn is_text(token: &Token<'_>) -> bool {
    match token.lexeme {
        Lexeme::Text(_) => true,
        _ => false,
    }
}

/// The condition of a group, from behind its word and a text up to as many tokens before its end. Takes memory.
pub fn group_condition(
    alloc: Global,
    group: &[Token<'_>],
    behind: usize,
) -> Result<Option<Condition>, NoMemory> {
    let first = match group.get(2) {
        Some(token) if is_text(token) => 3,
        _ => 2,
    };
    let end = group.len().saturating_sub(1).saturating_sub(behind);
    written_condition(alloc, slice(group, first, end))
}

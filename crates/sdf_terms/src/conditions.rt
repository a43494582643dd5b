// The reader of conditions.
ghost use Rattle.std.specs.Prelude.{◌≡◌, ◌<◌, ◌^◌, Some, IfOk, map};
ghost use Rattle.std.specs.Option.{option_map};
ghost use Rattle.grammar.specs.Reading.{Gives};
ghost use Rattle.cond_expr.specs.Kinds.{index_kind};
ghost use Rattle.cond_expr.specs.WordReading.{IsWordAlone, WordRead};
ghost use Rattle.cond_expr.specs.WordStates.{allows, may_end};
ghost use Rattle.sdf_lex.specs.Seen.{lexeme, meaning};
ghost use Rattle.sdf_tree.specs.Conditions as rules;
ghost use Rattle.sdf_tree.specs.Entries as entries;
ghost use Rattle.sdf_tree.specs.Seen.{view_tok};
ghost use Rattle.sdf_terms.specs.Conditions.{seen, word_alone};

use crate::tokens::{is_select, is_text, text, token_at, word};
use cond_expr::{Phase, Tok, after};
use grammar::ReadFault;
use sdf_lex::{Lexeme, Token, before_select, is_name};
use sdf_tree::{Keyword, constant_of};
use sg_text::NoMemory;
use std::alloc::Global;

/// The word of a condition that a token is alone.
fn word_of<'a>(alloc: Global, token: Lexeme<'a>) -> Result<Option<Tok<&'a [u8]>>, NoMemory>
    ensures { IfOk result (λ word. seen word ≡ word_alone (meaning token.entry)) }
{
    match token {
        Lexeme::Word(text) => {
            let constant = constant_of(alloc, text)?;
            match constant {
                Some(value) => Ok(Some(Tok::Const(value))),
                None if is_name(text) => Ok(Some(Tok::Name(text))),
                None => Ok(None),
            }
        }
        Lexeme::Selected { size, whole } if is_name(before_select(whole, size)) => {
            Ok(Some(Tok::Name(before_select(whole, size))))
        }
        Lexeme::Operator(op) => Ok(Some(Tok::Op(op))),
        Lexeme::Left => Ok(Some(Tok::Left)),
        Lexeme::Right => Ok(Some(Tok::Right)),
        _ => Ok(None),
    }
}

/// The word that the token there is alone.
fn word_there<'a>(
    alloc: Global,
    tokens: &[Token<'a>],
    at: usize,
) -> Result<Option<Tok<&'a [u8]>>, NoMemory>
    ensures { IsWordAlone rules.vocabulary view_tok (map lexeme tokens.now) at result }
{
    match token_at(tokens, at) {
        Some(token) => word_of(alloc, token.lexeme),
        None => Ok(None),
    }
}

/// A name's index
fn index<'a>(tokens: &[Token<'a>], at: usize) -> Result<(Tok<&'a [u8]>, usize), ReadFault>
    ensures { Gives (λ x. (view_tok x.0, x.1)) result (rules.index.read (map lexeme tokens.now) at) }
{
    match token_at(tokens, at) {
        Some(
            Token {
                lexeme: Lexeme::Select(bit),
                ..
            },
        ) => Ok((Tok::Index(bit), at + 1)),
        _ => Err(ReadFault::At(at)),
    }
}

/// Whether an index may come.
fn takes_index(unclosed: u64, phase: Phase) -> bool
    ensures { result ≡ allows (Some (unclosed, phase)) index_kind }
{
    match phase {
        Phase::Name => true,
        Phase::Operand | Phase::Whole => false,
    }
}

/// Whether a condition may end.
fn ended(unclosed: u64, phase: Phase) -> bool
    ensures { result ≡ may_end (Some (unclosed, phase)) }
{
    match phase {
        Phase::Operand => false,
        Phase::Name | Phase::Whole => unclosed == 0,
    }
}

/// The word that may come, the position behind it, and the parentheses that are open then.
fn next_word<'a>(
    alloc: Global,
    tokens: &[Token<'a>],
    at: usize,
    unclosed: u64,
    phase: Phase,
) -> Result<Option<(Tok<&'a [u8]>, usize, u64, Phase)>, ReadFault>
    requires { unclosed < 2 ^ 63 }
    ensures { WordRead rules.vocabulary view_tok (map lexeme tokens.now) at (Some (unclosed, phase)) result }
{
    if is_select(tokens, at) {
        if !takes_index(unclosed, phase) {
            return Ok(None);
        }
        let (word, next) = index(tokens, at)?;
        return Ok(Some((word, next, unclosed, Phase::Whole)));
    }
    let word = match word_there(alloc, tokens, at) {
        Ok(Some(word)) => word,
        Ok(None) => return Ok(None),
        Err(NoMemory) => return Err(ReadFault::Memory),
    };
    match after(unclosed, phase, &word) {
        Some((unclosed_then, then)) => Ok(Some((word, at + 1, unclosed_then, then))),
        None => Ok(None),
    }
}

/// The words of a condition, of any depth.
#[tactic(auto, unfolding(sdf_tree::specs::Conditions::condition_parts))]
fn condition<'a>(
    alloc: Global,
    tokens: &[Token<'a>],
    at: usize,
) -> Result<(Vec<Tok<&'a [u8]>>, usize), ReadFault>
    ensures { Gives (λ x. (map view_tok x.0.items, x.1)) result (rules.condition.read (map lexeme tokens.now) at) }
{
    let mut words = Vec::new(alloc);
    let mut next = at;
    let mut unclosed = 0u64;
    let mut phase = Phase::Operand;
    'more: while let Some((one, behind, unclosed_then, then)) = next_word(
        alloc, tokens, next, unclosed, phase,
    )? {
        words.push(one)?;
        next = behind;
        unclosed = unclosed_then;
        phase = then;
    }
    if !ended(unclosed, phase) {
        return Err(ReadFault::At(next));
    }
    words.shrink_to_fit();
    Ok((words, next))
}

/// `COND [ text ] condition`
#[tactic(auto, unfolding(sdf_tree::specs::Entries::cond_parts))]
pub fn cond<'a>(
    alloc: Global,
    tokens: &[Token<'a>],
    at: usize,
) -> Result<(Vec<Tok<&'a [u8]>>, usize), ReadFault>
    ensures { Gives (λ x. (map view_tok x.0.items, x.1)) result (entries.cond.read (map lexeme tokens.now) at) }
{
    let next = word(tokens, at, Keyword::Cond)?;
    if is_text(tokens, next) {
        let (_, next) = text(tokens, next)?;
        return condition(alloc, tokens, next);
    }
    condition(alloc, tokens, next)
}

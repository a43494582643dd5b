// The reader of conditions.
ghost use Rattle.std.specs.Prelude.{◌<◌, ◌^◌, Some, map};
ghost use Rattle.grammar.specs.Reading.{Gives};
ghost use Rattle.cond_expr.specs.WordReading.{WordRead};
ghost use Rattle.vl_token.specs.Seen.{lexeme};
ghost use Rattle.vl_tree.specs.Conditions as rules;
ghost use Rattle.vl_tree.specs.Seen.{view_word};

use crate::names::int;
use crate::tokens::{is_mark, mark, place_at};
use crate::words::word_alone;
use cond_expr::{Phase, Tok, after, ended, takes_index};
use grammar::ReadFault;
use sg_text::NoMemory;
use std::alloc::Global;
use vl_token::{Symbol, Token};
use vl_tree::Word;

/// `"[" int "]"`
#[tactic(auto, unfolding(vl_tree::specs::Conditions::index_parts))]
fn index<'a>(tokens: &[Token<'a>], at: usize) -> Result<(Word<'a>, usize), ReadFault>
    ensures { Gives (λ x. (view_word x.0, x.1)) result (rules.index.read (map lexeme tokens.now) at) }
{
    let next = mark(tokens, at, Symbol::LeftBracket)?;
    let (bit, next) = int(tokens, next)?;
    let next = mark(tokens, next, Symbol::RightBracket)?;
    let place = place_at(tokens, at)?;
    Ok((
        Word {
            place,
            token: Tok::Index(bit),
        },
        next,
    ))
}

/// The word that may come, the position behind it, and the parentheses that are open then.
fn word<'a>(
    alloc: Global,
    tokens: &[Token<'a>],
    at: usize,
    unclosed: u64,
    phase: Phase,
) -> Result<Option<(Word<'a>, usize, u64, Phase)>, ReadFault>
    requires { unclosed < 2 ^ 63 }
    ensures { WordRead rules.vocabulary view_word (map lexeme tokens.now) at (Some (unclosed, phase)) result }
{
    if is_mark(tokens, at, Symbol::LeftBracket) {
        if !takes_index(unclosed, phase) {
            return Ok(None);
        }
        let (word, next) = index(tokens, at)?;
        return Ok(Some((word, next, unclosed, Phase::Whole)));
    }
    let word = match word_alone(alloc, tokens, at) {
        Ok(Some(word)) => word,
        Ok(None) => return Ok(None),
        Err(NoMemory) => return Err(ReadFault::Memory),
    };
    match after(unclosed, phase, &word.token) {
        Some((unclosed_then, then)) => Ok(Some((word, at + 1, unclosed_then, then))),
        None => Ok(None),
    }
}

/// The words of a condition, of any depth.
#[tactic(auto, unfolding(vl_tree::specs::Conditions::condition_parts))]
pub fn condition<'a>(
    alloc: Global,
    tokens: &[Token<'a>],
    at: usize,
) -> Result<(Vec<Word<'a>>, usize), ReadFault>
    ensures { Gives (λ x. (map view_word x.0.items, x.1)) result (rules.condition.read (map lexeme tokens.now) at) }
{
    let mut words = Vec::new(alloc);
    let mut next = at;
    let mut unclosed = 0u64;
    let mut phase = Phase::Operand;
    'more: while let Some((one, behind, unclosed_then, then)) = word(
        alloc, tokens, next, unclosed, phase,
    )? {
        words.push(one)?;
        next = behind;
        unclosed = unclosed_then;
        phase = then;
    }
    if !ended(unclosed, phase) {
        return Err(ReadFault::At(next));
    }
    words.shrink_to_fit();
    Ok((words, next))
}

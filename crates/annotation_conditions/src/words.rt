// The conditions of entries.
ghost use Rattle.std.specs.Prelude.{◌≡◌, IfOk, map};
ghost use Rattle.std.specs.Option.{option_map};
ghost use Rattle.sdf_tree.specs.Seen.{view_condition, view_tok};
ghost use Rattle.annotation_conditions.specs.Seen.{wanted_seen};

use cond_expr::Tok;
use sdf_lex::called;
use sdf_tree::PathCondition;
use sg_text::{NoMemory, Text};
use std::alloc::Global;

/// Which paths an entry is for, by their condition. Names are without backslashes.
#[derive(Debug, Drop)]
pub enum Wanted {
    /// All, whatever their condition.
    Any,
    /// Those with this one.
    If(Vec<Tok<Text>>),
    /// Those that are taken where no other is.
    Else,
}

// A word of a condition, with its name as it is called.
fn called_word(alloc: Global, word: &Tok<&[u8]>) -> Result<Tok<Text>, NoMemory>
    ensures { IfOk result (λ own. own ≡ view_tok word.now) }
{
    match word {
        Tok::Name(name) => Ok(Tok::Name(Text::copy(alloc, &called(alloc, name)?)?)),
        Tok::Index(index) => Ok(Tok::Index(*index)),
        Tok::Const(value) => Ok(Tok::Const(*value)),
        Tok::Op(op) => Ok(Tok::Op(*op)),
        Tok::Left => Ok(Tok::Left),
        Tok::Right => Ok(Tok::Right),
    }
}

/// The words of a condition of a file, with names as they are called. Takes memory.
pub fn condition_words(alloc: Global, words: &[Tok<&[u8]>]) -> Result<Vec<Tok<Text>>, NoMemory>
    ensures { IfOk result (λ own. own.items ≡ map view_tok words.now) }
{
    let mut own = Vec::with_capacity(alloc, words.len())?;
    for word in words {
        own.push(called_word(alloc, word)?)?;
    }
    Ok(own)
}

/// What an entry asks of the conditions of paths. Takes memory.
pub fn what_is_wanted(alloc: Global, condition: &PathCondition<'_>) -> Result<Wanted, NoMemory>
    ensures { IfOk result (λ w. wanted_seen w ≡ view_condition condition.now) }
{
    match condition {
        PathCondition::Always => Ok(Wanted::Any),
        PathCondition::If(words) => Ok(Wanted::If(condition_words(alloc, words)?)),
        PathCondition::Else => Ok(Wanted::Else),
    }
}

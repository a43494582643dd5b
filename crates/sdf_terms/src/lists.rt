// Readers of lists of delays.
ghost use Rattle.std.specs.Prelude.{◌≡◌, map};
ghost use Rattle.grammar.specs.Reading.{Gives};
ghost use Rattle.grammar.specs.Rule.{only_if, stands};
ghost use Rattle.sdf_lex.specs.Seen.{lexeme};
ghost use Rattle.sdf_tree.specs.Kinds.{kind_of};
ghost use Rattle.sdf_tree.specs.Seen.{view_delay};
ghost use Rattle.sdf_tree.specs.Values as values;
ghost use Rattle.sdf_terms.specs.Lists.{IsAdded};

use crate::tokens::is_left;
use crate::values::delay;
use grammar::ReadFault;
use sdf_lex::Token;
use sdf_tree::WrittenDelay;
use std::alloc::Global;

// The most delays of a list.
const MAX_DELAYS: usize = 12;

/// Whether a list may end with so many delays.
pub fn may_end(limited: bool, count: usize) -> bool
    ensures { result ≡ values.may_end limited count }
{
    count != 0
        && (!limited || count == 1 || count == 2 || count == 3 || count == 6 || count == MAX_DELAYS)
}

/// Whether another delay may come behind so many.
pub fn may_come(limited: bool, count: usize) -> bool
    ensures { result ≡ values.may_come limited count }
{
    !limited || count < MAX_DELAYS
}

/// Whether another delay comes behind so many.
fn delay_comes(tokens: &[Token<'_>], at: usize, limited: bool, count: usize) -> bool
    ensures { result ≡ stands kind_of (only_if (values.may_come limited count) values.delay).starts (map lexeme tokens.now) at }
{
    if !may_come(limited, count) {
        return false;
    }
    is_left(tokens, at)
}

/// Reads a delay onto the end of a list. Answers the position behind.
fn add_delay<'a>(
    alloc: Global,
    delays: &mut Vec<WrittenDelay<'a>>,
    tokens: &[Token<'a>],
    at: usize,
) -> Result<usize, ReadFault>
    ensures { IsAdded (map lexeme tokens.now) at delays.old.items delays.new.items result }
{
    let (delay, next) = delay(alloc, tokens, at)?;
    delays.push(delay)?;
    Ok(next)
}

/// `delay { delay }`, of an allowed number where that is limited
#[tactic(auto, unfolding(sdf_tree::specs::Values::list_parts))]
pub fn list<'a>(
    alloc: Global,
    tokens: &[Token<'a>],
    at: usize,
    limited: bool,
) -> Result<(Vec<WrittenDelay<'a>>, usize), ReadFault>
    ensures { Gives (λ x. (map view_delay x.0.items, x.1)) result ((values.list limited).read (map lexeme tokens.now) at) }
{
    let mut delays = Vec::new(alloc);
    let mut next = at;
    'more: while delay_comes(tokens, next, limited, delays.len()) {
        next = add_delay(alloc, &mut delays, tokens, next)?;
    }
    if !may_end(limited, delays.len()) {
        return Err(ReadFault::At(next));
    }
    delays.shrink_to_fit();
    Ok((delays, next))
}

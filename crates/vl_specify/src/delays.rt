// Readers of lists of delays.
ghost use Rattle.std.specs.Prelude.{◌≡◌, ◌∷◌, map};
ghost use Rattle.grammar.specs.Reading.{Gives};
ghost use Rattle.grammar.specs.Rule.{◌∙∙◌, ◌▸◌, mapped, stands};
ghost use Rattle.vl_token.specs.declared.symbols.Symbol.TheVariants as symbol;
ghost use Rattle.vl_token.specs.Seen.{lexeme};
ghost use Rattle.vl_tree.specs.Amounts as amounts;
ghost use Rattle.vl_tree.specs.Kinds.{kind_of};
ghost use Rattle.vl_tree.specs.Rules as rules;
ghost use Rattle.vl_tree.specs.Seen.{view_amounts};
ghost use Rattle.vl_specify.specs.Delays.{IsAdded};

use grammar::ReadFault;
use std::alloc::Global;
use vl_terms::specify::{amount, amount_stands};
use vl_terms::tokens::{is_mark, mark};
use vl_token::{Symbol, Token};
use vl_tree::Amounts;

// The most delays of a list.
const MAX_DELAYS: usize = 12;

/// `amount [ ":" amount ":" amount ]`
#[tactic(auto, unfolding(vl_tree::specs::Amounts::amounts_parts))]
fn amounts<'a>(tokens: &[Token<'a>], at: usize) -> Result<(Amounts<'a>, usize), ReadFault>
    ensures { Gives (λ x. (view_amounts x.0, x.1)) result (amounts.amounts.read (map lexeme tokens.now) at) }
{
    let (min, next) = amount(tokens, at)?;
    if !is_mark(tokens, next, Symbol::Colon) {
        return Ok((Amounts::One(min), next));
    }
    let next = mark(tokens, next, Symbol::Colon)?;
    let (typ, next) = amount(tokens, next)?;
    let next = mark(tokens, next, Symbol::Colon)?;
    let (max, next) = amount(tokens, next)?;
    Ok((Amounts::Three { min, typ, max }, next))
}

/// `amounts | "(" amounts ")"`
#[tactic(auto, unfolding(vl_tree::specs::Amounts::path_delay_parts))]
fn path_delay<'a>(tokens: &[Token<'a>], at: usize) -> Result<(Amounts<'a>, usize), ReadFault>
    ensures { Gives (λ x. (view_amounts x.0, x.1)) result (amounts.path_delay.read (map lexeme tokens.now) at) }
{
    if amount_stands(tokens, at) {
        return amounts(tokens, at);
    }
    let next = mark(tokens, at, Symbol::LeftParen)?;
    let (values, next) = amounts(tokens, next)?;
    let next = mark(tokens, next, Symbol::RightParen)?;
    Ok((values, next))
}

/// Whether a list may end with so many delays.
fn may_close(limited: bool, count: usize) -> bool
    ensures { result ≡ amounts.may_close limited count }
{
    !limited || count == 1 || count == 2 || count == 3 || count == 6 || count == MAX_DELAYS
}

/// Whether another delay comes behind so many.
fn delay_comes(tokens: &[Token<'_>], at: usize, limited: bool, count: usize) -> bool
    ensures { result ≡ stands kind_of (amounts.next_delay limited count).starts (map lexeme tokens.now) at }
{
    if limited && count >= MAX_DELAYS {
        return false;
    }
    is_mark(tokens, at, Symbol::Comma)
}

/// `"," path-delay`
fn next_delay<'a>(tokens: &[Token<'a>], at: usize) -> Result<(Amounts<'a>, usize), ReadFault>
    ensures { Gives (λ x. (view_amounts x.0, x.1)) result ((rules.mark symbol.Comma ▸ amounts.path_delay).read (map lexeme tokens.now) at) }
{
    let next = mark(tokens, at, Symbol::Comma)?;
    path_delay(tokens, next)
}

/// Reads `"," path-delay` onto the end of a list. Answers the position behind.
fn add_delay<'a>(
    delays: &mut Vec<Amounts<'a>>,
    tokens: &[Token<'a>],
    at: usize,
) -> Result<usize, ReadFault>
    ensures { IsAdded (map lexeme tokens.now) at delays.old.items delays.new.items result }
{
    let (delay, next) = next_delay(tokens, at)?;
    delays.push(delay)?;
    Ok(next)
}

/// `path-delay { "," path-delay }`, of an allowed number where that is limited.
fn several_delays<'a>(
    alloc: Global,
    tokens: &[Token<'a>],
    at: usize,
    limited: bool,
) -> Result<(Vec<Amounts<'a>>, usize), ReadFault>
    ensures { Gives (λ x. (map view_amounts x.0.items, x.1)) result ((mapped (λ x. x.0 ∷ x.1) (amounts.path_delay ∙∙ amounts.more_delays limited)).read (map lexeme tokens.now) at) }
{
    let (first, mut next) = path_delay(tokens, at)?;
    let mut delays = Vec::with_capacity(alloc, 1)?;
    delays.push(first)?;
    'more: while delay_comes(tokens, next, limited, delays.len()) {
        next = add_delay(&mut delays, tokens, next)?;
    }
    if !may_close(limited, delays.len()) {
        return Err(ReadFault::At(next));
    }
    delays.shrink_to_fit();
    Ok((delays, next))
}

/// `amounts | "(" path-delay { "," path-delay } ")"`
#[tactic(auto, unfolding(vl_tree::specs::Amounts::delays_parts))]
pub fn delays<'a>(
    alloc: Global,
    tokens: &[Token<'a>],
    at: usize,
    limited: bool,
) -> Result<(Vec<Amounts<'a>>, usize), ReadFault>
    ensures { Gives (λ x. (map view_amounts x.0.items, x.1)) result ((amounts.delays limited).read (map lexeme tokens.now) at) }
{
    if amount_stands(tokens, at) {
        let (only, next) = amounts(tokens, at)?;
        return Ok((vec![in alloc; only]?, next));
    }
    let next = mark(tokens, at, Symbol::LeftParen)?;
    let (delays, next) = several_delays(alloc, tokens, next, limited)?;
    let next = mark(tokens, next, Symbol::RightParen)?;
    Ok((delays, next))
}

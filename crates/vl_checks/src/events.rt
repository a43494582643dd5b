// Readers of the events of timing checks.
ghost use Rattle.std.specs.Prelude.{◌≡◌, map, option_map};
ghost use Rattle.grammar.specs.Reading.{Gives};
ghost use Rattle.grammar.specs.Rule.{◌▸◌};
ghost use Rattle.vl_token.specs.declared.symbols.Symbol.TheVariants as symbol;
ghost use Rattle.vl_token.specs.Seen.{lexeme};
ghost use Rattle.vl_tree.specs.Checks as checks;
ghost use Rattle.vl_tree.specs.Conditions as conditions;
ghost use Rattle.vl_tree.specs.Rules as rules;
ghost use Rattle.vl_tree.specs.Seen.{view_event, view_word};

use crate::edges::optional_check_edge;
use grammar::ReadFault;
use std::alloc::Global;
use vl_terms::conditions::condition;
use vl_terms::specify::term;
use vl_terms::tokens::{is_mark, mark, place_at};
use vl_token::{Symbol, Token};
use vl_tree::{Event, Word};

/// `[ "&&&" condition ]`
fn optional_condition<'a>(
    alloc: Global,
    tokens: &[Token<'a>],
    at: usize,
) -> Result<(Option<Vec<Word<'a>>>, usize), ReadFault>
    ensures { Gives (λ x. (option_map (λ ws. map view_word ws.items) x.0, x.1)) result ((rules.optional (rules.mark symbol.AndAndAnd ▸ conditions.condition)).read (map lexeme tokens.now) at) }
{
    if !is_mark(tokens, at, Symbol::AndAndAnd) {
        return Ok((None, at));
    }
    let next = mark(tokens, at, Symbol::AndAndAnd)?;
    let (words, next) = condition(alloc, tokens, next)?;
    Ok((Some(words), next))
}

/// `[ check-edge ] term [ "&&&" condition ]`
#[tactic(auto, unfolding(vl_tree::specs::Checks::event_parts))]
pub fn event<'a>(
    alloc: Global,
    tokens: &[Token<'a>],
    at: usize,
) -> Result<(Event<'a>, usize), ReadFault>
    ensures { Gives (λ x. (view_event x.0, x.1)) result (checks.event.read (map lexeme tokens.now) at) }
{
    let (edge, next) = optional_check_edge(alloc, tokens, at)?;
    let (term, next) = term(tokens, next)?;
    let (condition, next) = optional_condition(alloc, tokens, next)?;
    let place = place_at(tokens, at)?;
    let event = Event {
        place,
        edge,
        term,
        condition,
    };
    Ok((event, next))
}

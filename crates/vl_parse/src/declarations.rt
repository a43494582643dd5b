// Readers of the words that begin declarations.
ghost use Rattle.std.specs.Prelude.{◌≡◌, map};
ghost use Rattle.grammar.specs.Reading.{Gives};
ghost use Rattle.grammar.specs.Rule.{stands};
ghost use Rattle.vl_token.specs.Seen.{lexeme};
ghost use Rattle.vl_tree.specs.Items as items;
ghost use Rattle.vl_tree.specs.Items.{direction_starts, net_type_starts, supply_starts};
ghost use Rattle.vl_tree.specs.Kinds.{kind_of};
ghost use Rattle.vl_tree.specs.Rules as rules;

use grammar::ReadFault;
use sg_text::Keyword;
use vl_terms::tokens::{is_word, word};
use vl_token::Token;
use vl_tree::{Direction, NetType, Supply};

/// Whether a direction stands there.
pub fn direction_stands(tokens: &[Token<'_>], at: usize) -> bool
    ensures { result ≡ stands kind_of direction_starts (map lexeme tokens.now) at }
{
    is_word(tokens, at, Keyword::Input) || is_word(tokens, at, Keyword::Output)
}

/// `"input" | "output"`
#[tactic(auto, unfolding(vl_tree::specs::Items::direction_parts))]
pub fn direction(tokens: &[Token<'_>], at: usize) -> Result<(Direction, usize), ReadFault>
    ensures { Gives (λ x. x) result (items.direction.read (map lexeme tokens.now) at) }
{
    if is_word(tokens, at, Keyword::Input) {
        return Ok((Direction::Input, at + 1));
    }
    let next = word(tokens, at, Keyword::Output)?;
    Ok((Direction::Output, next))
}

/// Whether a type of nets stands there.
pub fn net_type_stands(tokens: &[Token<'_>], at: usize) -> bool
    ensures { result ≡ stands kind_of net_type_starts (map lexeme tokens.now) at }
{
    is_word(tokens, at, Keyword::Wire) || is_word(tokens, at, Keyword::Tri)
}

/// `"wire" | "tri"`
#[tactic(auto, unfolding(vl_tree::specs::Items::net_type_parts))]
pub fn net_type(tokens: &[Token<'_>], at: usize) -> Result<(NetType, usize), ReadFault>
    ensures { Gives (λ x. x) result (items.net_type.read (map lexeme tokens.now) at) }
{
    if is_word(tokens, at, Keyword::Wire) {
        return Ok((NetType::Wire, at + 1));
    }
    let next = word(tokens, at, Keyword::Tri)?;
    Ok((NetType::Tri, next))
}

/// `[ "wire" | "tri" ]`
pub fn optional_net_type(
    tokens: &[Token<'_>],
    at: usize,
) -> Result<(Option<NetType>, usize), ReadFault>
    ensures { Gives (λ x. x) result ((rules.optional items.net_type).read (map lexeme tokens.now) at) }
{
    if !net_type_stands(tokens, at) {
        return Ok((None, at));
    }
    let (found, next) = net_type(tokens, at)?;
    Ok((Some(found), next))
}

/// Whether a supply stands there.
pub fn supply_stands(tokens: &[Token<'_>], at: usize) -> bool
    ensures { result ≡ stands kind_of supply_starts (map lexeme tokens.now) at }
{
    is_word(tokens, at, Keyword::Supply0) || is_word(tokens, at, Keyword::Supply1)
}

/// `"supply0" | "supply1"`
#[tactic(auto, unfolding(vl_tree::specs::Items::supply_parts))]
pub fn supply(tokens: &[Token<'_>], at: usize) -> Result<(Supply, usize), ReadFault>
    ensures { Gives (λ x. x) result (items.supply.read (map lexeme tokens.now) at) }
{
    if is_word(tokens, at, Keyword::Supply0) {
        return Ok((Supply::Zero, at + 1));
    }
    let next = word(tokens, at, Keyword::Supply1)?;
    Ok((Supply::One, next))
}

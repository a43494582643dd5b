// Readers of paths.
ghost use Rattle.std.specs.Prelude.{◌≡◌, map};
ghost use Rattle.grammar.specs.Reading.{Gives};
ghost use Rattle.grammar.specs.Rule.{stands};
ghost use Rattle.vl_token.specs.Seen.{lexeme};
ghost use Rattle.vl_tree.specs.Kinds.{kind_of};
ghost use Rattle.vl_tree.specs.Paths as rules;
ghost use Rattle.vl_tree.specs.Paths.{path_starts};
ghost use Rattle.vl_tree.specs.Seen.{view_path, view_path_condition};
ghost use Rattle.vl_specify.specs.Parts.{view_body};

use crate::delays::delays;
use crate::edges::optional_edge;
use crate::ends::{PathEnds, ends};
use grammar::ReadFault;
use sg_text::Keyword;
use std::alloc::Global;
use vl_terms::conditions::condition;
use vl_terms::tokens::{is_mark, is_word, mark, place_at, word};
use vl_token::{Symbol, Token};
use vl_tree::{Amounts, EdgeWord, PathCondition, SpecifyPath};

/// A path without its condition.
#[derive(Drop)]
pub struct PathBody<'a> {
    pub edge: Option<EdgeWord>,
    pub ends: PathEnds<'a>,
    pub delays: Vec<Amounts<'a>>,
}

/// `"(" [ edge ] ends ")" "=" delays`, the edge where edges are allowed.
#[tactic(auto, unfolding(vl_tree::specs::Paths::path_body_parts))]
fn path_body<'a>(
    alloc: Global,
    tokens: &[Token<'a>],
    at: usize,
    limited: bool,
    edges: bool,
) -> Result<(PathBody<'a>, usize), ReadFault>
    ensures { Gives (λ x. (view_body x.0, x.1)) result ((rules.path_body limited edges).read (map lexeme tokens.now) at) }
{
    let next = mark(tokens, at, Symbol::LeftParen)?;
    let (edge, next) = optional_edge(tokens, next, edges)?;
    let (ends, next) = ends(alloc, tokens, next)?;
    let next = mark(tokens, next, Symbol::RightParen)?;
    let next = mark(tokens, next, Symbol::Assign)?;
    let (delays, next) = delays(alloc, tokens, next, limited)?;
    Ok((PathBody { edge, ends, delays }, next))
}

/// `[ "if" "(" condition ")" | "ifnone" ] path-body`
#[tactic(auto, unfolding(vl_tree::specs::Paths::conditional_parts))]
fn conditional<'a>(
    alloc: Global,
    tokens: &[Token<'a>],
    at: usize,
    limited: bool,
) -> Result<(PathCondition<'a>, PathBody<'a>, usize), ReadFault>
    ensures { Gives (λ x. ((view_path_condition x.0, view_body x.1), x.2)) result ((rules.conditional limited).read (map lexeme tokens.now) at) }
{
    if is_word(tokens, at, Keyword::If) {
        let next = word(tokens, at, Keyword::If)?;
        let next = mark(tokens, next, Symbol::LeftParen)?;
        let (words, next) = condition(alloc, tokens, next)?;
        let next = mark(tokens, next, Symbol::RightParen)?;
        let (body, next) = path_body(alloc, tokens, next, limited, true)?;
        return Ok((PathCondition::If(words), body, next));
    }
    if is_word(tokens, at, Keyword::IfNone) {
        let next = word(tokens, at, Keyword::IfNone)?;
        let (body, next) = path_body(alloc, tokens, next, limited, false)?;
        return Ok((PathCondition::IfNone, body, next));
    }
    let (body, next) = path_body(alloc, tokens, at, limited, true)?;
    Ok((PathCondition::Always, body, next))
}

/// Whether a path stands there.
pub fn path_stands(tokens: &[Token<'_>], at: usize) -> bool
    ensures { result ≡ stands kind_of path_starts (map lexeme tokens.now) at }
{
    is_word(tokens, at, Keyword::If)
        || is_word(tokens, at, Keyword::IfNone)
        || is_mark(tokens, at, Symbol::LeftParen)
}

/// A path, with its place.
#[tactic(auto, unfolding(vl_tree::specs::Paths::path_parts))]
pub fn path<'a>(
    alloc: Global,
    tokens: &[Token<'a>],
    at: usize,
    limited: bool,
) -> Result<(SpecifyPath<'a>, usize), ReadFault>
    ensures { Gives (λ x. (view_path x.0, x.1)) result ((rules.path limited).read (map lexeme tokens.now) at) }
{
    let (condition, body, next) = conditional(alloc, tokens, at, limited)?;
    let place = place_at(tokens, at)?;
    let path = SpecifyPath {
        place,
        condition,
        edge: body.edge,
        sources: body.ends.sources,
        polarity: body.ends.polarity,
        arrow: body.ends.arrow,
        destination: body.ends.destination,
        delays: body.delays,
    };
    Ok((path, next))
}

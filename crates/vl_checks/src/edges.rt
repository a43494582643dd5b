// Readers of the edges of timing checks.
ghost use Rattle.std.specs.Prelude.{◌≡◌, map, option_map};
ghost use Rattle.grammar.specs.Reading.{Gives};
ghost use Rattle.grammar.specs.Rule.{stands};
ghost use Rattle.vl_token.specs.Seen.{lexeme};
ghost use Rattle.vl_tree.specs.Kinds.{kind_of, is_pair};
ghost use Rattle.vl_tree.specs.Paths as paths;
ghost use Rattle.vl_tree.specs.Paths.{check_edge_starts};
ghost use Rattle.vl_tree.specs.Rules as rules;
ghost use Rattle.vl_tree.specs.Seen.{view_edge};

use grammar::ReadFault;
use sg_text::Keyword;
use std::alloc::Global;
use vl_terms::lists::{ListPart, listed};
use vl_terms::specify::{edge, edge_stands};
use vl_terms::tokens::{is_word, mark, token_at, word};
use vl_token::{Symbol, Token, TokenKind};
use vl_tree::{EdgePair, EdgeWord};

/// A change in a list of changes.
#[tactic(auto, unfolding(vl_tree::specs::Paths::pair_parts))]
fn pair(tokens: &[Token<'_>], at: usize) -> Result<(EdgePair, usize), ReadFault>
    ensures { Gives (λ x. x) result (paths.pair.read (map lexeme tokens.now) at) }
{
    match token_at(tokens, at) {
        Some(
            Token {
                kind: TokenKind::Pair { from, to },
                ..
            },
        ) => Ok((EdgePair { from, to }, at + 1)),
        _ => Err(ReadFault::At(at)),
    }
}

/// Whether a change stands there.
fn is_pair(tokens: &[Token<'_>], at: usize) -> bool
    ensures { result ≡ stands kind_of is_pair (map lexeme tokens.now) at }
{
    matches!(
        token_at(tokens, at),
        Some(Token {
            kind: TokenKind::Pair { .. },
            ..
        })
    )
}

struct PairPart;

impl<'a> ListPart<'a> for PairPart {
    type Value = EdgePair;

    ghost use Rattle.vl_tree.specs.declared.paths.EdgePair.{EdgePair as TreeSeen};
    ghost use Rattle.vl_tree.specs.Paths as paths;

    ghost Tree = { TreeSeen };

    ghost rule = { paths.pair };

    ghost view = { λ p. p };

    fn begins(tokens: &[Token<'a>], at: usize) -> bool {
        is_pair(tokens, at)
    }

    fn read(_: Global, tokens: &[Token<'a>], at: usize) -> Result<(EdgePair, usize), ReadFault> {
        pair(tokens, at)
    }
}

/// `edge | "edge" "[" pair { "," pair } "]"`
#[tactic(auto, using(crate::proofs::Lists::comma_pair), unfolding(vl_tree::specs::Paths::check_edge_parts))]
fn check_edge(
    alloc: Global,
    tokens: &[Token<'_>],
    at: usize,
) -> Result<(EdgeWord, usize), ReadFault>
    ensures { Gives (λ x. (view_edge x.0, x.1)) result (paths.check_edge.read (map lexeme tokens.now) at) }
{
    if edge_stands(tokens, at) {
        return edge(tokens, at);
    }
    let next = word(tokens, at, Keyword::Edge)?;
    let next = mark(tokens, next, Symbol::LeftBracket)?;
    let (pairs, next) = listed::<PairPart>(alloc, tokens, next)?;
    let next = mark(tokens, next, Symbol::RightBracket)?;
    Ok((EdgeWord::Pairs(pairs), next))
}

/// Whether an edge of a timing check stands there.
fn check_edge_stands(tokens: &[Token<'_>], at: usize) -> bool
    ensures { result ≡ stands kind_of check_edge_starts (map lexeme tokens.now) at }
{
    edge_stands(tokens, at) || is_word(tokens, at, Keyword::Edge)
}

/// `[ check-edge ]`
pub fn optional_check_edge(
    alloc: Global,
    tokens: &[Token<'_>],
    at: usize,
) -> Result<(Option<EdgeWord>, usize), ReadFault>
    ensures { Gives (λ x. (option_map view_edge x.0, x.1)) result ((rules.optional paths.check_edge).read (map lexeme tokens.now) at) }
{
    if !check_edge_stands(tokens, at) {
        return Ok((None, at));
    }
    let (found, next) = check_edge(alloc, tokens, at)?;
    Ok((Some(found), next))
}

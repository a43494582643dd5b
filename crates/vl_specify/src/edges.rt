// Readers of the edges of paths.
ghost use Rattle.std.specs.Prelude.{◌≡◌, map, option_map};
ghost use Rattle.grammar.specs.Reading.{Gives};
ghost use Rattle.grammar.specs.Rule.{only_if, stands};
ghost use Rattle.vl_token.specs.Seen.{lexeme};
ghost use Rattle.vl_tree.specs.Kinds.{kind_of};
ghost use Rattle.vl_tree.specs.Paths as paths;
ghost use Rattle.vl_tree.specs.Rules as rules;
ghost use Rattle.vl_tree.specs.Seen.{view_edge};

use grammar::ReadFault;
use vl_terms::specify::{edge, edge_stands};
use vl_token::Token;
use vl_tree::EdgeWord;

/// Whether an edge stands there, and may.
fn edge_comes(tokens: &[Token<'_>], at: usize, edges: bool) -> bool
    ensures { result ≡ stands kind_of (only_if edges paths.edge).starts (map lexeme tokens.now) at }
{
    if !edges {
        return false;
    }
    edge_stands(tokens, at)
}

/// An edge, where edges are allowed.
fn allowed_edge(
    tokens: &[Token<'_>],
    at: usize,
    edges: bool,
) -> Result<(EdgeWord, usize), ReadFault>
    ensures { Gives (λ x. (view_edge x.0, x.1)) result ((only_if edges paths.edge).read (map lexeme tokens.now) at) }
{
    if !edges {
        return Err(ReadFault::At(at));
    }
    edge(tokens, at)
}

/// `[ edge ]`, where edges are allowed.
pub fn optional_edge(
    tokens: &[Token<'_>],
    at: usize,
    edges: bool,
) -> Result<(Option<EdgeWord>, usize), ReadFault>
    ensures { Gives (λ x. (option_map view_edge x.0, x.1)) result ((rules.optional (only_if edges paths.edge)).read (map lexeme tokens.now) at) }
{
    if !edge_comes(tokens, at, edges) {
        return Ok((None, at));
    }
    let (found, next) = allowed_edge(tokens, at, edges)?;
    Ok((Some(found), next))
}

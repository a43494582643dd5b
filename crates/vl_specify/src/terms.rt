// Readers of the terms and the polarities of paths.
ghost use Rattle.std.specs.Prelude.{◌≡◌, map};
ghost use Rattle.grammar.specs.Reading.{Gives};
ghost use Rattle.grammar.specs.Rule.{stands};
ghost use Rattle.vl_token.specs.Seen.{lexeme};
ghost use Rattle.vl_tree.specs.Kinds.{kind_of};
ghost use Rattle.vl_tree.specs.Paths as paths;
ghost use Rattle.vl_tree.specs.Paths.{polarity_starts};
ghost use Rattle.vl_tree.specs.Rules as rules;
ghost use Rattle.vl_tree.specs.Seen.{view_term};

use grammar::ReadFault;
use std::alloc::Global;
use vl_terms::lists::{ListPart, listed};
use vl_terms::specify::term;
use vl_terms::tokens::{is_mark, is_name, mark};
use vl_token::{Symbol, Token};
use vl_tree::{Polarity, Term};

struct TermPart;

impl<'a> ListPart<'a> for TermPart {
    type Value = Term<'a>;

    ghost use Rattle.vl_tree.specs.Tree.{Term as TreeSeen};
    ghost use Rattle.vl_tree.specs.Paths as paths;
    ghost use Rattle.vl_tree.specs.Seen.{view_term};

    ghost Tree = { TreeSeen };

    ghost rule = { paths.term };

    ghost view = { view_term };

    fn begins(tokens: &[Token<'a>], at: usize) -> bool {
        is_name(tokens, at)
    }

    fn read(_: Global, tokens: &[Token<'a>], at: usize) -> Result<(Term<'a>, usize), ReadFault> {
        term(tokens, at)
    }
}

/// `term { "," term }`
#[tactic(auto, using(crate::proofs::Lists::comma_term), unfolding(vl_tree::specs::Paths::terms_parts))]
pub fn terms<'a>(
    alloc: Global,
    tokens: &[Token<'a>],
    at: usize,
) -> Result<(Vec<Term<'a>>, usize), ReadFault>
    ensures { Gives (λ x. (map view_term x.0.items, x.1)) result (paths.terms.read (map lexeme tokens.now) at) }
{
    listed::<TermPart>(alloc, tokens, at)
}

/// `"+" | "-"`
#[tactic(auto, unfolding(vl_tree::specs::Paths::polarity_parts))]
fn polarity(tokens: &[Token<'_>], at: usize) -> Result<(Polarity, usize), ReadFault>
    ensures { Gives (λ x. x) result (paths.polarity.read (map lexeme tokens.now) at) }
{
    if is_mark(tokens, at, Symbol::Plus) {
        return Ok((Polarity::Positive, at + 1));
    }
    let next = mark(tokens, at, Symbol::Minus)?;
    Ok((Polarity::Negative, next))
}

/// Whether a polarity stands there.
fn polarity_stands(tokens: &[Token<'_>], at: usize) -> bool
    ensures { result ≡ stands kind_of polarity_starts (map lexeme tokens.now) at }
{
    is_mark(tokens, at, Symbol::Plus) || is_mark(tokens, at, Symbol::Minus)
}

/// `[ polarity ]`
pub fn optional_polarity(
    tokens: &[Token<'_>],
    at: usize,
) -> Result<(Option<Polarity>, usize), ReadFault>
    ensures { Gives (λ x. x) result ((rules.optional paths.polarity).read (map lexeme tokens.now) at) }
{
    if !polarity_stands(tokens, at) {
        return Ok((None, at));
    }
    let (found, next) = polarity(tokens, at)?;
    Ok((Some(found), next))
}

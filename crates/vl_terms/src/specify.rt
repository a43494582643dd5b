// Readers of the smaller parts of specify blocks: terms, amounts and edges.
ghost use Rattle.std.specs.Prelude.{◌≡◌, map};
ghost use Rattle.grammar.specs.Reading.{Gives};
ghost use Rattle.grammar.specs.Rule.{stands};
ghost use Rattle.vl_token.specs.Seen.{lexeme};
ghost use Rattle.vl_tree.specs.Amounts as amounts;
ghost use Rattle.vl_tree.specs.Amounts.{amount_starts};
ghost use Rattle.vl_tree.specs.Kinds.{kind_of};
ghost use Rattle.vl_tree.specs.Paths as paths;
ghost use Rattle.vl_tree.specs.Paths.{edge_starts};
ghost use Rattle.vl_tree.specs.Seen.{view_amount, view_edge, view_term};

use crate::delays::is_number;
use crate::expressions::optional_select;
use crate::tokens::{is_name, is_word, name, token_at, word};
use grammar::ReadFault;
use sg_text::Keyword;
use vl_token::{Token, TokenKind};
use vl_tree::{Amount, EdgeWord, Term};

/// `name [ select ]`
#[tactic(auto, unfolding(vl_tree::specs::Paths::term_parts))]
pub fn term<'a>(tokens: &[Token<'a>], at: usize) -> Result<(Term<'a>, usize), ReadFault>
    ensures { Gives (λ x. (view_term x.0, x.1)) result (paths.term.read (map lexeme tokens.now) at) }
{
    let (name, next) = name(tokens, at)?;
    let (select, next) = optional_select(tokens, next)?;
    Ok((Term { name, select }, next))
}

/// Whether an amount stands there.
pub fn amount_stands(tokens: &[Token<'_>], at: usize) -> bool
    ensures { result ≡ stands kind_of amount_starts (map lexeme tokens.now) at }
{
    is_number(tokens, at) || is_name(tokens, at)
}

/// `number | name`
#[tactic(auto, unfolding(vl_tree::specs::Amounts::amount_parts))]
pub fn amount<'a>(tokens: &[Token<'a>], at: usize) -> Result<(Amount<'a>, usize), ReadFault>
    ensures { Gives (λ x. (view_amount x.0, x.1)) result (amounts.amount.read (map lexeme tokens.now) at) }
{
    match token_at(tokens, at) {
        Some(
            Token {
                kind: TokenKind::Number { value, .. },
                place,
            },
        ) => Ok((Amount::Number { place, value }, at + 1)),
        _ => {
            let (parameter, next) = name(tokens, at)?;
            Ok((Amount::Parameter(parameter), next))
        }
    }
}

/// Whether an edge stands there that is one of the two words.
pub fn edge_stands(tokens: &[Token<'_>], at: usize) -> bool
    ensures { result ≡ stands kind_of edge_starts (map lexeme tokens.now) at }
{
    is_word(tokens, at, Keyword::Posedge) || is_word(tokens, at, Keyword::Negedge)
}

/// `"posedge" | "negedge"`
#[tactic(auto, unfolding(vl_tree::specs::Paths::edge_parts))]
pub fn edge(tokens: &[Token<'_>], at: usize) -> Result<(EdgeWord, usize), ReadFault>
    ensures { Gives (λ x. (view_edge x.0, x.1)) result (paths.edge.read (map lexeme tokens.now) at) }
{
    if is_word(tokens, at, Keyword::Posedge) {
        return Ok((EdgeWord::Posedge, at + 1));
    }
    let next = word(tokens, at, Keyword::Negedge)?;
    Ok((EdgeWord::Negedge, next))
}

// Readers of ports and of what stands before them.
ghost use Rattle.std.specs.Prelude.{◌≡◌, is_some, map};
ghost use Rattle.std.specs.Option.{option_map};
ghost use Rattle.grammar.specs.Reading.{Gives};
ghost use Rattle.grammar.specs.Rule.{stands, ◌∙∙◌};
ghost use Rattle.sdf_lex.specs.Seen.{lexeme};
ghost use Rattle.sdf_tree.specs.Entries as entries;
ghost use Rattle.sdf_tree.specs.Kinds as kinds;
ghost use Rattle.sdf_tree.specs.Kinds.{kind_of};
ghost use Rattle.sdf_tree.specs.Rules as rules;
ghost use Rattle.sdf_tree.specs.Seen.{view_port, view_ports, view_terminal};
ghost use Rattle.sdf_tree.specs.Values as values;
ghost use Rattle.sdf_terms.specs.Tokens.{found};

use crate::named::{Edges, named, named_at};
use crate::tokens::{left, optional_select, right, token_at};
use grammar::ReadFault;
use sdf_lex::{Lexeme, Token, before_select};
use sdf_tree::{Divider, Edge, Port, PortPair, Terminal, is_port_path};

/// The path of the port that stands there, without its bit select.
fn port_path_at<'a>(tokens: &[Token<'a>], at: usize, divider: Divider) -> Option<&'a [u8]>
    ensures read { (rules.token (λ t. kinds.port_path t.meaning) (kinds.is_port divider)).read (map lexeme tokens.now) at ≡ found (option_map (λ path. path.now) result) at }
    ensures stands { stands kind_of (kinds.is_port divider) (map lexeme tokens.now) at ≡ is_some result }
{
    match token_at(tokens, at) {
        Some(
            Token {
                lexeme: Lexeme::Word(text),
                ..
            },
        ) if is_port_path(divider, text) => Some(text),
        Some(
            Token {
                lexeme: Lexeme::Selected { size, whole },
                ..
            },
        ) if is_port_path(divider, before_select(whole, size)) => {
            Some(before_select(whole, size))
        }
        _ => None,
    }
}

/// Whether a port stands there.
pub fn port_stands(tokens: &[Token<'_>], at: usize, divider: Divider) -> bool
    ensures { result ≡ stands kind_of (kinds.is_port divider) (map lexeme tokens.now) at }
{
    port_path_at(tokens, at, divider).is_some()
}

/// Names with the divider between, and a bit select perhaps
#[tactic(auto, unfolding(sdf_tree::specs::Values::port_parts))]
pub fn port<'a>(
    tokens: &[Token<'a>],
    at: usize,
    divider: Divider,
) -> Result<(Port<'a>, usize), ReadFault>
    ensures { Gives (λ x. (view_port x.0, x.1)) result ((values.port divider).read (map lexeme tokens.now) at) }
{
    let Some(path) = port_path_at(tokens, at, divider) else {
        return Err(ReadFault::At(at));
    };
    let (bit, next) = optional_select(tokens, at + 1);
    Ok((Port { path, bit }, next))
}

/// `[ port ]`
pub fn optional_port<'a>(
    tokens: &[Token<'a>],
    at: usize,
    divider: Divider,
) -> Result<(Option<Port<'a>>, usize), ReadFault>
    ensures { Gives (λ x. (option_map view_port x.0, x.1)) result ((rules.optional (values.port divider)).read (map lexeme tokens.now) at) }
{
    if !port_stands(tokens, at, divider) {
        return Ok((None, at));
    }
    let (found, next) = port(tokens, at, divider)?;
    Ok((Some(found), next))
}

/// `[ port port ]`
pub fn optional_ports<'a>(
    tokens: &[Token<'a>],
    at: usize,
    divider: Divider,
) -> Result<(Option<PortPair<'a>>, usize), ReadFault>
    ensures { Gives (λ x. (option_map view_ports x.0, x.1)) result ((rules.optional (values.port divider ∙∙ values.port divider)).read (map lexeme tokens.now) at) }
{
    if !port_stands(tokens, at, divider) {
        return Ok((None, at));
    }
    let (from, next) = port(tokens, at, divider)?;
    let (to, next) = port(tokens, next, divider)?;
    Ok((Some(PortPair { from, to }), next))
}

/// Whether such a word stands there.
pub fn edge_stands(tokens: &[Token<'_>], at: usize) -> bool
    ensures { result ≡ stands kind_of values.is_edge (map lexeme tokens.now) at }
{
    named_at::<Edges>(tokens, at).is_some()
}

/// `posedge`, `negedge`, or a change
#[tactic(auto, unfolding(sdf_tree::specs::Values::edge_parts))]
pub fn edge_word(tokens: &[Token<'_>], at: usize) -> Result<(Edge, usize), ReadFault>
    ensures { Gives (λ x. x) result (values.edge_word.read (map lexeme tokens.now) at) }
{
    named::<Edges>(tokens, at)
}

/// `port | "(" edge port ")"`
#[tactic(auto, unfolding(sdf_tree::specs::Entries::spec_parts))]
pub fn spec<'a>(
    tokens: &[Token<'a>],
    at: usize,
    divider: Divider,
) -> Result<(Terminal<'a>, usize), ReadFault>
    ensures { Gives (λ x. (view_terminal x.0, x.1)) result ((entries.spec divider).read (map lexeme tokens.now) at) }
{
    if port_stands(tokens, at, divider) {
        let (port, next) = port(tokens, at, divider)?;
        return Ok((
            Terminal {
                condition: None,
                edge: None,
                port,
            },
            next,
        ));
    }
    let next = left(tokens, at)?;
    let (edge, next) = edge_word(tokens, next)?;
    let (port, next) = port(tokens, next, divider)?;
    let next = right(tokens, next)?;
    Ok((
        Terminal {
            condition: None,
            edge: Some(edge),
            port,
        },
        next,
    ))
}

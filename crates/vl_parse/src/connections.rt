// Readers of the connections of instances.
ghost use Rattle.std.specs.Prelude.{◌≡◌, map, option_map};
ghost use Rattle.grammar.specs.Reading.{Gives};
ghost use Rattle.grammar.specs.Rule.{stands};
ghost use Rattle.grammar.specs.Stated.{separated_options};
ghost use Rattle.vl_token.specs.declared.symbols.Symbol.TheVariants as symbol;
ghost use Rattle.vl_token.specs.Seen.{lexeme};
ghost use Rattle.vl_tree.specs.Expressions as expressions;
ghost use Rattle.vl_tree.specs.Items as items;
ghost use Rattle.vl_tree.specs.Items.{connections_starts};
ghost use Rattle.vl_tree.specs.Kinds.{kind_of, is_symbol};
ghost use Rattle.vl_tree.specs.Rules as rules;
ghost use Rattle.vl_tree.specs.Seen.{view_connections, view_expression, view_instance, view_named_connection};

use grammar::ReadFault;
use std::alloc::Global;
use vl_terms::expressions::{expression, expression_stands, optional_expression};
use vl_terms::lists::{ListPart, listed, many_behind};
use vl_terms::tokens::{is_mark, is_name, mark, name, optional_name, place_at};
use vl_token::{Symbol, Token};
use vl_tree::{Connections, Expression, Instance, NamedConnection};

/// `"." name "(" [ expression ] ")"`
#[tactic(auto, unfolding(vl_tree::specs::Items::named_connection_parts))]
fn named_connection<'a>(
    alloc: Global,
    tokens: &[Token<'a>],
    at: usize,
) -> Result<(NamedConnection<'a>, usize), ReadFault>
    ensures { Gives (λ x. (view_named_connection x.0, x.1)) result (items.named_connection.read (map lexeme tokens.now) at) }
{
    let next = mark(tokens, at, Symbol::Point)?;
    let (port, next) = name(tokens, next)?;
    let next = mark(tokens, next, Symbol::LeftParen)?;
    let (value, next) = optional_expression(alloc, tokens, next)?;
    let next = mark(tokens, next, Symbol::RightParen)?;
    let place = place_at(tokens, at)?;
    Ok((NamedConnection { place, port, value }, next))
}

struct NamedConnectionPart;

impl<'a> ListPart<'a> for NamedConnectionPart {
    type Value = NamedConnection<'a>;

    ghost use Rattle.vl_tree.specs.Tree.{NamedConnection as ConnectionSeen};
    ghost use Rattle.vl_tree.specs.Items as items;
    ghost use Rattle.vl_tree.specs.Seen.{view_named_connection};

    ghost Tree = { ConnectionSeen };

    ghost rule = { items.named_connection };

    ghost view = { view_named_connection };

    fn begins(tokens: &[Token<'a>], at: usize) -> bool {
        is_mark(tokens, at, Symbol::Point)
    }

    fn read(
        alloc: Global,
        tokens: &[Token<'a>],
        at: usize,
    ) -> Result<(NamedConnection<'a>, usize), ReadFault> {
        named_connection(alloc, tokens, at)
    }
}

/// `"," [ expression ]`
struct MaybeExpressionPart;

impl<'a> ListPart<'a> for MaybeExpressionPart {
    type Value = Option<Expression<'a>>;

    ghost use Rattle.std.specs.Prelude.{Option, option_map};
    ghost use Rattle.grammar.specs.Rule.{◌▸◌};
    ghost use Rattle.vl_token.specs.declared.symbols.Symbol.TheVariants.{Comma};
    ghost use Rattle.vl_tree.specs.Tree.{Expression as ExpressionSeen};
    ghost use Rattle.vl_tree.specs.Expressions as expressions;
    ghost use Rattle.vl_tree.specs.Rules as rules;
    ghost use Rattle.vl_tree.specs.Seen.{view_expression};

    ghost Tree = { Option ExpressionSeen };

    ghost rule = { rules.mark Comma ▸ rules.optional expressions.expression };

    ghost view = { option_map view_expression };

    fn begins(tokens: &[Token<'a>], at: usize) -> bool {
        is_mark(tokens, at, Symbol::Comma)
    }

    fn read(
        alloc: Global,
        tokens: &[Token<'a>],
        at: usize,
    ) -> Result<(Option<Expression<'a>>, usize), ReadFault> {
        let next = mark(tokens, at, Symbol::Comma)?;
        optional_expression(alloc, tokens, next)
    }
}

/// `[ expression ] { "," [ expression ] }`, one token or more
#[tactic(auto, using(vl_tree::proofs::Lists::comma_option))]
fn ordered<'a>(
    alloc: Global,
    tokens: &[Token<'a>],
    at: usize,
) -> Result<(Vec<Option<Expression<'a>>>, usize), ReadFault>
    ensures { Gives (λ x. (map (option_map view_expression) x.0.items, x.1)) result ((separated_options kind_of expressions.expression (is_symbol symbol.Comma)).read (map lexeme tokens.now) at) }
{
    if expression_stands(tokens, at) {
        let (first, next) = expression(alloc, tokens, at)?;
        let parts = vec![in alloc; Some(first)]?;
        return many_behind::<MaybeExpressionPart>(alloc, parts, tokens, next);
    }
    let (second, next) = MaybeExpressionPart::read(alloc, tokens, at)?;
    let parts = vec![in alloc; None, second]?;
    many_behind::<MaybeExpressionPart>(alloc, parts, tokens, next)
}

/// `[ expression ] { "," [ expression ] } | named { "," named }`
#[tactic(auto, using(vl_tree::proofs::Lists::comma_named_connection), unfolding(vl_tree::specs::Items::connections_parts))]
fn connections<'a>(
    alloc: Global,
    tokens: &[Token<'a>],
    at: usize,
) -> Result<(Connections<'a>, usize), ReadFault>
    ensures { Gives (λ x. (view_connections x.0, x.1)) result (items.connections.read (map lexeme tokens.now) at) }
{
    if expression_stands(tokens, at) || is_mark(tokens, at, Symbol::Comma) {
        let (parts, next) = ordered(alloc, tokens, at)?;
        return Ok((Connections::Ordered(parts), next));
    }
    let (parts, next) = listed::<NamedConnectionPart>(alloc, tokens, at)?;
    Ok((Connections::Named(parts), next))
}

/// Whether connections begin there.
fn connections_stand(tokens: &[Token<'_>], at: usize) -> bool
    ensures { result ≡ stands kind_of connections_starts (map lexeme tokens.now) at }
{
    expression_stands(tokens, at)
        || is_mark(tokens, at, Symbol::Comma)
        || is_mark(tokens, at, Symbol::Point)
}

/// `[ connections ]`
fn optional_connections<'a>(
    alloc: Global,
    tokens: &[Token<'a>],
    at: usize,
) -> Result<(Option<Connections<'a>>, usize), ReadFault>
    ensures { Gives (λ x. (option_map view_connections x.0, x.1)) result ((rules.optional items.connections).read (map lexeme tokens.now) at) }
{
    if !connections_stand(tokens, at) {
        return Ok((None, at));
    }
    let (found, next) = connections(alloc, tokens, at)?;
    Ok((Some(found), next))
}

/// `[ name ] "(" [ connections ] ")"`
#[tactic(auto, unfolding(vl_tree::specs::Items::instance_parts))]
pub fn instance<'a>(
    alloc: Global,
    tokens: &[Token<'a>],
    at: usize,
) -> Result<(Instance<'a>, usize), ReadFault>
    ensures { Gives (λ x. (view_instance x.0, x.1)) result (items.instance.read (map lexeme tokens.now) at) }
{
    let (name, next) = optional_name(tokens, at)?;
    let next = mark(tokens, next, Symbol::LeftParen)?;
    let (found, next) = optional_connections(alloc, tokens, next)?;
    let next = mark(tokens, next, Symbol::RightParen)?;
    let place = place_at(tokens, at)?;
    let connections = match found {
        Some(connections) => connections,
        None => Connections::Ordered(Vec::new(alloc)),
    };
    Ok((
        Instance {
            place,
            name,
            connections,
        },
        next,
    ))
}

// The parts of the lists in items.
ghost use Rattle.std.specs.Prelude.{◌≡◌, map, option_map};
ghost use Rattle.grammar.specs.Reading.{Gives};
ghost use Rattle.grammar.specs.Rule.{◌▸◌, stands};
ghost use Rattle.vl_token.specs.declared.symbols.Symbol.TheVariants as symbol;
ghost use Rattle.vl_token.specs.Seen.{lexeme};
ghost use Rattle.vl_tree.specs.Expressions as expressions;
ghost use Rattle.vl_tree.specs.Items as items;
ghost use Rattle.vl_tree.specs.Items.{instance_starts};
ghost use Rattle.vl_tree.specs.Kinds.{kind_of};
ghost use Rattle.vl_tree.specs.Rules as rules;
ghost use Rattle.vl_tree.specs.Seen.{view_expression, view_gate_instance, view_join, view_net_name};

use crate::connections::instance;
use grammar::ReadFault;
use std::alloc::Global;
use vl_terms::expressions::{expression, expression_stands, expressions};
use vl_terms::lists::ListPart;
use vl_terms::tokens::{is_mark, is_name, mark, name, optional_name, place_at};
use vl_token::{Symbol, Token};
use vl_tree::{Expression, GateInstance, Instance, Join, NetName};

/// `[ "=" expression ]`
fn optional_value<'a>(
    alloc: Global,
    tokens: &[Token<'a>],
    at: usize,
) -> Result<(Option<Expression<'a>>, usize), ReadFault>
    ensures { Gives (λ x. (option_map view_expression x.0, x.1)) result ((rules.optional (rules.mark symbol.Assign ▸ expressions.expression)).read (map lexeme tokens.now) at) }
{
    if !is_mark(tokens, at, Symbol::Assign) {
        return Ok((None, at));
    }
    let next = mark(tokens, at, Symbol::Assign)?;
    let (value, next) = expression(alloc, tokens, next)?;
    Ok((Some(value), next))
}

/// `name [ "=" expression ]`
#[tactic(auto, unfolding(vl_tree::specs::Items::net_name_parts))]
fn net_name<'a>(
    alloc: Global,
    tokens: &[Token<'a>],
    at: usize,
) -> Result<(NetName<'a>, usize), ReadFault>
    ensures { Gives (λ x. (view_net_name x.0, x.1)) result (items.net_name.read (map lexeme tokens.now) at) }
{
    let (name, next) = name(tokens, at)?;
    let (value, next) = optional_value(alloc, tokens, next)?;
    Ok((NetName { name, value }, next))
}

/// `expression "=" expression`
#[tactic(auto, unfolding(vl_tree::specs::Items::join_parts))]
fn join<'a>(alloc: Global, tokens: &[Token<'a>], at: usize) -> Result<(Join<'a>, usize), ReadFault>
    ensures { Gives (λ x. (view_join x.0, x.1)) result (items.join.read (map lexeme tokens.now) at) }
{
    let (left, next) = expression(alloc, tokens, at)?;
    let next = mark(tokens, next, Symbol::Assign)?;
    let (right, next) = expression(alloc, tokens, next)?;
    let place = place_at(tokens, at)?;
    Ok((Join { place, left, right }, next))
}

/// `[ name ] "(" expression { "," expression } ")"`
#[tactic(auto, unfolding(vl_tree::specs::Items::gate_instance_parts))]
fn gate_instance<'a>(
    alloc: Global,
    tokens: &[Token<'a>],
    at: usize,
) -> Result<(GateInstance<'a>, usize), ReadFault>
    ensures { Gives (λ x. (view_gate_instance x.0, x.1)) result (items.gate_instance.read (map lexeme tokens.now) at) }
{
    let (name, next) = optional_name(tokens, at)?;
    let next = mark(tokens, next, Symbol::LeftParen)?;
    let (terminals, next) = expressions(alloc, tokens, next)?;
    let next = mark(tokens, next, Symbol::RightParen)?;
    let place = place_at(tokens, at)?;
    let instance = GateInstance {
        place,
        name,
        terminals,
    };
    Ok((instance, next))
}

/// Whether an instance begins there.
fn instance_stands(tokens: &[Token<'_>], at: usize) -> bool
    ensures { result ≡ stands kind_of instance_starts (map lexeme tokens.now) at }
{
    is_name(tokens, at) || is_mark(tokens, at, Symbol::LeftParen)
}

/// A name of nets in a list.
pub struct NetNamePart;

impl<'a> ListPart<'a> for NetNamePart {
    type Value = NetName<'a>;

    ghost use Rattle.vl_tree.specs.Tree.{NetName as TreeSeen};
    ghost use Rattle.vl_tree.specs.Items as items;
    ghost use Rattle.vl_tree.specs.Seen.{view_net_name};

    ghost Tree = { TreeSeen };

    ghost rule = { items.net_name };

    ghost view = { view_net_name };

    fn begins(tokens: &[Token<'a>], at: usize) -> bool {
        is_name(tokens, at)
    }

    fn read(
        alloc: Global,
        tokens: &[Token<'a>],
        at: usize,
    ) -> Result<(NetName<'a>, usize), ReadFault> {
        net_name(alloc, tokens, at)
    }
}

/// A join in a list.
pub struct JoinPart;

impl<'a> ListPart<'a> for JoinPart {
    type Value = Join<'a>;

    ghost use Rattle.vl_tree.specs.Tree.{Join as TreeSeen};
    ghost use Rattle.vl_tree.specs.Items as items;
    ghost use Rattle.vl_tree.specs.Seen.{view_join};

    ghost Tree = { TreeSeen };

    ghost rule = { items.join };

    ghost view = { view_join };

    fn begins(tokens: &[Token<'a>], at: usize) -> bool {
        expression_stands(tokens, at)
    }

    fn read(
        alloc: Global,
        tokens: &[Token<'a>],
        at: usize,
    ) -> Result<(Join<'a>, usize), ReadFault> {
        join(alloc, tokens, at)
    }
}

/// An instance of a gate in a list.
pub struct GateInstancePart;

impl<'a> ListPart<'a> for GateInstancePart {
    type Value = GateInstance<'a>;

    ghost use Rattle.vl_tree.specs.Tree.{GateInstance as TreeSeen};
    ghost use Rattle.vl_tree.specs.Items as items;
    ghost use Rattle.vl_tree.specs.Seen.{view_gate_instance};

    ghost Tree = { TreeSeen };

    ghost rule = { items.gate_instance };

    ghost view = { view_gate_instance };

    fn begins(tokens: &[Token<'a>], at: usize) -> bool {
        instance_stands(tokens, at)
    }

    fn read(
        alloc: Global,
        tokens: &[Token<'a>],
        at: usize,
    ) -> Result<(GateInstance<'a>, usize), ReadFault> {
        gate_instance(alloc, tokens, at)
    }
}

/// An instance in a list.
pub struct InstancePart;

impl<'a> ListPart<'a> for InstancePart {
    type Value = Instance<'a>;

    ghost use Rattle.vl_tree.specs.Tree.{Instance as TreeSeen};
    ghost use Rattle.vl_tree.specs.Items as items;
    ghost use Rattle.vl_tree.specs.Seen.{view_instance};

    ghost Tree = { TreeSeen };

    ghost rule = { items.instance };

    ghost view = { view_instance };

    fn begins(tokens: &[Token<'a>], at: usize) -> bool {
        instance_stands(tokens, at)
    }

    fn read(
        alloc: Global,
        tokens: &[Token<'a>],
        at: usize,
    ) -> Result<(Instance<'a>, usize), ReadFault> {
        instance(alloc, tokens, at)
    }
}

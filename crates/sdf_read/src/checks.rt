// Readers of timing checks.
ghost use Rattle.std.specs.Prelude.{◌≡◌, map};
ghost use Rattle.grammar.specs.Reading.{Gives};
ghost use Rattle.sdf_lex.specs.Seen.{lexeme};
ghost use Rattle.sdf_tree.specs.Checks as checks;
ghost use Rattle.sdf_tree.specs.Seen.{view_check, view_check_body, view_terminal, view_value};

use grammar::ReadFault;
use sdf_lex::Token;
use sdf_terms::balanced::balanced;
use sdf_terms::conditions::cond;
use sdf_terms::named::{PairChecks, SingleChecks, SkippedChecks, WindowChecks, named, named_at};
use sdf_terms::parts::{Form, Part};
use sdf_terms::ports::{edge_stands, edge_word, port, port_stands, spec};
use sdf_terms::tokens::{left, place_at, right};
use sdf_terms::values::value;
use sdf_tree::{Divider, Terminal, WrittenCheck, WrittenCheckBody, WrittenValue};
use std::alloc::Global;

/// `edge port ")" | COND [ text ] condition spec ")"`, behind a parenthesis
#[tactic(auto, unfolding(sdf_tree::specs::Checks::terminal_rest_parts))]
fn terminal_rest<'a>(
    alloc: Global,
    tokens: &[Token<'a>],
    at: usize,
    divider: Divider,
) -> Result<(Terminal<'a>, usize), ReadFault>
    ensures { Gives (λ x. (view_terminal x.0, x.1)) result ((checks.terminal_rest divider).read (map lexeme tokens.now) at) }
{
    if edge_stands(tokens, at) {
        let (edge, next) = edge_word(tokens, at)?;
        let (port, next) = port(tokens, next, divider)?;
        let next = right(tokens, next)?;
        return Ok((
            Terminal {
                condition: None,
                edge: Some(edge),
                port,
            },
            next,
        ));
    }
    let (words, next) = cond(alloc, tokens, at)?;
    let (inner, next) = spec(tokens, next, divider)?;
    let next = right(tokens, next)?;
    Ok((
        Terminal {
            condition: Some(words),
            edge: inner.edge,
            port: inner.port,
        },
        next,
    ))
}

/// `port | "(" edge port ")" | "(" COND [ text ] condition spec ")"`
#[tactic(auto, unfolding(sdf_tree::specs::Checks::terminal_parts))]
fn terminal<'a>(
    alloc: Global,
    tokens: &[Token<'a>],
    at: usize,
    divider: Divider,
) -> Result<(Terminal<'a>, usize), ReadFault>
    ensures { Gives (λ x. (view_terminal x.0, x.1)) result ((checks.terminal divider).read (map lexeme tokens.now) at) }
{
    if port_stands(tokens, at, divider) {
        let (port, next) = port(tokens, at, divider)?;
        return Ok((
            Terminal {
                condition: None,
                edge: None,
                port,
            },
            next,
        ));
    }
    let next = left(tokens, at)?;
    terminal_rest(alloc, tokens, next, divider)
}

/// `terminal terminal value`
#[tactic(auto, unfolding(sdf_tree::specs::Checks::two_terminals_parts))]
fn two_terminals<'a>(
    alloc: Global,
    tokens: &[Token<'a>],
    at: usize,
    divider: Divider,
) -> Result<((Terminal<'a>, Terminal<'a>, WrittenValue<'a>), usize), ReadFault>
    ensures { Gives (λ x. ((view_terminal x.0.0, (view_terminal x.0.1, view_value x.0.2)), x.1)) result ((checks.two_terminals divider).read (map lexeme tokens.now) at) }
{
    let (first, next) = terminal(alloc, tokens, at, divider)?;
    let (second, next) = terminal(alloc, tokens, next, divider)?;
    let (limit, next) = value(tokens, next)?;
    Ok(((first, second, limit), next))
}

/// The body of a timing check: its word and what stands behind it
#[tactic(auto, unfolding(sdf_tree::specs::Checks::check_body_parts))]
fn check_body<'a>(
    alloc: Global,
    tokens: &[Token<'a>],
    at: usize,
    divider: Divider,
) -> Result<(WrittenCheckBody<'a>, usize), ReadFault>
    ensures { Gives (λ x. (view_check_body x.0, x.1)) result ((checks.check_body divider).read (map lexeme tokens.now) at) }
{
    if named_at::<PairChecks>(tokens, at).is_some() {
        let (check, next) = named::<PairChecks>(tokens, at)?;
        let ((first, second, limit), next) = two_terminals(alloc, tokens, next, divider)?;
        return Ok((
            WrittenCheckBody::Pair {
                check,
                first,
                second,
                limit,
            },
            next,
        ));
    }
    if named_at::<WindowChecks>(tokens, at).is_some() {
        let (check, next) = named::<WindowChecks>(tokens, at)?;
        let ((first, second, first_limit), next) = two_terminals(alloc, tokens, next, divider)?;
        let (second_limit, next) = value(tokens, next)?;
        return Ok((
            WrittenCheckBody::Window {
                check,
                first,
                second,
                first_limit,
                second_limit,
            },
            next,
        ));
    }
    if named_at::<SingleChecks>(tokens, at).is_some() {
        let (check, next) = named::<SingleChecks>(tokens, at)?;
        let (terminal, next) = terminal(alloc, tokens, next, divider)?;
        let (limit, next) = value(tokens, next)?;
        return Ok((
            WrittenCheckBody::Single {
                check,
                terminal,
                limit,
            },
            next,
        ));
    }
    let (construct, next) = named::<SkippedChecks>(tokens, at)?;
    let next = balanced(tokens, next)?;
    Ok((WrittenCheckBody::Skipped(construct), next))
}

/// `"(" check-body ")"`
#[tactic(auto, unfolding(sdf_tree::specs::Checks::check_parts))]
fn check<'a>(
    alloc: Global,
    tokens: &[Token<'a>],
    at: usize,
    form: Form,
) -> Result<(WrittenCheck<'a>, usize), ReadFault>
    ensures { Gives (λ x. (view_check x.0, x.1)) result ((checks.check form.divider).read (map lexeme tokens.now) at) }
{
    let next = left(tokens, at)?;
    let (body, next) = check_body(alloc, tokens, next, form.divider)?;
    let next = right(tokens, next)?;
    let place = place_at(tokens, at)?;
    Ok((WrittenCheck { place, body }, next))
}

/// What stands in `TIMINGCHECK`.
pub struct Checks;

impl<'a> Part<'a> for Checks {
    type Value = WrittenCheck<'a>;

    ghost use Rattle.sdf_tree.specs.Written.{Check};
    ghost use Rattle.sdf_tree.specs.Checks as checks;
    ghost use Rattle.sdf_tree.specs.Seen.{view_check};

    ghost Tree = { Check };

    ghost rule = { λ form. checks.check form.divider };

    ghost view = { view_check };

    fn read(
        alloc: Global,
        tokens: &[Token<'a>],
        at: usize,
        form: Form,
    ) -> Result<(WrittenCheck<'a>, usize), ReadFault> {
        check(alloc, tokens, at, form)
    }
}

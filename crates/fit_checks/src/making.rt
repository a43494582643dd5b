// The tokens of the checks that are written for one.
ghost use Rattle.std.specs.Prelude.{◌≡◌, ◌++◌, ◌∷◌, [], IfOk, OnOk, codes};
ghost use Rattle.std.specs.List.{list_any};
ghost use Rattle.vl_token.specs.Seen.{meaning};
ghost use Rattle.sg_logic.specs.declared.values.Value.TheVariants.{Zero};
ghost use Rattle.vl_token.specs.Tokens.{sized_token};
ghost use Rattle.fit_checks.specs.Forms as forms;
ghost use Rattle.fit_checks.specs.Sides.{side_seen};
ghost use Rattle.fit_checks.specs.Written as checks;
ghost use Rattle.fit_checks.specs.WrittenSeen.{kinds_seen, run_seen, runs_seen, terminal_seen, tokens_seen, written_seen};

use crate::forms::Form;
use crate::tokens::is_equality;
use crate::written::{Terminal, Written};
use sg_text::NoMemory;
use std::alloc::Global;
use vl_token::{Base, Constant, Symbol, Token, TokenKind};
use vl_tree::TwoLimitCheck;

// 1'b0
#[tactic(auto, using(crate::proofs::TokenLaws::zero_bits))]
fn zero<'a>() -> TokenKind<'a>
    ensures { meaning result ≡ sized_token (Zero ∷ []) }
{
    TokenKind::Sized(Constant {
        digits: b"0",
        width: 1,
        base: Base::Binary,
    })
}

fn push_mark(out: &mut Vec<TokenKind<'_>>, symbol: Symbol) -> Result<(), NoMemory>
    ensures { OnOk result (kinds_seen out.new.items ≡ kinds_seen out.old.items ++ checks.mark symbol) }
{
    out.push(TokenKind::Symbol(symbol))?;
    Ok(())
}

/// The kinds of some tokens. Takes memory.
pub fn kinds_of<'a>(alloc: Global, run: &[Token<'a>]) -> Result<Vec<TokenKind<'a>>, NoMemory>
    ensures { IfOk result (λ all. kinds_seen all.items ≡ tokens_seen run.now) }
{
    let mut out = Vec::new(alloc);
    push_run(&mut out, run)?;
    Ok(out)
}

fn push_run<'a>(out: &mut Vec<TokenKind<'a>>, run: &[Token<'a>]) -> Result<(), NoMemory>
    ensures { OnOk result (kinds_seen out.new.items ≡ kinds_seen out.old.items ++ tokens_seen run.now) }
{
    for token in run {
        out.push(token.kind)?;
    }
    Ok(())
}

pub fn has_equality(run: &[Token<'_>]) -> bool
    ensures { result ≡ list_any checks.is_equality (tokens_seen run.now) }
{
    let mut left = run;
    while let [token, rest @ ..] = left {
        if is_equality(token) {
            return true;
        }
        left = rest;
    }
    false
}

fn push_enclosed<'a>(out: &mut Vec<TokenKind<'a>>, run: &[Token<'a>]) -> Result<(), NoMemory>
    ensures { OnOk result (kinds_seen out.new.items ≡ kinds_seen out.old.items ++ checks.enclosed (tokens_seen run.now)) }
{
    push_mark(out, Symbol::LeftParen)?;
    push_run(out, run)?;
    push_mark(out, Symbol::RightParen)
}

fn push_not_zero(out: &mut Vec<TokenKind<'_>>) -> Result<(), NoMemory>
    ensures { OnOk result (kinds_seen out.new.items ≡ kinds_seen out.old.items ++ checks.not_zero) }
{
    push_mark(out, Symbol::CaseUnequal)?;
    out.push(zero())?;
    push_mark(out, Symbol::RightParen)
}

// A condition of == or != as a part of another one.
fn push_definite<'a>(out: &mut Vec<TokenKind<'a>>, run: &[Token<'a>]) -> Result<(), NoMemory>
    ensures { OnOk result (kinds_seen out.new.items ≡ kinds_seen out.old.items ++ checks.definite (tokens_seen run.now)) }
{
    push_mark(out, Symbol::LeftParen)?;
    push_enclosed(out, run)?;
    push_not_zero(out)
}

// A condition as a part of another one.
fn push_part<'a>(out: &mut Vec<TokenKind<'a>>, run: &[Token<'a>]) -> Result<(), NoMemory>
    ensures { OnOk result (kinds_seen out.new.items ≡ kinds_seen out.old.items ++ checks.part (tokens_seen run.now)) }
{
    if has_equality(run) {
        push_definite(out, run)
    } else {
        push_enclosed(out, run)
    }
}

// What stands behind a signal for its own condition and a further one.
fn push_conditions<'a>(
    out: &mut Vec<TokenKind<'a>>,
    own: &[Token<'a>],
    further: &[Token<'a>],
) -> Result<(), NoMemory>
    ensures { OnOk result (kinds_seen out.new.items ≡ kinds_seen out.old.items ++ checks.conditions (tokens_seen own.now) (tokens_seen further.now)) }
{
    match (own, further) {
        ([], []) => Ok(()),
        ([], [_, ..]) => {
            push_mark(out, Symbol::AndAndAnd)?;
            push_run(out, further)
        }
        ([_, ..], []) => {
            push_mark(out, Symbol::AndAndAnd)?;
            push_run(out, own)
        }
        ([_, ..], [_, ..]) => {
            push_mark(out, Symbol::AndAndAnd)?;
            push_part(out, own)?;
            push_mark(out, Symbol::AndAnd)?;
            push_part(out, further)
        }
    }
}

// A terminal with a further condition.
#[derive(Clone, Copy)]
pub struct Side<'t, 'a> {
    pub terminal: Terminal<'t, 'a>,
    pub further: &'t [Token<'a>],
}

fn side_of<'t, 'a>(terminal: Terminal<'t, 'a>, further: &'t [Token<'a>]) -> Side<'t, 'a>
    ensures { side_seen result ≡ checks.terminal (terminal_seen terminal.entry) (run_seen further.entry) }
{
    Side { terminal, further }
}

fn push_side<'a>(out: &mut Vec<TokenKind<'a>>, side: Side<'_, 'a>) -> Result<(), NoMemory>
    ensures { OnOk result (kinds_seen out.new.items ≡ kinds_seen out.old.items ++ side_seen side.entry) }
{
    push_run(out, side.terminal.signal)?;
    push_conditions(out, side.terminal.condition, side.further)
}

fn push_arguments<'a>(out: &mut Vec<TokenKind<'a>>, runs: &[&[Token<'a>]]) -> Result<(), NoMemory>
    ensures { OnOk result (kinds_seen out.new.items ≡ kinds_seen out.old.items ++ checks.arguments (runs_seen runs.now)) }
{
    for run in runs {
        push_mark(out, Symbol::Comma)?;
        push_run(out, run)?;
    }
    Ok(())
}

// The front of a statement: its name and the first terminal.
fn push_front<'a>(
    out: &mut Vec<TokenKind<'a>>,
    name: &'static str,
    first: Side<'_, 'a>,
) -> Result<(), NoMemory>
    ensures { OnOk result (kinds_seen out.new.items ≡ kinds_seen out.old.items ++ checks.front name.now (side_seen first.entry)) }
{
    out.push(TokenKind::System(name.as_bytes()))?;
    push_mark(out, Symbol::LeftParen)?;
    push_side(out, first)
}

fn push_second<'a>(out: &mut Vec<TokenKind<'a>>, second: Side<'_, 'a>) -> Result<(), NoMemory>
    ensures { OnOk result (kinds_seen out.new.items ≡ kinds_seen out.old.items ++ checks.argument (side_seen second.entry)) }
{
    push_mark(out, Symbol::Comma)?;
    push_side(out, second)
}

fn push_end(out: &mut Vec<TokenKind<'_>>) -> Result<(), NoMemory>
    ensures { OnOk result (kinds_seen out.new.items ≡ kinds_seen out.old.items ++ checks.ending) }
{
    push_mark(out, Symbol::RightParen)?;
    push_mark(out, Symbol::Semicolon)
}

fn push_statement<'a>(
    out: &mut Vec<TokenKind<'a>>,
    name: &'static str,
    first: Side<'_, 'a>,
    second: Side<'_, 'a>,
    rest: &[&[Token<'a>]],
) -> Result<(), NoMemory>
    ensures { OnOk result (kinds_seen out.new.items ≡ kinds_seen out.old.items ++ checks.statement name.now (side_seen first.entry) (side_seen second.entry) (runs_seen rest.now)) }
{
    push_front(out, name, first)?;
    push_second(out, second)?;
    push_arguments(out, rest)?;
    push_end(out)
}

// The arguments behind the terminals, with these behind the notifier.
fn rest_of<'t, 'a>(
    alloc: Global,
    written: &Written<'t, 'a>,
    last: &[&'t [Token<'a>]],
) -> Result<Vec<&'t [Token<'a>]>, NoMemory>
    ensures { IfOk result (λ rest. runs_seen rest.items ≡ run_seen written.now.first ∷ run_seen written.now.second ∷ run_seen written.now.notifier ∷ runs_seen last.now) }
{
    let mut rest = Vec::new(alloc);
    rest.push(written.first)?;
    rest.push(written.second)?;
    rest.push(written.notifier)?;
    rest.extend_from_slice(last)?;
    Ok(rest)
}

fn name_of(kind: TwoLimitCheck) -> &'static str
    ensures { result.now ≡ checks.name_of kind }
{
    match kind {
        TwoLimitCheck::SetupHold => "$setuphold",
        TwoLimitCheck::RecRem => "$recrem",
    }
}

// A terminal as it stands in the text.
fn as_it_is<'t, 'a>(terminal: Terminal<'t, 'a>) -> Side<'t, 'a>
    ensures { side_seen result ≡ checks.terminal (terminal_seen terminal.entry) [] }
{
    Side {
        terminal,
        further: &terminal.signal[..0],
    }
}

/// The tokens of a check as it is written. Takes memory.
pub fn as_written<'a>(
    alloc: Global,
    written: &Written<'_, 'a>,
) -> Result<Vec<TokenKind<'a>>, NoMemory>
    ensures { IfOk result (λ all. kinds_seen all.items ≡ checks.as_written (written_seen written.now)) }
{
    let mut out = Vec::new(alloc);
    let rest = rest_of(alloc, written, &written.last)?;
    let refer = as_it_is(written.refer);
    let datum = as_it_is(written.datum);
    push_statement(&mut out, name_of(written.kind), refer, datum, &rest)?;
    Ok(out)
}

// The delayed signals behind two empty arguments.
fn behind_empty<'t, 'a>(
    alloc: Global,
    written: &Written<'t, 'a>,
) -> Result<Vec<&'t [Token<'a>]>, NoMemory>
    ensures { IfOk result (λ runs. runs_seen runs.items ≡ checks.behind_empty (checks.delayed (written_seen written.now))) }
{
    let mut runs = Vec::new(alloc);
    let delayed = written.delayed();
    if delayed.is_empty() {
        return Ok(runs);
    }
    runs.push(&written.first[..0])?;
    runs.push(&written.first[..0])?;
    runs.extend_from_slice(delayed)?;
    Ok(runs)
}

fn on_both<'a>(alloc: Global, written: &Written<'_, 'a>) -> Result<Vec<TokenKind<'a>>, NoMemory>
    ensures { IfOk result (λ all. kinds_seen all.items ≡ checks.on_both (written_seen written.now)) }
{
    let mut out = Vec::new(alloc);
    let last = behind_empty(alloc, written)?;
    let rest = rest_of(alloc, written, &last)?;
    let refer = side_of(written.refer, written.stamp());
    let datum = side_of(written.datum, written.stamp());
    push_statement(&mut out, name_of(written.kind), refer, datum, &rest)?;
    Ok(out)
}

// The arguments of a check of one limit behind its terminals.
fn limit_and_notifier<'t, 'a>(
    alloc: Global,
    limit: &'t [Token<'a>],
    notifier: &'t [Token<'a>],
) -> Result<Vec<&'t [Token<'a>]>, NoMemory>
    ensures { IfOk result (λ runs. runs_seen runs.items ≡ run_seen limit.entry ∷ checks.filled (run_seen notifier.entry)) }
{
    let mut runs = Vec::new(alloc);
    runs.push(limit)?;
    if !notifier.is_empty() {
        runs.push(notifier)?;
    }
    Ok(runs)
}

fn halves<'a>(alloc: Global, written: &Written<'_, 'a>) -> Result<Vec<TokenKind<'a>>, NoMemory>
    ensures { IfOk result (λ all. kinds_seen all.items ≡ checks.halves (written_seen written.now)) }
{
    let mut out = Vec::new(alloc);
    let first = limit_and_notifier(alloc, written.first, written.notifier)?;
    let second = limit_and_notifier(alloc, written.second, written.notifier)?;
    let stamped_refer = side_of(written.refer, written.stamp());
    let checked_refer = side_of(written.refer, written.check());
    let stamped_datum = side_of(written.datum, written.stamp());
    let checked_datum = side_of(written.datum, written.check());
    match written.kind {
        TwoLimitCheck::SetupHold => {
            push_statement(&mut out, "$setup", stamped_datum, checked_refer, &first)?;
            push_statement(&mut out, "$hold", stamped_refer, checked_datum, &second)?;
        }
        TwoLimitCheck::RecRem => {
            push_statement(&mut out, "$recovery", stamped_refer, checked_datum, &first)?;
            push_statement(&mut out, "$removal", checked_refer, stamped_datum, &second)?;
        }
    }
    Ok(out)
}

/// The tokens of what is written for a check. Takes memory.
pub fn made<'a>(
    alloc: Global,
    written: &Written<'_, 'a>,
    form: Form,
) -> Result<Vec<TokenKind<'a>>, NoMemory>
    ensures { IfOk result (λ all. kinds_seen all.items ≡ forms.made form (written_seen written.now)) }
{
    match form {
        Form::OnBoth => on_both(alloc, written),
        Form::Split => halves(alloc, written),
    }
}

// Rounds of changes, each of the texts that the one before it made.
ghost use Rattle.std.specs.Prelude.{◌≡◌, true, All, IfErr, IfOk, Ok, map};
ghost use Rattle.std.specs.List.{list_all};
ghost use Rattle.vl_lex.specs.Lexes.{Lexes};
ghost use Rattle.vl_lex.specs.Seen.{texts};
ghost use Rattle.vl_token.specs.Seen.{lexeme};
ghost use Rattle.fit_changes.specs.Changes.{AreInOrder, change_seen};
ghost use Rattle.fit_changes.specs.Lines.{line_seen, lines_from};
ghost use Rattle.fit_changes.specs.Rounds.{read, written};
ghost use Rattle.fit_netlist.specs.Exact.{AreExact, IsExact, IsExactBy};
ghost use Rattle.fit_netlist.specs.Fitted.{Tells};
ghost use Rattle.fit_netlist.specs.Phases.{IsRound};

use crate::changing::{unchanged, write_all};
use crate::faults::FitError;
use crate::looking::left_out;
use crate::reading::read_tokens;
use crate::refusing::{refuse_inexact, refuse_some};
use fit_changes::{Change, Changes, Line, Rule, add_lines};
use fit_checks::is_exact;
use fit_items::Wishes;
use fit_parts::{headings, part_end};
use fit_rules::{change_all, leave_out};
use fit_shape::shape;
use fit_text::{Expansion, Given, expand};
use sg_text::NoMemory;
use std::alloc::Global;
use vl_token::Token;

// Whether a change is what its rule's definition says that it is to be.
fn is_exact_by(alloc: Global, rule: Rule, old: &[u8], new: &[u8]) -> Result<bool, NoMemory>
    ensures { IfOk result (λ exact. exact ≡ true → IsExactBy rule old.now new.now) }
{
    match rule {
        Rule::StampCondition | Rule::SplitCheck => is_exact(alloc, old, new),
        _ => Ok(true),
    }
}

fn are_exact_in(alloc: Global, text: &[u8], changes: &[Change]) -> Result<bool, NoMemory>
    requires { AreInOrder 0 text.now (map change_seen changes.now) }
    ensures { IfOk result (λ exact. exact ≡ true → All (IsExact text.now) (map change_seen changes.now)) }
{
    for change in changes {
        let old = &text[change.byte..][..change.size];
        if !is_exact_by(alloc, change.rule, old, &change.text)? {
            return Ok(false);
        }
    }
    Ok(true)
}

fn are_exact(alloc: Global, list: &[Changes<'_>]) -> Result<bool, NoMemory>
    ensures { IfOk result (λ exact. exact ≡ true → AreExact list.now) }
{
    for changes in list {
        if !are_exact_in(alloc, changes.text(), changes.changes())? {
            return Ok(false);
        }
    }
    Ok(true)
}

// Tells a round, and writes what it makes.
fn finish(
    alloc: Global,
    list: &[Changes<'_>],
    lines: &mut Vec<Line>,
) -> Result<Vec<Vec<u8>>, FitError>
    ensures made { IfOk result (λ made. IsRound (read list.now) (texts made.items) (map line_seen lines.old.items) (map line_seen lines.new.items)) }
    ensures refused { IfErr result Tells }
{
    if !are_exact(alloc, list)? {
        return Err(refuse_inexact(alloc));
    }
    add_lines(alloc, 0, list, lines)?;
    Ok(write_all(alloc, list)?)
}

/// The round that expands macros and included files.
pub fn expand_round(
    alloc: Global,
    files: &[Vec<u8>],
    given: &Given<'_>,
    lines: &mut Vec<Line>,
) -> Result<Vec<Vec<u8>>, FitError>
    ensures made { IfOk result (λ made. IsRound (texts files.now) (texts made.items) (map line_seen lines.old.items) (map line_seen lines.new.items)) }
    ensures refused { IfErr result Tells }
{
    let expansion = expand(alloc, files, given)?;
    match expansion {
        Expansion::Expanded(list) => finish(alloc, &list, lines),
        Expansion::Wants { from, name } => Err(FitError::Wants { from, name }),
        Expansion::Unfit(places) => Err(FitError::Unfit(places)),
    }
}

/// The round of what the words of the command line ask for, and of cells that have instances of modules.
pub fn shape_round(
    alloc: Global,
    files: &[Vec<u8>],
    tokens: &[Token<'_>],
    wishes: &Wishes<'_>,
    lines: &mut Vec<Line>,
) -> Result<Vec<Vec<u8>>, FitError>
    ensures made { IfOk result (λ made. IsRound (texts files.now) (texts made.items) (map line_seen lines.old.items) (map line_seen lines.new.items)) }
    ensures refused { IfErr result Tells }
{
    let mut list = unchanged(alloc, files)?;
    refuse_some(shape(alloc, tokens, &mut list, wishes)?)?;
    finish(alloc, &list, lines)
}

// The reasons for the parts that a netlist has itself, without those that were put in front of it.
fn own<'w>(
    alloc: Global,
    tokens: &[Token<'_>],
    whys: &'w [Option<Vec<u8>>],
) -> Result<&'w [Option<Vec<u8>>], NoMemory> {
    let count = headings(alloc, tokens)?.len();
    let front = whys.len().saturating_sub(count);
    Ok(&whys[front..])
}

fn leave_all(
    alloc: Global,
    tokens: &[Token<'_>],
    whys: &[Option<Vec<u8>>],
    list: &mut [Changes<'_>],
) -> Result<(), NoMemory>
    ensures { read list.new ≡ read list.old }
{
    let mut at = 0;
    for why in own(alloc, tokens, whys)? {
        if at >= tokens.len() {
            break;
        }
        let end = part_end(tokens, at);
        if let Some(why) = why {
            leave_out(alloc, &tokens[at..end], why, list)?;
        }
        at = end;
    }
    Ok(())
}

// The round that leaves out parts for which there is a reason.
fn leave_round(
    alloc: Global,
    files: &[Vec<u8>],
    whys: &[Option<Vec<u8>>],
    lines: &mut Vec<Line>,
) -> Result<Vec<Vec<u8>>, FitError>
    ensures made { IfOk result (λ made. IsRound (texts files.now) (texts made.items) (map line_seen lines.old.items) (map line_seen lines.new.items)) }
    ensures refused { IfErr result Tells }
{
    let tokens = read_tokens(alloc, files)?;
    let mut list = unchanged(alloc, files)?;
    leave_all(alloc, &tokens, whys, &mut list)?;
    finish(alloc, &list, lines)
}

// The changes of the rules, and whether these are all.
fn ruled<'a>(
    alloc: Global,
    files: &'a [Vec<u8>],
    wishes: &Wishes<'_>,
) -> Result<(Vec<Changes<'a>>, bool), FitError>
    ensures read { IfOk result (λ r. read r.0.items ≡ texts files.now) }
    ensures refused { IfErr result Tells }
{
    let tokens = read_tokens(alloc, files)?;
    let mut list = unchanged(alloc, files)?;
    let are_all = change_all(alloc, &tokens, &mut list, wishes)?;
    Ok((list, are_all))
}

fn is_any_left(whys: &[Option<Vec<u8>>]) -> bool {
    whys.iter().any(|why| why.is_some())
}

/// The round of the rules, statement by statement; or, where parts aren't taken with it that the top doesn't reach, the one
/// that leaves these out. Answers whether it is the last.
pub fn rule_round(
    alloc: Global,
    files: &[Vec<u8>],
    wishes: &Wishes<'_>,
    lines: &mut Vec<Line>,
) -> Result<(bool, Vec<Vec<u8>>), FitError>
    ensures made { IfOk result (λ r. IsRound (texts files.now) (texts r.1.items) (map line_seen lines.old.items) (map line_seen lines.new.items)) }
    ensures refused { IfErr result Tells }
{
    let (list, are_all) = ruled(alloc, files, wishes)?;
    if !are_all {
        return Ok((false, finish(alloc, &list, lines)?));
    }
    let whys = left_out(alloc, &list, wishes.top)?;
    if is_any_left(&whys) {
        drop(list);
        return Ok((false, leave_round(alloc, files, &whys, lines)?));
    }
    Ok((true, finish(alloc, &list, lines)?))
}

// Whether a text is what is written for a check with conditions of its time stamp and its time check.
ghost use Rattle.std.specs.Prelude.{◌≡◌, ◌∷◌, [], true, IfOk, IfSome, Ok, length, map};
ghost use Rattle.grammar.specs.Reading.{Gives};
ghost use Rattle.vl_lex.specs.Lexes.{Lexes};
ghost use Rattle.vl_lex.specs.Seen.{texts};
ghost use Rattle.vl_token.specs.Seen.{lexeme};
ghost use Rattle.vl_tree.specs.Seen.{view_check};
ghost use Rattle.fit_checks.specs.Forms as forms;
ghost use Rattle.fit_checks.specs.Forms.{AreExact, AreTaken, IsExact, IsStatement};
ghost use Rattle.fit_checks.specs.declared.forms.Form.TheVariants as form;

use crate::forms::{Form, form_of};
use crate::making::{as_written, made};
use crate::reading::written_of;
use crate::tokens::are_same;
use grammar::ReadFault;
use sg_text::{NoMemory, Refused};
use std::alloc::Global;
use vl_checks::check;
use vl_lex::lex;
use vl_terms::tokens::mark;
use vl_token::{Symbol, Token};
use vl_tree::Check;

// `check ";"`
fn statement<'a>(
    alloc: Global,
    tokens: &[Token<'a>],
    at: usize,
) -> Result<(Check<'a>, usize), ReadFault>
    ensures { Gives (λ x. (view_check x.0, x.1)) result (forms.statement.read (map lexeme tokens.now) at) }
{
    let (check, next) = check(alloc, tokens, at, true)?;
    let next = mark(tokens, next, Symbol::Semicolon)?;
    Ok((check, next))
}

// The place behind the check and its semicolon that begin at one, if they stand there.
fn behind_statement(
    alloc: Global,
    tokens: &[Token<'_>],
    at: usize,
) -> Result<Option<usize>, NoMemory>
    ensures { IfOk result (λ next. IfSome next (λ n. IsStatement (map lexeme tokens.now) at n)) }
{
    match statement(alloc, tokens, at) {
        Ok((_, next)) => Ok(Some(next)),
        Err(ReadFault::At(_)) => Ok(None),
        Err(ReadFault::Memory) => Err(NoMemory),
    }
}

fn is_one(alloc: Global, tokens: &[Token<'_>]) -> Result<bool, NoMemory>
    ensures { IfOk result (λ is. is ≡ true → IsStatement (map lexeme tokens.now) 0 (length tokens.now)) }
{
    match behind_statement(alloc, tokens, 0)? {
        Some(next) => Ok(next == tokens.len()),
        None => Ok(false),
    }
}

fn are_two(alloc: Global, tokens: &[Token<'_>]) -> Result<bool, NoMemory>
    ensures { IfOk result (λ are. are ≡ true → AreTaken form.Split (map lexeme tokens.now)) }
{
    let Some(next) = behind_statement(alloc, tokens, 0)? else {
        return Ok(false);
    };
    match behind_statement(alloc, tokens, next)? {
        Some(end) => Ok(end == tokens.len()),
        None => Ok(false),
    }
}

// Whether the tokens are as many checks of the grammar as a form has.
fn are_taken(alloc: Global, tokens: &[Token<'_>], form: Form) -> Result<bool, NoMemory>
    ensures { IfOk result (λ taken. taken ≡ true → AreTaken form (map lexeme tokens.now)) }
{
    match form {
        Form::OnBoth => is_one(alloc, tokens),
        Form::Split => are_two(alloc, tokens),
    }
}

// Whether some tokens spell a check and others what is written for it.
fn are_exact(alloc: Global, old: &[Token<'_>], new: &[Token<'_>]) -> Result<bool, NoMemory>
    ensures { IfOk result (λ exact. exact ≡ true → AreExact (map lexeme old.now) (map lexeme new.now)) }
{
    let Some(written) = written_of(alloc, old)? else {
        return Ok(false);
    };
    let Some(form) = form_of(alloc, &written)? else {
        return Ok(false);
    };
    let own = as_written(alloc, &written)?;
    let made = made(alloc, &written, form)?;
    if !are_same(&own, old) || !are_same(&made, new) {
        return Ok(false);
    }
    are_taken(alloc, new, form)
}

fn alone(alloc: Global, text: &[u8]) -> Result<Vec<Vec<u8>>, NoMemory>
    ensures { IfOk result (λ files. texts files.items ≡ text.now ∷ []) }
{
    let mut files = Vec::new(alloc);
    files.push(Vec::from_slice(alloc, text)?)?;
    Ok(files)
}

fn tokens_of(alloc: Global, files: &[Vec<u8>]) -> Result<Option<Vec<Token<'_>>>, NoMemory>
    ensures { IfOk result (λ tokens. IfSome tokens (λ ts. Lexes (texts files.now) (Ok (map lexeme ts.items)))) }
{
    match lex(alloc, files) {
        Ok(tokens) => Ok(Some(tokens)),
        Err(Refused::Fault { .. }) => Ok(None),
        Err(Refused::NoMemory) => Err(NoMemory),
    }
}

/// Whether a text is what is written for a check with conditions of its time stamp and its time check, which the text replaced
/// has: the two have the same violations (IEEE 1364-2005, 15.8.2). Takes memory in proportion to the texts.
pub fn is_exact(alloc: Global, replaced: &[u8], text: &[u8]) -> Result<bool, NoMemory>
    ensures { IfOk result (λ exact. exact ≡ true → IsExact replaced.now text.now) }
{
    let old_files = alone(alloc, replaced)?;
    let new_files = alone(alloc, text)?;
    let Some(old) = tokens_of(alloc, &old_files)? else {
        return Ok(false);
    };
    let Some(new) = tokens_of(alloc, &new_files)? else {
        return Ok(false);
    };
    are_exact(alloc, &old, &new)
}

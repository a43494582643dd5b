// Readers of paths and of their delays.
ghost use Rattle.std.specs.Prelude.{◌≡◌, IfErr, IfOk, length, map};
ghost use Rattle.grammar.specs.declared.ReadFault.TheVariants as faults;
ghost use Rattle.grammar.specs.Reading.{Gives};
ghost use Rattle.grammar.specs.Rule.{stands};
ghost use Rattle.sdf_lex.specs.Seen.{lexeme};
ghost use Rattle.sdf_tree.specs.Entries as entries;
ghost use Rattle.sdf_tree.specs.Kinds.{kind_of};
ghost use Rattle.sdf_read.specs.Tails.{IsPartAdded, tail_part_there, view_path, view_tail, view_tail_part, with_part};

use grammar::ReadFault;
use sdf_lex::Token;
use sdf_terms::lists::{list, may_come, may_end};
use sdf_terms::parts::Form;
use sdf_terms::ports::{port, spec};
use sdf_terms::tokens::{is_left, is_word, left, place_at, right, word};
use sdf_terms::values::delay_rest;
use sdf_tree::{Keyword, Port, Terminal, WrittenDelay};
use std::alloc::Global;

/// The delays of a path, and those of its `RETAIN`.
#[derive(Drop)]
pub struct TailDelays<'a> {
    pub retains: Vec<WrittenDelay<'a>>,
    pub delays: Vec<WrittenDelay<'a>>,
}

/// `IOPATH` with what stands behind it
#[derive(Drop)]
pub struct IoPath<'a> {
    pub from: Terminal<'a>,
    pub to: Port<'a>,
    pub tail: TailDelays<'a>,
}

/// A part of the list of an `IOPATH`.
#[derive(Drop)]
enum TailPart<'a> {
    Retain(Vec<WrittenDelay<'a>>),
    Delay(WrittenDelay<'a>),
}

/// Whether another part comes behind so many delays.
fn part_comes(tokens: &[Token<'_>], at: usize, limited: bool, count: usize) -> bool
    ensures { result ≡ stands kind_of (entries.tail_part limited count).starts (map lexeme tokens.now) at }
{
    if !may_come(limited, count) {
        return false;
    }
    is_left(tokens, at)
}

/// `"(" RETAIN list ")"` before the first delay, or a delay
#[tactic(auto, unfolding(sdf_tree::specs::Entries::tail_rest_parts))]
fn tail_part<'a>(
    alloc: Global,
    tokens: &[Token<'a>],
    at: usize,
    limited: bool,
    count: usize,
) -> Result<(TailPart<'a>, usize), ReadFault>
    ensures { Gives (λ x. (view_tail_part x.0, x.1)) result ((tail_part_there limited count).read (map lexeme tokens.now) at) }
{
    let next = left(tokens, at)?;
    if count == 0 && is_word(tokens, next, Keyword::Retain) {
        let next = word(tokens, next, Keyword::Retain)?;
        let (delays, next) = list(alloc, tokens, next, limited)?;
        let next = right(tokens, next)?;
        let _ = place_at(tokens, at)?;
        return Ok((TailPart::Retain(delays), next));
    }
    let ((delay, limits), next) = delay_rest(alloc, tokens, next)?;
    let place = place_at(tokens, at)?;
    Ok((
        TailPart::Delay(WrittenDelay {
            place,
            delay,
            limits,
        }),
        next,
    ))
}

/// Puts a part behind others.
fn put_part<'a>(tail: &mut TailDelays<'a>, part: TailPart<'a>) -> Result<(), ReadFault>
    ensures kept { IfOk result (λ _. view_tail tail.new ≡ with_part (view_tail tail.old) (view_tail_part part.entry)) }
    ensures memory { IfErr result (λ fault. fault ≡ faults.Memory) }
{
    match part {
        TailPart::Retain(mut delays) => tail.retains.append(&mut delays)?,
        TailPart::Delay(delay) => tail.delays.push(delay)?,
    }
    Ok(())
}

/// Reads a part and puts it behind the others. Answers the position behind.
fn add_part<'a>(
    alloc: Global,
    tail: &mut TailDelays<'a>,
    tokens: &[Token<'a>],
    at: usize,
    limited: bool,
) -> Result<usize, ReadFault>
    ensures { IsPartAdded limited (length tail.old.delays.items) (map lexeme tokens.now) at (view_tail tail.old) (view_tail tail.new) result }
{
    let count = tail.delays.len();
    let (part, next) = tail_part(alloc, tokens, at, limited, count)?;
    put_part(tail, part)?;
    Ok(next)
}

/// `{ "(" RETAIN list ")" } list`
#[tactic(auto, unfolding(sdf_tree::specs::Entries::tail_parts))]
fn tail<'a>(
    alloc: Global,
    tokens: &[Token<'a>],
    at: usize,
    limited: bool,
) -> Result<(TailDelays<'a>, usize), ReadFault>
    ensures { Gives (λ x. (view_tail x.0, x.1)) result ((entries.tail limited).read (map lexeme tokens.now) at) }
{
    let retains = Vec::new(alloc);
    let delays = Vec::new(alloc);
    let mut tail = TailDelays { retains, delays };
    let mut next = at;
    'more: while part_comes(tokens, next, limited, tail.delays.len()) {
        next = add_part(alloc, &mut tail, tokens, next, limited)?;
    }
    if !may_end(limited, tail.delays.len()) {
        return Err(ReadFault::At(next));
    }
    tail.retains.shrink_to_fit();
    tail.delays.shrink_to_fit();
    Ok((tail, next))
}

/// `IOPATH spec port tail`
#[tactic(auto, unfolding(sdf_tree::specs::Entries::path_parts))]
pub fn path<'a>(
    alloc: Global,
    tokens: &[Token<'a>],
    at: usize,
    form: Form,
) -> Result<(IoPath<'a>, usize), ReadFault>
    ensures { Gives (λ x. (view_path x.0, x.1)) result ((entries.path form.limited form.divider).read (map lexeme tokens.now) at) }
{
    let next = word(tokens, at, Keyword::IoPath)?;
    let (from, next) = spec(tokens, next, form.divider)?;
    let (to, next) = port(tokens, next, form.divider)?;
    let (tail, next) = tail(alloc, tokens, next, form.limited)?;
    Ok((IoPath { from, to, tail }, next))
}

/// `"(" path ")"`
#[tactic(auto, unfolding(sdf_tree::specs::Entries::inner_path_parts))]
pub fn inner_path<'a>(
    alloc: Global,
    tokens: &[Token<'a>],
    at: usize,
    form: Form,
) -> Result<(IoPath<'a>, usize), ReadFault>
    ensures { Gives (λ x. (view_path x.0, x.1)) result ((entries.inner_path form.limited form.divider).read (map lexeme tokens.now) at) }
{
    let next = left(tokens, at)?;
    let (path, next) = path(alloc, tokens, next, form)?;
    let next = right(tokens, next)?;
    Ok((path, next))
}

// Readers of entries of delays.
ghost use Rattle.std.specs.Prelude.{◌≡◌, map};
ghost use Rattle.grammar.specs.Reading.{Gives};
ghost use Rattle.sdf_lex.specs.Seen.{lexeme};
ghost use Rattle.sdf_tree.specs.Entries as entries;
ghost use Rattle.sdf_tree.specs.Seen.{view_body, view_condition, view_entry};
ghost use Rattle.sdf_read.specs.Tails.{view_path};

use crate::tails::{IoPath, inner_path, path};
use grammar::ReadFault;
use sdf_lex::Token;
use sdf_terms::conditions::cond;
use sdf_terms::lists::list;
use sdf_terms::parts::{Form, Part};
use sdf_terms::ports::{optional_port, port};
use sdf_terms::tokens::{is_word, left, place_at, right, word};
use sdf_tree::{Keyword, PathCondition, WrittenBody, WrittenEntry};
use std::alloc::Global;

fn path_body<'a>(condition: PathCondition<'a>, path: IoPath<'a>) -> WrittenBody<'a>
    ensures { view_body result ≡ entries.path_body (view_condition condition.entry) (view_path path.entry) }
{
    WrittenBody::IoPath {
        condition,
        from: path.from,
        to: path.to,
        retains: path.tail.retains,
        delays: path.tail.delays,
    }
}

/// `PORT port list | INTERCONNECT port port list | DEVICE [ port ] list | NETDELAY port list`
#[tactic(auto, unfolding(sdf_tree::specs::Entries::net_body_parts))]
fn net_body<'a>(
    alloc: Global,
    tokens: &[Token<'a>],
    at: usize,
    form: Form,
) -> Result<(WrittenBody<'a>, usize), ReadFault>
    ensures { Gives (λ x. (view_body x.0, x.1)) result ((entries.net_body form.limited form.divider).read (map lexeme tokens.now) at) }
{
    if is_word(tokens, at, Keyword::Port) {
        let next = word(tokens, at, Keyword::Port)?;
        let (port, next) = port(tokens, next, form.divider)?;
        let (delays, next) = list(alloc, tokens, next, form.limited)?;
        return Ok((WrittenBody::Port { port, delays }, next));
    }
    if is_word(tokens, at, Keyword::Interconnect) {
        let next = word(tokens, at, Keyword::Interconnect)?;
        let (from, next) = port(tokens, next, form.divider)?;
        let (to, next) = port(tokens, next, form.divider)?;
        let (delays, next) = list(alloc, tokens, next, form.limited)?;
        return Ok((WrittenBody::Interconnect { from, to, delays }, next));
    }
    if is_word(tokens, at, Keyword::Device) {
        let next = word(tokens, at, Keyword::Device)?;
        let (output, next) = optional_port(tokens, next, form.divider)?;
        let (delays, next) = list(alloc, tokens, next, form.limited)?;
        return Ok((WrittenBody::Device { output, delays }, next));
    }
    let next = word(tokens, at, Keyword::NetDelay)?;
    let (port, next) = port(tokens, next, form.divider)?;
    let (delays, next) = list(alloc, tokens, next, form.limited)?;
    Ok((WrittenBody::NetDelay { port, delays }, next))
}

/// `path | COND [ text ] condition "(" path ")" | CONDELSE "(" path ")" | net-body`
#[tactic(auto, unfolding(sdf_tree::specs::Entries::body_parts))]
fn body<'a>(
    alloc: Global,
    tokens: &[Token<'a>],
    at: usize,
    form: Form,
) -> Result<(WrittenBody<'a>, usize), ReadFault>
    ensures { Gives (λ x. (view_body x.0, x.1)) result ((entries.body form.limited form.divider).read (map lexeme tokens.now) at) }
{
    if is_word(tokens, at, Keyword::IoPath) {
        let (path, next) = path(alloc, tokens, at, form)?;
        return Ok((path_body(PathCondition::Always, path), next));
    }
    if is_word(tokens, at, Keyword::Cond) {
        let (words, next) = cond(alloc, tokens, at)?;
        let (path, next) = inner_path(alloc, tokens, next, form)?;
        return Ok((path_body(PathCondition::If(words), path), next));
    }
    if is_word(tokens, at, Keyword::CondElse) {
        let next = word(tokens, at, Keyword::CondElse)?;
        let (path, next) = inner_path(alloc, tokens, next, form)?;
        return Ok((path_body(PathCondition::Else, path), next));
    }
    net_body(alloc, tokens, at, form)
}

/// `"(" body ")"`
#[tactic(auto, unfolding(sdf_tree::specs::Entries::entry_parts))]
fn entry<'a>(
    alloc: Global,
    tokens: &[Token<'a>],
    at: usize,
    form: Form,
) -> Result<(WrittenEntry<'a>, usize), ReadFault>
    ensures { Gives (λ x. (view_entry x.0, x.1)) result ((entries.entry form.limited form.divider).read (map lexeme tokens.now) at) }
{
    let next = left(tokens, at)?;
    let (body, next) = body(alloc, tokens, next, form)?;
    let next = right(tokens, next)?;
    let place = place_at(tokens, at)?;
    Ok((WrittenEntry { place, body }, next))
}

/// An entry of `ABSOLUTE` and `INCREMENT`.
pub struct Entries;

impl<'a> Part<'a> for Entries {
    type Value = WrittenEntry<'a>;

    ghost use Rattle.sdf_tree.specs.Written.{Entry};
    ghost use Rattle.sdf_tree.specs.Entries as entries;
    ghost use Rattle.sdf_tree.specs.Seen.{view_entry};

    ghost Tree = { Entry };

    ghost rule = { λ form. entries.entry form.limited form.divider };

    ghost view = { view_entry };

    fn read(
        alloc: Global,
        tokens: &[Token<'a>],
        at: usize,
        form: Form,
    ) -> Result<(WrittenEntry<'a>, usize), ReadFault> {
        entry(alloc, tokens, at, form)
    }
}

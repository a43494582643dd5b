// Readers of what stands in `DELAY`.
ghost use Rattle.std.specs.Prelude.{◌≡◌, map};
ghost use Rattle.grammar.specs.Reading.{Gives};
ghost use Rattle.sdf_lex.specs.Seen.{lexeme};
ghost use Rattle.sdf_tree.specs.Entries as entries;
ghost use Rattle.sdf_tree.specs.Seen.{view_group};
ghost use Rattle.sdf_read.specs.Groups.{view_group_body, view_pulse};

use crate::entries::Entries;
use grammar::ReadFault;
use sdf_lex::Token;
use sdf_terms::named::{Pulses, named};
use sdf_terms::parts::{Form, Part, many};
use sdf_terms::ports::optional_ports;
use sdf_terms::tokens::{is_word, left, place_at, right, word};
use sdf_terms::values::{optional_value, value};
use sdf_tree::{Divider, Keyword, PortPair, WrittenEntry, WrittenGroup, WrittenValue};
use sg_text::Place;
use std::alloc::Global;

/// `PATHPULSE` or `PATHPULSEPERCENT` with what stands behind it
#[derive(Drop)]
pub struct PulseLimits<'a> {
    pub percent: bool,
    pub ports: Option<PortPair<'a>>,
    pub reject: WrittenValue<'a>,
    pub error: Option<WrittenValue<'a>>,
}

/// What stands in parentheses in `DELAY`.
#[derive(Drop)]
pub enum GroupBody<'a> {
    Absolute(Vec<WrittenEntry<'a>>),
    Increment(Vec<WrittenEntry<'a>>),
    Pulse(PulseLimits<'a>),
}

/// `PATHPULSE [ port port ] value [ value ]`, or the same with `PATHPULSEPERCENT`
#[tactic(auto, unfolding(sdf_tree::specs::Entries::pulse_parts))]
fn pulse<'a>(
    tokens: &[Token<'a>],
    at: usize,
    divider: Divider,
) -> Result<(PulseLimits<'a>, usize), ReadFault>
    ensures { Gives (λ x. (view_pulse x.0, x.1)) result ((entries.pulse divider).read (map lexeme tokens.now) at) }
{
    let (percent, next) = named::<Pulses>(tokens, at)?;
    let (ports, next) = optional_ports(tokens, next, divider)?;
    let (reject, next) = value(tokens, next)?;
    let (error, next) = optional_value(tokens, next)?;
    Ok((
        PulseLimits {
            percent,
            ports,
            reject,
            error,
        },
        next,
    ))
}

/// `ABSOLUTE { entry } | INCREMENT { entry } | pulse`
#[tactic(auto, using(crate::proofs::PartsExact::entry_part), unfolding(sdf_tree::specs::Entries::group_body_parts))]
fn group_body<'a>(
    alloc: Global,
    tokens: &[Token<'a>],
    at: usize,
    form: Form,
) -> Result<(GroupBody<'a>, usize), ReadFault>
    ensures { Gives (λ x. (view_group_body x.0, x.1)) result ((entries.group_body form.limited form.divider).read (map lexeme tokens.now) at) }
{
    if is_word(tokens, at, Keyword::Absolute) {
        let next = word(tokens, at, Keyword::Absolute)?;
        let (entries, next) = many::<Entries>(alloc, tokens, next, form)?;
        return Ok((GroupBody::Absolute(entries), next));
    }
    if is_word(tokens, at, Keyword::Increment) {
        let next = word(tokens, at, Keyword::Increment)?;
        let (entries, next) = many::<Entries>(alloc, tokens, next, form)?;
        return Ok((GroupBody::Increment(entries), next));
    }
    let (pulse, next) = pulse(tokens, at, form.divider)?;
    Ok((GroupBody::Pulse(pulse), next))
}

fn group_of<'a>(place: Place, body: GroupBody<'a>) -> WrittenGroup<'a>
    ensures { view_group result ≡ entries.group_of place (view_group_body body.entry) }
{
    match body {
        GroupBody::Absolute(entries) => WrittenGroup::Absolute(entries),
        GroupBody::Increment(entries) => WrittenGroup::Increment(entries),
        GroupBody::Pulse(pulse) => WrittenGroup::PathPulse {
            place,
            percent: pulse.percent,
            ports: pulse.ports,
            reject: pulse.reject,
            error: pulse.error,
        },
    }
}

/// `"(" group-body ")"`
#[tactic(auto, unfolding(sdf_tree::specs::Entries::group_parts))]
fn group<'a>(
    alloc: Global,
    tokens: &[Token<'a>],
    at: usize,
    form: Form,
) -> Result<(WrittenGroup<'a>, usize), ReadFault>
    ensures { Gives (λ x. (view_group x.0, x.1)) result ((entries.group form.limited form.divider).read (map lexeme tokens.now) at) }
{
    let next = left(tokens, at)?;
    let (body, next) = group_body(alloc, tokens, next, form)?;
    let next = right(tokens, next)?;
    let place = place_at(tokens, at)?;
    Ok((group_of(place, body), next))
}

/// What stands in `DELAY`.
pub struct Groups;

impl<'a> Part<'a> for Groups {
    type Value = WrittenGroup<'a>;

    ghost use Rattle.sdf_tree.specs.Written.{Group};
    ghost use Rattle.sdf_tree.specs.Entries as entries;
    ghost use Rattle.sdf_tree.specs.Seen.{view_group};

    ghost Tree = { Group };

    ghost rule = { λ form. entries.group form.limited form.divider };

    ghost view = { view_group };

    fn read(
        alloc: Global,
        tokens: &[Token<'a>],
        at: usize,
        form: Form,
    ) -> Result<(WrittenGroup<'a>, usize), ReadFault> {
        group(alloc, tokens, at, form)
    }
}

// Sections of the header, from a place on.
ghost use Rattle.std.specs.Prelude.{Some, option_map};
ghost use Rattle.vcd_form.specs.Places.{read_at, IsBetween};
ghost use Rattle.vcd_form.specs.Reading.{Goes, SectionAt, WordAt};
ghost use Rattle.vcd_form.specs.Rules as rules;
ghost use Rattle.vcd_form.specs.Seen.{came_seen, declaration_seen, section_seen};
ghost use Rattle.vcd_form.specs.Words.{words};

use crate::came::Came;
use crate::kinds::{WordKind, begins_section, is_end, kind_of};
use crate::ranges::is_range;
use crate::scales::joined_of;
use crate::steps::{any_from, code_from, end_from, scale_from, unit_from, width_from};
use crate::word::Word;
use crate::words::word_from;
use crate::written::{Declaration, Section};
use grammar::ReadFault;

// The words up to `$end`.
#[tactic(auto, using(crate::proofs::StepLaws::remark_fails))]
pub fn remark_rest(text: &[u8], at: usize) -> Result<usize, usize>
    requires { IsBetween text.now at }
    ensures { Goes text.now (λ y. tt) (λ y. y) result (rules.remark_rest.read (words text.now) (read_at text.now at)) }
{
    let mut place = at;
    'more: while let Some((word, next)) = word_from(text, place) {
        if is_end(word.bytes) {
            return Ok(next);
        }
        place = next;
    }
    Err(place)
}

// A number and a unit, joined or apart.
#[tactic(auto, unfolding(crate::specs::Rules::power_parts))]
fn power_from(text: &[u8], at: usize) -> Result<(i8, usize), usize>
    requires { IsBetween text.now at }
    ensures { Goes text.now (λ y. y.0) (λ y. y.1) result (rules.power.read (words text.now) (read_at text.now at)) }
{
    let Some((word, next)) = word_from(text, at) else {
        return Err(at);
    };
    if let Some(power) = joined_of(word.bytes) {
        return Ok((power, next));
    }
    let (scale, next) = scale_from(text, at)?;
    let (unit, behind) = unit_from(text, next)?;
    Ok((scale + unit, behind))
}

fn timescale_rest(text: &[u8], at: usize) -> Result<(i8, usize), usize>
    requires { IsBetween text.now at }
    ensures { Goes text.now (λ y. y.0) (λ y. y.1) result (rules.timescale_rest.read (words text.now) (read_at text.now at)) }
{
    let (power, next) = power_from(text, at)?;
    let next = end_from(text, next)?;
    Ok((power, next))
}

fn scope_rest<'a>(text: &'a [u8], at: usize) -> Result<(&'a [u8], usize), usize>
    requires { IsBetween text.now at }
    ensures { Goes text.now (λ y. y.0.now) (λ y. y.1) result (rules.scope_rest.read (words text.now) (read_at text.now at)) }
{
    let (_, next) = any_from(text, at)?;
    let (name, next) = any_from(text, next)?;
    let next = end_from(text, next)?;
    Ok((name, next))
}

// A range and `$end`, or `$end` alone.
fn range_rest<'a>(text: &'a [u8], at: usize) -> Result<(Option<&'a [u8]>, usize), usize>
    requires { IsBetween text.now at }
    ensures { Goes text.now (λ y. option_map (λ r. r.now) y.0) (λ y. y.1) result (rules.range_rest.read (words text.now) (read_at text.now at)) }
{
    let Some((word, next)) = word_from(text, at) else {
        return Err(at);
    };
    if is_range(word.bytes) {
        let behind = end_from(text, next)?;
        return Ok((Some(word.bytes), behind));
    }
    if !is_end(word.bytes) {
        return Err(at);
    }
    Ok((None, next))
}

// What stands behind a `$var` at a byte.
fn variable_rest<'a>(
    text: &'a [u8],
    byte: usize,
    at: usize,
) -> Result<(Declaration<'a>, usize), usize>
    requires { IsBetween text.now at }
    ensures { Goes text.now (λ y. declaration_seen y.0) (λ y. y.1) result ((rules.variable_behind byte).read (words text.now) (read_at text.now at)) }
{
    let (_, next) = any_from(text, at)?;
    let (width, next) = width_from(text, next)?;
    let (code, next) = code_from(text, next)?;
    let (name, next) = any_from(text, next)?;
    let (range, next) = range_rest(text, next)?;
    Ok((
        Declaration {
            byte,
            width,
            code,
            name,
            range,
        },
        next,
    ))
}

// The section that begins with a word.
#[tactic(auto, unfolding(crate::specs::Rules::section_parts, crate::specs::Rules::remark_parts, crate::specs::Rules::timescale_parts, crate::specs::Rules::scope_parts, crate::specs::Rules::upscope_parts, crate::specs::Rules::variable_parts))]
fn section_from<'a>(
    text: &'a [u8],
    at: usize,
    came: Came,
    word: Word<'a>,
    next: usize,
) -> Result<(Section<'a>, usize), usize>
    requires place { IsBetween text.now at }
    requires word { WordAt text.now (read_at text.now at) (Some (word, next)) }
    ensures { Goes text.now (λ y. section_seen y.0) (λ y. y.1) result ((rules.section_of (came_seen came)).read (words text.now) (read_at text.now at)) }
{
    match kind_of(word.bytes) {
        WordKind::Remark | WordKind::Comment => {
            let behind = remark_rest(text, next)?;
            Ok((Section::Remark, behind))
        }
        WordKind::Timescale if !came.scaled => {
            let (power, behind) = timescale_rest(text, next)?;
            Ok((Section::Timescale(power), behind))
        }
        WordKind::Scope => {
            let (name, behind) = scope_rest(text, next)?;
            Ok((Section::Enters(name), behind))
        }
        WordKind::Upscope if came.depth > 0 => {
            let behind = end_from(text, next)?;
            Ok((Section::Leaves, behind))
        }
        WordKind::Var => {
            let (declaration, behind) = variable_rest(text, word.byte, next)?;
            Ok((Section::Declares(declaration), behind))
        }
        _ => Err(at),
    }
}

/// The next section, if one begins.
pub fn section_at<'a>(
    text: &'a [u8],
    at: usize,
    came: Came,
) -> Result<Option<(Section<'a>, usize)>, ReadFault>
    requires { IsBetween text.now at }
    ensures { SectionAt text.now (came_seen came) (read_at text.now at) result }
{
    let Some((word, next)) = word_from(text, at) else {
        return Ok(None);
    };
    if !begins_section(word.bytes) {
        return Ok(None);
    }
    match section_from(text, at, came, word, next) {
        Ok(found) => Ok(Some(found)),
        Err(place) => Err(ReadFault::At(place)),
    }
}

// Readers of one word, from a place on: the place behind it, or the place before a word of another kind.
ghost use Rattle.std.specs.Prelude.{◌≤ℤ◌, pos, negsuc, IfOk};
ghost use Rattle.vcd_form.specs.Kinds as def;
ghost use Rattle.vcd_form.specs.Places.{read_at, IsBetween};
ghost use Rattle.vcd_form.specs.Reading.{Goes};
ghost use Rattle.vcd_form.specs.Rules as rules;
ghost use Rattle.vcd_form.specs.Words.{words};

use crate::kinds::{is_end, is_own_code};
use crate::ranges::width_of;
use crate::scales::{scale_of, unit_of};
use crate::word::Word;
use crate::words::word_from;

pub fn end_from(text: &[u8], at: usize) -> Result<usize, usize>
    requires { IsBetween text.now at }
    ensures { Goes text.now (λ y. tt) (λ y. y) result ((rules.mark def.is_end).read (words text.now) (read_at text.now at)) }
{
    let Some((word, next)) = word_from(text, at) else {
        return Err(at);
    };
    if !is_end(word.bytes) {
        return Err(at);
    }
    Ok(next)
}

// Any word but `$end`.
pub fn any_from<'a>(text: &'a [u8], at: usize) -> Result<(&'a [u8], usize), usize>
    requires { IsBetween text.now at }
    ensures { Goes text.now (λ y. y.0.now) (λ y. y.1) result ((rules.text def.is_any).read (words text.now) (read_at text.now at)) }
{
    let Some((word, next)) = word_from(text, at) else {
        return Err(at);
    };
    if is_end(word.bytes) {
        return Err(at);
    }
    Ok((word.bytes, next))
}

pub fn code_from<'a>(text: &'a [u8], at: usize) -> Result<(&'a [u8], usize), usize>
    requires { IsBetween text.now at }
    ensures { Goes text.now (λ y. y.0.now) (λ y. y.1) result ((rules.text def.is_code).read (words text.now) (read_at text.now at)) }
{
    let Some((word, next)) = word_from(text, at) else {
        return Err(at);
    };
    if !is_own_code(word.bytes) {
        return Err(at);
    }
    Ok((word.bytes, next))
}

// A code with its place.
pub fn placed_code_from<'a>(text: &'a [u8], at: usize) -> Result<(Word<'a>, usize), usize>
    requires { IsBetween text.now at }
    ensures { Goes text.now (λ y. (y.0.byte, y.0.bytes.now)) (λ y. y.1) result ((rules.placed (rules.text def.is_code)).read (words text.now) (read_at text.now at)) }
{
    let Some((word, next)) = word_from(text, at) else {
        return Err(at);
    };
    if !is_own_code(word.bytes) {
        return Err(at);
    }
    Ok((word, next))
}

pub fn width_from(text: &[u8], at: usize) -> Result<(u32, usize), usize>
    requires { IsBetween text.now at }
    ensures { Goes text.now (λ y. y.0) (λ y. y.1) result (rules.width.read (words text.now) (read_at text.now at)) }
{
    let Some((word, next)) = word_from(text, at) else {
        return Err(at);
    };
    match width_of(word.bytes) {
        Some(width) => Ok((width, next)),
        None => Err(at),
    }
}

// 1, 10 or 100.
pub fn scale_from(text: &[u8], at: usize) -> Result<(i8, usize), usize>
    requires { IsBetween text.now at }
    ensures read { Goes text.now (λ y. y.0) (λ y. y.1) result ((rules.number_of def.scale_power def.is_scale).read (words text.now) (read_at text.now at)) }
    ensures least { IfOk result (λ y. pos 0 ≤ℤ y.0) }
    ensures greatest { IfOk result (λ y. y.0 ≤ℤ pos 2) }
{
    let Some((word, next)) = word_from(text, at) else {
        return Err(at);
    };
    match scale_of(word.bytes) {
        Some(scale) => Ok((scale, next)),
        None => Err(at),
    }
}

pub fn unit_from(text: &[u8], at: usize) -> Result<(i8, usize), usize>
    requires { IsBetween text.now at }
    ensures read { Goes text.now (λ y. y.0) (λ y. y.1) result ((rules.number_of def.unit_power def.is_unit).read (words text.now) (read_at text.now at)) }
    ensures least { IfOk result (λ y. negsuc 14 ≤ℤ y.0) }
    ensures greatest { IfOk result (λ y. y.0 ≤ℤ pos 0) }
{
    let Some((word, next)) = word_from(text, at) else {
        return Err(at);
    };
    match unit_of(word.bytes) {
        Some(unit) => Ok((unit, next)),
        None => Err(at),
    }
}

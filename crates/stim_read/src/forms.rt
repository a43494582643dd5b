// What statements say by their form.
ghost use Rattle.std.specs.Prelude.{◌≡◌, ◌<◌, ◌≤◌, ◌^◌, ◌+ℤ◌, ◌≤ℤ◌, pos, negsuc, All, IfOk, IfSome, length, map, option_map, bytes_eq};
ghost use Rattle.sg_time.specs.Seen.{number};
ghost use Rattle.stim_read.specs.Forms as def;
ghost use Rattle.stim_read.specs.Seen.{decimals, form_seen};

use crate::sets::{SetText, sets_of};
use sg_time::{Decimal, Unit};
use std::alloc::{AllocError, Global};

/// A statement by its form: the unit of times, what is set at a time, the end, an `end` of another form, or what has no form.
#[derive(Debug, Drop)]
pub enum Form<'a> {
    Unit(Unit),
    At(Decimal, Vec<SetText<'a>>),
    End(Decimal),
    FaultyEnd,
    Other,
}

fn is_word(bytes: &[u8], word: &str) -> bool
    ensures { result ≡ bytes_eq bytes.now word.now }
{
    bytes == word.as_bytes()
}

fn power_of(name: &[u8]) -> Option<i8>
    ensures value { result ≡ def.power_of name.now }
    ensures low { IfSome result (λ n. negsuc 14 ≤ℤ n) }
    ensures high { IfSome result (λ n. n ≤ℤ pos 0) }
{
    if is_word(name, "s") {
        Some(0)
    } else if is_word(name, "ms") {
        Some(-3)
    } else if is_word(name, "us") {
        Some(-6)
    } else if is_word(name, "ns") {
        Some(-9)
    } else if is_word(name, "ps") {
        Some(-12)
    } else if is_word(name, "fs") {
        Some(-15)
    } else {
        None
    }
}

fn zeros(bytes: &[u8]) -> usize
    ensures count { result ≡ def.zeros bytes.now }
    ensures within { result ≤ length bytes.now }
{
    bytes.iter().take_while(|b| **b == b'0').count()
}

fn power_times(power: i8, zeros: usize) -> Unit
    requires low { negsuc 14 ≤ℤ power }
    requires high { power ≤ℤ pos 0 }
    requires few { zeros ≤ 2 }
    ensures { result.power ≡ power +ℤ pos zeros }
{
    Unit {
        power: power + zeros as i8,
    }
}

// 1 and zeros, with the name of a unit.
fn unit_behind_one(bytes: &[u8]) -> Option<Unit>
    ensures { option_map (λ u. u.power) result ≡ def.unit_behind_one bytes.now }
{
    let zeros = zeros(bytes);
    if zeros > 2 {
        return None;
    }
    let power = power_of(&bytes[zeros..])?;
    Some(power_times(power, zeros))
}

fn unit_of(word: &[u8]) -> Option<Unit>
    ensures { option_map (λ u. u.power) result ≡ def.unit_in word.now }
{
    match word {
        [b'1', rest @ ..] => unit_behind_one(rest),
        _ => None,
    }
}

fn has_sign(text: &[u8]) -> bool
    ensures { result ≡ def.has_sign text.now }
{
    match text {
        [first, ..] => *first == b'+' || *first == b'-',
        [] => false,
    }
}

fn time_of(text: &[u8]) -> Option<Decimal>
    requires { length text.now < 2 ^ 30 }
    ensures { option_map (λ t. number t) result ≡ def.time_in decimals text.now }
{
    if has_sign(text) {
        return None;
    }
    match Decimal::read(text) {
        Ok(time) => Some(time),
        Err(_) => None,
    }
}

fn unit_form<'a>(words: &[&[u8]]) -> Form<'a>
    ensures { form_seen result ≡ def.behind_unit (map (λ w. w.now) words.now) }
{
    let [word] = words else {
        return Form::Other;
    };
    match unit_of(word) {
        Some(unit) => Form::Unit(unit),
        None => Form::Other,
    }
}

fn at_form<'a>(alloc: Global, words: &[&'a [u8]]) -> Result<Form<'a>, AllocError>
    requires { All (λ w. length w.now < 2 ^ 30) words.now }
    ensures { IfOk result (λ form. form_seen form ≡ def.behind_at decimals (map (λ w. w.now) words.now)) }
{
    let [time, sets @ ..] = words else {
        return Ok(Form::Other);
    };
    if sets.len() == 0 {
        return Ok(Form::Other);
    }
    let Some(time) = time_of(time) else {
        return Ok(Form::Other);
    };
    let Some(sets) = sets_of(alloc, sets)? else {
        return Ok(Form::Other);
    };
    Ok(Form::At(time, sets))
}

fn end_form<'a>(words: &[&[u8]]) -> Form<'a>
    requires { All (λ w. length w.now < 2 ^ 30) words.now }
    ensures { form_seen result ≡ def.behind_end decimals (map (λ w. w.now) words.now) }
{
    let [time] = words else {
        return Form::FaultyEnd;
    };
    match time_of(time) {
        Some(time) => Form::End(time),
        None => Form::FaultyEnd,
    }
}

/// What words say.
pub fn form_of<'a>(alloc: Global, words: &[&'a [u8]]) -> Result<Form<'a>, AllocError>
    requires { All (λ w. length w.now < 2 ^ 30) words.now }
    ensures { IfOk result (λ form. form_seen form ≡ def.form_in decimals (map (λ w. w.now) words.now)) }
{
    let [first, rest @ ..] = words else {
        return Ok(Form::Other);
    };
    if is_word(first, "unit") {
        return Ok(unit_form(rest));
    }
    if is_word(first, "at") {
        return at_form(alloc, rest);
    }
    if is_word(first, "end") {
        return Ok(end_form(rest));
    }
    Ok(Form::Other)
}

// Constants of conditions.
ghost use Rattle.std.specs.Prelude.{◌≡◌, ◌≤◌, ◌==◌, length, IfOk, Some, Option};
ghost use Rattle.std.specs.Char.{is_ascii_digit};
ghost use Rattle.std.specs.List.{list_all, prefix_len};
ghost use Rattle.sg_time.specs.Spelling.{number_from};
ghost use Rattle.vl_token.specs.Constants.{is_digit_of};
ghost use Rattle.sdf_tree.specs.Words as words;

use sg_logic::Value;
use sg_text::NoMemory;
use std::alloc::Global;
use vl_token::{Base, Constant, number_of, unsized_bits};

fn single_bit(bits: &[Value]) -> Option<Value>
    ensures { result ≡ words.single_bit bits.now }
{
    match bits {
        [bit] => Some(*bit),
        _ => None,
    }
}

fn are_digits_of(base: Base, digits: &[u8]) -> bool
    ensures { result ≡ list_all (is_digit_of base) digits.now }
{
    digits.iter().all(|digit| base.has_digit(*digit))
}

// The bit of a constant of width 1, or of one without a width that has one bit.
fn bit_of(alloc: Global, sized: bool, base: Base, digits: &[u8]) -> Result<Option<Value>, NoMemory>
    ensures { IfOk result (λ bit. bit ≡ words.bit_of sized (Some base) digits.now) }
{
    if digits.is_empty() || !are_digits_of(base, digits) || !base.has_bits(digits) {
        return Ok(None);
    }
    if sized {
        let constant = Constant {
            digits,
            width: 1,
            base,
        };
        let bits = constant.bits(alloc)?;
        return Ok(single_bit(&bits));
    }
    let bits = unsized_bits(alloc, base, digits)?;
    Ok(single_bit(&bits))
}

fn based_bit(alloc: Global, sized: bool, text: &[u8]) -> Result<Option<Value>, NoMemory>
    ensures { IfOk result (λ bit. bit ≡ words.based_bit sized text.now) }
{
    let [b'\'', letter, digits @ ..] = text else {
        return Ok(None);
    };
    match Base::of_letter(*letter) {
        Some(base) => bit_of(alloc, sized, base, digits),
        None => Ok(None),
    }
}

// How many decimal digits stand in front.
fn width_len(text: &[u8]) -> usize
    ensures size { result ≡ prefix_len is_ascii_digit text.now }
    ensures within { result ≤ length text.now }
{
    text.iter().take_while(|b| b.is_ascii_digit()).count()
}

// Whether decimal digits spell 1.
#[tactic(auto, using(crate::proofs::ConstantLaws::is_width, crate::proofs::ConstantLaws::too_wide))]
fn is_one(digits: &[u8]) -> bool
    ensures { result ≡ (number_from 0 digits.now == 1) }
{
    match number_of(digits) {
        Some(number) => number == 1,
        None => false,
    }
}

// The bit of a constant whose width is spelled by these digits, if there are any.
fn behind_width(alloc: Global, width: &[u8], behind: &[u8]) -> Result<Option<Value>, NoMemory>
    ensures { IfOk result (λ bit. bit ≡ words.behind_width width.now behind.now) }
{
    if width.is_empty() {
        return based_bit(alloc, false, behind);
    }
    if !is_one(width) {
        return Ok(None);
    }
    based_bit(alloc, true, behind)
}

fn constant_with_base(alloc: Global, text: &[u8]) -> Result<Option<Value>, NoMemory>
    ensures { IfOk result (λ bit. bit ≡ words.constant_with_base text.now) }
{
    let (width, behind) = text.split_at(width_len(text));
    behind_width(alloc, width, behind)
}

/// The value of a constant of a condition: `0`, `1`, or a constant of one bit with a base, as netlists have them (IEEE 1364-2005,
/// the clause on integer constants). Takes memory.
#[tactic(auto, unfolding(crate::specs::Words::constant_of))]
pub fn constant_of(alloc: Global, text: &[u8]) -> Result<Option<Value>, NoMemory>
    ensures { IfOk result (λ constant. constant ≡ words.constant_of text.now) }
{
    match text {
        b"0" => Ok(Some(Value::Zero)),
        b"1" => Ok(Some(Value::One)),
        _ => constant_with_base(alloc, text),
    }
}

// Constants with a base, and their bits.
ghost use Rattle.std.specs.Prelude.{◌≡◌, ◌≤◌, ◌^◌, ◌+◌, ◌-◌, ◌*◌, ◌++◌, length, map, replicate, drop, is_some, OnOk, IfOk, IfSome, IfNone, Option, Some, None};
ghost use Rattle.std.specs.List.{flat_map};
ghost use Rattle.std.specs.Option.{option_map};
ghost use Rattle.sg_time.specs.Spelling.{number_from};
ghost use Rattle.vl_token.specs.Constants.{bit, low_bits, fewest, digit_bits, decimal_bits, own_bits, extension, to_width, unsized_bits, sized_bits};

use crate::bases::{Base, hex_value, is_x, is_z};
use sg_logic::Value;
use sg_text::NoMemory;
use std::alloc::{AllocError, Global};

/// A sized constant (IEEE 1364-2005, the clause on integer constants): a width, a base and its digits.
#[derive(Clone, Copy, Debug, PartialEq)]
pub struct Constant<'a> {
    pub digits: &'a [u8],
    /// From 1 to 65536 where a netlist has the constant.
    pub width: u32,
    pub base: Base,
}

fn bit(number: u64) -> Value
    ensures { result ≡ bit number }
{
    if number == 0 { Value::Zero } else { Value::One }
}

// Puts the lowest bits of a number, so many of them, the highest first.
fn put_low_bits(bits: &mut Vec<Value>, width: u32, number: u64) -> Result<(), AllocError>
    requires { width ≤ 64 }
    ensures { OnOk result (bits.new.items ≡ bits.old.items ++ low_bits width number) }
{
    let mut left = width;
    while left > 0 {
        left -= 1;
        bits.push(bit((number >> left) % 2))?;
    }
    Ok(())
}

fn put_copies(bits: &mut Vec<Value>, count: usize, value: Value) -> Result<(), AllocError>
    ensures { OnOk result (bits.new.items ≡ bits.old.items ++ replicate count value) }
{
    let mut left = count;
    while left > 0 {
        left -= 1;
        bits.push(value)?;
    }
    Ok(())
}

fn put_digit(bits: &mut Vec<Value>, width: u32, digit: u8) -> Result<(), AllocError>
    requires { width ≤ 64 }
    ensures { OnOk result (bits.new.items ≡ bits.old.items ++ digit_bits width digit) }
{
    if is_x(digit) {
        put_copies(bits, width as usize, Value::X)
    } else if is_z(digit) {
        put_copies(bits, width as usize, Value::Z)
    } else {
        put_low_bits(bits, width, u64::from(hex_value(digit)))
    }
}

// The bits of digits of so many bits.
fn digits_bits(alloc: Global, width: u32, digits: &[u8]) -> Result<Vec<Value>, AllocError>
    requires { width ≤ 64 }
    ensures { IfOk result (λ bits. bits.items ≡ flat_map (digit_bits width) digits.now) }
{
    let mut bits = Vec::new(alloc);
    let mut rest = digits;
    while let [digit, tail @ ..] = rest {
        put_digit(&mut bits, width, *digit)?;
        rest = tail;
    }
    Ok(bits)
}

// A number with one more digit behind it, if it is below 2^64.
fn with_digit(number: u64, digit: u8) -> Option<u64>
    ensures some { IfSome result (λ n. n ≡ number * 10 + (digit - 48)) }
    ensures none { IfNone result (2 ^ 64 ≤ number * 10 + (digit - 48)) }
{
    let tens = number.checked_mul(10)?;
    tens.checked_add(u64::from(digit.saturating_sub(b'0')))
}

/// The number that decimal digits spell, if it is below 2^64.
pub fn number_of(digits: &[u8]) -> Option<u64>
    ensures some { IfSome result (λ n. n ≡ number_from 0 digits.now) }
    ensures none { IfNone result (2 ^ 64 ≤ number_from 0 digits.now) }
{
    let mut number: u64 = 0;
    let mut rest = digits;
    while let [digit, tail @ ..] = rest {
        number = with_digit(number, *digit)?;
        rest = tail;
    }
    Some(number)
}

// Without the zeros on the left, but for a last one.
fn fewest(bits: &[Value]) -> &[Value]
    ensures { result.now ≡ fewest bits.now }
{
    let mut rest = bits;
    while let [Value::Zero, tail @ ..] = rest {
        if tail.is_empty() {
            return rest;
        }
        rest = tail;
    }
    rest
}

fn decimal_bits(alloc: Global, digits: &[u8]) -> Result<Option<Vec<Value>>, AllocError>
    ensures { IfOk result (λ o. option_map (λ bits. bits.items) o ≡ decimal_bits (number_from 0 digits.now)) }
{
    let Some(number) = number_of(digits) else {
        return Ok(None);
    };
    let mut bits = Vec::new(alloc);
    put_low_bits(&mut bits, 64, number)?;
    Ok(Some(Vec::from_slice(alloc, fewest(&bits))?))
}

// The bits that the digits spell, if they spell a number that is small enough.
fn own_bits(alloc: Global, base: Base, digits: &[u8]) -> Result<Option<Vec<Value>>, AllocError>
    ensures { IfOk result (λ o. option_map (λ bits. bits.items) o ≡ own_bits base digits.now) }
{
    match base {
        Base::Binary => Ok(Some(digits_bits(alloc, 1, digits)?)),
        Base::Octal => Ok(Some(digits_bits(alloc, 3, digits)?)),
        Base::Decimal => decimal_bits(alloc, digits),
        Base::Hexadecimal => Ok(Some(digits_bits(alloc, 4, digits)?)),
    }
}

// What bits are extended with on the left.
fn extension(bits: &[Value]) -> Value
    ensures { result ≡ extension bits.now }
{
    match bits {
        [Value::X, ..] => Value::X,
        [Value::Z, ..] => Value::Z,
        _ => Value::Zero,
    }
}

fn to_width(alloc: Global, width: u32, own: &[Value]) -> Result<Vec<Value>, AllocError>
    ensures { IfOk result (λ bits. bits.items ≡ to_width width own.now) }
{
    let width = width as usize;
    let mut bits = Vec::new(alloc);
    put_copies(&mut bits, width.saturating_sub(own.len()), extension(own))?;
    bits.extend_from_slice(&own[own.len().saturating_sub(width)..])?;
    Ok(bits)
}

// The bits of a constant without width, where its number isn't too large.
fn spelled_bits(alloc: Global, base: Base, digits: &[u8]) -> Result<Vec<Value>, AllocError>
    ensures { IfOk result (λ bits. bits.items ≡ unsized_bits base digits.now) }
{
    match own_bits(alloc, base, digits)? {
        Some(bits) => Ok(bits),
        None => Ok(Vec::new(alloc)),
    }
}

/// The bits of a constant without width, the leftmost first (IEEE 1364-2005, the clause on integer constants).
pub fn unsized_bits(alloc: Global, base: Base, digits: &[u8]) -> Result<Vec<Value>, NoMemory>
    ensures { IfOk result (λ bits. bits.items ≡ unsized_bits base digits.now) }
{
    Ok(spelled_bits(alloc, base, digits)?)
}

impl Base {
    /// Whether digits spell bits: all but a decimal number of 2^64 or more do.
    pub fn has_bits(self, digits: &[u8]) -> bool
        ensures { result ≡ is_some (own_bits self digits.now) }
    {
        match self {
            Base::Decimal => number_of(digits).is_some(),
            _ => true,
        }
    }
}

impl Constant<'_> {
    /// Its bits, the leftmost first: as many as its width.
    pub fn bits(self, alloc: Global) -> Result<Vec<Value>, NoMemory>
        ensures { IfOk result (λ bits. bits.items ≡ sized_bits self.entry.width self.entry.base self.entry.digits.now) }
    {
        let own = spelled_bits(alloc, self.base, self.digits)?;
        Ok(to_width(alloc, self.width, &own)?)
    }
}

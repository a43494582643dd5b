// The bits of nets and constants.
use crate::stop::Stop;
use fit_gates::Operand;
use fit_items::{Nets, Run, closing_of, is_symbol, range_of, whole_number};
use sg_logic::Value;
use std::alloc::Global;
use vl_token::{Base, Constant, Symbol, Token, unsized_bits};

// A constant without a width has so many bits (IEEE 1364-2005, 3.5.1).
const UNSIZED: usize = 32;

// No net with more bits is read.
const MOST: u64 = 65536;

/// The bits of a net from one index to another, the rightmost first.
pub fn range_bits(alloc: Global, name: usize, left: i64, right: i64) -> Result<Vec<Operand>, Stop> {
    let size = left.abs_diff(right);
    if size >= MOST {
        return Err(Stop::Other);
    }
    let mut bits = Vec::new(alloc);
    let mut index = right;
    for _ in 0..=size {
        bits.push(Operand::Net {
            name,
            index: Some(index),
        })?;
        index = if left < right {
            index.saturating_sub(1)
        } else {
            index.saturating_add(1)
        };
    }
    Ok(bits)
}

/// The bits of a whole net.
pub fn net_bits(
    alloc: Global,
    name: usize,
    range: Option<(i64, i64)>,
) -> Result<Vec<Operand>, Stop> {
    match range {
        Some((left, right)) => range_bits(alloc, name, left, right),
        None => Ok(Vec::from_slice(alloc, &[Operand::Net { name, index: None }])?),
    }
}

fn is_within(range: (i64, i64), index: i64) -> bool {
    let (left, right) = range;
    (left <= index && index <= right) || (right <= index && index <= left)
}

// Whether a part goes the way of the range that it is of.
fn is_part(range: (i64, i64), left: i64, right: i64) -> bool {
    let (first, last) = range;
    is_within(range, left)
        && is_within(range, right)
        && (left == right || (left < right) == (first < last))
}

/// The bits of a select, which stands in brackets (IEEE 1364-2005, 5.2.1).
pub fn select_bits(
    alloc: Global,
    part: &[Token<'_>],
    name: usize,
    range: (i64, i64),
    select: Run,
) -> Result<Vec<Operand>, Stop> {
    if let Some(index) = whole_number(part, select) {
        if !is_within(range, index) {
            return Err(Stop::Other);
        }
        return range_bits(alloc, name, index, index);
    }
    match range_of(alloc, part, select)? {
        Some((left, right)) if is_part(range, left, right) => range_bits(alloc, name, left, right),
        _ => Err(Stop::Other),
    }
}

/// What stands in the brackets at a place, if such stand there.
pub fn select_at(part: &[Token<'_>], at: usize, end: usize) -> Result<Option<Run>, Stop> {
    match part.get(at) {
        Some(token) if at < end && is_symbol(token, Symbol::LeftBracket) => {
            match closing_of(part, at, end) {
                Some(close) => Ok(Some(Run {
                    first: at.saturating_add(1),
                    end: close,
                })),
                None => Err(Stop::Other),
            }
        }
        _ => Ok(None),
    }
}

/// The range and the bits of a name, by its place among the names.
pub fn name_bits(
    alloc: Global,
    nets: &Nets<'_>,
    text: &[u8],
    name: usize,
) -> Result<Vec<Operand>, Stop> {
    match nets.get(text) {
        Some(range) => net_bits(alloc, name, range),
        None if nets.declares(text) => Err(Stop::Other),
        None => net_bits(alloc, name, None),
    }
}

// Constants, the rightmost bit first.
fn constants(alloc: Global, values: &[Value]) -> Result<Vec<Operand>, Stop> {
    let mut bits = Vec::new(alloc);
    for value in values.iter().rev() {
        bits.push(Operand::Constant(*value))?;
    }
    Ok(bits)
}

/// The bits of a constant with a width.
pub fn sized_bits(alloc: Global, constant: Constant<'_>) -> Result<Vec<Operand>, Stop> {
    constants(alloc, &constant.bits(alloc)?)
}

fn extend(bits: &mut Vec<Operand>) -> Result<(), Stop> {
    for _ in bits.len()..UNSIZED {
        bits.push(Operand::Constant(Value::Zero))?;
    }
    Ok(())
}

fn is_unknown(bit: &Operand) -> bool {
    match bit {
        Operand::Constant(Value::X | Value::Z) => true,
        _ => false,
    }
}

/// The bits of a constant without a width, none of which may be x or z.
pub fn based_bits(alloc: Global, base: Base, digits: &[u8]) -> Result<Vec<Operand>, Stop> {
    let mut bits = constants(alloc, &unsized_bits(alloc, base, digits)?)?;
    extend(&mut bits)?;
    if bits.len() > UNSIZED || bits.iter().any(|bit| is_unknown(bit)) {
        return Err(Stop::Other);
    }
    Ok(bits)
}

fn bit_of(number: u64) -> Operand {
    if number % 2 == 1 {
        Operand::Constant(Value::One)
    } else {
        Operand::Constant(Value::Zero)
    }
}

/// The bits of a number, which isn't below 0 as one of 32 bits with a sign.
pub fn number_bits(alloc: Global, number: u64) -> Result<Vec<Operand>, Stop> {
    if number >= 1 << 31 {
        return Err(Stop::Other);
    }
    let mut bits = Vec::new(alloc);
    let mut rest = number;
    for _ in 0..UNSIZED {
        bits.push(bit_of(rest))?;
        rest /= 2;
    }
    Ok(bits)
}

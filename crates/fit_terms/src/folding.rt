// Operands joined by their operators.
use crate::opens::{Infix, Open, Prefix};
use crate::stop::Stop;
use fit_gates::{Operand, Term};
use sg_logic::Value;
use std::alloc::Global;

fn is_off(bit: &Operand) -> bool {
    match bit {
        Operand::Constant(Value::Z) => true,
        _ => false,
    }
}

// Whether it is the constant z and nothing else.
fn is_all_off(term: &Term) -> bool {
    match term {
        Term::Bits(bits) => bits.iter().all(|bit| is_off(bit)),
        _ => false,
    }
}

// Whether nothing of it is z but what a net is.
fn is_strong(term: &Term) -> bool {
    match term {
        Term::Bits(bits) => !bits.iter().any(|bit| is_off(bit)),
        Term::Gated { .. } => false,
        _ => true,
    }
}

fn pop_any(terms: &mut Vec<Term>) -> Result<Term, Stop> {
    match terms.pop() {
        Some(term) => Ok(term),
        None => Err(Stop::Other),
    }
}

// The last operand. A gate reads z as x, so z stands at no operator but `?:`.
fn pop_part(terms: &mut Vec<Term>) -> Result<Term, Stop> {
    let term = pop_any(terms)?;
    if is_strong(&term) {
        Ok(term)
    } else {
        Err(Stop::Other)
    }
}

fn prefixed(alloc: Global, prefix: Prefix, part: Term) -> Result<Term, Stop> {
    let part = Box::new(alloc, part)?;
    match prefix {
        Prefix::Inverted => Ok(Term::Inverted(part)),
        Prefix::Reduced(op) => Ok(Term::Reduced { op, part }),
    }
}

fn known_bit(bit: &Operand) -> Option<bool> {
    match bit {
        Operand::Constant(Value::Zero) => Some(false),
        Operand::Constant(Value::One) => Some(true),
        _ => None,
    }
}

// The bits of a constant without x and z.
fn known_bits(alloc: Global, term: &Term) -> Result<Option<Vec<bool>>, Stop> {
    let Term::Bits(operands) = term else {
        return Ok(None);
    };
    let mut bits = Vec::new(alloc);
    for operand in operands {
        match known_bit(operand) {
            Some(bit) => bits.push(bit)?,
            None => return Ok(None),
        }
    }
    Ok(Some(bits))
}

// Only 0 and 1 can be told from x and z by a primitive.
fn matched(alloc: Global, equal: bool, left: Term, right: Term) -> Result<Term, Stop> {
    if let Some(bits) = known_bits(alloc, &right)? {
        let part = Box::new(alloc, left)?;
        return Ok(Term::Matched { equal, part, bits });
    }
    let Some(bits) = known_bits(alloc, &left)? else {
        return Err(Stop::Other);
    };
    let part = Box::new(alloc, right)?;
    Ok(Term::Matched { equal, part, bits })
}

fn between(alloc: Global, infix: Infix, left: Term, right: Term) -> Result<Term, Stop> {
    if let Infix::Matched(equal) = infix {
        return matched(alloc, equal, left, right);
    }
    let left = Box::new(alloc, left)?;
    let right = Box::new(alloc, right)?;
    match infix {
        Infix::Bitwise(op) => Ok(Term::Bitwise { op, left, right }),
        Infix::Logical(op) => Ok(Term::Logical { op, left, right }),
        Infix::Compared(equal) => Ok(Term::Compared { equal, left, right }),
        Infix::Matched(_) => Err(Stop::Other),
    }
}

fn gated(alloc: Global, at: bool, condition: Term, part: Term, off: Term) -> Result<Term, Stop> {
    if !is_strong(&part) || part.width()? != off.width()? {
        return Err(Stop::Other);
    }
    let condition = Box::new(alloc, condition)?;
    let part = Box::new(alloc, part)?;
    Ok(Term::Gated {
        at,
        condition,
        part,
    })
}

fn chosen(alloc: Global, condition: Term, one: Term, other: Term) -> Result<Term, Stop> {
    if is_all_off(&other) {
        return gated(alloc, true, condition, one, other);
    }
    if is_all_off(&one) {
        return gated(alloc, false, condition, other, one);
    }
    if !is_strong(&one) || !is_strong(&other) {
        return Err(Stop::Other);
    }
    let condition = Box::new(alloc, condition)?;
    let one = Box::new(alloc, one)?;
    let other = Box::new(alloc, other)?;
    Ok(Term::Choice {
        condition,
        one,
        other,
    })
}

/// Joins the last operands by an operator.
pub fn fold(alloc: Global, terms: &mut Vec<Term>, open: Open) -> Result<(), Stop> {
    let term = match open {
        Open::Before(prefix) => {
            let part = pop_part(terms)?;
            prefixed(alloc, prefix, part)?
        }
        Open::Between(infix) => {
            let right = pop_part(terms)?;
            let left = pop_part(terms)?;
            between(alloc, infix, left, right)?
        }
        Open::Colon => {
            let other = pop_any(terms)?;
            let one = pop_any(terms)?;
            let condition = pop_part(terms)?;
            chosen(alloc, condition, one, other)?
        }
        _ => return Err(Stop::Other),
    };
    terms.push(term)?;
    Ok(())
}

fn joined(alloc: Global, left: Term, right: Term) -> Result<Term, Stop> {
    match (left, right) {
        (Term::Bits(left), Term::Bits(right)) => {
            let mut bits = right;
            bits.extend_from_slice(&left)?;
            Ok(Term::Bits(bits))
        }
        (left, right) => {
            let left = Box::new(alloc, left)?;
            let right = Box::new(alloc, right)?;
            Ok(Term::Joined { left, right })
        }
    }
}

/// Joins the last operands, one more than these, as the parts of a brace.
pub fn join(alloc: Global, terms: &mut Vec<Term>, more: usize) -> Result<(), Stop> {
    let mut whole = pop_part(terms)?;
    for _ in 0..more {
        let left = pop_part(terms)?;
        whole = joined(alloc, left, whole)?;
    }
    terms.push(whole)?;
    Ok(())
}

/// Has the last operand, which is nets and constants, stand so many times.
pub fn repeat(alloc: Global, terms: &mut Vec<Term>, times: usize) -> Result<(), Stop> {
    let Term::Bits(bits) = pop_part(terms)? else {
        return Err(Stop::Other);
    };
    let mut all = Vec::new(alloc);
    for _ in 0..times {
        all.extend_from_slice(&bits)?;
    }
    terms.push(Term::Bits(all))?;
    Ok(())
}

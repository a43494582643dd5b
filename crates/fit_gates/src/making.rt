// The gates of an expression.
ghost use Rattle.std.specs.Prelude.{◌≡◌, IfOk, map};
ghost use Rattle.fit_gates.specs.Gates.{IsMadeBy, seen};
ghost use Rattle.fit_gates.specs.Making.{made as making};
ghost use Rattle.fit_gates.specs.Terms.{view};

use crate::gates::Gate;
use crate::steps::{
    bitwise, chosen, compared, fitted, gated, inverted, joined, logical, matched, reduced,
};
use crate::terms::{Operand, Term, greater};
use sg_text::NoMemory;
use std::alloc::Global;

#[tactic(auto, unfolding(crate::specs::Making::made))]
// Adds the gates of an expression, and gives as many bits of it as are asked for.
fn made(
    alloc: Global,
    gates: &mut Vec<Gate>,
    term: &Term,
    width: usize,
) -> Result<Vec<Operand>, NoMemory>
    ensures { IfOk result (λ bits. (map seen gates.new.items, bits.items) ≡ making (map seen gates.old.items) width (view term.now)) }
{
    match term {
        Term::Bits(bits) => fitted(alloc, width, bits),
        Term::Inverted(part) => {
            let bits = made(alloc, gates, part, width)?;
            inverted(alloc, gates, &bits)
        }
        Term::Reduced { op, part } => {
            let bits = made(alloc, gates, part, part.width()?)?;
            reduced(alloc, gates, *op, width, &bits)
        }
        Term::Bitwise { op, left, right } => {
            let one = made(alloc, gates, left, width)?;
            let other = made(alloc, gates, right, width)?;
            bitwise(alloc, gates, *op, &one, &other)
        }
        Term::Logical { op, left, right } => {
            let one = made(alloc, gates, left, left.width()?)?;
            let other = made(alloc, gates, right, right.width()?)?;
            logical(alloc, gates, *op, width, &one, &other)
        }
        Term::Compared { equal, left, right } => {
            let both = greater(left.width()?, right.width()?);
            let one = made(alloc, gates, left, both)?;
            let other = made(alloc, gates, right, both)?;
            compared(alloc, gates, *equal, width, &one, &other)
        }
        Term::Matched { equal, part, bits } => {
            let both = greater(part.width()?, bits.len());
            let operands = made(alloc, gates, part, both)?;
            matched(alloc, gates, *equal, width, &operands, bits)
        }
        Term::Choice {
            condition,
            one,
            other,
        } => {
            let condition = made(alloc, gates, condition, condition.width()?)?;
            let one = made(alloc, gates, one, width)?;
            let other = made(alloc, gates, other, width)?;
            chosen(alloc, gates, &condition, &one, &other)
        }
        Term::Gated {
            at,
            condition,
            part,
        } => {
            let condition = made(alloc, gates, condition, condition.width()?)?;
            let bits = made(alloc, gates, part, width)?;
            gated(alloc, gates, *at, &condition, &bits)
        }
        Term::Joined { left, right } => {
            let one = made(alloc, gates, right, right.width()?)?;
            let other = made(alloc, gates, left, left.width()?)?;
            joined(alloc, width, &other, &one)
        }
    }
}

/// Adds the gates that make an expression, and gives so many of its bits, the rightmost first: those that it hasn't are 0, and
/// surplus ones are cut (IEEE 1364-2005, 5.4). Takes memory in proportion to the bits at its operators.
pub fn gates_of(
    alloc: Global,
    gates: &mut Vec<Gate>,
    term: &Term,
    width: usize,
) -> Result<Vec<Operand>, NoMemory>
    ensures { IfOk result (λ bits. IsMadeBy (map seen gates.old.items) (map seen gates.new.items) bits.items width (view term.now)) }
{
    made(alloc, gates, term, width)
}

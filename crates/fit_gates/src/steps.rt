// One operator's gates.
ghost use Rattle.std.specs.Prelude.{◌≡◌, ◌+◌, ◌∷◌, ◌++◌, [], IfOk, OnOk, length, map};
ghost use Rattle.fit_gates.specs.Gates.{driver, seen};
ghost use Rattle.fit_gates.specs.Making as making;

use crate::gates::{
    Gate, Kind, all_kind, bitwise_kind, control_kind, each_apart, each_asked, each_bit, each_kind,
    each_pair, logical_kind, reduction_kind,
};
use crate::terms::{Bitwise, Logical, Operand, Reduction, sum};
use sg_logic::{GateKind, Value};
use sg_text::NoMemory;
use std::alloc::Global;

const ZERO: Operand = Operand::Constant(Value::Zero);

// The first of some bits, or 0, and those behind it.
fn split(bits: &[Operand]) -> (Operand, &[Operand])
    ensures first { result.0 ≡ making.first_operand bits.now }
    ensures behind { result.1.now ≡ making.behind_operand bits.now }
{
    match bits {
        [first, behind @ ..] => (*first, behind),
        [] => (ZERO, bits),
    }
}

/// So many bits of these, with 0 for those that aren't there.
pub fn fitted(alloc: Global, width: usize, bits: &[Operand]) -> Result<Vec<Operand>, NoMemory>
    ensures { IfOk result (λ made. made.items ≡ making.fitted_bits width bits.now) }
{
    let mut made = Vec::new(alloc);
    let mut rest = bits;
    let mut left = width;
    while left > 0 {
        let (bit, behind) = split(rest);
        made.push(bit)?;
        rest = behind;
        left -= 1;
    }
    Ok(made)
}

// So many wires, from one on. `NoMemory` where there are 2^64 of them.
fn wires(alloc: Global, first: usize, count: usize) -> Result<Vec<Operand>, NoMemory>
    ensures { IfOk result (λ made. made.items ≡ making.wires first count) }
{
    let mut made = Vec::new(alloc);
    let mut place = first;
    let mut left = count;
    while left > 0 {
        made.push(Operand::Wire(place))?;
        let behind = sum(place, 1)?;
        place = behind;
        left -= 1;
    }
    Ok(made)
}

// Adds a gate, and gives its output.
#[tactic(auto, using(crate::proofs::LoopLaws::one_added))]
fn add(
    alloc: Global,
    gates: &mut Vec<Gate>,
    kind: GateKind,
    bits: &[Operand],
) -> Result<Operand, NoMemory>
    ensures { IfOk result (λ bit. (map seen gates.new.items, bit) ≡ making.added (map seen gates.old.items) kind bits.now) }
{
    let wire = Operand::Wire(gates.len());
    let inputs = Vec::from_slice(alloc, bits)?;
    gates.push(Gate {
        kind: Kind::Gate(kind),
        inputs,
    })?;
    Ok(wire)
}

// Adds gates, and gives their outputs.
#[tactic(auto, using(crate::proofs::LoopLaws::all_are_added))]
fn add_all(alloc: Global, gates: &mut Vec<Gate>, more: Vec<Gate>) -> Result<Vec<Operand>, NoMemory>
    ensures { IfOk result (λ bits. (map seen gates.new.items, bits.items) ≡ making.all_added (map seen gates.old.items) (map seen more.items)) }
{
    let mut more = more;
    let bits = wires(alloc, gates.len(), more.len())?;
    gates.append(&mut more)?;
    Ok(bits)
}

// A gate over bits: a lone bit itself.
fn over(
    alloc: Global,
    gates: &mut Vec<Gate>,
    kind: GateKind,
    bits: &[Operand],
) -> Result<Operand, NoMemory>
    ensures { IfOk result (λ bit. (map seen gates.new.items, bit) ≡ making.over (map seen gates.old.items) kind bits.now) }
{
    match bits {
        [bit] => Ok(*bit),
        _ => add(alloc, gates, kind, bits),
    }
}

pub fn inverted(
    alloc: Global,
    gates: &mut Vec<Gate>,
    bits: &[Operand],
) -> Result<Vec<Operand>, NoMemory>
    ensures { IfOk result (λ made. (map seen gates.new.items, made.items) ≡ making.inverted_of (map seen gates.old.items) bits.now) }
{
    let more = each_bit(alloc, Kind::Gate(GateKind::Not), bits, &[])?;
    add_all(alloc, gates, more)
}

pub fn reduced(
    alloc: Global,
    gates: &mut Vec<Gate>,
    op: Reduction,
    width: usize,
    bits: &[Operand],
) -> Result<Vec<Operand>, NoMemory>
    ensures { IfOk result (λ made. (map seen gates.new.items, made.items) ≡ making.reduced_of (map seen gates.old.items) op width bits.now) }
{
    let bit = add(alloc, gates, reduction_kind(op), bits)?;
    fitted(alloc, width, &[bit])
}

pub fn bitwise(
    alloc: Global,
    gates: &mut Vec<Gate>,
    op: Bitwise,
    one: &[Operand],
    other: &[Operand],
) -> Result<Vec<Operand>, NoMemory>
    ensures { IfOk result (λ made. (map seen gates.new.items, made.items) ≡ making.bitwise_of (map seen gates.old.items) op one.now other.now) }
{
    let more = each_pair(alloc, Kind::Gate(bitwise_kind(op)), &[], one, other)?;
    add_all(alloc, gates, more)
}

pub fn logical(
    alloc: Global,
    gates: &mut Vec<Gate>,
    op: Logical,
    width: usize,
    one: &[Operand],
    other: &[Operand],
) -> Result<Vec<Operand>, NoMemory>
    ensures { IfOk result (λ made. (map seen gates.new.items, made.items) ≡ making.logical_of (map seen gates.old.items) op width one.now other.now) }
{
    let left = over(alloc, gates, GateKind::Or, one)?;
    let right = over(alloc, gates, GateKind::Or, other)?;
    let bit = add(alloc, gates, logical_kind(op), &[left, right])?;
    fitted(alloc, width, &[bit])
}

// All of these gates, or else one of them.
fn together(
    alloc: Global,
    gates: &mut Vec<Gate>,
    equal: bool,
    width: usize,
    more: Vec<Gate>,
) -> Result<Vec<Operand>, NoMemory>
    ensures { IfOk result (λ made. (map seen gates.new.items, made.items) ≡ making.together (map seen gates.old.items) equal width (map seen more.items)) }
{
    let bits = add_all(alloc, gates, more)?;
    let bit = over(alloc, gates, all_kind(equal), &bits)?;
    fitted(alloc, width, &[bit])
}

pub fn compared(
    alloc: Global,
    gates: &mut Vec<Gate>,
    equal: bool,
    width: usize,
    one: &[Operand],
    other: &[Operand],
) -> Result<Vec<Operand>, NoMemory>
    ensures { IfOk result (λ made. (map seen gates.new.items, made.items) ≡ making.compared_of (map seen gates.old.items) equal width one.now other.now) }
{
    let more = each_apart(alloc, each_kind(equal), one, other)?;
    together(alloc, gates, equal, width, more)
}

pub fn matched(
    alloc: Global,
    gates: &mut Vec<Gate>,
    equal: bool,
    width: usize,
    operands: &[Operand],
    bits: &[bool],
) -> Result<Vec<Operand>, NoMemory>
    ensures { IfOk result (λ made. (map seen gates.new.items, made.items) ≡ making.matched_of (map seen gates.old.items) equal width operands.now bits.now) }
{
    let more = each_asked(alloc, equal, operands, bits)?;
    together(alloc, gates, equal, width, more)
}

pub fn chosen(
    alloc: Global,
    gates: &mut Vec<Gate>,
    condition: &[Operand],
    one: &[Operand],
    other: &[Operand],
) -> Result<Vec<Operand>, NoMemory>
    ensures { IfOk result (λ made. (map seen gates.new.items, made.items) ≡ making.chosen_of (map seen gates.old.items) condition.now one.now other.now) }
{
    let first = over(alloc, gates, GateKind::Or, condition)?;
    let more = each_pair(alloc, Kind::Choice, &[first], one, other)?;
    add_all(alloc, gates, more)
}

pub fn gated(
    alloc: Global,
    gates: &mut Vec<Gate>,
    at: bool,
    condition: &[Operand],
    bits: &[Operand],
) -> Result<Vec<Operand>, NoMemory>
    ensures { IfOk result (λ made. (map seen gates.new.items, made.items) ≡ making.gated_of (map seen gates.old.items) at condition.now bits.now) }
{
    let control = over(alloc, gates, GateKind::Or, condition)?;
    let more = each_bit(alloc, Kind::Gate(control_kind(at)), bits, &[control])?;
    add_all(alloc, gates, more)
}

pub fn joined(
    alloc: Global,
    width: usize,
    left: &[Operand],
    right: &[Operand],
) -> Result<Vec<Operand>, NoMemory>
    ensures { IfOk result (λ made. made.items ≡ making.fitted_bits width (right.now ++ left.now)) }
{
    let mut bits = Vec::from_slice(alloc, right)?;
    bits.extend_from_slice(left)?;
    fitted(alloc, width, &bits)
}

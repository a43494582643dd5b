// Gates and primitives over operands.
ghost use Rattle.std.specs.Prelude.{◌≡◌, ◌∷◌, ◌++◌, [], IfOk, OnOk, map};
ghost use Rattle.fit_gates.specs.Gates.{all_kind, bitwise_kind, control_kind, driver, each_kind, logical_kind, reduction_kind, seen};
ghost use Rattle.fit_gates.specs.Making.{apart_gate, apart_gates, asked_gate, asked_gates, pair_gates};
ghost use Rattle.fit_gates.specs.Making as making;

use crate::terms::{Bitwise, Logical, Operand, Reduction};
use sg_logic::{GateKind, Value};
use sg_text::NoMemory;
use std::alloc::Global;

/// A gate, or one of our own primitives.
#[derive(Clone, Copy)]
pub enum Kind {
    Gate(GateKind),
    /// Whether its input is this bit, or else whether it isn't: 0 or 1.
    Match { bit: bool, equal: bool },
    /// Of three inputs the second where the first is 1, the third where it is 0.
    Choice,
}

/// What drives a wire: its inputs stand in the order of its terminals.
#[derive(Drop)]
pub struct Gate {
    pub kind: Kind,
    pub inputs: Vec<Operand>,
}

pub fn reduction_kind(op: Reduction) -> GateKind
    ensures { result ≡ reduction_kind op }
{
    match op {
        Reduction::And => GateKind::And,
        Reduction::Nand => GateKind::Nand,
        Reduction::Or => GateKind::Or,
        Reduction::Nor => GateKind::Nor,
        Reduction::Xor => GateKind::Xor,
        Reduction::Xnor => GateKind::Xnor,
    }
}

pub fn bitwise_kind(op: Bitwise) -> GateKind
    ensures { result ≡ bitwise_kind op }
{
    match op {
        Bitwise::And => GateKind::And,
        Bitwise::Or => GateKind::Or,
        Bitwise::Xor => GateKind::Xor,
        Bitwise::Xnor => GateKind::Xnor,
    }
}

pub fn logical_kind(op: Logical) -> GateKind
    ensures { result ≡ logical_kind op }
{
    match op {
        Logical::And => GateKind::And,
        Logical::Or => GateKind::Or,
    }
}

pub fn control_kind(at: bool) -> GateKind
    ensures { result ≡ control_kind at }
{
    if at {
        GateKind::Bufif1
    } else {
        GateKind::Bufif0
    }
}

/// Of a pair of bits, and over all pairs, where they are to be equal or not.
pub fn each_kind(equal: bool) -> GateKind
    ensures { result ≡ each_kind equal }
{
    if equal { GateKind::Xnor } else { GateKind::Xor }
}

pub fn all_kind(equal: bool) -> GateKind
    ensures { result ≡ all_kind equal }
{
    if equal { GateKind::And } else { GateKind::Or }
}

fn gate_of(alloc: Global, kind: Kind, inputs: &[Operand]) -> Result<Gate, NoMemory>
    ensures { IfOk result (λ g. seen g ≡ driver kind inputs.now) }
{
    let inputs = Vec::from_slice(alloc, inputs)?;
    Ok(Gate { kind, inputs })
}

fn gate_with(alloc: Global, kind: Kind, bit: Operand, more: &[Operand]) -> Result<Gate, NoMemory>
    ensures { IfOk result (λ g. seen g ≡ driver kind (bit ∷ more.now)) }
{
    let mut inputs = Vec::from_slice(alloc, &[bit])?;
    inputs.extend_from_slice(more)?;
    Ok(Gate { kind, inputs })
}

/// A gate for each bit, with more inputs behind it.
#[tactic(auto, using(crate::proofs::LoopLaws::bit_step))]
pub fn each_bit(
    alloc: Global,
    kind: Kind,
    bits: &[Operand],
    more: &[Operand],
) -> Result<Vec<Gate>, NoMemory>
    ensures { IfOk result (λ gates. map seen gates.items ≡ map (λ x. driver kind (x ∷ more.now)) bits.now) }
{
    let mut gates = Vec::new(alloc);
    let mut rest = bits;
    while let [bit, behind @ ..] = rest {
        gates.push(gate_with(alloc, kind, *bit, more)?)?;
        rest = behind;
    }
    Ok(gates)
}

fn gate_of_pair(
    alloc: Global,
    kind: Kind,
    before: &[Operand],
    one: Operand,
    other: Operand,
) -> Result<Gate, NoMemory>
    ensures { IfOk result (λ g. seen g ≡ driver kind (before.now ++ one ∷ other ∷ [])) }
{
    let mut inputs = Vec::from_slice(alloc, before)?;
    inputs.extend_from_slice(&[one, other])?;
    Ok(Gate { kind, inputs })
}

/// A gate for each pair of bits, with inputs before them.
#[tactic(auto, using(crate::proofs::LoopLaws::pair_step, crate::proofs::LoopLaws::pair_end))]
pub fn each_pair(
    alloc: Global,
    kind: Kind,
    before: &[Operand],
    left: &[Operand],
    right: &[Operand],
) -> Result<Vec<Gate>, NoMemory>
    ensures { IfOk result (λ gates. map seen gates.items ≡ pair_gates kind before.now left.now right.now) }
{
    let mut gates = Vec::new(alloc);
    let mut rest = left;
    let mut others = right;
    while let [one, behind @ ..] = rest {
        let [other, more @ ..] = others else {
            return Ok(gates);
        };
        gates.push(gate_of_pair(alloc, kind, before, *one, *other)?)?;
        rest = behind;
        others = more;
    }
    Ok(gates)
}

fn is_zero(bit: Operand) -> bool
    ensures { result ≡ making.is_zero bit }
{
    match bit {
        Operand::Constant(Value::Zero) => true,
        _ => false,
    }
}

fn add_apart(
    alloc: Global,
    gates: &mut Vec<Gate>,
    kind: GateKind,
    one: Operand,
    other: Operand,
) -> Result<(), NoMemory>
    ensures { OnOk result (map seen gates.new.items ≡ map seen gates.old.items ++ making.apart_gate kind one other) }
{
    if !is_zero(one) || !is_zero(other) {
        gates.push(gate_of(alloc, Kind::Gate(kind), &[one, other])?)?;
    }
    Ok(())
}

/// A gate for each pair of bits but those that are both the constant 0.
#[tactic(auto, using(crate::proofs::LoopLaws::apart_step, crate::proofs::LoopLaws::apart_end))]
pub fn each_apart(
    alloc: Global,
    kind: GateKind,
    left: &[Operand],
    right: &[Operand],
) -> Result<Vec<Gate>, NoMemory>
    ensures { IfOk result (λ gates. map seen gates.items ≡ apart_gates kind left.now right.now) }
{
    let mut gates = Vec::new(alloc);
    let mut rest = left;
    let mut others = right;
    while let [one, behind @ ..] = rest {
        let [other, more @ ..] = others else {
            return Ok(gates);
        };
        add_apart(alloc, &mut gates, kind, *one, *other)?;
        rest = behind;
        others = more;
    }
    Ok(gates)
}

fn add_asked(
    alloc: Global,
    gates: &mut Vec<Gate>,
    equal: bool,
    operand: Operand,
    bit: bool,
) -> Result<(), NoMemory>
    ensures { OnOk result (map seen gates.new.items ≡ map seen gates.old.items ++ asked_gate equal operand bit) }
{
    if bit || !is_zero(operand) {
        gates.push(gate_of(alloc, Kind::Match { bit, equal }, &[operand])?)?;
    }
    Ok(())
}

fn split(bits: &[bool]) -> (bool, &[bool])
    ensures first { result.0 ≡ making.first_bit bits.now }
    ensures behind { result.1.now ≡ making.behind_first bits.now }
{
    match bits {
        [first, behind @ ..] => (*first, behind),
        [] => (false, bits),
    }
}

/// A gate for each operand that is to be a bit, 0 where none stands; but for the constant 0 that is to be 0.
#[tactic(auto, using(crate::proofs::LoopLaws::asked_step))]
pub fn each_asked(
    alloc: Global,
    equal: bool,
    operands: &[Operand],
    bits: &[bool],
) -> Result<Vec<Gate>, NoMemory>
    ensures { IfOk result (λ gates. map seen gates.items ≡ asked_gates equal operands.now bits.now) }
{
    let mut gates = Vec::new(alloc);
    let mut rest = operands;
    let mut left = bits;
    while let [operand, behind @ ..] = rest {
        let (bit, more) = split(left);
        add_asked(alloc, &mut gates, equal, *operand, bit)?;
        rest = behind;
        left = more;
    }
    Ok(gates)
}

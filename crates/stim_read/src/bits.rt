// What the sets of a statement do to the nets.
ghost use Rattle.std.specs.Prelude.{◌≡◌, ◌==◌, ◌||◌, ◌++◌, ◌∷◌, [], ℕ, MatchOption, IfOk, OnOk, IfErr, length, map, zip, flat_map};
ghost use Rattle.sg_text.specs.declared.refusals.Refused.TheVariants as refused;
ghost use Rattle.sg_stimulus.specs.Seen.{set_seen as bit_seen};
ghost use Rattle.stim_read.specs.Inputs as def;
ghost use Rattle.stim_read.specs.Faults.{set_faults};
ghost use Rattle.stim_read.specs.Meant.{RefusesOneOf, is_seen, unless_seen};
ghost use Rattle.stim_read.specs.Seen.{set_seen};

use crate::StimKind;
use crate::inputs::nets_named;
use crate::sets::SetText;
use crate::top_inputs::Inputs;
use indexmap::IndexSet;
use sg_circuit::NetId;
use sg_logic::Value;
use sg_stimulus::Set;
use sg_text::{NoMemory, Place, Refused};
use std::alloc::Global;

/// A fault of the statement at a byte.
pub fn fault(kind: StimKind, byte: usize) -> Refused<StimKind>
    ensures { result ≡ refused.Fault kind (record { file = 0; byte = byte }) }
{
    Refused::Fault {
        kind,
        place: Place {
            file: 0,
            byte: byte as u64,
        },
    }
}

fn value_of(digit: u8) -> Value
    ensures { result ≡ def.value_of digit }
{
    match digit {
        b'0' => Value::Zero,
        b'1' => Value::One,
        b'z' => Value::Z,
        _ => Value::X,
    }
}

// Each net takes the value of its digit.
fn add_bits(nets: &[NetId], digits: &[u8], bits: &mut Vec<Set>) -> Result<(), NoMemory>
    ensures { OnOk result (map (λ c. bit_seen c) bits.new.items ≡ map (λ c. bit_seen c) bits.old.items ++ zip nets.now (map def.value_of digits.now)) }
{
    let mut nets = nets;
    let mut digits = digits;
    while let [net, more_nets @ ..] = nets {
        let [digit, more_digits @ ..] = digits else {
            return Ok(());
        };
        bits.push(Set {
            net: *net,
            value: value_of(*digit),
        })?;
        nets = more_nets;
        digits = more_digits;
    }
    Ok(())
}

// The nets that a set sets are added.
fn add_set(
    inputs: &Inputs,
    byte: usize,
    set: &SetText,
    bits: &mut Vec<Set>,
) -> Result<(), Refused<StimKind>>
    ensures faultless { OnOk result (set_faults inputs.now.circuit.now byte (set_seen set.now) ≡ []) }
    ensures refused { IfErr result (RefusesOneOf (set_faults inputs.now.circuit.now byte (set_seen set.now))) }
    ensures bits { OnOk result (map (λ c. bit_seen c) bits.new.items ≡ map (λ c. bit_seen c) bits.old.items ++ def.bits_set inputs.now.circuit.now (set_seen set.now)) }
{
    let Some(nets) = nets_named(inputs, &set.target) else {
        return Err(fault(StimKind::UnknownInput, byte));
    };
    if set.digits.len() != nets.len() {
        return Err(fault(StimKind::WidthMismatch, byte));
    }
    add_bits(nets, set.digits, bits)?;
    Ok(())
}

fn all_bits(
    alloc: Global,
    inputs: &Inputs,
    byte: usize,
    sets: &[SetText],
) -> Result<Vec<Set>, Refused<StimKind>>
    ensures faultless { OnOk result (flat_map (set_faults inputs.now.circuit.now byte) (map (λ s. set_seen s) sets.now) ≡ []) }
    ensures refused { IfErr result (RefusesOneOf (flat_map (set_faults inputs.now.circuit.now byte) (map (λ s. set_seen s) sets.now))) }
    ensures bits { IfOk result (λ bits. map (λ c. bit_seen c) bits.items ≡ flat_map (def.bits_set inputs.now.circuit.now) (map (λ s. set_seen s) sets.now)) }
{
    let mut bits = Vec::new(alloc);
    let mut rest = sets;
    while let [set, more @ ..] = rest {
        add_set(inputs, byte, set, &mut bits)?;
        rest = more;
    }
    Ok(bits)
}

// All sets but the last one, and that.
fn last_off(bits: &[Set]) -> Option<(&[Set], Set)>
    ensures { MatchOption result (bits.now ≡ []) (λ p. bits.now ≡ p.0.now ++ p.1 ∷ []) }
{
    match bits {
        [front @ .., last] => Some((front, *last)),
        [] => None,
    }
}

// A set is kept if its net wasn't seen before.
fn keep(bit: Set, seen: &mut IndexSet<NetId>, kept: &mut Vec<Set>) -> Result<(), NoMemory>
    ensures seen { OnOk result ((net : ℕ) → is_seen net seen.new.keys ≡ ((bit.net == net) || is_seen net seen.old.keys)) }
    ensures kept { OnOk result (map (λ c. bit_seen c) kept.new.items ≡ map (λ c. bit_seen c) kept.old.items ++ unless_seen (is_seen bit.net seen.old.keys) (bit_seen bit)) }
{
    if seen.insert(bit.net)? {
        kept.push(bit)?;
    }
    Ok(())
}

// Of several sets of a net the last one.
fn last_of_each(alloc: Global, bits: &[Set]) -> Result<Vec<Set>, NoMemory>
    ensures { IfOk result (λ kept. map (λ c. bit_seen c) kept.items ≡ def.last_of_each (map (λ c. bit_seen c) bits.now)) }
{
    let mut seen: IndexSet<NetId> = IndexSet::new(alloc);
    let mut kept = Vec::new(alloc);
    let mut left = bits;
    while let Some((front, bit)) = last_off(left) {
        keep(bit, &mut seen, &mut kept)?;
        left = front;
    }
    kept.reverse();
    Ok(kept)
}

/// The nets that the sets of the statement at a byte set, each once; or a fault of one of them.
pub fn bits_of(
    alloc: Global,
    inputs: &Inputs,
    byte: usize,
    sets: &[SetText],
) -> Result<Vec<Set>, Refused<StimKind>>
    ensures faultless { OnOk result (flat_map (set_faults inputs.now.circuit.now byte) (map (λ s. set_seen s) sets.now) ≡ []) }
    ensures refused { IfErr result (RefusesOneOf (flat_map (set_faults inputs.now.circuit.now byte) (map (λ s. set_seen s) sets.now))) }
    ensures bits { IfOk result (λ bits. map (λ c. bit_seen c) bits.items ≡ def.all_set inputs.now.circuit.now (map (λ s. set_seen s) sets.now)) }
{
    let bits = all_bits(alloc, inputs, byte, sets)?;
    Ok(last_of_each(alloc, &bits)?)
}

// Gates and primitives.
ghost use Rattle.std.specs.Prelude.{◌≡◌, ◌≤◌, ◌<◌, ◌+◌, ◌-◌, ◌^◌, ◌++◌, ◌∷◌, [], ℕ, List, All, Some, OnOk, IfErr, length, map, flat_map, zip, IfOk};
ghost use Rattle.sg_circuit.specs.declared.elements.UdpUse as ghost_udps;
ghost use Rattle.sg_delay.specs.declared.gates.GateDelays as ghost_delays;
ghost use Rattle.vl_tree.specs.Tree.{Source};
ghost use Rattle.elab_laws.specs.Handing.{all_bits};
ghost use Rattle.elab_bits.specs.Seen.{view_bit, IsInRow};
ghost use Rattle.elab_model.specs.Bits.{constant};
ghost use Rattle.elab_model.specs.Elements as def_elements;
ghost use Rattle.elab_model.specs.Hierarchy as def;
ghost use Rattle.elab_model.specs.Names.{Variable};
ghost use Rattle.elab_model.specs.Nets.{OwnNet};
ghost use Rattle.elab_numbering.specs.Refusals.{RefusesCount};
ghost use Rattle.elab_elements.specs.Adding.{Adds, IsHere, HasDriven, HasTerminals};
ghost use Rattle.elab_elements.specs.Seen.{kind_in, NamesPlaces};
ghost use Rattle.elab_elements.specs.Puts.{Puts, RefusesPuts};
ghost use Rattle.elab_elements.specs.Words.{input_number, input_numbers, output_puts, constant_puts, constants_in};

use crate::Placing;
use crate::placing::{add_element, too_many};
use elab_bits::Bit;
use elab_model::ElabKind;
use elab_variables::Table;
use sg_circuit::{ElementKind, NetId};
use sg_text::{Place, Refused};
use smallvec::SmallVec;

const MOST_ELEMENTS: u32 = 4_194_304;

// Adds the nets of inputs to a list. The nets of constants are numbered from `first` on; more than there may be elements are refused.
fn add_inputs(
    bits: &[Bit],
    first: NetId,
    row: &[NetId],
    inputs: &mut SmallVec<NetId, 4>,
) -> Result<(), Refused<ElabKind>>
    requires row { (vs : List Variable) × ((length row.now ≡ length (all_bits vs)) × All (IsInRow vs) bits.now) }
    requires first { first ≤ 2 ^ 22 }
    ensures inputs { OnOk result (inputs.new.items ≡ inputs.old.items ++ input_numbers first row.now bits.now) }
    ensures refused { IfErr result (λ r. (total : ℕ) → constants_in bits.now ≤ total → RefusesCount total r) }
{
    let mut next = first;
    for bit in bits {
        inputs.push(number_of(*bit, row, next))?;
        next = next_number(*bit, first, next)?;
    }
    Ok(())
}

// The net of a bit, of which a constant has the next.
fn number_of(bit: Bit, row: &[NetId], next: NetId) -> NetId
    requires { (vs : List Variable) × ((length row.now ≡ length (all_bits vs)) × IsInRow vs bit) }
    ensures { result ≡ input_number next row.now bit }
{
    match bit {
        Bit::Net(place) => row[place],
        Bit::Constant { .. } => next,
    }
}

// The next free number behind a bit.
fn next_number(bit: Bit, first: NetId, next: NetId) -> Result<NetId, Refused<ElabKind>>
    requires first { first ≤ 2 ^ 22 }
    requires after { first ≤ next }
    requires next { next ≤ first + 2 ^ 22 }
    ensures next { IfOk result (λ n. n ≡ next + constants_in (bit ∷ [])) }
    ensures after { IfOk result (λ n. first ≤ n) }
    ensures few { IfOk result (λ n. n ≤ first + 2 ^ 22) }
    ensures refused { IfErr result (λ r. (total : ℕ) → (next - first) + constants_in (bit ∷ []) ≤ total → RefusesCount total r) }
{
    match bit {
        Bit::Net(_) => Ok(next),
        Bit::Constant { .. } => {
            if next - first >= MOST_ELEMENTS {
                return Err(too_many());
            }
            Ok(next + 1)
        }
    }
}

// Adds an element for a bit that is an output.
fn add_output(
    scope: u32,
    place: Place,
    kind: ElementKind,
    inputs: &[NetId],
    bit: Bit,
    driven: &[NetId],
    made: &mut Placing,
) -> Result<(), Refused<ElabKind>>
    requires driven { (vs : List Variable) × ((length driven.now ≡ length (all_bits vs)) × IsInRow vs bit) }
    requires few { length made.old.elements.items ≤ 2 ^ 22 }
    ensures few { length made.new.elements.items ≤ 2 ^ 22 }
    ensures puts { OnOk result (Puts made.old made.new (output_puts scope place kind inputs.now driven.now bit)) }
    ensures refused { IfErr result (RefusesPuts made.old (output_puts scope place kind inputs.now driven.now bit)) }
{
    match bit {
        Bit::Net(output) => add_element(scope, place, inputs, driven[output], kind, made),
        Bit::Constant { .. } => Ok(()),
    }
}

fn add_outputs(
    scope: u32,
    place: Place,
    kind: ElementKind,
    inputs: &[NetId],
    bits: &[Bit],
    driven: &[NetId],
    made: &mut Placing,
) -> Result<(), Refused<ElabKind>>
    requires driven { (vs : List Variable) × ((length driven.now ≡ length (all_bits vs)) × All (IsInRow vs) bits.now) }
    requires few { length made.old.elements.items ≤ 2 ^ 22 }
    ensures few { length made.new.elements.items ≤ 2 ^ 22 }
    ensures puts { OnOk result (Puts made.old made.new (flat_map (output_puts scope place kind inputs.now driven.now) bits.now)) }
    ensures refused { IfErr result (RefusesPuts made.old (flat_map (output_puts scope place kind inputs.now driven.now) bits.now)) }
{
    for bit in bits {
        add_output(scope, place, kind, inputs, *bit, driven, made)?;
    }
    Ok(())
}

// Adds a Pass of a bit that is a constant to a net.
fn add_constant(
    scope: u32,
    bit: Bit,
    output: NetId,
    made: &mut Placing,
) -> Result<(), Refused<ElabKind>>
    requires few { length made.old.elements.items ≤ 2 ^ 22 }
    ensures few { length made.new.elements.items ≤ 2 ^ 22 }
    ensures puts { OnOk result (Puts made.old made.new (constant_puts scope (bit, output))) }
    ensures refused { IfErr result (RefusesPuts made.old (constant_puts scope (bit, output))) }
{
    match bit {
        Bit::Net(_) => Ok(()),
        Bit::Constant { place, value } => {
            let constant = Some(value);
            let kind = ElementKind::Pass { constant };
            add_element(scope, place, &[], output, kind, made)
        }
    }
}

// Adds a Pass for each constant among the bits at inputs.
fn add_constants(
    scope: u32,
    bits: &[Bit],
    inputs: &[NetId],
    made: &mut Placing,
) -> Result<(), Refused<ElabKind>>
    requires few { length made.old.elements.items ≤ 2 ^ 22 }
    ensures few { length made.new.elements.items ≤ 2 ^ 22 }
    ensures puts { OnOk result (Puts made.old made.new (flat_map (constant_puts scope) (zip bits.now inputs.now))) }
    ensures refused { IfErr result (RefusesPuts made.old (flat_map (constant_puts scope) (zip bits.now inputs.now))) }
{
    for (bit, input) in bits.iter().zip(inputs) {
        add_constant(scope, *bit, *input, made)?;
    }
    Ok(())
}

/// Adds an element of a kind for each output of a gate or a primitive, and then a Pass for each constant at its inputs (IEEE 1364-2005, 7.2, 7.3, 8.1.1). The nets of its constants
/// have the numbers from `first` on.
pub fn add_terminal_elements(
    table: &Table,
    scope: u32,
    place: Place,
    kind: ElementKind,
    outputs: &[Bit],
    inputs: &[Bit],
    first: NetId,
    row: &[NetId],
    driven: &[NetId],
    made: &mut Placing,
) -> Result<(), Refused<ElabKind>>
    requires row { length row.now ≡ length (all_bits table.now) }
    requires driven { length driven.now ≡ length (all_bits table.now) }
    requires outputs { All (IsInRow table.now) outputs.now }
    requires inputs { All (IsInRow table.now) inputs.now }
    requires first { first ≤ 2 ^ 22 }
    requires few { length made.old.elements.items ≤ 2 ^ 22 }
    ensures few { length made.new.elements.items ≤ 2 ^ 22 }
    ensures elements { OnOk result ((delays : List ghost_delays.GateDelays) (udps : List ghost_udps.UdpUse) (all : List OwnNet) (source : Source) (s : def.Instance) (k : ℕ) → IsHere all source s scope table.now row.now
        → HasDriven all source s table.now driven.now → HasTerminals all s k first (map (view_bit table.now) outputs.now) (map (view_bit table.now) inputs.now) → NamesPlaces delays udps kind
        → Adds delays udps all made.old made.new (def_elements.terminal_elements source s place k (kind_in delays udps kind) (map (view_bit table.now) outputs.now) (map (view_bit table.now) inputs.now))) }
    ensures refused { IfErr result (λ r. (delays : List ghost_delays.GateDelays) (udps : List ghost_udps.UdpUse) (source : Source) (s : def.Instance) (k : ℕ)
        → RefusesCount (length made.old.elements.items
        + length (def_elements.terminal_elements source s place k (kind_in delays udps kind) (map (view_bit table.now) outputs.now) (map (view_bit table.now) inputs.now))) r) }
{
    let mut nets = SmallVec::new(*made.elements.allocator());
    add_inputs(inputs, first, row, &mut nets)?;
    add_outputs(scope, place, kind, nets.as_slice(), outputs, driven, made)?;
    add_constants(scope, inputs, nets.as_slice(), made)
}

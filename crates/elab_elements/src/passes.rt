// Continuous assignments and supplies.
ghost use Rattle.std.specs.Prelude.{◌≡◌, ◌≤◌, ◌<◌, ◌+◌, ◌^◌, List, All, Some, OnOk, IfErr, length, map, flat_map, zip};
ghost use Rattle.sg_circuit.specs.declared.elements.UdpUse as ghost_udps;
ghost use Rattle.sg_delay.specs.declared.gates.GateDelays as ghost_delays;
ghost use Rattle.vl_tree.specs.Tree.{Source};
ghost use Rattle.elab_laws.specs.Handing.{all_bits};
ghost use Rattle.elab_bits.specs.Seen.{view_bit, IsInRow};
ghost use Rattle.elab_model.specs.Bits.{constant};
ghost use Rattle.elab_model.specs.Elements as def_elements;
ghost use Rattle.elab_model.specs.Hierarchy as def;
ghost use Rattle.elab_model.specs.Names.{Variable};
ghost use Rattle.elab_model.specs.Nets.{OwnNet};
ghost use Rattle.elab_numbering.specs.Refusals.{RefusesCount};
ghost use Rattle.elab_elements.specs.Adding.{Adds, IsHere, HasDriven};
ghost use Rattle.elab_elements.specs.Puts.{Puts, RefusesPuts};
ghost use Rattle.elab_elements.specs.Words.{pass_puts};
ghost use Rattle.elab_bits.specs.declared.bits.Bit.TheVariants as ghost_bit;

use crate::Placing;
use crate::placing::add_element;
use elab_bits::Bit;
use elab_model::ElabKind;
use elab_variables::Table;
use sg_circuit::{ElementKind, NetId};
use sg_logic::Value;
use sg_text::{Place, Refused};

// Adds a Pass to a bit of the row from another or from a constant.
fn add_pass(
    scope: u32,
    place: Place,
    to: Bit,
    from: Bit,
    row: &[NetId],
    driven: &[NetId],
    made: &mut Placing,
) -> Result<(), Refused<ElabKind>>
    requires row { (vs : List Variable) × ((length row.now ≡ length (all_bits vs)) × ((length driven.now ≡ length (all_bits vs)) × (IsInRow vs to × IsInRow vs from))) }
    requires few { length made.old.elements.items ≤ 2 ^ 22 }
    ensures few { length made.new.elements.items ≤ 2 ^ 22 }
    ensures puts { OnOk result (Puts made.old made.new (pass_puts scope place row.now driven.now (to, from))) }
    ensures refused { IfErr result (RefusesPuts made.old (pass_puts scope place row.now driven.now (to, from))) }
{
    let Bit::Net(output) = to else {
        return Ok(());
    };
    match from {
        Bit::Net(input) => {
            let kind = ElementKind::Pass { constant: None };
            add_element(scope, place, &[row[input]], driven[output], kind, made)
        }
        Bit::Constant { value, .. } => {
            let kind = ElementKind::Pass {
                constant: Some(value),
            };
            add_element(scope, place, &[], driven[output], kind, made)
        }
    }
}

// Adds a Pass to each of these bits from the one at its place.
fn add_each(
    scope: u32,
    place: Place,
    left: &[Bit],
    right: &[Bit],
    row: &[NetId],
    driven: &[NetId],
    made: &mut Placing,
) -> Result<(), Refused<ElabKind>>
    requires row { (vs : List Variable) × ((length row.now ≡ length (all_bits vs)) × ((length driven.now ≡ length (all_bits vs)) × (All (IsInRow vs) left.now × All (IsInRow vs) right.now))) }
    requires few { length made.old.elements.items ≤ 2 ^ 22 }
    ensures few { length made.new.elements.items ≤ 2 ^ 22 }
    ensures puts { OnOk result (Puts made.old made.new (flat_map (pass_puts scope place row.now driven.now) (zip left.now right.now))) }
    ensures refused { IfErr result (RefusesPuts made.old (flat_map (pass_puts scope place row.now driven.now) (zip left.now right.now))) }
{
    for (to, from) in left.iter().zip(right) {
        add_pass(scope, place, *to, *from, row, driven, made)?;
    }
    Ok(())
}

// Adds a Pass of a constant to each of these bits.
fn add_constants(
    scope: u32,
    place: Place,
    value: Value,
    bits: &[Bit],
    row: &[NetId],
    driven: &[NetId],
    made: &mut Placing,
) -> Result<(), Refused<ElabKind>>
    requires row { (vs : List Variable) × ((length row.now ≡ length (all_bits vs)) × ((length driven.now ≡ length (all_bits vs)) × All (IsInRow vs) bits.now)) }
    requires few { length made.old.elements.items ≤ 2 ^ 22 }
    ensures few { length made.new.elements.items ≤ 2 ^ 22 }
    ensures puts { OnOk result (Puts made.old made.new (flat_map (λ b. pass_puts scope place row.now driven.now (b, ghost_bit.Constant place value)) bits.now)) }
    ensures refused { IfErr result (RefusesPuts made.old (flat_map (λ b. pass_puts scope place row.now driven.now (b, ghost_bit.Constant place value)) bits.now)) }
{
    for to in bits {
        add_pass(
            scope,
            place,
            *to,
            Bit::Constant { place, value },
            row,
            driven,
            made,
        )?;
    }
    Ok(())
}

/// Adds a Pass from each bit of the right side of an assignment to the bit of the left side (IEEE 1364-2005, 6.1).
pub fn add_passes(
    table: &Table,
    scope: u32,
    place: Place,
    left: &[Bit],
    right: &[Bit],
    row: &[NetId],
    driven: &[NetId],
    made: &mut Placing,
) -> Result<(), Refused<ElabKind>>
    requires row { length row.now ≡ length (all_bits table.now) }
    requires driven { length driven.now ≡ length (all_bits table.now) }
    requires left { All (IsInRow table.now) left.now }
    requires right { All (IsInRow table.now) right.now }
    requires few { length made.old.elements.items ≤ 2 ^ 22 }
    ensures few { length made.new.elements.items ≤ 2 ^ 22 }
    ensures passes { OnOk result ((delays : List ghost_delays.GateDelays) (udps : List ghost_udps.UdpUse) (all : List OwnNet) (source : Source) (s : def.Instance) → IsHere all source s scope table.now row.now → HasDriven all source s table.now driven.now
        → Adds delays udps all made.old made.new (def_elements.passes source s place (map (view_bit table.now) left.now) (map (view_bit table.now) right.now))) }
    ensures refused { IfErr result (λ r. (all : List OwnNet) (source : Source) (s : def.Instance) → IsHere all source s scope table.now row.now → HasDriven all source s table.now driven.now
        → RefusesCount (length made.old.elements.items + length (def_elements.passes source s place (map (view_bit table.now) left.now) (map (view_bit table.now) right.now))) r) }
{
    add_each(scope, place, left, right, row, driven, made)
}

/// Adds a Pass of a constant to each of these bits (IEEE 1364-2005, 4.6).
pub fn add_supply(
    table: &Table,
    scope: u32,
    place: Place,
    value: Value,
    bits: &[Bit],
    row: &[NetId],
    driven: &[NetId],
    made: &mut Placing,
) -> Result<(), Refused<ElabKind>>
    requires row { length row.now ≡ length (all_bits table.now) }
    requires driven { length driven.now ≡ length (all_bits table.now) }
    requires bits { All (IsInRow table.now) bits.now }
    requires few { length made.old.elements.items ≤ 2 ^ 22 }
    ensures few { length made.new.elements.items ≤ 2 ^ 22 }
    ensures passes { OnOk result ((delays : List ghost_delays.GateDelays) (udps : List ghost_udps.UdpUse) (all : List OwnNet) (source : Source) (s : def.Instance) → IsHere all source s scope table.now row.now → HasDriven all source s table.now driven.now
        → Adds delays udps all made.old made.new (flat_map (λ b. def_elements.pass_to source s place (b, constant place value)) (map (view_bit table.now) bits.now))) }
    ensures refused { IfErr result (λ r. (all : List OwnNet) (source : Source) (s : def.Instance) → IsHere all source s scope table.now row.now → HasDriven all source s table.now driven.now
        → RefusesCount (length made.old.elements.items + length (flat_map (λ b. def_elements.pass_to source s place (b, constant place value)) (map (view_bit table.now) bits.now))) r) }
{
    add_constants(scope, place, value, bits, row, driven, made)
}

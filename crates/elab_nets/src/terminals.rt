// The nets of constants at inputs of gates and primitives.
ghost use Rattle.std.specs.Prelude.{◌≡◌, ◌≤◌, ◌<◌, ◌+◌, ◌^◌, ◌++◌, ℕ, All, OnOk, IfErr, length, map, flat_map};
ghost use Rattle.elab_laws.specs.Handing.{all_bits};
ghost use Rattle.elab_bits.specs.Seen.{bit_at, view_bit, IsInRow};
ghost use Rattle.elab_model.specs.Hierarchy as def;
ghost use Rattle.elab_model.specs.Names.{variables};
ghost use Rattle.elab_model.specs.Nets.{terminal_nets};
ghost use Rattle.elab_numbering.specs.Refusals.{RefusesCount};
ghost use Rattle.elab_nets.specs.Own.{net_at};
ghost use Rattle.elab_nets.specs.Terminals.{first_output, at_constant};
ghost use Rattle.elab_model.specs.Numbered.{undriven};

use crate::bit_nets::push_bit_net;
use elab_bits::Bit;
use elab_model::ElabKind;
use elab_variables::Table;
use sg_circuit::Net;
use sg_text::Refused;
use std::alloc::Global;

// The place of the first output in the row.
fn first_output(outputs: &[Bit]) -> Option<usize>
    ensures { result ≡ first_output outputs.now }
{
    match *outputs.first()? {
        Bit::Net(place) => Some(place),
        Bit::Constant { .. } => None,
    }
}

// Adds a net for each constant, with the name of a bit of the row.
fn add_constants(
    alloc: Global,
    table: &Table,
    scope: u32,
    place: usize,
    bits: &[Bit],
    nets: &mut Vec<Net>,
) -> Result<(), Refused<ElabKind>>
    requires row { place < length (all_bits table.now) }
    requires few { length nets.old.items ≤ 2 ^ 22 }
    ensures few { length nets.new.items ≤ 2 ^ 22 }
    ensures nets { OnOk result (nets.new.items ≡ nets.old.items ++ flat_map (at_constant (net_at scope (bit_at table.now place))) bits.now) }
    ensures refused { IfErr result (RefusesCount (length nets.old.items + length (flat_map (at_constant (net_at scope (bit_at table.now place))) bits.now))) }
{
    for bit in bits {
        match *bit {
            Bit::Net(_) => {}
            Bit::Constant { .. } => push_bit_net(alloc, table, scope, place, nets)?,
        }
    }
    Ok(())
}

/// Adds a net for each constant among the inputs of a gate or a primitive. It has the name of the first output.
pub fn add_terminals(
    alloc: Global,
    table: &Table,
    scope: u32,
    outputs: &[Bit],
    inputs: &[Bit],
    nets: &mut Vec<Net>,
) -> Result<(), Refused<ElabKind>>
    requires row { All (IsInRow table.now) outputs.now }
    requires few { length nets.old.items ≤ 2 ^ 22 }
    ensures few { length nets.new.items ≤ 2 ^ 22 }
    ensures nets { OnOk result ((s : def.Instance) (k : ℕ) → table.now ≡ variables s.step.definition → s.step.number ≡ scope
        → nets.new.items ≡ nets.old.items ++ map undriven (terminal_nets s k (map (view_bit table.now) outputs.now) (map (view_bit table.now) inputs.now))) }
    ensures refused { IfErr result (λ r. (s : def.Instance) (k : ℕ) → table.now ≡ variables s.step.definition → s.step.number ≡ scope
        → RefusesCount (length nets.old.items + length (terminal_nets s k (map (view_bit table.now) outputs.now) (map (view_bit table.now) inputs.now))) r) }
{
    let Some(output) = first_output(outputs) else {
        return Ok(());
    };
    add_constants(alloc, table, scope, output, inputs, nets)
}

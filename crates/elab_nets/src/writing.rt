// New nets for bits of an instance, with their numbers written at the bits' places.
ghost use Rattle.std.specs.Prelude.{◌≡◌, ◌<◌, ◌≤◌, ◌+◌, ◌^◌, ◌++◌, All, OnOk, IfErr, length, map};
ghost use Rattle.elab_laws.specs.Handing.{all_bits};
ghost use Rattle.elab_bits.specs.Seen.{bit_at};
ghost use Rattle.elab_numbering.specs.Refusals.{RefusesCount};
ghost use Rattle.elab_nets.specs.Own.{net_at};
ghost use Rattle.elab_nets.specs.Written.{IsWritten};

use crate::bit_nets::push_bit_net;
use elab_model::ElabKind;
use elab_variables::Table;
use sg_circuit::{Net, NetId};
use sg_text::Refused;
use std::alloc::Global;

/// Adds a net for each of these bits of the row, and writes its number at the place of the bit.
pub fn add_bit_nets(
    alloc: Global,
    table: &Table,
    scope: u32,
    places: &[usize],
    row: &mut [Option<NetId>],
    nets: &mut Vec<Net>,
) -> Result<(), Refused<ElabKind>>
    requires within { All (λ i. i < length (all_bits table.now)) places.now }
    requires row { length row.old ≡ length (all_bits table.now) }
    requires few { length nets.old.items ≤ 2 ^ 22 }
    ensures few { length nets.new.items ≤ 2 ^ 22 }
    ensures row { OnOk result (IsWritten (length nets.old.items) places.now row.old row.new) }
    ensures nets { OnOk result (nets.new.items ≡ nets.old.items ++ map (λ i. net_at scope (bit_at table.now i)) places.now) }
    ensures refused { IfErr result (RefusesCount (length nets.old.items + length places.now)) }
{
    for place in places {
        row[*place] = Some(nets.len() as NetId);
        push_bit_net(alloc, table, scope, *place, nets)?;
    }
    Ok(())
}

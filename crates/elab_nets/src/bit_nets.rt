// New nets that have the names of bits of an instance.
ghost use Rattle.std.specs.Prelude.{◌≡◌, ◌<◌, ◌≤◌, ◌+◌, ◌^◌, ◌++◌, ◌∷◌, [], ℕ, OnOk, IfErr, length};
ghost use Rattle.elab_laws.specs.Handing.{all_bits};
ghost use Rattle.elab_bits.specs.Seen.{bit_at};
ghost use Rattle.elab_numbering.specs.Refusals.{RefusesCount};
ghost use Rattle.elab_nets.specs.Own.{net_at};

use crate::limit::push_net;
use elab_bits::index_at;
use elab_model::ElabKind;
use elab_variables::Table;
use sg_circuit::Net;
use sg_text::Refused;
use std::alloc::Global;

/// Adds a net that has the name of a bit of the row.
pub fn push_bit_net(
    alloc: Global,
    table: &Table,
    scope: u32,
    place: usize,
    nets: &mut Vec<Net>,
) -> Result<(), Refused<ElabKind>>
    requires row { place < length (all_bits table.now) }
    requires few { length nets.old.items ≤ 2 ^ 22 }
    ensures few { length nets.new.items ≤ 2 ^ 22 }
    ensures nets { OnOk result (nets.new.items ≡ nets.old.items ++ net_at scope (bit_at table.now place) ∷ []) }
    ensures refused { IfErr result (λ r. (more : ℕ) → RefusesCount (length nets.old.items + 1 + more) r) }
{
    let (variable, position) = table.bit(place);
    let bit = index_at(table.row(variable).range, position);
    push_net(alloc, scope, table.name(variable), bit, nets)
}

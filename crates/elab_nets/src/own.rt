// The nets of an instance's own.
ghost use Rattle.std.specs.Prelude.{◌≡◌, ◌≤◌, ◌<◌, ◌+◌, ◌^◌, ◌++◌, ◌∷◌, [], ℕ, OnOk, IfErr, length};
ghost use Rattle.elab_laws.specs.Handing.{all_bits, numbered, new_count};
ghost use Rattle.elab_bits.specs.Seen.{bit_at};
ghost use Rattle.elab_numbering.specs.Refusals.{RefusesCount};
ghost use Rattle.elab_nets.specs.Own.{given_in, given_row, new_nets};

use crate::bit_nets::push_bit_net;
use elab_model::ElabKind;
use elab_variables::Table;
use sg_circuit::{Net, NetId, Port};
use sg_text::Refused;
use std::alloc::Global;

// A bit is given the number of what lies outside, but where a Leg stands.
fn given(table: &Table, leaf: bool, place: usize, outside: Option<NetId>) -> Option<NetId>
    requires { place < length (all_bits table.now) }
    ensures { result ≡ given_in leaf (bit_at table.now place) outside }
{
    if !leaf {
        return outside;
    }
    let (variable, _) = table.bit(place);
    match table.row(variable).port {
        Port::Input => None,
        Port::Output | Port::Inner => outside,
    }
}

// Adds the number of the net of one bit: the one that it is given, or else that of a new net.
fn add_bit(
    alloc: Global,
    table: &Table,
    scope: u32,
    place: usize,
    given: Option<NetId>,
    inner: &mut Vec<NetId>,
    nets: &mut Vec<Net>,
) -> Result<(), Refused<ElabKind>>
    requires row { place < length (all_bits table.now) }
    requires few { length nets.old.items ≤ 2 ^ 22 }
    ensures few { length nets.new.items ≤ 2 ^ 22 }
    ensures inner { OnOk result (inner.new.items ≡ inner.old.items ++ numbered (length nets.old.items) (given ∷ [])) }
    ensures nets { OnOk result (nets.new.items ≡ nets.old.items ++ new_nets scope (bit_at table.now place ∷ []) (given ∷ [])) }
    ensures refused { IfErr result (λ r. (more : ℕ) → RefusesCount (length nets.old.items + new_count (given ∷ []) + more) r) }
{
    let Some(number) = given else {
        inner.push(nets.len() as NetId)?;
        return push_bit_net(alloc, table, scope, place, nets);
    };
    inner.push(number)?;
    Ok(())
}

/// Adds the number of each bit of an instance to `inner`: that of the net outside it, but for an input of a leaf, or else the number of a new net, which is added to `nets`.
pub fn add_own(
    alloc: Global,
    table: &Table,
    scope: u32,
    leaf: bool,
    outside: &[Option<NetId>],
    inner: &mut Vec<NetId>,
    nets: &mut Vec<Net>,
) -> Result<(), Refused<ElabKind>>
    requires row { length outside.now ≡ length (all_bits table.now) }
    requires few { length nets.old.items ≤ 2 ^ 22 }
    ensures few { length nets.new.items ≤ 2 ^ 22 }
    ensures inner { OnOk result (inner.new.items ≡ inner.old.items ++ numbered (length nets.old.items) (given_row leaf (all_bits table.now) outside.now)) }
    ensures nets { OnOk result (nets.new.items ≡ nets.old.items ++ new_nets scope (all_bits table.now) (given_row leaf (all_bits table.now) outside.now)) }
    ensures refused { IfErr result (RefusesCount (length nets.old.items + new_count (given_row leaf (all_bits table.now) outside.now))) }
{
    for (place, number) in outside.iter().enumerate() {
        let number = given(table, leaf, place, *number);
        add_bit(alloc, table, scope, place, number, inner, nets)?;
    }
    Ok(())
}

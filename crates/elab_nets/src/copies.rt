// The nets of delayed copies that no text names.
ghost use Rattle.std.specs.Prelude.{◌≡◌, ◌≤◌, ◌<◌, ◌+◌, ◌^◌, ◌++◌, ℕ, All, IsTrue, ◌↔◌, OnOk, IfErr, length, map, flat_map};
ghost use Rattle.vl_tree.specs.Tree.{Check, Source};
ghost use Rattle.elab_laws.specs.Handing.{all_bits};
ghost use Rattle.elab_model.specs.Hierarchy as def;
ghost use Rattle.elab_model.specs.Members.{check};
ghost use Rattle.elab_model.specs.Nets.{member_nets};
ghost use Rattle.elab_model.specs.Numbered.{undriven};
ghost use Rattle.elab_numbering.specs.Refusals.{RefusesCount};
ghost use Rattle.elab_nets.specs.Copies.{copy_nets};
ghost use Rattle.elab_nets.specs.Members.{HasMember};

use crate::bit_nets::push_bit_net;
use elab_model::ElabKind;
use elab_modules::{DelayedCopy, PlacedCopy, Prepared};
use elab_variables::Table;
use sg_circuit::Net;
use sg_text::Refused;
use std::alloc::Global;

// Whether all these are copies of bits of the row.
fn are_in_row(table: &Table, copies: &[PlacedCopy]) -> bool
    ensures { IsTrue result ↔ All (λ c. c.copy.signal < length (all_bits table.now)) copies.now }
{
    let count = table.bits();
    copies.iter().all(|placed| placed.copy.signal < count)
}

// Adds the net of a copy, with the name of the bit that it copies, unless it has one that the text names.
fn add_copy(
    alloc: Global,
    table: &Table,
    scope: u32,
    copy: DelayedCopy,
    nets: &mut Vec<Net>,
) -> Result<(), Refused<ElabKind>>
    requires row { copy.signal < length (all_bits table.now) }
    requires few { length nets.old.items ≤ 2 ^ 22 }
    ensures few { length nets.new.items ≤ 2 ^ 22 }
    ensures nets { OnOk result (nets.new.items ≡ nets.old.items ++ copy_nets scope table.now copy) }
    ensures refused { IfErr result (λ r. (more : ℕ) → RefusesCount (length nets.old.items + length (copy_nets scope table.now copy) + more) r) }
{
    match copy.named {
        Some(_) => Ok(()),
        None => push_bit_net(alloc, table, scope, copy.signal, nets),
    }
}

fn add_copies(
    alloc: Global,
    table: &Table,
    scope: u32,
    copies: &[PlacedCopy],
    nets: &mut Vec<Net>,
) -> Result<(), Refused<ElabKind>>
    requires row { All (λ c. c.copy.signal < length (all_bits table.now)) copies.now }
    requires few { length nets.old.items ≤ 2 ^ 22 }
    ensures few { length nets.new.items ≤ 2 ^ 22 }
    ensures nets { OnOk result (nets.new.items ≡ nets.old.items ++ flat_map (λ c. copy_nets scope table.now c.copy) copies.now) }
    ensures refused { IfErr result (RefusesCount (length nets.old.items + length (flat_map (λ c. copy_nets scope table.now c.copy) copies.now))) }
{
    for placed in copies {
        add_copy(alloc, table, scope, placed.copy, nets)?;
    }
    Ok(())
}

/// Adds the nets of the delayed copies that no text names and that a timing check, a member, is the first to ask for (IEEE 1364-2005, 15.8).
pub fn add_lates(
    alloc: Global,
    prepared: &Prepared,
    scope: u32,
    member: usize,
    nets: &mut Vec<Net>,
) -> Result<(), Refused<ElabKind>>
    requires few { length nets.old.items ≤ 2 ^ 22 }
    ensures few { length nets.new.items ≤ 2 ^ 22 }
    ensures nets { OnOk result ((source : Source) (s : def.Instance) (c : Check) → HasMember s prepared.now scope member (check c)
        → nets.new.items ≡ nets.old.items ++ map undriven (member_nets source s (member, check c))) }
    ensures refused { IfErr result (λ r. (source : Source) (s : def.Instance) (c : Check) → HasMember s prepared.now scope member (check c)
        → RefusesCount (length nets.old.items + length (member_nets source s (member, check c))) r) }
{
    let copies = prepared.copies.own(member);
    if !are_in_row(&prepared.table, copies) {
        return Ok(());
    }
    add_copies(alloc, &prepared.table, scope, copies, nets)
}

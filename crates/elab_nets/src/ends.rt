// What is driven inside in place of output bits to which specify paths lead.
ghost use Rattle.std.specs.Prelude.{◌≡◌, ◌≤◌, ◌<◌, ◌+◌, ◌^◌, ◌++◌, All, IfSome, IsTrue, ◌↔◌, OnOk, IfErr, Option, Some, length, map, option_map, slice_get};
ghost use Rattle.std.specs.List.{range_with_len};
ghost use Rattle.vl_tree.specs.Tree.{Module, Source, SpecifyPath};
ghost use Rattle.elab_bits.specs.Seen.{bit_at};
ghost use Rattle.elab_ends.specs.Ends.{AreEnds};
ghost use Rattle.elab_laws.specs.Handing.{all_bits};
ghost use Rattle.elab_model.specs.Ends as def_ends;
ghost use Rattle.elab_model.specs.Hierarchy as def;
ghost use Rattle.elab_model.specs.Members.{Member, path, members};
ghost use Rattle.elab_model.specs.Names.{variables};
ghost use Rattle.elab_model.specs.Nets.{member_nets};
ghost use Rattle.elab_model.specs.Numbered.{undriven};
ghost use Rattle.elab_numbering.specs.Refusals.{RefusesCount};
ghost use Rattle.elab_nets.specs.Ends.{AreFirstEnds};
ghost use Rattle.elab_nets.specs.Members.{HasMember};
ghost use Rattle.elab_nets.specs.Own.{net_at};

use crate::bit_nets::push_bit_net;
use elab_ends::PathEnds;
use elab_model::ElabKind;
use elab_modules::Prepared;
use elab_variables::Table;
use sg_circuit::{Net, NetId};
use sg_text::Refused;
use std::alloc::Global;

// Whether all these are places of the row of bits.
fn are_in_row(table: &Table, places: &[usize]) -> bool
    ensures { IsTrue result ↔ All (λ i. i < length (all_bits table.now)) places.now }
{
    let count = table.bits();
    places.iter().all(|place| *place < count)
}

// The bits to which a member is the first to lead, where all stand in the row of bits.
fn first_ends<'p>(table: &Table, ends: &'p PathEnds, member: usize) -> Option<&'p [usize]>
    ensures row { IfSome result (λ places. All (λ i. i < length (all_bits table.now)) places.now) }
    ensures ends { (m : Module) (i : Member) → table.now ≡ variables m → AreEnds m ends.now → slice_get (members m) member ≡ Some i → AreFirstEnds m (member, i) (option_map (λ p. p.now) result) }
{
    let first = *ends.starts.get(member)?;
    let end = *ends.starts.get(member + 1)?;
    let places = ends.bits.get(first..end)?;
    if !are_in_row(table, places) {
        return None;
    }
    Some(places)
}

// Adds a net for each of these bits of the row, and its number to `ends`.
fn add_inner_nets(
    alloc: Global,
    table: &Table,
    scope: u32,
    places: &[usize],
    ends: &mut Vec<NetId>,
    nets: &mut Vec<Net>,
) -> Result<(), Refused<ElabKind>>
    requires row { All (λ i. i < length (all_bits table.now)) places.now }
    requires few { length nets.old.items ≤ 2 ^ 22 }
    ensures few { length nets.new.items ≤ 2 ^ 22 }
    ensures ends { OnOk result (ends.new.items ≡ ends.old.items ++ range_with_len (length nets.old.items) (length places.now)) }
    ensures nets { OnOk result (nets.new.items ≡ nets.old.items ++ map (λ i. net_at scope (bit_at table.now i)) places.now) }
    ensures refused { IfErr result (RefusesCount (length nets.old.items + length places.now)) }
{
    for place in places {
        ends.push(nets.len() as NetId)?;
        push_bit_net(alloc, table, scope, *place, nets)?;
    }
    Ok(())
}

/// Adds the nets that are driven inside in place of the output bits to which a specify path, a member, is the first to lead, and their numbers to `ends`.
pub fn add_ends(
    alloc: Global,
    prepared: &Prepared,
    scope: u32,
    member: usize,
    ends: &mut Vec<NetId>,
    nets: &mut Vec<Net>,
) -> Result<(), Refused<ElabKind>>
    requires few { length nets.old.items ≤ 2 ^ 22 }
    ensures few { length nets.new.items ≤ 2 ^ 22 }
    ensures ends { OnOk result ((s : def.Instance) (p : SpecifyPath) → HasMember s prepared.now scope member (path p)
        → ends.new.items ≡ ends.old.items ++ range_with_len (length nets.old.items) (length (def_ends.first_ends s.step.definition (member, path p)))) }
    ensures nets { OnOk result ((source : Source) (s : def.Instance) (p : SpecifyPath) → HasMember s prepared.now scope member (path p)
        → nets.new.items ≡ nets.old.items ++ map undriven (member_nets source s (member, path p))) }
    ensures refused { IfErr result (λ r. (source : Source) (s : def.Instance) (p : SpecifyPath) → HasMember s prepared.now scope member (path p)
        → RefusesCount (length nets.old.items + length (member_nets source s (member, path p))) r) }
{
    let Some(places) = first_ends(&prepared.table, &prepared.ends, member) else {
        return Ok(());
    };
    add_inner_nets(alloc, &prepared.table, scope, places, ends, nets)
}

// The Lates of an instance.
ghost use Rattle.std.specs.Prelude.{◌≡◌, ◌≤◌, ◌<◌, ◌+◌, ◌^◌, ◌∷◌, [], List, OnOk, IfErr, flat_map, length, map, option_map, unwrap_or, zip};
ghost use Rattle.sg_circuit.specs.declared.elements.UdpUse as ghost_udps;
ghost use Rattle.sg_delay.specs.declared.gates.GateDelays as ghost_delays;
ghost use Rattle.vl_tree.specs.Tree.{Module, Source as GhostSource};
ghost use Rattle.elab_laws.specs.Handing.{all_bits};
ghost use Rattle.elab_nets.specs.SeenOfLates.{AreCopiesInRow, IsCopyInRow, IsPlaceIn};
ghost use Rattle.elab_model.specs.Elements as def_elements;
ghost use Rattle.elab_model.specs.Hierarchy as def;
ghost use Rattle.elab_model.specs.Lates.{own_copies};
ghost use Rattle.elab_model.specs.Members.{Member};
ghost use Rattle.elab_model.specs.Names.{Variable};
ghost use Rattle.elab_model.specs.Nets.{nets};
ghost use Rattle.elab_numbering.specs.Refusals.{RefusesCount};
ghost use Rattle.elab_elements.specs.Adding.{Adds};
ghost use Rattle.elab_elements.specs.Puts.{Puts, RefusesPuts};
ghost use Rattle.elab_elements.specs.Standing.{HasCopies};
ghost use Rattle.elab_elements.specs.Words.{copy_numbers, late_puts, named_in, next_free};

use crate::Placing;
use crate::placing::add_element;
use elab_model::ElabKind;
use elab_nets::{DelayedCopy, PlacedCopy, Prepared};
use sg_circuit::{ElementKind, NetId};
use sg_text::Refused;

// The net that a copy drives: what is driven inside at the bit that the text names, or else the next, which then is taken.
fn output_of(copy: DelayedCopy, driven: &[NetId], next: &mut NetId) -> NetId
    requires named { (vs : List Variable) × ((length driven.now ≡ length (all_bits vs)) × IsPlaceIn vs copy.named) }
    requires room { next.old ≤ 2 ^ 23 }
    ensures output { result ≡ unwrap_or (named_in driven.now copy) next.old }
    ensures next { next.new ≡ next_free next.old (named_in driven.now copy) }
{
    match copy.named {
        Some(bit) => driven[bit],
        None => {
            let free = *next;
            *next += 1;
            free
        }
    }
}

// Adds a Late for each copy, from its signal (IEEE 1364-2005, 15.8). The nets of copies that no text names have the numbers from `first` on.
fn add_lates(
    scope: u32,
    copies: &[PlacedCopy],
    first: NetId,
    row: &[NetId],
    driven: &[NetId],
    made: &mut Placing,
) -> Result<(), Refused<ElabKind>>
    requires row { (vs : List Variable) × ((length row.now ≡ length (all_bits vs)) × ((length driven.now ≡ length (all_bits vs)) × AreCopiesInRow vs copies.now)) }
    requires first { first ≤ 2 ^ 22 }
    requires few { length made.old.elements.items ≤ 2 ^ 22 }
    ensures few { length made.new.elements.items ≤ 2 ^ 22 }
    ensures puts { OnOk result (Puts made.old made.new (flat_map (late_puts scope row.now) (zip copies.now (copy_numbers first driven.now copies.now)))) }
    ensures refused { IfErr result (RefusesPuts made.old (flat_map (late_puts scope row.now) (zip copies.now (copy_numbers first driven.now copies.now)))) }
{
    let kind = ElementKind::Late { delay: 0 };
    let mut next = first;
    for placed in copies {
        let output = output_of(placed.copy, driven, &mut next);
        let input = row[placed.copy.signal];
        add_element(scope, placed.place, &[input], output, kind, made)?;
    }
    Ok(())
}

/// Adds the Lates of the timing check that is the member at a place of the module: one for each delayed copy that it is the first to ask for. The nets of copies that no text names have
/// the numbers from `first` on.
pub fn add_own_lates(
    prepared: &Prepared,
    number: u32,
    at: usize,
    first: NetId,
    row: &[NetId],
    driven: &[NetId],
    made: &mut Placing,
) -> Result<(), Refused<ElabKind>>
    requires at { (source : GhostSource) × ((top : Module) × ((s : def.Instance) × ((x : Member) × HasCopies source top number prepared.now row.now driven.now first at x s))) }
    requires first { first ≤ 2 ^ 22 }
    requires few { length made.old.elements.items ≤ 2 ^ 22 }
    ensures few { length made.new.elements.items ≤ 2 ^ 22 }
    ensures elements { OnOk result ((delays : List ghost_delays.GateDelays) (udps : List ghost_udps.UdpUse) (source : GhostSource) (top : Module) (s : def.Instance) (x : Member)
        → HasCopies source top number prepared.now row.now driven.now first at x s
        → Adds delays udps (nets source top) made.old made.new (map (def_elements.late_at source s) (own_copies s.step.definition (at, x)))) }
    ensures refused { IfErr result (λ r. (source : GhostSource) (top : Module) (s : def.Instance) (x : Member) → HasCopies source top number prepared.now row.now driven.now first at x s
        → RefusesCount (length made.old.elements.items + length (map (def_elements.late_at source s) (own_copies s.step.definition (at, x)))) r) }
{
    add_lates(number, prepared.copies.own(at), first, row, driven, made)
}

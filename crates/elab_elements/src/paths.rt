// The Paths of an instance.
ghost use Rattle.std.specs.Prelude.{◌≤◌, ◌<◌, ◌+◌, ◌^◌, List, All, OnOk, IfErr, flat_map, length, map, zip};
ghost use Rattle.sg_circuit.specs.declared.elements.UdpUse as ghost_udps;
ghost use Rattle.sg_delay.specs.declared.gates.GateDelays as ghost_delays;
ghost use Rattle.vl_tree.specs.Tree.{Module, Source as GhostSource};
ghost use Rattle.elab_model.specs.Elements as def_elements;
ghost use Rattle.elab_model.specs.Ends.{first_ends};
ghost use Rattle.elab_model.specs.Hierarchy as def;
ghost use Rattle.elab_model.specs.Members.{Member};
ghost use Rattle.elab_model.specs.Nets.{nets};
ghost use Rattle.elab_numbering.specs.Refusals.{RefusesCount};
ghost use Rattle.elab_elements.specs.Adding.{Adds};
ghost use Rattle.elab_elements.specs.Puts.{Puts, RefusesPuts};
ghost use Rattle.elab_elements.specs.Standing.{HasPaths};
ghost use Rattle.elab_elements.specs.Words.{path_puts};

use crate::Placing;
use crate::placing::add_element;
use crate::reading::{end_row, part_between};
use elab_model::ElabKind;
use elab_nets::{Prepared, Rows};
use sg_circuit::{ElementKind, NetId, Span};
use sg_delay::PulseStyle;
use sg_text::{Place, Refused};

// Adds a Path to each of these bits, from the inner net at its place (IEEE 1364-2005, 14.1).
fn add_paths(
    scope: u32,
    place: Place,
    bits: &[usize],
    ends: &[NetId],
    row: &[NetId],
    made: &mut Placing,
) -> Result<(), Refused<ElabKind>>
    requires row { All (λ i. i < length row.now) bits.now }
    requires few { length made.old.elements.items ≤ 2 ^ 22 }
    ensures few { length made.new.elements.items ≤ 2 ^ 22 }
    ensures puts { OnOk result (Puts made.old made.new (flat_map (path_puts scope place row.now) (zip bits.now ends.now))) }
    ensures refused { IfErr result (RefusesPuts made.old (flat_map (path_puts scope place row.now) (zip bits.now ends.now))) }
{
    let kind = ElementKind::Path {
        paths: Span { start: 0, end: 0 },
        style: PulseStyle::OnEvent,
    };
    for (bit, end) in bits.iter().zip(ends) {
        add_element(scope, place, &[*end], row[*bit], kind, made)?;
    }
    Ok(())
}

/// Adds the Paths of the specify path that is the member at a place of the module: one to each output bit that it is the first to lead to.
pub fn add_own_paths(
    rows: &Rows,
    prepared: &Prepared,
    number: u32,
    at: usize,
    place: Place,
    row: &[NetId],
    made: &mut Placing,
) -> Result<(), Refused<ElabKind>>
    requires at { (source : GhostSource) × ((top : Module) × ((s : def.Instance) × ((x : Member) × HasPaths source top rows.now number prepared.now row.now at x s))) }
    requires few { length made.old.elements.items ≤ 2 ^ 22 }
    ensures few { length made.new.elements.items ≤ 2 ^ 22 }
    ensures elements { OnOk result ((delays : List ghost_delays.GateDelays) (udps : List ghost_udps.UdpUse) (source : GhostSource) (top : Module) (s : def.Instance) (x : Member)
        → HasPaths source top rows.now number prepared.now row.now at x s
        → Adds delays udps (nets source top) made.old made.new (map (def_elements.path_at source s place) (first_ends s.step.definition (at, x)))) }
    ensures refused { IfErr result (λ r. (source : GhostSource) (top : Module) (s : def.Instance) (x : Member) → HasPaths source top rows.now number prepared.now row.now at x s
        → RefusesCount (length made.old.elements.items + length (map (def_elements.path_at source s place) (first_ends s.step.definition (at, x)))) r) }
{
    let start = prepared.ends.starts[at];
    let end = prepared.ends.starts[at + 1];
    let bits = part_between(&prepared.ends.bits, start, end);
    let all = end_row(rows, number as usize, prepared.ends.bits.len());
    let ends = part_between(all, start, end);
    add_paths(number, place, bits, ends, row, made)
}

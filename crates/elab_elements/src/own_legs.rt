// The Legs of an instance, where it is a leaf.
ghost use Rattle.std.specs.Prelude.{◌≡◌, ◌≤◌, ◌+◌, ◌^◌, OnOk, IfErr, length};
ghost use Rattle.sg_delay.specs.declared.corners.Corner as ghost_corner;
ghost use Rattle.vl_tree.specs.Tree.{Module, Source as GhostSource};
ghost use Rattle.elab_model.specs.Elements as def_elements;
ghost use Rattle.elab_model.specs.Hierarchy as def;
ghost use Rattle.elab_model.specs.Nets.{nets};
ghost use Rattle.elab_numbering.specs.Refusals.{RefusesCount};
ghost use Rattle.elab_elements.specs.Adding.{Adds};
ghost use Rattle.elab_hierarchy.specs.Placing.{IsPlaced};
ghost use Rattle.elab_nets.specs.ReadyOfModules.{IsPrepared};
ghost use Rattle.elab_elements.specs.Standing.{IsAt};
ghost use Rattle.elab_elements.specs.Words.{is_alone};

use crate::Placing;
use crate::legs::add_legs;
use crate::reading::{inner_row, outer_row, placed_at};
use elab_hierarchy::Placed;
use elab_model::ElabKind;
use elab_nets::{Library, Prepared, Rows, module_at};
use sg_text::{Place, Refused};

// Whether an instance isn't the top, and no instance is in it.
fn is_leaf(placed: Placed, number: u32) -> bool
    requires { number ≤ placed.end }
    ensures { result ≡ is_alone placed.entry.parent placed.entry.end number }
{
    placed.parent.is_some() && placed.end - number == 1
}

// Where an instance stands in the text; the top stands where its module's name does.
fn place_of(placed: Placed, prepared: &Prepared) -> Place
    ensures { (source : GhostSource) (s : def.Instance) → IsPlaced source placed.entry s → IsPrepared prepared.now s.step.definition → s.step.place ≡ result }
{
    match placed.text {
        Some(text) => text.place,
        None => prepared.definition.name.place,
    }
}

/// Adds the Legs of an instance, if it is a leaf.
pub fn add_own_legs(
    library: &Library,
    instances: &[Placed],
    rows: &Rows,
    number: u32,
    made: &mut Placing,
) -> Result<(), Refused<ElabKind>>
    requires at { (source : GhostSource) × ((top : Module) × ((corner : ghost_corner.Corner) × ((s : def.Instance) × IsAt source top corner instances.now library.now rows.now number s))) }
    requires few { length made.old.elements.items ≤ 2 ^ 22 }
    ensures few { length made.new.elements.items ≤ 2 ^ 22 }
    ensures legs { OnOk result ((source : GhostSource) (top : Module) (corner : ghost_corner.Corner) (s : def.Instance) → IsAt source top corner instances.now library.now rows.now number s
        → Adds library.now.gate_delays.items library.now.udps.items (nets source top) made.old made.new (def_elements.legs source s)) }
    ensures refused { IfErr result (λ r. (source : GhostSource) (top : Module) (corner : ghost_corner.Corner) (s : def.Instance) → IsAt source top corner instances.now library.now rows.now number s
        → RefusesCount (length made.old.elements.items + length (def_elements.legs source s)) r) }
{
    let placed = placed_at(instances, number);
    if !is_leaf(placed, number) {
        return Ok(());
    }
    let module = module_at(library, placed.definition);
    let place = place_of(placed, module);
    let width = module.table.bits();
    let inner = inner_row(rows, number as usize, width);
    let outer = outer_row(rows, number as usize, width);
    add_legs(
        &module.table,
        &module.ports,
        number,
        place,
        inner,
        outer,
        made,
    )
}

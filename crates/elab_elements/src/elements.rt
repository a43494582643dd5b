// The elements of all instances.
ghost use Rattle.std.specs.Prelude.{◌≤◌, ◌^◌, IfOk, IfErr, length};
ghost use Rattle.sg_delay.specs.declared.corners.Corner as ghost_corner;
ghost use Rattle.vl_tree.specs.Tree.{Module};
ghost use Rattle.elab_model.specs.Drivers as def_elements;
ghost use Rattle.elab_numbering.specs.Refusals.{RefusesCount};
ghost use Rattle.elab_elements.specs.Seen.{AreElements};
ghost use Rattle.elab_elements.specs.Standing.{AreRead};

use crate::Placing;
use crate::instances::add_instance;
use crate::terminals::Terminals;
use elab_hierarchy::{Definitions, Placed};
use elab_model::ElabKind;
use elab_nets::{Library, Rows};
use sg_text::Refused;
use std::alloc::Global;

/// The elements of the instances below a top, by instance, then in text order. All Legs have timing 0, and no Path has its paths yet. Refuses more than 2^22 (TooMany, at the first
/// byte of the first file). Takes memory in proportion to the elements.
pub fn elements_in(
    alloc: Global,
    definitions: &Definitions,
    library: &Library,
    instances: &[Placed],
    rows: &Rows,
) -> Result<Placing, Refused<ElabKind>>
    requires read { (top : Module) × ((corner : ghost_corner.Corner) × AreRead definitions.now top corner instances.now library.now rows.now) }
    requires few { length instances.now ≤ 2 ^ 22 }
    ensures elements { IfOk result (λ made. (top : Module) (corner : ghost_corner.Corner) → AreRead definitions.now top corner instances.now library.now rows.now
        → AreElements definitions.now top corner library.now.gate_delays.items library.now.udps.items made) }
    ensures refused { IfErr result (λ r. (top : Module) (corner : ghost_corner.Corner) → AreRead definitions.now top corner instances.now library.now rows.now
        → RefusesCount (length (def_elements.elements definitions.now top corner)) r) }
{
    let mut room = Terminals {
        left: Vec::new(alloc),
        right: Vec::new(alloc),
    };
    let mut driven = Vec::new(alloc);
    let mut made = Placing {
        elements: Vec::new(alloc),
        places: Vec::new(alloc),
    };
    for number in 0..instances.len() as u32 {
        add_instance(
            alloc,
            definitions,
            library,
            instances,
            rows,
            number,
            &mut driven,
            &mut room,
            &mut made,
        )?;
    }
    Ok(made)
}

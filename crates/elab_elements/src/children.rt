// An instance in another: the constants at its ports.
ghost use Rattle.std.specs.Prelude.{◌≡◌, ◌≤◌, ◌+◌, ◌^◌, ◌++◌, IfOk, OnOk, IfErr, length};
ghost use Rattle.sg_delay.specs.declared.corners.Corner as ghost_corner;
ghost use Rattle.vl_tree.specs.Tree.{Module, Source as GhostSource};
ghost use Rattle.elab_model.specs.Elements as def_elements;
ghost use Rattle.elab_model.specs.Hierarchy as def;
ghost use Rattle.elab_model.specs.Nets.{nets};
ghost use Rattle.elab_numbering.specs.Refusals.{RefusesCount};
ghost use Rattle.elab_elements.specs.Adding.{Adds};
ghost use Rattle.elab_elements.specs.Standing.{IsAt, IsInside};

use crate::Placing;
use crate::ports::add_port_constants;
use crate::reading::{inner_row, outer_row, placed_at};
use elab_hierarchy::Placed;
use elab_model::ElabKind;
use elab_nets::{Library, Rows, module_at};
use elab_ports::port_constants;
use elab_variables::Table;
use sg_text::Refused;
use std::alloc::Global;
use vl_tree::Instance;

/// Adds the Passes of the constants at the ports of an instance, whose number is `next`; answers the number that comes after those of all instances in it. `scope` and `table` are
/// the number of its parent and the table of its parent's module.
pub fn add_child(
    alloc: Global,
    library: &Library,
    instances: &[Placed],
    rows: &Rows,
    scope: u32,
    table: &Table,
    text: &Instance,
    next: u32,
    made: &mut Placing,
) -> Result<u32, Refused<ElabKind>>
    requires at { (source : GhostSource) × ((top : Module) × ((corner : ghost_corner.Corner) × ((c : def.Instance) × IsAt source top corner instances.now library.now rows.now next c))) }
    requires few { length made.old.elements.items ≤ 2 ^ 22 }
    ensures few { length made.new.elements.items ≤ 2 ^ 22 }
    ensures next { IfOk result (λ n. (source : GhostSource) (top : Module) (corner : ghost_corner.Corner) (c : def.Instance) → IsAt source top corner instances.now library.now rows.now next c
        → n ≡ next + def.size source c.step.levels c.step.definition) }
    ensures elements { OnOk result ((source : GhostSource) (top : Module) (corner : ghost_corner.Corner) (s c : def.Instance) → IsAt source top corner instances.now library.now rows.now next c
        → IsInside s c scope table.now text.now → Adds library.now.gate_delays.items library.now.udps.items (nets source top) made.old made.new (def_elements.child_elements source s c)) }
    ensures refused { IfErr result (λ r. (source : GhostSource) (top : Module) (corner : ghost_corner.Corner) (s c : def.Instance) → IsAt source top corner instances.now library.now rows.now next c
        → IsInside s c scope table.now text.now → RefusesCount (length made.old.elements.items + length (def_elements.child_elements source s c)) r) }
{
    let placed = placed_at(instances, next);
    let child = module_at(library, placed.definition);
    let constants = port_constants(alloc, table, text, &child.ports, &child.table)?;
    let width = child.table.bits();
    let inner = inner_row(rows, next as usize, width);
    let outer = outer_row(rows, next as usize, width);
    let leaf = placed.end - next == 1;
    add_port_constants(scope, &child.table, leaf, inner, outer, &constants, made)?;
    Ok(placed.end)
}

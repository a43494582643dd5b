// The drivers of the nets.
ghost use Rattle.std.specs.Prelude.{◌≡◌, IfOk, IfErr, length};
ghost use Rattle.vl_tree.specs.Tree.{Module};
ghost use Rattle.elab_model.specs.Faults.{RefusesOneOf};
ghost use Rattle.circuit_model.specs.Faults.{driver_faults};
ghost use Rattle.sg_delay.specs.declared.corners.Corner as ghost_corner;
ghost use Rattle.vl_elab.specs.Made.{AreMade, AreDrivers, driven_by};

use elab_checks::{Library, Placing, Rows};
use elab_drivers::drivers;
use elab_hierarchy::{Definitions, Placed};
use elab_model::ElabKind;
use elab_scopes::{input_nets, reg_nets};
use sg_circuit::{Driver, Net};
use sg_text::Refused;
use std::alloc::Global;

/// The driver of each net. Refuses a net's second driver (SecondDriver) and a reg that is driven otherwise than by timing checks (BadTerminal).
pub fn drivers_in(
    alloc: Global,
    definitions: &Definitions,
    library: &Library,
    instances: &[Placed],
    rows: &Rows,
    made: &Placing,
) -> Result<Vec<Driver>, Refused<ElabKind>>
    requires made { (top : Module) × ((corner : ghost_corner.Corner) × AreMade definitions.now top corner instances.now library.now rows.now made.now) }
    ensures drivers { IfOk result (λ ds. (top : Module) (corner : ghost_corner.Corner) → AreMade definitions.now top corner instances.now library.now rows.now made.now → AreDrivers definitions.now top corner ds.items) }
    ensures refused { IfErr result (λ r. (top : Module) (corner : ghost_corner.Corner) → AreMade definitions.now top corner instances.now library.now rows.now made.now → RefusesOneOf (driver_faults definitions.now top corner) r) }
{
    let inputs = input_nets(alloc, definitions, library, instances, rows)?;
    let regs = reg_nets(alloc, definitions, library, instances, rows)?;
    drivers(
        alloc,
        rows.nets.len() as u32,
        &inputs.nets,
        &inputs.places,
        &made.elements,
        &made.places,
        &regs,
    )
}

/// Gives each net its driver.
pub fn drive(drivers: &[Driver], nets: &mut Vec<Net>)
    requires { length drivers.now ≡ length nets.old.items }
    ensures { nets.new.items ≡ driven_by nets.old.items drivers.now }
{
    for place in 0..drivers.len() {
        nets[place].driver = drivers[place];
    }
}

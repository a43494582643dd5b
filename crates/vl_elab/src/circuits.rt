// The circuit of a netlist.
ghost use Rattle.std.specs.Prelude.{◌≡◌, IfOk, IfErr, option_map};
ghost use Rattle.sg_delay.specs.declared.corners.Corner as ghost_corner;
ghost use Rattle.vl_tree.specs.Seen.{view_source};
ghost use Rattle.vl_tree.specs.Tree.{Module, Source as GhostSource};
ghost use Rattle.circuit_model.specs.Circuits as def;
ghost use Rattle.circuit_model.specs.Elaboration.{Elaborates};
ghost use Rattle.elab_hierarchy.specs.Tops.{StandsAt};
ghost use Rattle.vl_elab.specs.Below.{IsBelow, RefusesBelow};
ghost use Rattle.vl_elab.specs.Made.{AreBelow, IsWhole};

use crate::adjusting::adjusted;
use crate::checks::checks_below;
use crate::driving::{drive, drivers_in};
use crate::elements::{ElementTables, elements_below};
use elab_checks::{CheckTables, Library, Rows, library_of, rows_of};
use elab_hierarchy::{Definitions, Placed, place_instances, tick, top};
use elab_model::ElabKind;
use elab_scopes::scopes_of;
use sg_circuit::{Circuit, Driver, Parts, Scope};
use sg_delay::Corner;
use sg_text::Refused;
use sg_time::Unit;
use std::alloc::Global;
use vl_tree::Source;

/// The circuit of a netlist below a top: the module of that name, or else the only one that is no cell and of which no module has an instance (IEEE 1364-2005, clauses 6 to 8,
/// 12, 14 and 15). Delays are those of a corner, and of signals that timing checks see delayed the least by which limits below 0 are met (15.8). Refuses a netlist with a fault that `ElabKind` names, at the node that has it; of several faults any one is answered. Takes memory in
/// proportion to the netlist and to its circuit.
pub fn elaborate(
    alloc: Global,
    source: &Source,
    name: Option<&[u8]>,
    corner: Corner,
) -> Result<Circuit, Refused<ElabKind>>
    ensures { Elaborates (view_source source.now) (option_map (λ n. n.now) name.entry) corner result }
{
    let definitions = Definitions::of(alloc, source)?;
    let top = top(alloc, &definitions, name)?;
    circuit_below(alloc, &definitions, top, corner)
}

// The circuit below the module at a place.
fn circuit_below(
    alloc: Global,
    definitions: &Definitions,
    top: usize,
    corner: Corner,
) -> Result<Circuit, Refused<ElabKind>>
    requires top { (m : Module) × StandsAt definitions.now top m }
    ensures circuit { IfOk result (λ made. (m : Module) → StandsAt definitions.now top m → IsBelow definitions.now m corner made) }
    ensures refused { IfErr result (λ r. (m : Module) → StandsAt definitions.now top m → RefusesBelow definitions.now m corner r) }
{
    let instances = place_instances(alloc, definitions, top)?;
    let tick = tick(definitions, top, &instances);
    circuit_of(alloc, corner, tick, definitions, &instances)
}

// The circuit of the instances below a top.
fn circuit_of<'t, 'a>(
    alloc: Global,
    corner: Corner,
    tick: Unit,
    definitions: &Definitions<'t, 'a>,
    instances: &[Placed<'t, 'a>],
) -> Result<Circuit, Refused<ElabKind>>
    requires below { (m : Module) × AreBelow definitions.now m tick instances.now }
    ensures circuit { IfOk result (λ made. (m : Module) → AreBelow definitions.now m tick instances.now → IsBelow definitions.now m corner made) }
    ensures refused { IfErr result (λ r. (m : Module) → AreBelow definitions.now m tick instances.now → RefusesBelow definitions.now m corner r) }
{
    let library = library_of(alloc, corner, tick, definitions, instances)?;
    let rows = rows_of(alloc, definitions, &library, instances)?;
    let mut made = elements_below(alloc, corner, tick, definitions, &library, instances, &rows)?;
    let checks = checks_below(
        alloc,
        corner,
        tick,
        definitions,
        &library,
        instances,
        &rows,
        &made.lates,
        &mut made.conditions,
    )?;
    let drivers = drivers_in(
        alloc,
        definitions,
        &library,
        instances,
        &rows,
        &made.placing,
    )?;
    let scopes = scopes_of(alloc, definitions, &library, instances, &rows)?;
    let circuit = close(alloc, tick, library, rows, made, &drivers, checks, scopes);
    Ok(adjusted(alloc, circuit)?)
}

// The circuit of what has been made, before signals have their delays: so far no limit is taken as 0.
fn close(
    alloc: Global,
    tick: Unit,
    library: Library,
    rows: Rows,
    made: ElementTables,
    drivers: &[Driver],
    checks: CheckTables,
    scopes: Vec<Scope>,
) -> Circuit
    requires { (source : GhostSource) × ((m : Module) × ((corner : ghost_corner.Corner) × IsWhole source m corner tick library rows made drivers.now checks scopes.items)) }
    ensures { (source : GhostSource) (m : Module) (corner : ghost_corner.Corner) → IsWhole source m corner tick library.entry rows made drivers.now checks scopes.items → result ≡ def.circuit source m corner }
{
    let mut nets = rows.nets;
    drive(drivers, &mut nets);
    let placing = made.placing;
    let zeroed = Vec::new(alloc);
    Circuit::close(Parts {
        tick,
        nets,
        elements: placing.elements,
        gate_delays: library.gate_delays,
        leg_timings: made.timings,
        paths: made.paths,
        conditions: made.conditions,
        udps: library.udps,
        checks: checks.checks,
        check_timings: checks.timings,
        check_conditions: checks.conditions,
        scopes,
        zeroed,
    })
}

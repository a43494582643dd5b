// The timing checks of all modules that a top reaches.
ghost use Rattle.std.specs.Prelude.{◌≡◌, ◌<◌, ◌≤ℤ◌, ℕ, All, [], None, IfOk, OnOk, IfErr, length, map, replicate};
ghost use Rattle.vl_tree.specs.Tree.{Module as GhostModule};
ghost use Rattle.elab_model.specs.Delays.{tick_of};
ghost use Rattle.elab_model.specs.Faults.{RefusesOneOf};
ghost use Rattle.elab_model.specs.Hierarchy as def;
ghost use Rattle.elab_model.specs.HierarchyFaults.{two_definitions};
ghost use Rattle.elab_model.specs.Names.{variables};
ghost use Rattle.specify_model.specs.CheckFaults.{timing_check_faults};
ghost use Rattle.circuit_model.specs.Faults.{check_faults};
ghost use Rattle.elab_hierarchy.specs.Placing.{ArePlaced};
ghost use Rattle.elab_hierarchy.specs.Tops.{StandsAt};
ghost use Rattle.elab_paths.specs.ReadyOfModules.{IsPrepared};
ghost use Rattle.elab_paths.specs.Reached.{IsLibrary};
ghost use Rattle.elab_paths.specs.Telling.{Tells};
ghost use Rattle.specify_checks.specs.Copies.{HasNames};
ghost use Rattle.elab_paths.specs.OfModules.{StandsReady};
ghost use Rattle.elab_paths.specs.Shelving.{AreRead, ListGrows};
ghost use Rattle.elab_checks.specs.Ready.{HaveChecks};
ghost use Rattle.elab_checks.specs.OfModules.{AreChecksOf, AreReadySoFar, HasReady, IsOfPlace};

use crate::shelving::{ReadyCheck, shelve};
use cond_expr::Expr;
use elab_hierarchy::{Definitions, Placed};
use elab_model::ElabKind;
use elab_paths::{Library, Prepared, Ready};
use sg_delay::Corner;
use sg_text::{NoMemory, Refused};
use sg_time::Unit;
use specify_checks::{Measure, module_checks};
use std::alloc::Global;

/// The timing checks of the modules that a top reaches, once a module: by the place of the definition, those of the module there, where an instance is one of it.
#[derive(Drop)]
pub struct ReadyChecks {
    pub checks: Vec<Option<Vec<ReadyCheck>>>,
}

fn checks_of(
    alloc: Global,
    corner: Corner,
    tick: Unit,
    prepared: &Prepared,
    conditions: &mut Vec<Expr>,
) -> Result<Vec<ReadyCheck>, Refused<ElabKind>>
    requires is { (m : GhostModule) × IsPrepared prepared.now m × HasNames m (variables m) }
    requires fits { tick.power ≤ℤ prepared.now.definition.now.mark.scale.precision.power }
    ensures longer { OnOk result (ListGrows conditions.old.items conditions.new.items) }
    ensures read { OnOk result (AreRead conditions.old.items → AreRead conditions.new.items) }
    ensures checks { IfOk result (λ list. (m : GhostModule) → IsPrepared prepared.now m → AreChecksOf corner tick.power m conditions.new.items list.items) }
    ensures told { (m : GhostModule) → IsPrepared prepared.now m → Tells (timing_check_faults corner tick.power m) result }
{
    let by = Measure {
        corner,
        tick,
        scale: prepared.definition.mark.scale,
    };
    let checks = module_checks(
        alloc,
        by,
        &prepared.table,
        &prepared.copies,
        prepared.definition,
    )?;
    Ok(shelve(alloc, checks, conditions)?)
}

// The module at a place of the definitions, unless it was looked at before.
fn add_module(
    alloc: Global,
    corner: Corner,
    tick: Unit,
    definitions: &Definitions,
    library: &Library,
    place: usize,
    checks: &mut [Option<Vec<ReadyCheck>>],
    conditions: &mut Vec<Expr>,
) -> Result<(), Refused<ElabKind>>
    requires within { place < length definitions.now }
    requires stands { StandsReady definitions.now tick.power library.now.parts.items place }
    requires named { (m : GhostModule) → StandsAt definitions.now place m → HasNames m (variables m) }
    requires ready { AreReadySoFar definitions.now corner tick.power checks.old conditions.old.items }
    ensures ready { OnOk result (AreReadySoFar definitions.now corner tick.power checks.new conditions.new.items) }
    ensures there { OnOk result (HasReady checks.new place) }
    ensures stays { OnOk result ((i : ℕ) → HasReady checks.old i → HasReady checks.new i) }
    ensures longer { OnOk result (ListGrows conditions.old.items conditions.new.items) }
    ensures read { OnOk result (AreRead conditions.old.items → AreRead conditions.new.items) }
    ensures refused { IfErr result (λ r. (m : GhostModule) → StandsAt definitions.now place m → RefusesOneOf (timing_check_faults corner tick.power m) r) }
{
    if checks[place].is_some() {
        return Ok(());
    }
    let prepared = match &library.parts[place] {
        Some(Ready::Module(prepared)) => prepared,
        Some(Ready::Primitive(_)) => return Ok(()),
        None => return Ok(()),
    };
    checks[place] = Some(checks_of(alloc, corner, tick, prepared, conditions)?);
    Ok(())
}

fn add_modules(
    alloc: Global,
    corner: Corner,
    tick: Unit,
    definitions: &Definitions,
    library: &Library,
    instances: &[Placed],
    checks: &mut [Option<Vec<ReadyCheck>>],
    conditions: &mut Vec<Expr>,
) -> Result<(), Refused<ElabKind>>
    requires within { All (λ p. p.definition < length definitions.now) instances.now }
    requires stand { All (λ p. StandsReady definitions.now tick.power library.now.parts.items p.definition) instances.now }
    requires named { All (λ p. (m : GhostModule) → StandsAt definitions.now p.definition m → HasNames m (variables m)) instances.now }
    requires ready { AreReadySoFar definitions.now corner tick.power checks.old conditions.old.items }
    ensures ready { OnOk result (AreReadySoFar definitions.now corner tick.power checks.new conditions.new.items) }
    ensures there { OnOk result (All (λ p. HasReady checks.new p.definition) instances.now) }
    ensures longer { OnOk result (ListGrows conditions.old.items conditions.new.items) }
    ensures read { OnOk result (AreRead conditions.old.items → AreRead conditions.new.items) }
    ensures refused { IfErr result (IsOfPlace definitions.now corner tick.power (map (λ p. p.definition) instances.now)) }
{
    for placed in instances {
        add_module(
            alloc,
            corner,
            tick,
            definitions,
            library,
            placed.definition,
            checks,
            conditions,
        )?;
    }
    Ok(())
}

// At the place of each definition nothing stands ready yet.
fn no_checks(
    alloc: Global,
    definitions: &Definitions,
) -> Result<Vec<Option<Vec<ReadyCheck>>>, NoMemory>
    ensures nothing { IfOk result (λ checks. checks.items ≡ replicate (length definitions.now) None) }
    ensures once { OnOk result (two_definitions definitions.now ≡ []) }
{
    let mut checks = Vec::new(alloc);
    for _ in 0..definitions.len() {
        checks.push(None)?;
    }
    Ok(checks)
}

/// The timing checks of the modules of these instances, which stand ready, in ticks of a corner (IEEE 1364-2005, clause 15). Their conditions come behind those of the table. Refuses what
/// `module_checks` does. Takes memory in proportion to the blocks.
pub fn ready_checks(
    alloc: Global,
    corner: Corner,
    tick: Unit,
    definitions: &Definitions,
    library: &Library,
    instances: &[Placed],
    conditions: &mut Vec<Expr>,
) -> Result<ReadyChecks, Refused<ElabKind>>
    requires read { (top : GhostModule) × ArePlaced definitions.now instances.now (def.instances definitions.now top) × (tick.power ≡ tick_of definitions.now top)
        × IsLibrary definitions.now corner top library.now }
    requires spelled { AreRead conditions.old.items }
    ensures kept { OnOk result (ListGrows conditions.old.items conditions.new.items) }
    ensures checks { IfOk result (λ made. (top : GhostModule) → ArePlaced definitions.now instances.now (def.instances definitions.now top) → tick.power ≡ tick_of definitions.now top
        → IsLibrary definitions.now corner top library.now → HaveChecks definitions.now top corner conditions.new.items made) }
    ensures refused { IfErr result (λ r. (top : GhostModule) → ArePlaced definitions.now instances.now (def.instances definitions.now top) → tick.power ≡ tick_of definitions.now top
        → IsLibrary definitions.now corner top library.now → RefusesOneOf (check_faults definitions.now top corner) r) }
{
    let mut checks = no_checks(alloc, definitions)?;
    add_modules(
        alloc,
        corner,
        tick,
        definitions,
        library,
        instances,
        &mut checks,
        conditions,
    )?;
    Ok(ReadyChecks { checks })
}

// The paths of all modules that a top reaches.
ghost use Rattle.std.specs.Prelude.{◌≡◌, ◌<◌, ◌≤ℤ◌, ℕ, All, [], None, IfOk, OnOk, IfErr, length, map, filter_map, replicate};
ghost use Rattle.std.specs.List.{list_any};
ghost use Rattle.vl_tree.specs.Seen.{view_item};
ghost use Rattle.vl_tree.specs.Tree.{Module as GhostModule};
ghost use Rattle.elab_model.specs.declared.kinds.ElabKind.TheVariants as elab_kind;
ghost use Rattle.elab_model.specs.Delays.{tick_of};
ghost use Rattle.elab_model.specs.Faults.{RefusesOneOf, fault};
ghost use Rattle.elab_model.specs.Hierarchy as def;
ghost use Rattle.elab_model.specs.HierarchyFaults.{two_definitions};
ghost use Rattle.specify_model.specs.Blocks.{block_of};
ghost use Rattle.specify_model.specs.Faults.{blocks_in_hierarchy};
ghost use Rattle.elab_declared.specs.Words.{first_of};
ghost use Rattle.elab_variables.specs.Seen.{view_member};
ghost use Rattle.elab_hierarchy.specs.Placing.{ArePlaced};
ghost use Rattle.elab_hierarchy.specs.Tops.{StandsAt};
ghost use Rattle.elab_elements.specs.ReadyOfModules.{IsPrepared};
ghost use Rattle.elab_elements.specs.Reached.{IsLibrary};
ghost use Rattle.elab_elements.specs.Telling.{Tells};
ghost use Rattle.circuit_model.specs.Faults.{module_path_faults, path_faults};
ghost use Rattle.elab_paths.specs.Ready.{HavePaths};
ghost use Rattle.elab_paths.specs.Shelving.{IsLonger, AreRead};
ghost use Rattle.elab_paths.specs.OfModules.{is_child, StandsReady, AreOutputsOf, AreReadySoFar, HasOutputs, IsOfPlace};

use crate::shelving::{ReadyOutput, Shelves, shelve};
use cond_expr::Expr;
use elab_elements::{Library, Prepared, Ready};
use elab_hierarchy::{Definitions, Placed};
use elab_model::ElabKind;
use elab_variables::Member;
use sg_circuit::LegTiming;
use sg_delay::Corner;
use sg_text::{NoMemory, Place, Refused};
use sg_time::Unit;
use specify_paths::{Measure, path_outputs};
use std::alloc::Global;
use vl_tree::Item;

/// The paths of the modules that a top reaches, once a module.
#[derive(Drop)]
pub struct ModulePaths {
    /// By the place of the definition, the output bits of the module there, where an instance is one of it.
    pub outputs: Vec<Option<Vec<ReadyOutput>>>,
    pub timings: Vec<LegTiming>,
    pub conditions: Vec<Expr>,
}

// The place of the first specify block among items.
fn first_block(items: &[Item]) -> Option<Place>
    ensures { result ≡ first_of (map (λ b. b.place) (filter_map block_of (map view_item items.now))) }
{
    let mut rest = items;
    while let [item, tail @ ..] = rest {
        if let Item::Specify(block) = item {
            return Some(block.place);
        }
        rest = tail;
    }
    None
}

fn names_module(definitions: &Definitions, member: &Member) -> bool
    ensures { result ≡ is_child definitions.now (view_member member.now) }
{
    match member {
        Member::Instance { definition, .. } => definitions.module(definition.text).is_some(),
        Member::Declared { .. } => false,
        Member::Assignment(_) => false,
        Member::Supply { .. } => false,
        Member::Gate { .. } => false,
        Member::Path(_) => false,
        Member::Check(_) => false,
    }
}

fn has_child(definitions: &Definitions, members: &[Member]) -> bool
    ensures { result ≡ list_any (λ x. is_child definitions.now (view_member x)) members.now }
{
    members
        .iter()
        .any(|member| names_module(definitions, member))
}

// Refuses a specify block in a module that has an instance of a module.
fn check_block(definitions: &Definitions, prepared: &Prepared) -> Result<(), Refused<ElabKind>>
    ensures { (m : GhostModule) → IsPrepared prepared.now m → Tells (map (fault elab_kind.SpecifyInHierarchy) (blocks_in_hierarchy definitions.now m)) result }
{
    let Some(place) = first_block(&prepared.definition.items) else {
        return Ok(());
    };
    if !has_child(definitions, &prepared.members) {
        return Ok(());
    }
    Err(Refused::Fault {
        kind: ElabKind::SpecifyInHierarchy,
        place,
    })
}

fn outputs_of(
    alloc: Global,
    corner: Corner,
    tick: Unit,
    definitions: &Definitions,
    prepared: &Prepared,
    shelves: &mut Shelves,
) -> Result<Vec<ReadyOutput>, Refused<ElabKind>>
    requires is { (m : GhostModule) × IsPrepared prepared.now m }
    requires fits { tick.power ≤ℤ prepared.now.definition.now.mark.scale.precision.power }
    ensures longer { OnOk result (IsLonger shelves.old shelves.new) }
    ensures read { OnOk result (AreRead shelves.old.conditions.items → AreRead shelves.new.conditions.items) }
    ensures outputs { IfOk result (λ list. (m : GhostModule) → IsPrepared prepared.now m → AreOutputsOf corner tick.power m shelves.new list.items) }
    ensures told { (m : GhostModule) → IsPrepared prepared.now m → Tells (module_path_faults definitions.now corner tick.power m) result }
{
    check_block(definitions, prepared)?;
    let by = Measure {
        corner,
        tick,
        scale: prepared.definition.mark.scale,
    };
    let paths = path_outputs(alloc, by, &prepared.table, prepared.definition)?;
    Ok(shelve(alloc, paths, shelves)?)
}

// The module at a place of the definitions, unless it was looked at before.
fn add_module(
    alloc: Global,
    corner: Corner,
    tick: Unit,
    definitions: &Definitions,
    library: &Library,
    place: usize,
    outputs: &mut [Option<Vec<ReadyOutput>>],
    shelves: &mut Shelves,
) -> Result<(), Refused<ElabKind>>
    requires within { place < length definitions.now }
    requires stands { StandsReady definitions.now tick.power library.now.parts.items place }
    requires ready { AreReadySoFar definitions.now corner tick.power outputs.old shelves.old }
    ensures ready { OnOk result (AreReadySoFar definitions.now corner tick.power outputs.new shelves.new) }
    ensures there { OnOk result (HasOutputs outputs.new place) }
    ensures stays { OnOk result ((i : ℕ) → HasOutputs outputs.old i → HasOutputs outputs.new i) }
    ensures longer { OnOk result (IsLonger shelves.old shelves.new) }
    ensures read { OnOk result (AreRead shelves.old.conditions.items → AreRead shelves.new.conditions.items) }
    ensures refused { IfErr result (λ r. (m : GhostModule) → StandsAt definitions.now place m → RefusesOneOf (module_path_faults definitions.now corner tick.power m) r) }
{
    if outputs[place].is_some() {
        return Ok(());
    }
    let prepared = match &library.parts[place] {
        Some(Ready::Module(prepared)) => prepared,
        Some(Ready::Primitive(_)) => return Ok(()),
        None => return Ok(()),
    };
    outputs[place] = Some(outputs_of(alloc, corner, tick, definitions, prepared, shelves)?);
    Ok(())
}

fn add_modules(
    alloc: Global,
    corner: Corner,
    tick: Unit,
    definitions: &Definitions,
    library: &Library,
    instances: &[Placed],
    outputs: &mut [Option<Vec<ReadyOutput>>],
    shelves: &mut Shelves,
) -> Result<(), Refused<ElabKind>>
    requires within { All (λ p. p.definition < length definitions.now) instances.now }
    requires stand { All (λ p. StandsReady definitions.now tick.power library.now.parts.items p.definition) instances.now }
    requires ready { AreReadySoFar definitions.now corner tick.power outputs.old shelves.old }
    ensures ready { OnOk result (AreReadySoFar definitions.now corner tick.power outputs.new shelves.new) }
    ensures there { OnOk result (All (λ p. HasOutputs outputs.new p.definition) instances.now) }
    ensures longer { OnOk result (IsLonger shelves.old shelves.new) }
    ensures read { OnOk result (AreRead shelves.old.conditions.items → AreRead shelves.new.conditions.items) }
    ensures refused { IfErr result (IsOfPlace definitions.now corner tick.power (map (λ p. p.definition) instances.now)) }
{
    for placed in instances {
        add_module(
            alloc,
            corner,
            tick,
            definitions,
            library,
            placed.definition,
            outputs,
            shelves,
        )?;
    }
    Ok(())
}

// At the place of each definition nothing stands ready yet.
fn no_outputs(
    alloc: Global,
    definitions: &Definitions,
) -> Result<Vec<Option<Vec<ReadyOutput>>>, NoMemory>
    ensures nothing { IfOk result (λ outputs. outputs.items ≡ replicate (length definitions.now) None) }
    ensures once { OnOk result (two_definitions definitions.now ≡ []) }
{
    let mut outputs = Vec::new(alloc);
    for _ in 0..definitions.len() {
        outputs.push(None)?;
    }
    Ok(outputs)
}

/// The paths of the modules of these instances, which stand ready, in ticks of a corner (IEEE 1364-2005, clause 14). Refuses a specify block beside an instance of a module
/// (SpecifyInHierarchy, at the block), and what `path_outputs` does. Timing 0 is that of all Legs. Takes memory in proportion to the blocks and to the pairs of bits of their paths.
pub fn module_paths(
    alloc: Global,
    corner: Corner,
    tick: Unit,
    definitions: &Definitions,
    library: &Library,
    instances: &[Placed],
    legs: LegTiming,
) -> Result<ModulePaths, Refused<ElabKind>>
    requires read { (top : GhostModule) × ArePlaced definitions.now instances.now (def.instances definitions.now top) × (tick.power ≡ tick_of definitions.now top)
        × IsLibrary definitions.now corner top library.now }
    ensures paths { IfOk result (λ made. (top : GhostModule) → ArePlaced definitions.now instances.now (def.instances definitions.now top) → tick.power ≡ tick_of definitions.now top
        → IsLibrary definitions.now corner top library.now → HavePaths definitions.now top corner legs made) }
    ensures refused { IfErr result (λ r. (top : GhostModule) → ArePlaced definitions.now instances.now (def.instances definitions.now top) → tick.power ≡ tick_of definitions.now top
        → IsLibrary definitions.now corner top library.now → RefusesOneOf (path_faults definitions.now top corner) r) }
{
    let mut shelves = Shelves {
        timings: Vec::new(alloc),
        conditions: Vec::new(alloc),
    };
    shelves.timings.push(legs)?;
    let mut outputs = no_outputs(alloc, definitions)?;
    add_modules(
        alloc,
        corner,
        tick,
        definitions,
        library,
        instances,
        &mut outputs,
        &mut shelves,
    )?;
    Ok(ModulePaths {
        outputs,
        timings: shelves.timings,
        conditions: shelves.conditions,
    })
}

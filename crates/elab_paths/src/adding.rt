// The paths of all instances, put into the elements that have them.
ghost use Rattle.std.specs.Prelude.{◌≡◌, ◌≤◌, ◌+◌, ◌++◌, ◌^◌, ℕ, List, All, Some, IfOk, OnOk, IfErr, length, map, flat_map, slice_get};
ghost use Rattle.sg_circuit.specs.declared.elements.LegTiming.{LegTiming};
ghost use Rattle.sg_delay.specs.declared.corners.Corner as ghost_corner;
ghost use Rattle.vl_tree.specs.Tree.{Module, Source};
ghost use Rattle.elab_model.specs.Delays.{tick_of};
ghost use Rattle.elab_model.specs.Hierarchy.{Instance};
ghost use Rattle.elab_model.specs.Nets.{OwnNet, nets};
ghost use Rattle.elab_model.specs.Terms.{NetBit};
ghost use Rattle.circuit_model.specs.Faults.{path_count};
ghost use Rattle.circuit_model.specs.PathUses as def;
ghost use Rattle.elab_laws.specs.Handing.{all_bits};
ghost use Rattle.elab_numbering.specs.Refusals.{RefusesCount};
ghost use Rattle.elab_hierarchy.specs.declared.instances.Placed as ghost_placed;
ghost use Rattle.elab_elements.specs.Numbers.{HasNumbers};
ghost use Rattle.elab_elements.specs.Rows.{part_of};
ghost use Rattle.elab_paths.specs.AllPaths.{AreGiven, HaveAllPaths};
ghost use Rattle.elab_paths.specs.Ready.{output_ready, IsReadyOutput};
ghost use Rattle.elab_paths.specs.Standing.{AreStanding, IsStanding, outputs_at};
ghost use Rattle.elab_paths.specs.Uses.{IsRow, IsUsable, AreUses};
ghost use Rattle.elab_paths.specs.declared.shelving.ReadyOutput as ghost_output;

use crate::filling::fill_paths;
use crate::modules::ModulePaths;
use crate::shelving::ReadyOutput;
use crate::uses::{Here, PathUses, add_use};
use cond_expr::Expr;
use elab_elements::{Library, Placing, Rows, module_at};
use elab_hierarchy::Placed;
use elab_model::ElabKind;
use sg_circuit::{NetId, Path};
use sg_text::Refused;
use std::alloc::Global;

fn outputs_at(modules: &ModulePaths, definition: usize) -> &[ReadyOutput]
    requires { (list : List ghost_output.ReadyOutput) × (outputs_at modules.now definition ≡ Some list) }
    ensures { outputs_at modules.now definition ≡ Some result.now }
{
    match &modules.outputs[definition] {
        Some(outputs) => outputs,
        None => unreachable!(),
    }
}

/// The nets of the bits of the instance of a number, whose module has so many.
pub fn row_of(rows: &Rows, number: usize, width: usize) -> &[NetId]
    requires { (start : ℕ) × ((slice_get rows.now.starts.items number ≡ Some start) × (start + width ≤ length rows.now.inner.items)) }
    ensures { (start : ℕ) → slice_get rows.now.starts.items number ≡ Some start → result.now ≡ part_of rows.now.inner.items start width }
{
    let start = rows.starts[number];
    &rows.inner[start..start + width]
}

// The path uses of an instance.
fn add_all_uses(
    alloc: Global,
    here: Here,
    conditions: &[Expr],
    outputs: &[ReadyOutput],
    uses: &mut PathUses,
) -> Result<(), Refused<ElabKind>>
    requires row { (net : NetBit → ℕ) × IsRow here.table.now here.row.now net }
    requires usable { All (IsUsable here.table.now conditions.now) outputs.now }
    requires few { length uses.old.paths.items ≤ 2 ^ 22 }
    ensures uses { OnOk result ((all : List OwnNet) (source : Source) (s : Instance) (timings : List LegTiming) (us : List def.PathUse)
        → HasNumbers all source s here.entry.table.now here.entry.row.now
        → All (IsReadyOutput (length (all_bits here.entry.table.now)) (length timings) (length conditions.now)) outputs.now
        → AreUses conditions.now timings uses.old us
        → AreUses conditions.now timings uses.new (us ++ map (λ o. def.path_use all source s (output_ready timings conditions.now here.entry.table.now o)) outputs.now)) }
    ensures few { OnOk result (length uses.new.paths.items ≤ 2 ^ 22) }
    ensures refused { IfErr result (λ r. (total : ℕ) → length uses.old.paths.items + length (flat_map (λ o. o.paths.items) outputs.now) ≤ total → RefusesCount total r) }
{
    for output in outputs {
        add_use(alloc, here, conditions, output, uses)?;
    }
    Ok(())
}

// The path uses of the instance of a number.
fn add_uses(
    alloc: Global,
    library: &Library,
    modules: &ModulePaths,
    rows: &Rows,
    number: usize,
    placed: &Placed,
    uses: &mut PathUses,
) -> Result<(), Refused<ElabKind>>
    requires at { (source : Source) × ((top : Module) × ((corner : ghost_corner.Corner) × ((list : List ghost_placed.Placed) × ((s : Instance)
        × IsStanding source top corner library.now modules.now list rows.now number placed.now s)))) }
    requires few { length uses.old.paths.items ≤ 2 ^ 22 }
    ensures uses { OnOk result ((source : Source) (top : Module) (corner : ghost_corner.Corner) (list : List ghost_placed.Placed) (s : Instance) (us : List def.PathUse)
        → IsStanding source top corner library.now modules.now list rows.now number placed.now s
        → AreUses modules.now.conditions.items modules.now.timings.items uses.old us
        → AreUses modules.now.conditions.items modules.now.timings.items uses.new (us ++ def.path_uses_of (nets source top) source corner (tick_of source top) s)) }
    ensures few { OnOk result (length uses.new.paths.items ≤ 2 ^ 22) }
    ensures refused { IfErr result (λ r. (source : Source) (top : Module) (corner : ghost_corner.Corner) (list : List ghost_placed.Placed) (s : Instance)
        → IsStanding source top corner library.now modules.now list rows.now number placed.now s
        → (total : ℕ) → length uses.old.paths.items + length (flat_map (λ u. u.paths) (def.path_uses_of (nets source top) source corner (tick_of source top) s)) ≤ total → RefusesCount total r) }
{
    let prepared = module_at(library, placed.definition);
    let here = Here {
        table: &prepared.table,
        row: row_of(rows, number, prepared.table.bits()),
    };
    let outputs = outputs_at(modules, placed.definition);
    add_all_uses(alloc, here, &modules.conditions, outputs, uses)
}

// The path uses of all instances.
fn uses_of(
    alloc: Global,
    library: &Library,
    modules: &ModulePaths,
    instances: &[Placed],
    rows: &Rows,
) -> Result<PathUses, Refused<ElabKind>>
    requires given { (source : Source) × ((top : Module) × ((corner : ghost_corner.Corner) × AreStanding source top corner library.now modules.now instances.now rows.now)) }
    ensures uses { IfOk result (λ uses. (source : Source) (top : Module) (corner : ghost_corner.Corner) → AreStanding source top corner library.now modules.now instances.now rows.now
        → AreUses modules.now.conditions.items modules.now.timings.items uses (def.path_uses source top corner)) }
    ensures few { IfOk result (λ uses. length uses.paths.items ≤ 2 ^ 22) }
    ensures refused { IfErr result (λ r. (source : Source) (top : Module) (corner : ghost_corner.Corner) → AreStanding source top corner library.now modules.now instances.now rows.now
        → RefusesCount (path_count source top corner) r) }
{
    let mut uses = PathUses {
        uses: Vec::new(alloc),
        paths: Vec::new(alloc),
    };
    for (number, placed) in instances.iter().enumerate() {
        add_uses(alloc, library, modules, rows, number, placed, &mut uses)?;
    }
    Ok(uses)
}

/// Gives each Path its paths (IEEE 1364-2005, clause 14), those of all instances. Refuses more than 2^22 paths (TooMany, at the first byte of the first file). Takes memory in proportion
/// to the paths.
pub fn add_paths(
    alloc: Global,
    library: &Library,
    modules: &ModulePaths,
    instances: &[Placed],
    rows: &Rows,
    made: &mut Placing,
) -> Result<Vec<Path>, Refused<ElabKind>>
    requires given { (source : Source) × ((top : Module) × ((corner : ghost_corner.Corner) × AreGiven source top corner library.now modules.now instances.now rows.now made.old)) }
    ensures paths { IfOk result (λ paths. (source : Source) (top : Module) (corner : ghost_corner.Corner) → AreGiven source top corner library.now modules.now instances.now rows.now made.old
        → HaveAllPaths source top corner library.now modules.now paths.items made.new) }
    ensures refused { IfErr result (λ r. (source : Source) (top : Module) (corner : ghost_corner.Corner) → AreGiven source top corner library.now modules.now instances.now rows.now made.old
        → RefusesCount (path_count source top corner) r) }
{
    let uses = uses_of(alloc, library, modules, instances, rows)?;
    fill_paths(&uses.uses, &mut made.elements);
    Ok(uses.paths)
}

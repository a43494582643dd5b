// The path uses of instances: output bits to which paths lead, each with its paths over nets.
ghost use Rattle.std.specs.Prelude.{◌≡◌, ◌<◌, ◌≤◌, ◌+◌, ◌^◌, ℕ, All, [], ◌∷◌, IfOk, OnOk, IfErr, length};
ghost use Rattle.sg_circuit.specs.PathsSeen.{condition_seen, IsIndexedCondition};
ghost use Rattle.specify_model.specs.Paths.{circuit_condition};
ghost use Rattle.elab_model.specs.Terms.{NetBit};
ghost use Rattle.elab_numbering.specs.Refusals.{RefusesCount};
ghost use Rattle.elab_paths.specs.Ready.{condition_ready};
ghost use Rattle.elab_paths.specs.Uses.{IsRow, IsBindable, IsUsablePath, IsUsable, AddsPaths, AddsUse};

use crate::limit::check_count;
use crate::operands::Operands;
use crate::shelving::{ReadyCondition, ReadyOutput, ReadyPath};
use cond_expr::{BindFault, Expr};
use elab_model::ElabKind;
use elab_variables::Table;
use sg_circuit::{NetId, Path, PathCondition, Span};
use sg_delay::PulseStyle;
use sg_text::{NoMemory, Refused};
use std::alloc::Global;

/// A path use: the paths to an output bit of an instance, and their style.
#[derive(Clone, Copy, Debug, PartialEq)]
pub struct PathUse {
    pub paths: Span,
    pub style: PulseStyle,
}

/// Path uses in order, and the paths of all, those of one use side by side.
#[derive(Drop)]
pub struct PathUses {
    pub uses: Vec<PathUse>,
    pub paths: Vec<Path>,
}

/// An instance: the variables of its module, and the nets of their bits.
#[derive(Clone, Copy)]
pub struct Here<'m, 'a> {
    pub table: &'m Table<'a>,
    pub row: &'m [NetId],
}

fn condition_of(
    alloc: Global,
    here: Here,
    conditions: &[Expr],
    condition: ReadyCondition,
) -> Result<PathCondition, NoMemory>
    requires row { (net : NetBit → ℕ) × IsRow here.table.now here.row.now net }
    requires bindable { IsBindable here.table.now conditions.now condition }
    ensures bound { IfOk result (λ c. (net : NetBit → ℕ) → IsRow here.entry.table.now here.entry.row.now net
        → condition_seen conditions.now c ≡ circuit_condition net (condition_ready conditions.now here.entry.table.now condition)) }
    ensures indexed { IfOk result (IsIndexedCondition (length conditions.now)) }
{
    let written = match condition {
        ReadyCondition::Always => return Ok(PathCondition::Always),
        ReadyCondition::IfNone => return Ok(PathCondition::IfNone),
        ReadyCondition::If(written) => written,
    };
    let operands = Operands {
        table: here.table,
        row: here.row,
    };
    match conditions[written].bind(alloc, &operands) {
        Ok(bound) => Ok(PathCondition::If { written, bound }),
        Err(BindFault::NoMemory) => Err(NoMemory),
        Err(BindFault::Unknown { .. }) => unreachable!(),
    }
}

fn add_path(
    alloc: Global,
    here: Here,
    conditions: &[Expr],
    path: &ReadyPath,
    paths: &mut Vec<Path>,
) -> Result<(), Refused<ElabKind>>
    requires row { (net : NetBit → ℕ) × IsRow here.table.now here.row.now net }
    requires usable { IsUsablePath here.table.now conditions.now path.now }
    ensures paths { OnOk result (AddsPaths conditions.now here.entry.table.now here.entry.row.now (path.now ∷ []) paths.old.items paths.new.items) }
    ensures few { OnOk result (length paths.new.items ≤ 2 ^ 22) }
    ensures refused { IfErr result (λ r. (more : ℕ) → RefusesCount (length paths.old.items + 1 + more) r) }
{
    check_count(paths.len())?;
    let condition = condition_of(alloc, here, conditions, path.condition)?;
    paths.push(Path {
        input: here.row[path.input],
        edge: path.edge,
        condition,
        timing: path.timing,
    })?;
    Ok(())
}

fn add_all_paths(
    alloc: Global,
    here: Here,
    conditions: &[Expr],
    list: &[ReadyPath],
    paths: &mut Vec<Path>,
) -> Result<Span, Refused<ElabKind>>
    requires row { (net : NetBit → ℕ) × IsRow here.table.now here.row.now net }
    requires usable { All (IsUsablePath here.table.now conditions.now) list.now }
    requires few { length paths.old.items ≤ 2 ^ 22 }
    ensures paths { OnOk result (AddsPaths conditions.now here.entry.table.now here.entry.row.now list.now paths.old.items paths.new.items) }
    ensures few { OnOk result (length paths.new.items ≤ 2 ^ 22) }
    ensures span { IfOk result (λ span. (span.start ≡ length paths.old.items) × (span.end ≡ length paths.new.items)) }
    ensures refused { IfErr result (λ r. (total : ℕ) → length paths.old.items + length list.now ≤ total → RefusesCount total r) }
{
    let start = paths.len() as u32;
    for path in list {
        add_path(alloc, here, conditions, path, paths)?;
    }
    Ok(Span {
        start,
        end: paths.len() as u32,
    })
}

/// Adds a path use of an instance. Refuses more than 2^22 paths (TooMany).
pub fn add_use(
    alloc: Global,
    here: Here,
    conditions: &[Expr],
    output: &ReadyOutput,
    uses: &mut PathUses,
) -> Result<(), Refused<ElabKind>>
    requires row { (net : NetBit → ℕ) × IsRow here.table.now here.row.now net }
    requires usable { IsUsable here.table.now conditions.now output.now }
    requires few { length uses.old.paths.items ≤ 2 ^ 22 }
    ensures added { OnOk result (AddsUse conditions.now here.entry.table.now here.entry.row.now output.now uses.old uses.new) }
    ensures few { OnOk result (length uses.new.paths.items ≤ 2 ^ 22) }
    ensures refused { IfErr result (λ r. (total : ℕ) → length uses.old.paths.items + length output.now.paths.items ≤ total → RefusesCount total r) }
{
    let paths = add_all_paths(alloc, here, conditions, &output.paths, &mut uses.paths)?;
    uses.uses.push(PathUse {
        paths,
        style: output.style,
    })?;
    Ok(())
}

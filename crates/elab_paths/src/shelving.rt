// The paths of a module, with their conditions and timings in tables.
ghost use Rattle.std.specs.Prelude.{◌≡◌, ◌<◌, ◌++◌, All, List, IfOk, OnOk, length, map};
ghost use Rattle.std.specs.Option.{option_map};
ghost use Rattle.cond_expr.specs.Condition.{Condition};
ghost use Rattle.sg_circuit.specs.declared.elements.LegTiming.{LegTiming as Timings};
ghost use Rattle.sg_circuit.specs.TimingsSeen.{limit_seen, leg_timing_seen};
ghost use Rattle.elab_model.specs.Names.{Variable};
ghost use Rattle.elab_laws.specs.Handing.{all_bits};
ghost use Rattle.specify_model.specs.Paths.{timings_with};
ghost use Rattle.specify_paths.specs.SeenOfValues.{widths_seen};
ghost use Rattle.specify_paths.specs.Seen.{outputs_seen, IsInRow};
ghost use Rattle.specify_paths.specs.Spelled.{IsSpelled};
ghost use Rattle.elab_paths.specs.Ready.{output_ready, IsReadyOutput};
ghost use Rattle.elab_paths.specs.Shelving.{IsLonger, ListGrows, AreRead, IsShelvedCondition, AreShelved, IsShelvedPath, IsShelvedOutput};

use cond_expr::Expr;
use sg_circuit::LegTiming;
use sg_delay::{Delays12, Limit, Limits12, PulseStyle, Widths};
use sg_logic::Edge;
use sg_text::{NoMemory, Place};
use specify_paths::{ModuleCondition, ModulePath, PathOutput, PathOutputs, Statement};
use std::alloc::Global;

/// When a path of a module may be taken (IEEE 1364-2005, 14.2.4).
#[derive(Clone, Copy, Debug, PartialEq)]
pub enum ReadyCondition {
    Always,
    /// Unless the value of the condition at this place of the table is 0.
    If(usize),
    /// Where no path of the same input and output may be taken by a condition of its own.
    IfNone,
}

/// A path of a module: its input, a place in the row of bits of the module's table, and the place of its timings.
#[derive(Clone, Copy, Debug, PartialEq)]
pub struct ReadyPath {
    pub input: usize,
    pub edge: Option<Edge>,
    pub condition: ReadyCondition,
    pub timing: usize,
}

/// An output bit of a module to which paths lead, a place in the row of bits of its table, with the place of its first specify path, its style, and its paths in text order.
#[derive(Debug, Drop)]
pub struct ReadyOutput {
    pub output: usize,
    pub place: Place,
    pub style: PulseStyle,
    pub paths: Vec<ReadyPath>,
}

/// The timings and the conditions of paths, which instances of a module share.
#[derive(Drop)]
pub struct Shelves {
    pub timings: Vec<LegTiming>,
    pub conditions: Vec<Expr>,
}

// A specify path whose condition stands in the table.
#[derive(Clone, Copy)]
struct Shelved {
    edge: Option<Edge>,
    condition: ReadyCondition,
    delays: Delays12,
}

fn shelve_condition(
    condition: ModuleCondition,
    conditions: &mut Vec<Expr>,
) -> Result<ReadyCondition, NoMemory>
    ensures kept { OnOk result (ListGrows conditions.old.items conditions.new.items) }
    ensures condition { IfOk result (IsShelvedCondition conditions.new.items condition) }
    ensures read { OnOk result (IsSpelled condition → AreRead conditions.old.items → AreRead conditions.new.items) }
{
    match condition {
        ModuleCondition::Always => Ok(ReadyCondition::Always),
        ModuleCondition::If(expression) => {
            let place = conditions.len();
            conditions.push(expression)?;
            Ok(ReadyCondition::If(place))
        }
        ModuleCondition::IfNone => Ok(ReadyCondition::IfNone),
    }
}

fn shelve_statements(
    alloc: Global,
    statements: Vec<Statement>,
    conditions: &mut Vec<Expr>,
) -> Result<Vec<Shelved>, NoMemory>
    ensures kept { OnOk result (ListGrows conditions.old.items conditions.new.items) }
    ensures statements { IfOk result (λ list. AreShelved conditions.new.items statements.items list.items) }
    ensures read { OnOk result (All (λ s. IsSpelled s.condition) statements.items → AreRead conditions.old.items → AreRead conditions.new.items) }
{
    let mut shelved = Vec::new(alloc);
    for statement in statements {
        let condition = shelve_condition(statement.condition, conditions)?;
        shelved.push(Shelved {
            edge: statement.edge,
            condition,
            delays: statement.delays,
        })?;
    }
    Ok(shelved)
}

fn limit_of(limits: Option<Widths>) -> Limit
    ensures { limit_seen result ≡ option_map widths_seen limits }
{
    match limits {
        Some(widths) => Limit::Own(widths),
        None => Limit::Follow,
    }
}

// All transitions have the limits that a text gives.
fn timing_of(delays: &[u64; 12], limits: Option<Widths>) -> LegTiming
    ensures { leg_timing_seen result ≡ timings_with (option_map widths_seen limits) delays.now }
{
    LegTiming {
        delays: Delays12 { at: *delays },
        limits: Limits12 {
            at: [limit_of(limits); 12],
        },
    }
}

fn shelve_path(
    statements: &[Shelved],
    path: &ModulePath,
    timings: &mut Vec<LegTiming>,
) -> Result<ReadyPath, NoMemory>
    requires within { path.now.statement < length statements.now }
    ensures kept { OnOk result (ListGrows timings.old.items timings.new.items) }
    ensures path { IfOk result (IsShelvedPath timings.new.items statements.now path.now) }
{
    let statement = statements[path.statement];
    let timing = timings.len();
    timings.push(timing_of(&statement.delays.at, path.limits))?;
    Ok(ReadyPath {
        input: path.input,
        edge: statement.edge,
        condition: statement.condition,
        timing,
    })
}

fn shelve_output(
    alloc: Global,
    statements: &[Shelved],
    output: &PathOutput,
    timings: &mut Vec<LegTiming>,
) -> Result<ReadyOutput, NoMemory>
    requires within { All (λ p. p.statement < length statements.now) output.now.paths.items }
    ensures kept { OnOk result (ListGrows timings.old.items timings.new.items) }
    ensures output { IfOk result (IsShelvedOutput timings.new.items statements.now output.now) }
{
    let mut paths = Vec::new(alloc);
    for path in &output.paths {
        paths.push(shelve_path(statements, path, timings)?)?;
    }
    Ok(ReadyOutput {
        output: output.output,
        place: output.place,
        style: output.style,
        paths,
    })
}

/// The output bits of a module, whose conditions and timings come behind those of the tables. Takes memory in proportion to the paths.
pub fn shelve(
    alloc: Global,
    paths: PathOutputs,
    shelves: &mut Shelves,
) -> Result<Vec<ReadyOutput>, NoMemory>
    requires within { All (λ o. All (λ p. p.statement < length paths.statements.items) o.paths.items) paths.outputs.items }
    ensures kept { OnOk result (IsLonger shelves.old shelves.new) }
    ensures outputs { IfOk result (λ list. (vs : List Variable) (timings : List Timings) (conditions : List Condition)
        → map (output_ready (shelves.new.timings.items ++ timings) (shelves.new.conditions.items ++ conditions) vs) list.items ≡ outputs_seen vs paths) }
    ensures named { IfOk result (λ list. (vs : List Variable) → All (IsInRow vs (length paths.statements.items)) paths.outputs.items
        → All (IsReadyOutput (length (all_bits vs)) (length shelves.new.timings.items) (length shelves.new.conditions.items)) list.items) }
    ensures read { OnOk result (All (λ s. IsSpelled s.condition) paths.statements.items → AreRead shelves.old.conditions.items → AreRead shelves.new.conditions.items) }
{
    let statements = shelve_statements(alloc, paths.statements, &mut shelves.conditions)?;
    let mut outputs = Vec::new(alloc);
    for output in &paths.outputs {
        outputs.push(shelve_output(alloc, &statements, output, &mut shelves.timings)?)?;
    }
    Ok(outputs)
}

// What specify paths say of all their bits.
ghost use Rattle.std.specs.Prelude.{◌≡◌, ◌&&◌, ◌++◌, IfOk, flat_map};
ghost use Rattle.std.specs.List.{list_any};
ghost use Rattle.std.specs.Option.{option_map};
ghost use Rattle.sg_logic.specs.Values.{is_same};
ghost use Rattle.vl_tree.specs.Seen.{view_data_source, view_edge, view_path, view_path_condition};
ghost use Rattle.vl_tree.specs.Tree as tree;
ghost use Rattle.specify_model.specs.Conditions as def;
ghost use Rattle.specify_model.specs.Faults as faults;
ghost use Rattle.specify_model.specs.Paths.{edge_of as edge_of_word};
ghost use Rattle.specify_values.specs.Seen.{measured, values_of};
ghost use Rattle.specify_values.specs.Telling.{Tells};
ghost use Rattle.specify_paths.specs.Seen.{condition_seen, said_by, said_of};
ghost use Rattle.specify_paths.specs.Spelled.{IsSpelled};

use crate::conditions::{check_names, condition_of};
use cond_expr::Expr;
use elab_model::ElabKind;
use elab_variables::Table;
use sg_delay::Delays12;
use sg_logic::{Edge, NEGEDGE, POSEDGE, Value};
use sg_text::{Place, Refused};
use specify_values::{Measure, Parameters, path_delays};
use std::alloc::Global;
use vl_tree::{DataSource, EdgePair, EdgeWord, PathCondition, SpecifyPath};

/// When a path of a module may be taken (IEEE 1364-2005, 14.2.4).
#[derive(Drop)]
pub enum ModuleCondition {
    Always,
    /// Unless its value is 0.
    If(Expr),
    /// Where no path of the same input and output may be taken by a condition of its own.
    IfNone,
}

/// A specify path without its bits: which changes of an input it is for, when it may be taken, and its delays in ticks.
#[derive(Drop)]
pub struct Statement {
    pub edge: Option<Edge>,
    pub condition: ModuleCondition,
    pub delays: Delays12,
}

fn has_pair(pairs: &[EdgePair], from: Value, to: Value) -> bool
    ensures { result ≡ list_any (λ p. is_same p.from from && is_same p.to to) pairs.now }
{
    pairs.iter().any(|pair| pair.from == from && pair.to == to)
}

fn edge_of_pairs(pairs: &[EdgePair]) -> Edge
    ensures { result ≡ edge_of_word (tree.pairs pairs.now) }
{
    Edge {
        has: [
            has_pair(pairs, Value::Zero, Value::One),
            has_pair(pairs, Value::One, Value::Zero),
            has_pair(pairs, Value::Zero, Value::X),
            has_pair(pairs, Value::X, Value::One),
            has_pair(pairs, Value::One, Value::X),
            has_pair(pairs, Value::X, Value::Zero),
        ],
    }
}

fn edge_of(edge: &EdgeWord) -> Edge
    ensures { result ≡ edge_of_word (view_edge edge.now) }
{
    match edge {
        EdgeWord::Posedge => POSEDGE,
        EdgeWord::Negedge => NEGEDGE,
        EdgeWord::Pairs(pairs) => edge_of_pairs(pairs),
    }
}

/// The changes that an edge is, where there is one (IEEE 1364-2005, 15.4).
pub fn option_edge(edge: &Option<EdgeWord>) -> Option<Edge>
    ensures { result ≡ option_map edge_of_word (option_map view_edge edge.now) }
{
    match edge {
        Some(edge) => Some(edge_of(edge)),
        None => None,
    }
}

fn own_condition(
    alloc: Global,
    table: &Table,
    place: Place,
    condition: &PathCondition,
) -> Result<ModuleCondition, Refused<ElabKind>>
    ensures condition { IfOk result (λ c. condition_seen table.now c ≡ def.condition_of table.now (view_path_condition condition.now)) }
    ensures spelled { IfOk result IsSpelled }
    ensures told { Tells (flat_map (faults.condition_faults table.now place) (faults.own_condition (view_path_condition condition.now))) result }
{
    match condition {
        PathCondition::Always => Ok(ModuleCondition::Always),
        PathCondition::If(words) => Ok(ModuleCondition::If(condition_of(
            alloc, table, place, words,
        )?)),
        PathCondition::IfNone => Ok(ModuleCondition::IfNone),
    }
}

// A data source has no effect, but its names are looked at.
fn check_data_source(table: &Table, source: &Option<DataSource>) -> Result<(), Refused<ElabKind>>
    ensures { Tells (faults.source_faults table.now (option_map view_data_source source.now)) result }
{
    match source {
        Some(source) => check_names(table, &source.words),
        None => Ok(()),
    }
}

/// What a specify path says of all its bits. Refuses what `condition_of` and `path_delays` do, and a name of a data source as `check_names` does. Takes memory in proportion to the path.
pub fn statement_of(
    alloc: Global,
    by: Measure,
    table: &Table,
    parameters: &Parameters,
    path: &SpecifyPath,
) -> Result<Statement, Refused<ElabKind>>
    ensures said { IfOk result (λ s. said_by table.now s ≡ said_of (measured by) table.now (values_of parameters.now) (view_path path.now)) }
    ensures spelled { IfOk result (λ s. IsSpelled s.condition) }
    ensures told { Tells (flat_map (faults.condition_faults table.now path.now.place) (faults.own_condition (view_path path.now).condition) ++ (faults.source_faults table.now (view_path path.now).destination.source
        ++ faults.list_faults (measured by) (values_of parameters.now) path.now.place (view_path path.now).delays)) result }
{
    let condition = own_condition(alloc, table, path.place, &path.condition)?;
    check_data_source(table, &path.destination.source)?;
    let delays = path_delays(alloc, by, parameters, path.place, &path.delays)?;
    Ok(Statement {
        edge: option_edge(&path.edge),
        condition,
        delays,
    })
}

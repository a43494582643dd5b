// The paths of a module.
ghost use Rattle.std.specs.Prelude.{◌≡◌, All, IfOk, flat_map, length, map};
ghost use Rattle.vl_tree.specs.Seen.{view_module};
ghost use Rattle.elab_model.specs.Names.{variables};
ghost use Rattle.specify_model.specs.Blocks.{specify_items};
ghost use Rattle.specify_model.specs.Faults.{faults_by, path_faults};
ghost use Rattle.specify_model.specs.Outputs.{outputs_by};
ghost use Rattle.specify_model.specs.Paths.{paths_of};
ghost use Rattle.specify_values.specs.Seen.{limits_seen, measured, values_of, view_paths};
ghost use Rattle.specify_values.specs.Telling.{Tells};
ghost use Rattle.specify_paths.specs.Seen.{ArePathsInRow, IsInRow, outputs_seen, path_to_seen, said_by, said_of};
ghost use Rattle.specify_paths.specs.Spelled.{IsSpelled};

use crate::ends::ends_of;
use crate::grouping::{PathOutput, group};
use crate::pairs::{PathTo, add_paths};
use crate::statements::{Statement, statement_of};
use crate::styles::styles_of;
use elab_model::ElabKind;
use elab_variables::Table;
use sg_text::Refused;
use specify_values::{Measure, Parameters, PulseLimits, block_items, pulse_limits, specparams};
use std::alloc::Global;
use vl_tree::{Module, SpecifyPath};

/// The paths of a module by the output bits to which they lead (IEEE 1364-2005, clause 14): its specify paths in text order, and the output bits in the order of the first path to each.
#[derive(Drop)]
pub struct PathOutputs {
    pub statements: Vec<Statement>,
    pub outputs: Vec<PathOutput>,
}

// What specify paths say, and their paths, in text order.
fn all_paths(
    alloc: Global,
    by: Measure,
    table: &Table,
    parameters: &Parameters,
    limits: &PulseLimits,
    paths: Vec<&SpecifyPath>,
) -> Result<(Vec<Statement>, Vec<PathTo>), Refused<ElabKind>>
    ensures said { IfOk result (λ r. map (said_by table.now) r.0.items ≡ map (said_of (measured by) table.now (values_of parameters.now)) (view_paths paths.entry.items)) }
    ensures list { IfOk result (λ r. map (path_to_seen table.now (map (said_of (measured by) table.now (values_of parameters.now)) (view_paths paths.entry.items))) r.1.items
        ≡ flat_map (paths_of (measured by) table.now (values_of parameters.now) (limits_seen limits.now)) (view_paths paths.entry.items)) }
    ensures row { IfOk result (λ r. ArePathsInRow table.now (length paths.entry.items) r.1.items) }
    ensures spelled { IfOk result (λ r. All (λ s. IsSpelled s.condition) r.0.items) }
    ensures told { Tells (flat_map (path_faults (measured by) table.now (values_of parameters.now)) (view_paths paths.entry.items)) result }
{
    let mut statements = Vec::new(alloc);
    let mut list = Vec::new(alloc);
    for path in paths {
        let ends = ends_of(alloc, table, path)?;
        let statement = statement_of(alloc, by, table, parameters, path)?;
        add_paths(table, limits, statements.len(), path, &ends, &mut list)?;
        statements.push(statement)?;
    }
    Ok((statements, list))
}

/// The paths of a module, whose variables are those of the table, in ticks of a corner. Refuses what stands in its specify blocks for the names, widths, indices, directions, conditions
/// and values of specparams, paths and styles. Takes memory and time in proportion to the blocks and to the pairs of bits of the paths.
pub fn path_outputs(
    alloc: Global,
    by: Measure,
    table: &Table,
    definition: &Module,
) -> Result<PathOutputs, Refused<ElabKind>>
    requires { table.now ≡ variables (view_module definition.now) }
    ensures outputs { IfOk result (λ p. outputs_seen table.now p ≡ outputs_by (measured by) table.now (specify_items (view_module definition.now))) }
    ensures row { IfOk result (λ p. All (IsInRow table.now (length p.statements.items)) p.outputs.items) }
    ensures spelled { IfOk result (λ p. All (λ s. IsSpelled s.condition) p.statements.items) }
    ensures told { Tells (faults_by (measured by) table.now (specify_items (view_module definition.now))) result }
{
    let items = block_items(alloc, definition)?;
    let parameters = specparams(alloc, &items.parameters)?;
    let limits = pulse_limits(alloc, by, table, &items.pulses)?;
    let (statements, list) = all_paths(alloc, by, table, &parameters, &limits, items.paths)?;
    let styles = styles_of(alloc, table, &items.styles)?;
    let outputs = group(alloc, &styles, &list)?;
    Ok(PathOutputs {
        statements,
        outputs,
    })
}

// The elements of a circuit, with their paths.
ghost use Rattle.std.specs.Prelude.{◌≡◌, IfOk, IfErr};
ghost use Rattle.sg_circuit.specs.TimingsSeen.{leg_timing_seen};
ghost use Rattle.vl_tree.specs.Tree.{Module};
ghost use Rattle.elab_checks.specs.ShelvingOfPaths.{AreRead};
ghost use Rattle.vl_elab.specs.Below.{RefusesBelow};
ghost use Rattle.vl_elab.specs.Made.{HaveElements, HaveNets, none_of_twelve};

use cond_expr::Expr;
use elab_checks::{Library, Placing, Rows, add_paths, elements_in, module_paths};
use elab_hierarchy::{Definitions, Placed};
use elab_model::ElabKind;
use late_limits::lates_by_scope;
use sg_circuit::{FanOut, LegTiming, Path};
use sg_delay::{Corner, Delays12, Limit, Limits12};
use sg_text::Refused;
use sg_time::Unit;
use std::alloc::Global;

/// Elements with their specify paths, and the tables whose places they name.
#[derive(Drop)]
pub struct ElementTables {
    pub placing: Placing,
    pub timings: Vec<LegTiming>,
    pub conditions: Vec<Expr>,
    pub paths: Vec<Path>,
    /// By instance, the numbers of the elements that delay signals for its timing checks (IEEE 1364-2005, 15.8).
    pub lates: FanOut,
}

/// The elements of all instances, with their paths (IEEE 1364-2005, clauses 6 to 8 and 14). Refuses what `elements_in`, `module_paths` and `add_paths` do. Takes memory in proportion to the
/// blocks, and to the elements and the paths of all instances.
pub fn elements_below(
    alloc: Global,
    corner: Corner,
    tick: Unit,
    definitions: &Definitions,
    library: &Library,
    instances: &[Placed],
    rows: &Rows,
) -> Result<ElementTables, Refused<ElabKind>>
    requires nets { (m : Module) × HaveNets definitions.now m corner tick instances.now library.now rows.now }
    ensures elements { IfOk result (λ made. (m : Module) → HaveNets definitions.now m corner tick instances.now library.now rows.now → HaveElements definitions.now m corner library.now made) }
    ensures spelled { IfOk result (λ made. AreRead made.conditions.items) }
    ensures refused { IfErr result (λ r. (m : Module) → HaveNets definitions.now m corner tick instances.now library.now rows.now → RefusesBelow definitions.now m corner r) }
{
    let mut placing = elements_in(alloc, definitions, library, instances, rows)?;
    let lates = lates_by_scope(alloc, &placing.elements, instances.len() as u32)?;
    let modules = module_paths(
        alloc,
        corner,
        tick,
        definitions,
        library,
        instances,
        no_delay(),
    )?;
    let paths = add_paths(alloc, library, &modules, instances, rows, &mut placing)?;
    Ok(ElementTables {
        placing,
        timings: modules.timings,
        conditions: modules.conditions,
        paths,
        lates,
    })
}

// The way to an input port's bit has no delay until a text gives it one.
fn no_delay() -> LegTiming
    ensures { leg_timing_seen result ≡ none_of_twelve }
{
    LegTiming {
        delays: Delays12 { at: [0; 12] },
        limits: Limits12 {
            at: [Limit::Follow; 12],
        },
    }
}

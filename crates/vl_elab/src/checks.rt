// The timing checks of a circuit.
ghost use Rattle.std.specs.Prelude.{◌≡◌, ◌≤◌, ◌++◌, ◌^◌, [], IfOk, IfErr, OnOk, length};
ghost use Rattle.vl_tree.specs.Tree.{Module};
ghost use Rattle.elab_model.specs.Faults.{RefusesOneOf};
ghost use Rattle.circuit_model.specs.CheckUses.{check_uses};
ghost use Rattle.circuit_model.specs.Faults.{check_faults, over};
ghost use Rattle.elab_checks.specs.ShelvingOfPaths.{AreRead, ListGrows};
ghost use Rattle.elab_checks.specs.Standing.{HaveLates};
ghost use Rattle.elab_checks.specs.Uses.{AreUses};
ghost use Rattle.vl_elab.specs.Made.{HaveNets};

use cond_expr::Expr;
use elab_checks::{CheckTables, Library, Rows, circuit_checks, ready_checks};
use elab_hierarchy::{Definitions, Placed};
use elab_model::ElabKind;
use sg_circuit::FanOut;
use sg_delay::Corner;
use sg_text::Refused;
use sg_time::Unit;
use std::alloc::Global;

/// The timing checks of all instances (IEEE 1364-2005, clause 15), whose conditions come behind those of the table, with the numbers of the elements that delay signals of each instance. Refuses what `ready_checks` and `circuit_checks` do. Takes memory in
/// proportion to the blocks and to the checks of all instances.
pub fn checks_below(
    alloc: Global,
    corner: Corner,
    tick: Unit,
    definitions: &Definitions,
    library: &Library,
    instances: &[Placed],
    rows: &Rows,
    lates: &FanOut,
    conditions: &mut Vec<Expr>,
) -> Result<CheckTables, Refused<ElabKind>>
    requires nets { (m : Module) × HaveNets definitions.now m corner tick instances.now library.now rows.now × HaveLates definitions.now m corner lates.now }
    requires spelled { AreRead conditions.old.items }
    ensures kept { OnOk result (ListGrows conditions.old.items conditions.new.items) }
    ensures uses { IfOk result (λ made. (m : Module) → HaveNets definitions.now m corner tick instances.now library.now rows.now → HaveLates definitions.now m corner lates.now → AreUses conditions.new.items made (check_uses definitions.now m corner)) }
    ensures few { IfOk result (λ made. length made.checks.items ≤ 2 ^ 22) }
    ensures faultless { OnOk result ((m : Module) → HaveNets definitions.now m corner tick instances.now library.now rows.now → HaveLates definitions.now m corner lates.now → check_faults definitions.now m corner ≡ []) }
    ensures refused { IfErr result (λ r. (m : Module) → HaveNets definitions.now m corner tick instances.now library.now rows.now → HaveLates definitions.now m corner lates.now
        → RefusesOneOf (check_faults definitions.now m corner ++ over (length (check_uses definitions.now m corner))) r) }
{
    let ready = ready_checks(
        alloc,
        corner,
        tick,
        definitions,
        library,
        instances,
        conditions,
    )?;
    let made = circuit_checks(alloc, library, &ready, conditions, instances, rows, lates)?;
    Ok(made)
}

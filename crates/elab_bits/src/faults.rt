// What is wrong with expressions.
ghost use Rattle.std.specs.Prelude.{◌≡◌, [], OnOk, IfErr};
ghost use Rattle.vl_tree.specs.Seen.{view_expression, view_name};
ghost use Rattle.elab_model.specs.Faults.{RefusesOneOf};
ghost use Rattle.elab_model.specs.Leaves.{leaf_of};
ghost use Rattle.elab_model.specs.TerminalFaults.{expression_faults, leaf_faults};

use crate::positions::ends;
use elab_model::ElabKind;
use elab_variables::Table;
use sg_text::Refused;
use vl_tree::{Expression, Name, Select};

/// Refuses an expression in which a name isn't declared (UnknownName) or an index is out of range (BadTerminal), at the name. Takes no memory.
pub fn check_expression(table: &Table, expression: &Expression) -> Result<(), Refused<ElabKind>>
    ensures faultless { OnOk result (expression_faults table.now (view_expression expression.now) ≡ []) }
    ensures refused { IfErr result (RefusesOneOf (expression_faults table.now (view_expression expression.now))) }
{
    match expression {
        Expression::Signal { name, select } => check_leaf(table, *name, *select),
        Expression::Sized { .. } => Ok(()),
        Expression::Concatenation { parts, .. } => {
            for part in parts {
                check_expression(table, part)?;
            }
            Ok(())
        }
    }
}

fn check_leaf(table: &Table, name: Name, select: Option<Select>) -> Result<(), Refused<ElabKind>>
    ensures faultless { OnOk result (leaf_faults table.now (leaf_of (view_name name.entry) select) ≡ []) }
    ensures refused { IfErr result (RefusesOneOf (leaf_faults table.now (leaf_of (view_name name.entry) select))) }
{
    let place = name.place;
    let Some(variable) = table.find(name.text) else {
        return Err(Refused::Fault {
            kind: ElabKind::UnknownName,
            place,
        });
    };
    let Some(select) = select else {
        return Ok(());
    };
    match ends(table.row(variable).range, select) {
        Some(_) => Ok(()),
        None => Err(Refused::Fault {
            kind: ElabKind::BadTerminal,
            place,
        }),
    }
}

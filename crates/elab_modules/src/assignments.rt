// What is refused in assignments.
ghost use Rattle.std.specs.Prelude.{◌≡◌, List, None, map};
ghost use Rattle.vl_tree.specs.Seen.{view_expression, view_name};
ghost use Rattle.vl_tree.specs.Tree.{signal};
ghost use Rattle.elab_modules.specs.Telling.{Tells, sides_faults};

use crate::terminals::{bits_of, check_driven};
use elab_bits::{Bit, check_expression};
use elab_model::ElabKind;
use elab_variables::Table;
use sg_text::{Place, Refused};
use vl_tree::{Expression, Name};

/// Refuses an assignment for the names and indices of its sides, for a constant at the left (BadTerminal), and for sides of different widths (WidthMismatch, at the
/// assignment). `bits` is a vector that is used again.
pub fn check_sides(
    table: &Table,
    place: Place,
    left: &Expression,
    right: &Expression,
    bits: &mut Vec<Bit>,
) -> Result<(), Refused<ElabKind>>
    ensures { Tells (sides_faults table.now place (view_expression left.now) (view_expression right.now)) result }
{
    check_expression(table, left)?;
    check_expression(table, right)?;
    bits_of(table, left, bits)?;
    check_driven(bits)?;
    let width = bits.len();
    bits_of(table, right, bits)?;
    if bits.len() != width {
        return Err(Refused::Fault {
            kind: ElabKind::WidthMismatch,
            place,
        });
    }
    Ok(())
}

/// The same of a net that is assigned where it is declared.
pub fn check_declared(
    table: &Table,
    name: Name,
    value: &Expression,
    bits: &mut Vec<Bit>,
) -> Result<(), Refused<ElabKind>>
    ensures { Tells (sides_faults table.now name.entry.place (signal (view_name name.entry) None) (view_expression value.now)) result }
{
    let left = Expression::Signal { name, select: None };
    check_sides(table, name.place, &left, value, bits)
}

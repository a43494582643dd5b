// What is refused in the names that timing checks give to delayed copies of their signals.
ghost use Rattle.std.specs.Prelude.{None, false, flat_map, option_map};
ghost use Rattle.vl_tree.specs.Seen.{view_check, view_name};
ghost use Rattle.vl_tree.specs.Tree.{signal};
ghost use Rattle.elab_model.specs.Members as def;
ghost use Rattle.elab_modules.specs.Telling.{Tells, joined_faults};

use crate::terminals::check_joined;
use elab_bits::Bit;
use elab_model::ElabKind;
use elab_variables::Table;
use sg_text::Refused;
use vl_tree::{Check, Expression, Name};

// A copy is one bit, if it has a name.
fn check_name(
    table: &Table,
    name: &Option<Name>,
    bits: &mut Vec<Bit>,
) -> Result<(), Refused<ElabKind>>
    ensures { Tells (flat_map (λ n. joined_faults table.now 1 false (signal n None)) (def.listed (option_map view_name name.now))) result }
{
    let Some(name) = name else {
        return Ok(());
    };
    let copy = Expression::Signal {
        name: *name,
        select: None,
    };
    check_joined(table, &copy, 1, false, bits)
}

/// Refuses a name of a delayed copy that isn't declared (UnknownName) or isn't one bit (WidthMismatch). `bits` is a vector that is used again.
pub fn check_delayed(
    table: &Table,
    check: &Check,
    bits: &mut Vec<Bit>,
) -> Result<(), Refused<ElabKind>>
    ensures { Tells (flat_map (joined_faults table.now 1 false) (def.member_values (def.check (view_check check.now)))) result }
{
    let Check::TwoLimits {
        delayed_reference,
        delayed_data,
        ..
    } = check
    else {
        return Ok(());
    };
    check_name(table, delayed_reference, bits)?;
    check_name(table, delayed_data, bits)
}

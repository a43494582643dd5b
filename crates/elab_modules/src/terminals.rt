// What is refused of expressions that are joined to terminals, ports or nets.
ghost use Rattle.std.specs.Prelude.{◌≡◌, [], List, OnOk, map, flat_map, option_map};
ghost use Rattle.vl_tree.specs.Seen.{view_expression};
ghost use Rattle.elab_model.specs.Bits as def;
ghost use Rattle.elab_model.specs.Leaves as leaves;
ghost use Rattle.elab_model.specs.Names.{Variable};
ghost use Rattle.elab_model.specs.TerminalFaults.{expression_faults, width_faults, constant_fault};
ghost use Rattle.elab_bits.specs.Seen.{view_bit};
ghost use Rattle.elab_modules.specs.Telling.{Tells, joined_faults, joined_value_faults};

use elab_bits::{Bit, add_bits, check_expression};
use elab_model::ElabKind;
use elab_variables::Table;
use sg_text::{NoMemory, Place, Refused};
use vl_tree::Expression;

/// The bits of an expression, in a vector that is used again.
pub fn bits_of(table: &Table, expression: &Expression, bits: &mut Vec<Bit>) -> Result<(), NoMemory>
    ensures { OnOk result (map (view_bit table.now) bits.new.items ≡ def.bits table.now (view_expression expression.now)) }
{
    bits.clear();
    add_bits(table, expression, bits)
}

fn check_bit(bit: Bit) -> Result<(), Refused<ElabKind>>
    ensures { (vs : List Variable) → Tells (constant_fault (view_bit vs bit)) result }
{
    match bit {
        Bit::Net(_) => Ok(()),
        Bit::Constant { place, .. } => Err(Refused::Fault {
            kind: ElabKind::BadTerminal,
            place,
        }),
    }
}

/// Refuses a constant among bits that are driven (BadTerminal).
pub fn check_driven(bits: &[Bit]) -> Result<(), Refused<ElabKind>>
    ensures { (vs : List Variable) → Tells (flat_map (λ b. constant_fault (view_bit vs b)) bits.now) result }
{
    for bit in bits {
        check_bit(*bit)?;
    }
    Ok(())
}

// Where an expression begins.
fn place_of(expression: &Expression) -> Place
    ensures { result ≡ leaves.place_of (view_expression expression.now) }
{
    match expression {
        Expression::Signal { name, .. } => name.place,
        Expression::Sized { place, .. } => *place,
        Expression::Concatenation { place, .. } => *place,
    }
}

// Refuses an expression of another width (WidthMismatch); leaves its bits.
fn check_width(
    table: &Table,
    expression: &Expression,
    width: usize,
    bits: &mut Vec<Bit>,
) -> Result<(), Refused<ElabKind>>
    requires sound { expression_faults table.now (view_expression expression.now) ≡ [] }
    ensures told { Tells (width_faults table.now width (view_expression expression.now)) result }
    ensures bits { OnOk result (map (view_bit table.now) bits.new.items ≡ def.bits table.now (view_expression expression.now)) }
{
    bits_of(table, expression, bits)?;
    if bits.len() != width {
        return Err(Refused::Fault {
            kind: ElabKind::WidthMismatch,
            place: place_of(expression),
        });
    }
    Ok(())
}

/// Refuses an expression for its names and indices, for another width, and as an output for a constant. `bits` is a vector that is used again.
pub fn check_joined(
    table: &Table,
    expression: &Expression,
    width: usize,
    is_output: bool,
    bits: &mut Vec<Bit>,
) -> Result<(), Refused<ElabKind>>
    ensures { Tells (joined_faults table.now width is_output (view_expression expression.now)) result }
{
    check_expression(table, expression)?;
    check_width(table, expression, width, bits)?;
    if !is_output {
        return Ok(());
    }
    check_driven(bits)
}

/// The same of an expression that may be missing.
pub fn check_value(
    table: &Table,
    value: &Option<Expression>,
    width: usize,
    is_output: bool,
    bits: &mut Vec<Bit>,
) -> Result<(), Refused<ElabKind>>
    ensures { Tells (joined_value_faults table.now width is_output (option_map view_expression value.now)) result }
{
    match value {
        Some(expression) => check_joined(table, expression, width, is_output, bits),
        None => Ok(()),
    }
}

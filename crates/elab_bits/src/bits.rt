// The bits of expressions.
ghost use Rattle.std.specs.Prelude.{◌≡◌, ◌++◌, All, OnOk, map};
ghost use Rattle.vl_tree.specs.Seen.{view_expression, view_name};
ghost use Rattle.elab_model.specs.Bits as def;
ghost use Rattle.elab_model.specs.Leaves.{leaf_of, part, whole};
ghost use Rattle.elab_bits.specs.Seen.{view_bit, IsInRow};

use crate::adding::{add_all, add_constant, add_part};
use crate::positions::ends;
use crate::spans::span_of;
use elab_variables::Table;
use sg_logic::Value;
use sg_text::{NoMemory, Place};
use vl_tree::{Expression, Name, Select};

/// A bit of an expression: a place in the row of bits of the module's table, or a constant where it stands.
#[derive(Clone, Copy, Debug, PartialEq)]
pub enum Bit {
    Net(usize),
    Constant { place: Place, value: Value },
}

/// Adds the bits of an expression, from left to right (IEEE 1364-2005, 5.1.14, 5.2.1); a name that the table hasn't and an index out of
/// range have none. After want of memory `bits` has some of them more.
pub fn add_bits(table: &Table, expression: &Expression, bits: &mut Vec<Bit>) -> Result<(), NoMemory>
    ensures bits { OnOk result (map (view_bit table.now) bits.new.items ≡ map (view_bit table.now) bits.old.items ++ def.bits table.now (view_expression expression.now)) }
    ensures row { All (IsInRow table.now) bits.old.items → All (IsInRow table.now) bits.new.items }
{
    match expression {
        Expression::Signal { name, select } => add_leaf(table, *name, *select, bits),
        Expression::Sized { place, value } => add_constant(*place, *value, bits),
        Expression::Concatenation { parts, .. } => {
            for part in parts {
                add_bits(table, part, bits)?;
            }
            Ok(())
        }
    }
}

/// Adds the bits of the variable of a name.
pub fn add_variable(table: &Table, name: Name, bits: &mut Vec<Bit>) -> Result<(), NoMemory>
    ensures bits { OnOk result (map (view_bit table.now) bits.new.items ≡ map (view_bit table.now) bits.old.items ++ def.leaf_bits table.now (whole (view_name name.entry))) }
    ensures row { All (IsInRow table.now) bits.old.items → All (IsInRow table.now) bits.new.items }
{
    let Some(place) = table.find(name.text) else {
        return Ok(());
    };
    add_all(span_of(table, place), bits)
}

// The bits of a variable that are meant.
fn add_select(
    table: &Table,
    name: Name,
    select: Select,
    bits: &mut Vec<Bit>,
) -> Result<(), NoMemory>
    ensures bits { OnOk result (map (view_bit table.now) bits.new.items ≡ map (view_bit table.now) bits.old.items ++ def.leaf_bits table.now (part (view_name name.entry) select)) }
    ensures row { All (IsInRow table.now) bits.old.items → All (IsInRow table.now) bits.new.items }
{
    let Some(place) = table.find(name.text) else {
        return Ok(());
    };
    let Some((left, right)) = ends(table.row(place).range, select) else {
        return Ok(());
    };
    add_part(span_of(table, place), left, right, bits)
}

fn add_leaf(
    table: &Table,
    name: Name,
    select: Option<Select>,
    bits: &mut Vec<Bit>,
) -> Result<(), NoMemory>
    ensures bits { OnOk result (map (view_bit table.now) bits.new.items ≡ map (view_bit table.now) bits.old.items ++ def.leaf_bits table.now (leaf_of (view_name name.entry) select)) }
    ensures row { All (IsInRow table.now) bits.old.items → All (IsInRow table.now) bits.new.items }
{
    match select {
        None => add_variable(table, name, bits),
        Some(select) => add_select(table, name, select, bits),
    }
}

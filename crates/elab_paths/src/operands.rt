// The nets of a condition's operands in an instance.
ghost use Rattle.std.specs.Prelude.{◌≡◌};
ghost use Rattle.elab_paths.specs.Operands.{operand_position, net_named};

use cond_expr::Find;
use elab_bits::position_at;
use elab_variables::Table;
use sg_circuit::{NetId, Range};
use sg_text::Text;

/// The variables of a module, and the nets of their bits in an instance.
#[derive(Clone, Copy)]
pub struct Operands<'m, 'a> {
    pub table: &'m Table<'a>,
    pub row: &'m [NetId],
}

fn position(range: Option<Range>, index: Option<i64>) -> Option<usize>
    ensures { result ≡ operand_position range index }
{
    match index {
        None => Some(0),
        Some(index) => position_at(range, index),
    }
}

impl<'m, 'a> Find for Operands<'m, 'a> {
    ghost found = { λ o n i. net_named o.table.now o.row.now n i };

    fn find(&self, name: &Text, index: Option<i64>) -> Option<u32> {
        let variable = self.table.row(self.table.find(name.bytes())?);
        let position = position(variable.range, index)?;
        let nets = self.row.get(variable.start..)?;
        nets.get(position).copied()
    }
}

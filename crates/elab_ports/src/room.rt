// Where the bits of a port stand in a row of bits.
ghost use Rattle.std.specs.Prelude.{◌≡◌, ◌+◌, ◌≤◌, ◌<◌, ◌^◌, All, IfOk, IfSome, OnOk, length, map};
ghost use Rattle.vl_tree.specs.Seen.{view_expression};
ghost use Rattle.elab_model.specs.Bits as def;
ghost use Rattle.elab_laws.specs.Handing.{all_bits};
ghost use Rattle.elab_bits.specs.Seen.{view_bit, IsInRow};
ghost use Rattle.elab_ports.specs.Binding.{room_at};

use elab_bits::{Bit, add_bits};
use elab_variables::Table;
use sg_text::NoMemory;
use vl_tree::Expression;

/// The bits of what a port is connected to, and the place in the row of `child` where they are bound; none where `child` has no such
/// variable, or no room for so many from there on.
pub(crate) fn bits_of_port(
    parent: &Table,
    child: &Table,
    port: &[u8],
    expression: &Expression,
    bits: &mut Vec<Bit>,
) -> Result<Option<usize>, NoMemory>
    ensures bits { OnOk result (map (view_bit parent.now) bits.new.items ≡ def.bits parent.now (view_expression expression.now)) }
    ensures row { OnOk result (All (IsInRow parent.now) bits.new.items) }
    ensures room { IfOk result (λ start. start ≡ room_at child.now port.now (length bits.new.items)) }
    ensures fits { IfOk result (λ start. IfSome start (λ s. s + length bits.new.items ≤ length (all_bits child.now))) }
    ensures below { IfOk result (λ start. IfSome start (λ s. s + length bits.new.items < 2 ^ 64)) }
{
    bits.clear();
    add_bits(parent, expression, bits)?;
    Ok(room(child, port, bits.len()))
}

fn room(child: &Table, port: &[u8], width: usize) -> Option<usize>
    ensures room { result ≡ room_at child.now port.now width }
    ensures fits { IfSome result (λ s. s + width ≤ length (all_bits child.now)) }
    ensures below { IfSome result (λ s. s + width < 2 ^ 64) }
{
    let place = child.find(port)?;
    let start = child.row(place).start;
    if width > child.bits() - start {
        return None;
    }
    Some(start)
}

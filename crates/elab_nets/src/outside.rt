// What lies outside the bits of an instance.
ghost use Rattle.std.specs.Prelude.{◌≡◌, ◌≤◌, ◌+◌, ◌^◌, ◌++◌, List, OnOk, IfErr, length, map};
ghost use Rattle.std.specs.List.{range_with_len};
ghost use Rattle.vl_tree.specs.Tree.{Source};
ghost use Rattle.elab_laws.specs.Handing.{all_bits};
ghost use Rattle.elab_model.specs.Hierarchy as def;
ghost use Rattle.elab_model.specs.Nets.{OwnNet};
ghost use Rattle.elab_numbering.specs.Refusals.{RefusesCount};
ghost use Rattle.elab_nets.specs.Inputs.{bound_at, number_in};
ghost use Rattle.elab_nets.specs.Outside.{outer_number, outside_nets, IsChild};
ghost use Rattle.elab_model.specs.Numbered.{undriven};

use crate::inputs::{add_constants, add_free, bound_at};
use crate::writing::add_bit_nets;
use elab_bits::Bit;
use elab_model::ElabKind;
use elab_modules::Prepared;
use elab_ports::{bound_bits, port_constants};
use elab_variables::Table;
use sg_circuit::{Net, NetId};
use sg_text::{NoMemory, Refused};
use std::alloc::Global;
use vl_tree::Instance;

/// Adds to `outer` the number of what lies outside each bit of an instance: the net of its parent that it is bound to; at an input of a leaf that is bound to a constant or to nothing a new
/// net of the parent, which is added to `nets`. `parent` and `row` are the table of the parent and the numbers of its bits, `scope` is its number.
pub fn add_outside(
    alloc: Global,
    parent: &Table,
    row: &[NetId],
    scope: u32,
    child: &Prepared,
    text: &Instance,
    leaf: bool,
    outer: &mut Vec<Option<NetId>>,
    nets: &mut Vec<Net>,
) -> Result<(), Refused<ElabKind>>
    requires row { length row.now ≡ length (all_bits parent.now) }
    requires few { length nets.old.items ≤ 2 ^ 22 }
    ensures few { length nets.new.items ≤ 2 ^ 22 }
    ensures count { OnOk result (length outer.new.items ≡ length outer.old.items + length (all_bits child.now.table)) }
    ensures outer { OnOk result ((all : List OwnNet) (source : Source) (s c : def.Instance) → IsChild all source s c parent.now row.now child.now text.now leaf scope (length nets.old.items)
        → outer.new.items ≡ outer.old.items ++ map (outer_number all source c.step c.above) (all_bits child.now.table)) }
    ensures nets { OnOk result ((all : List OwnNet) (source : Source) (s c : def.Instance) → IsChild all source s c parent.now row.now child.now text.now leaf scope (length nets.old.items)
        → nets.new.items ≡ nets.old.items ++ map undriven (outside_nets source s c)) }
    ensures refused { IfErr result (λ r. (all : List OwnNet) (source : Source) (s c : def.Instance) → IsChild all source s c parent.now row.now child.now text.now leaf scope (length nets.old.items)
        → RefusesCount (length nets.old.items + length (outside_nets source s c)) r) }
{
    let table = &child.table;
    let bits = bound_bits(alloc, parent, text, &child.ports, table)?;
    let first = outer.len();
    add_numbers(table.bits(), row, &bits, outer)?;
    if !leaf {
        return Ok(());
    }
    let mut places = Vec::new(alloc);
    add_free(table, &bits, &mut places)?;
    let constants = port_constants(alloc, parent, text, &child.ports, table)?;
    add_constants(table, &constants, &mut places)?;
    add_bit_nets(alloc, table, scope, &places, &mut outer[first..], nets)
}

// The number of the parent's net that a bit is bound to.
fn number_at(row: &[NetId], bits: &[Option<Bit>], place: usize) -> Option<NetId>
    ensures { result ≡ number_in row.now (bound_at bits.now place) }
{
    match bound_at(bits, place) {
        Some(Bit::Net(at)) => row.get(at).copied(),
        _ => None,
    }
}

fn add_numbers(
    count: usize,
    row: &[NetId],
    bits: &[Option<Bit>],
    outer: &mut Vec<Option<NetId>>,
) -> Result<(), NoMemory>
    ensures { OnOk result (outer.new.items ≡ outer.old.items ++ map (λ i. number_in row.now (bound_at bits.now i)) (range_with_len 0 count)) }
{
    for place in 0..count {
        outer.push(number_at(row, bits, place))?;
    }
    Ok(())
}

// The nets of a variable's bits.
ghost use Rattle.std.specs.Prelude.{◌≡◌, ◌+◌, ◌<◌, List, length, map, take};
ghost use Rattle.sg_circuit.specs.Closed.{width_of};
ghost use Rattle.vl_tree.specs.Tree.{Source};
ghost use Rattle.elab_model.specs.Hierarchy.{Instance};
ghost use Rattle.elab_model.specs.Nets.{OwnNet};
ghost use Rattle.elab_laws.specs.Handing.{variable_bits, all_bits, number_at};
ghost use Rattle.elab_variables.specs.Seen.{variable_at};
ghost use Rattle.elab_scopes.specs.Here.{IsHere};

use crate::here::{Here, part};
use elab_variables::Table;
use sg_circuit::NetId;

/// The nets of the bits of the variable at a place, left first.
pub fn bits_of<'l>(here: &Here<'l, '_, '_>, place: usize) -> &'l [NetId]
    requires { place < length here.now.prepared.now.table }
    ensures { (all : List OwnNet) (source : Source) (s : Instance) → IsHere all source s here.now
        → result.now ≡ map (number_at all source s) (variable_bits (variable_at here.now.prepared.now.table place)) }
{
    let table = &here.prepared.table;
    part(here.row, table.row(place).start, width_at(table, place))
}

// How many bits it has.
fn width_at(table: &Table, place: usize) -> usize
    requires { place < length table.now }
    ensures { result ≡ width_of (variable_at table.now place).range }
{
    end_of(table, place) - table.row(place).start
}

// How many bits the variables have as far as this one.
fn end_of(table: &Table, place: usize) -> usize
    requires { place < length table.now }
    ensures { result ≡ length (all_bits (take (place + 1) table.now)) }
{
    let count = table.len();
    if place + 1 < count {
        table.row(place + 1).start
    } else {
        table.bits()
    }
}

// Where the bits of a variable stand in the row.
ghost use Rattle.std.specs.Prelude.{◌≡◌, ◌+◌, ◌^◌, ◌<◌, length, take};
ghost use Rattle.sg_circuit.specs.Closed.{width_of};
ghost use Rattle.elab_variables.specs.Handing.{all_bits};
ghost use Rattle.elab_variables.specs.Seen.{variable_at};

use elab_variables::Table;

/// The places of a variable's bits, in a row that a usize counts.
#[derive(Clone, Copy)]
pub struct Span {
    pub start: usize,
    pub width: usize,
}

// Where the bits of a variable end.
fn end_of(table: &Table, place: usize) -> usize
    requires { place < length table.now }
    ensures { result ≡ length (all_bits (take (place + 1) table.now)) }
{
    let count = table.len();
    let next = place + 1;
    if next == count {
        return table.bits();
    }
    table.row(next).start
}

/// The places of the bits of the variable at a place of the table.
pub fn span_of(table: &Table, place: usize) -> Span
    requires { place < length table.now }
    ensures start { result.start ≡ length (all_bits (take place table.now)) }
    ensures width { result.width ≡ width_of (variable_at table.now place).range }
    ensures fits { result.start + result.width < 2 ^ 64 }
{
    let start = table.row(place).start;
    let end = end_of(table, place);
    Span {
        start,
        width: end - start,
    }
}

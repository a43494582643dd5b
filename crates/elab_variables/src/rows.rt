// What a module's declarations say of its variables.
ghost use Rattle.std.specs.Prelude.{◌≡◌, ◌≤◌, ℕ, List, OnOk, IfOk, length, bytes_eq, replicate};
ghost use Rattle.std.specs.List.{AllByRecursion, IsDistinct};
ghost use Rattle.std.specs.Option.{option_map};
ghost use Rattle.elab_model.specs.Names as def;
ghost use Rattle.sg_circuit.specs.Closed.{width_of};
ghost use Rattle.elab_variables.specs.Naming.{key_texts};
ghost use Rattle.elab_variables.specs.Rows.{bit_count, blank, first_said, placed, rows_said, rows_with, said_of};

use crate::tables::Row;
use elab_declared::NetDeclaration;
use indexmap::IndexSet;
use sg_circuit::{Port, Range};
use sg_text::NoMemory;
use std::alloc::Global;
use vl_tree::{Direction, PortDeclaration};

/// A declaration, and what it says of the variable of its name.
trait Declaration {
    ghost use Rattle.elab_variables.specs.declared.tables.Row.{Row as RowSeen};

    ghost text: { Self → List ℕ };

    ghost said: { Self → RowSeen → RowSeen };

    fn name(&self) -> &[u8]
        ensures { result.now ≡ text self.now };

    fn say(&self, row: Row) -> Row
        ensures { result ≡ said self.now row };

    ghost hides: { (d e : Self) (r : RowSeen) → said e (said d r) ≡ said e r };
}

fn bounds(range: Option<vl_tree::Range>) -> Option<Range>
    ensures { result ≡ option_map def.bounds range }
{
    match range {
        Some(range) => Some(Range {
            left: range.left,
            right: range.right,
        }),
        None => None,
    }
}

impl<'a> Declaration for NetDeclaration<'a> {
    ghost use Rattle.std.specs.Prelude.{refl};
    ghost use Rattle.elab_variables.specs.Rows.{net_said};

    ghost text = { λ d. d.name.text.now };

    ghost said = { net_said };

    ghost hides = { λ d e r. refl };

    fn name(&self) -> &[u8] {
        self.name.text
    }

    fn say(&self, row: Row) -> Row {
        Row {
            range: bounds(self.range),
            reg: self.reg,
            ..row
        }
    }
}

fn port_of(direction: Direction) -> Port
    ensures { result ≡ def.port_of_direction direction }
{
    match direction {
        Direction::Input => Port::Input,
        Direction::Output => Port::Output,
    }
}

impl<'a> Declaration for PortDeclaration<'a> {
    ghost use Rattle.std.specs.Prelude.{refl};
    ghost use Rattle.elab_variables.specs.Rows.{port_said};

    ghost text = { λ d. d.name.text.now };

    ghost said = { port_said };

    ghost hides = { λ d e r. refl };

    fn name(&self) -> &[u8] {
        self.name.text
    }

    fn say(&self, row: Row) -> Row {
        Row {
            range: bounds(self.range),
            port: port_of(self.direction),
            ..row
        }
    }
}

fn note<D: Declaration>(declaration: &D, names: &IndexSet<&[u8]>, rows: &mut [Row])
    requires same { length names.now.keys ≡ length rows.old }
    requires distinct { IsDistinct bytes_eq (key_texts names.now.keys) }
    ensures { rows.new ≡ rows_with (said_of (D.text declaration.now) (D.said declaration.now)) names.now.keys rows.old }
{
    if let Some(place) = names.get_index_of(declaration.name()) {
        rows[place] = declaration.say(rows[place]);
    }
}

// From the last one, so that the first of a name stands.
fn note_all<D: Declaration>(declarations: &[D], names: &IndexSet<&[u8]>, rows: &mut [Row])
    requires same { length names.now.keys ≡ length rows.old }
    requires distinct { IsDistinct bytes_eq (key_texts names.now.keys) }
    ensures { rows.new ≡ rows_with (first_said D.text D.said declarations.now) names.now.keys rows.old }
{
    let mut left = declarations;
    'more: while let [before @ .., last] = left {
        note(last, names, rows);
        left = before;
    }
}

fn width(range: Option<Range>) -> usize
    requires { width_of range ≤ 65536 }
    ensures { result ≡ width_of range }
{
    match range {
        Some(range) => range.left.abs_diff(range.right) as usize + 1,
        None => 1,
    }
}

// Sets where the bits of each variable start. Answers how many there are; more than a `usize` counts can't be held.
fn set_starts(rows: &mut [Row]) -> Result<usize, NoMemory>
    requires wide { AllByRecursion (λ r. width_of r.range ≤ 65536) rows.old }
    ensures rows { OnOk result (rows.new ≡ placed 0 rows.old) }
    ensures count { IfOk result (λ bits. bits ≡ bit_count rows.old) }
{
    let mut bits: usize = 0;
    for row in rows.iter_mut() {
        let width = width(row.range);
        row.start = bits;
        bits = bits.checked_add(width).ok_or(NoMemory)?;
    }
    Ok(bits)
}

fn fill(
    names: &IndexSet<&[u8]>,
    ports: &[PortDeclaration],
    nets: &[NetDeclaration],
    rows: &mut [Row],
) -> Result<usize, NoMemory>
    requires blank { rows.old ≡ replicate (length names.now.keys) blank }
    requires distinct { IsDistinct bytes_eq (key_texts names.now.keys) }
    requires wide { AllByRecursion (λ r. width_of r.range ≤ 65536) (rows_said ports.now nets.now names.now.keys) }
    ensures rows { OnOk result (rows.new ≡ placed 0 (rows_said ports.now nets.now names.now.keys)) }
    ensures count { IfOk result (λ bits. bits ≡ bit_count (rows_said ports.now nets.now names.now.keys)) }
{
    note_all(nets, names, rows);
    note_all(ports, names, rows);
    set_starts(rows)
}

/// The rows of the variables of these names, and how many bits they have. Takes memory.
pub fn rows_of(
    alloc: Global,
    names: &IndexSet<&[u8]>,
    ports: &[PortDeclaration],
    nets: &[NetDeclaration],
) -> Result<(Vec<Row>, usize), NoMemory>
    requires distinct { IsDistinct bytes_eq (key_texts names.now.keys) }
    requires wide { AllByRecursion (λ r. width_of r.range ≤ 65536) (rows_said ports.now nets.now names.now.keys) }
    ensures rows { IfOk result (λ made. made.0.items ≡ placed 0 (rows_said ports.now nets.now names.now.keys)) }
    ensures count { IfOk result (λ made. made.1 ≡ bit_count (rows_said ports.now nets.now names.now.keys)) }
{
    let blank = Row {
        range: None,
        reg: false,
        port: Port::Inner,
        start: 0,
    };
    let mut rows = vec![in alloc; blank; names.len()]?;
    let bits = fill(names, ports, nets, &mut rows)?;
    Ok((rows, bits))
}

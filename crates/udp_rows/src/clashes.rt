// Whether rows clash, decided column by column.
ghost use Rattle.std.specs.Prelude.{◌≡◌, ◌&&◌, MatchOption, take};
ghost use Rattle.std.specs.List.{list_any};
ghost use Rattle.udp_rows.specs.Columns.{changes_meet, values_meet, column_meets, columns_meet, rows_clash, states_differ, state_differs, NoneClash, SomeClash};

use crate::symbols::{covers_edge, covers_level, is_edge};
use crate::{Cell, RawRow};
use sg_logic::Value;
use sg_text::Place;

const VALUES: [Value; 3] = [Value::Zero, Value::One, Value::X];

const CHANGES: [(Value, Value); 6] = [
    (Value::Zero, Value::One),
    (Value::One, Value::Zero),
    (Value::Zero, Value::X),
    (Value::X, Value::One),
    (Value::One, Value::X),
    (Value::X, Value::Zero),
];

// Whether both symbols cover some value.
fn meet_at_value(a: u8, b: u8) -> bool
    ensures { result ≡ values_meet a b }
{
    VALUES
        .iter()
        .any(|v| covers_level(a, *v) && covers_level(b, *v))
}

// Whether both cells cover some change.
fn meet_at_change(a: Cell, b: Cell) -> bool
    ensures { result ≡ changes_meet a b }
{
    CHANGES
        .iter()
        .any(|(v, w)| covers_edge(a, *v, *w) && covers_edge(b, *v, *w))
}

// Whether both cells have edge symbols and cover some change, or have level symbols and cover some value.
fn meet(a: Cell, b: Cell) -> bool
    ensures { result ≡ column_meets a b }
{
    if is_edge(a) {
        is_edge(b) && meet_at_change(a, b)
    } else {
        !is_edge(b) && meet_at_value(a.first, b.first)
    }
}

fn all_meet(a: &[Cell], b: &[Cell]) -> bool
    ensures { result ≡ columns_meet a.now b.now }
{
    a.iter().zip(b).all(|(a, b)| meet(*a, *b))
}

// Whether both rows cover a state, and their outputs differ there.
fn differ_at(a: &RawRow, b: &RawRow, state: Value) -> bool
    ensures { result ≡ state_differs a.now b.now state }
{
    a.covers_state(state) && b.covers_state(state) && a.output(state) != b.output(state)
}

fn differ(a: &RawRow, b: &RawRow) -> bool
    ensures { result ≡ states_differ a.now b.now }
{
    VALUES.iter().any(|state| differ_at(a, b, *state))
}

fn clash(a: &RawRow, b: &RawRow) -> bool
    ensures { result ≡ rows_clash a.now b.now }
{
    all_meet(a.inputs.as_slice(), b.inputs.as_slice()) && differ(a, b)
}

// Whether a row clashes with one of the first `count`.
fn clashes_with_earlier(rows: &[RawRow], count: usize, row: &RawRow) -> bool
    ensures { result ≡ list_any (λ earlier. rows_clash earlier row.now) (take count rows.now) }
{
    rows.iter().take(count).any(|earlier| clash(earlier, row))
}

// The place of the first row that clashes with an earlier one.
pub(crate) fn first_clash(rows: &[RawRow]) -> Option<Place>
    ensures { MatchOption result (NoneClash rows.now) (SomeClash rows.now) }
{
    for (k, row) in rows.iter().enumerate() {
        if clashes_with_earlier(rows, k, row) {
            return Some(row.place);
        }
    }
    None
}

// Arrays of gates, one gate after another (IEEE 1364-2005, 7.1.5, 7.1.6).
use crate::bits::bit_texts;
use fit_changes::Rule;
use fit_items::{Instance, Nets, Run, name_at, range_of};
use fit_values::{Ask, View};
use itoa::Buffer;
use sg_text::NoMemory;

// No array of a netlist is larger.
const MOST_GATES: u64 = 65536;

// The bits that go to the terminals of the gates of an array.
#[derive(Drop)]
struct Row {
    bits: Vec<Vec<u8>>,
}

impl Row {
    // Those of the gate at a place: its own, or the only one.
    fn at(&self, place: usize) -> &[u8] {
        let bit = match self.bits.as_slice() {
            [only] => Some(only),
            bits => bits.get(place),
        };
        match bit {
            Some(bit) => bit,
            None => b"",
        }
    }
}

// The bits of each terminal of an array, if each has one or as many as there are gates.
fn rows_of(
    view: &View<'_, '_, '_>,
    gate: &Instance,
    count: u64,
    nets: &Nets<'_>,
) -> Result<Option<Vec<Row>>, NoMemory> {
    let mut rows = Vec::new(view.alloc);
    for terminal in &gate.connections {
        let Some(bits) = bit_texts(view, terminal.value, nets)? else {
            return Ok(None);
        };
        if bits.len() != 1 && bits.len() as u64 != count {
            return Ok(None);
        }
        rows.push(Row { bits })?;
    }
    Ok(Some(rows))
}

// Adds `\name[index]  (bits)`.
fn push_gate(
    text: &mut Vec<u8>,
    name: Option<&[u8]>,
    index: i64,
    rows: &[Row],
    place: usize,
) -> Result<(), NoMemory> {
    if let Some(name) = name {
        push_element(text, name, index)?;
    }
    text.push(b'(')?;
    for (turn, row) in rows.iter().enumerate() {
        if turn > 0 {
            text.extend_from_slice(b", ")?;
        }
        text.extend_from_slice(row.at(place))?;
    }
    text.push(b')')?;
    Ok(())
}

// Adds the name of an element, which is an escaped one.
fn push_element(text: &mut Vec<u8>, name: &[u8], index: i64) -> Result<(), NoMemory> {
    let mut buffer = Buffer::new();
    text.push(b'\\')?;
    text.extend_from_slice(name)?;
    text.push(b'[')?;
    text.extend_from_slice(buffer.format(index).as_bytes())?;
    text.extend_from_slice(b"] ")?;
    Ok(())
}

// Adds the gates of an array, if it can be written out.
fn push_array(
    view: &View<'_, '_, '_>,
    text: &mut Vec<u8>,
    gate: &Instance,
    nets: &Nets<'_>,
) -> Result<bool, NoMemory> {
    let Some((left, right)) = range_of(view.alloc, view.part, gate.range)? else {
        return Ok(false);
    };
    let Some(count) = left.abs_diff(right).checked_add(1) else {
        return Ok(false);
    };
    if count > MOST_GATES {
        return Ok(false);
    }
    let Some(rows) = rows_of(view, gate, count, nets)? else {
        return Ok(false);
    };
    let name = gate.name.and_then(|at| name_at(view.part, at));
    let mut index = left;
    for place in 0..count as usize {
        if place > 0 {
            text.extend_from_slice(b", ")?;
        }
        push_gate(text, name, index, &rows, place)?;
        index = if left > right {
            index.saturating_sub(1)
        } else {
            index.saturating_add(1)
        };
    }
    Ok(true)
}

// Adds each gate of a statement, and those of each array in it.
fn push_gates(
    view: &View<'_, '_, '_>,
    text: &mut Vec<u8>,
    instances: &[Instance],
    nets: &Nets<'_>,
) -> Result<bool, NoMemory> {
    for (place, gate) in instances.iter().enumerate() {
        if place > 0 {
            text.extend_from_slice(b", ")?;
        }
        if gate.range.is_empty() {
            view.push(text, gate.whole)?;
        } else if !push_array(view, text, gate, nets)? {
            return Ok(false);
        }
    }
    Ok(true)
}

/// Asks for single gates in the place of arrays of them.
pub fn array_asks(
    view: &View<'_, '_, '_>,
    whole: Run,
    instances: &[Instance],
    nets: &Nets<'_>,
    asks: &mut Vec<Ask>,
) -> Result<(), NoMemory> {
    let Some(first) = instances.first() else {
        return Ok(());
    };
    if instances.iter().all(|gate| gate.range.is_empty()) {
        return Ok(());
    }
    let mut text = Vec::new(view.alloc);
    if !push_gates(view, &mut text, instances, nets)? {
        return Ok(());
    }
    let mut what = view.text(first.whole)?;
    what.extend_from_slice(b" is written out")?;
    asks.push(Ask {
        run: Run {
            first: first.whole.first,
            end: whole.end.saturating_sub(1),
        },
        text,
        rule: Rule::Array,
        what,
    })?;
    Ok(())
}

// Constants without a width, sized by the net or port that they go to (IEEE 1364-2005, 3.5.1).
use crate::bits::width_of;
use fit_cells::Cells;
use fit_changes::Rule;
use fit_items::{Declared, Instance, Nets, Run, Side, name_at, tokens_of};
use fit_values::{Ask, View};
use itoa::Buffer;
use sg_text::NoMemory;
use vl_token::{Token, TokenKind};

// No constant of a netlist is wider.
const MOST_BITS: u64 = 65536;

// The only token of a run.
fn only_token<'m, 'a>(view: &View<'m, 'a, '_>, run: Run) -> Option<&'m Token<'a>> {
    match tokens_of(view.part, run) {
        [token] => Some(token),
        _ => None,
    }
}

fn push_width(text: &mut Vec<u8>, width: u64) -> Result<(), NoMemory> {
    let mut buffer = Buffer::new();
    text.extend_from_slice(buffer.format(width).as_bytes())?;
    Ok(())
}

// The constant of a number with so many bits.
fn sized_number(view: &View<'_, '_, '_>, digits: u64, width: u64) -> Result<Vec<u8>, NoMemory> {
    let mut text = Vec::new(view.alloc);
    push_width(&mut text, width)?;
    if width == 1 {
        text.extend_from_slice(if digits % 2 == 1 { b"'b1" } else { b"'b0" })?;
        return Ok(text);
    }
    text.extend_from_slice(b"'d")?;
    push_width(&mut text, digits)?;
    Ok(text)
}

// The text of a constant with so many bits, if it has no width.
fn sized_text(view: &View<'_, '_, '_>, run: Run, width: u64) -> Result<Option<Vec<u8>>, NoMemory> {
    let Some(token) = only_token(view, run) else {
        return Ok(None);
    };
    match token.kind {
        TokenKind::Number { value, whole: true } => {
            Ok(Some(sized_number(view, value.digits, width)?))
        }
        TokenKind::Unsized { .. } => {
            let mut text = Vec::new(view.alloc);
            push_width(&mut text, width)?;
            text.extend_from_slice(&view.text(run)?)?;
            Ok(Some(text))
        }
        _ => Ok(None),
    }
}

// Asks that a constant has so many bits. It says `CONSTANT is CONSTANT`.
fn constant_ask(
    view: &View<'_, '_, '_>,
    run: Run,
    width: Option<u64>,
    asks: &mut Vec<Ask>,
) -> Result<(), NoMemory> {
    let width = match width {
        Some(width) if width > 0 && width <= MOST_BITS => width,
        _ => return Ok(()),
    };
    let Some(text) = sized_text(view, run, width)? else {
        return Ok(());
    };
    let mut what = view.text(run)?;
    what.extend_from_slice(b" is ")?;
    what.extend_from_slice(&text)?;
    asks.push(Ask {
        run,
        text,
        rule: Rule::Constant,
        what,
    })?;
    Ok(())
}

/// Asks that the constants of gates have one bit.
pub fn gate_asks(
    view: &View<'_, '_, '_>,
    instances: &[Instance],
    asks: &mut Vec<Ask>,
) -> Result<(), NoMemory> {
    for gate in instances {
        if gate.range.is_empty() {
            for terminal in &gate.connections {
                constant_ask(view, terminal.value, Some(1), asks)?;
            }
        }
    }
    Ok(())
}

/// Asks that the constants of instances have as many bits as the ports that they go to.
pub fn instance_asks(
    view: &View<'_, '_, '_>,
    module: usize,
    instances: &[Instance],
    cells: &Cells<'_>,
    asks: &mut Vec<Ask>,
) -> Result<(), NoMemory> {
    let cell = name_at(view.part, module).unwrap_or(b"");
    for instance in instances {
        for (place, connection) in instance.connections.iter().enumerate() {
            let name = connection.port.and_then(|at| name_at(view.part, at));
            if only_token(view, connection.value).is_some() && instance.range.is_empty() {
                let width = cells.port(cell, name, place).and_then(|port| port.width);
                constant_ask(view, connection.value, width, asks)?;
            }
        }
    }
    Ok(())
}

/// Asks that the constants of assignments have as many bits as their left sides.
pub fn side_asks(
    view: &View<'_, '_, '_>,
    sides: &[Side],
    nets: &Nets<'_>,
    asks: &mut Vec<Ask>,
) -> Result<(), NoMemory> {
    for side in sides {
        if only_token(view, side.right).is_some() {
            constant_ask(view, side.right, width_of(view, side.left, nets)?, asks)?;
        }
    }
    Ok(())
}

/// The same of nets that are declared with a value.
pub fn net_asks(
    view: &View<'_, '_, '_>,
    names: &[Declared],
    nets: &Nets<'_>,
    asks: &mut Vec<Ask>,
) -> Result<(), NoMemory> {
    for net in names {
        if only_token(view, net.value).is_some() {
            let name = Run {
                first: net.name,
                end: net.name.saturating_add(1),
            };
            constant_ask(view, net.value, width_of(view, name, nets)?, asks)?;
        }
    }
    Ok(())
}

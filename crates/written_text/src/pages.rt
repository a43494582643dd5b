// The scope that is being written, and the names of its nets.
ghost use Rattle.std.specs.Prelude.{◌≡◌, ◌+◌, ◌<◌, ◌≤◌, ◌^◌, ◌++◌, ◌-ℤ◌, length, nat_abs, OnOk, Some};
ghost use Rattle.sg_circuit.specs.Closed.{width_of};
ghost use Rattle.sg_circuit.specs.Seen.{variable_seen};
ghost use Rattle.written_model.specs.Names.{bit_at, index_at};
ghost use Rattle.written_text.specs.Page.{IsPage, variables_of};
ghost use Rattle.written_model.specs.Text.{bit_text, edge_text, port_text, terminal_text};
ghost use Rattle.written_model.specs.Entries.{edge_of};

use crate::places::{BitPlace, place_of};
use crate::words::{push_index, push_name};
use sdf_tree::Edge;
use sg_circuit::{NetId, Parts, Range, Variable};
use sg_logic::{NEGEDGE, POSEDGE};
use std::alloc::AllocError;

/// A scope of a circuit. The table has the places of all nets of the scope's variables.
#[derive(Clone, Copy)]
pub struct Page<'a> {
    pub parts: &'a Parts,
    pub scope: u32,
    pub places: &'a [BitPlace],
}

// The index of the bit at a position from the left.
fn index_at(range: Range, position: usize) -> i64
    requires within { position ≤ nat_abs (range.left -ℤ range.right) }
    requires fits { position < 2 ^ 63 }
    ensures { result ≡ index_at range position }
{
    if range.right <= range.left {
        range.left - position as i64
    } else {
        range.left + position as i64
    }
}

// A bit of a variable.
fn push_bit(text: &mut Vec<u8>, variable: &Variable, position: usize) -> Result<(), AllocError>
    requires width { length variable.now.bits.items ≡ width_of variable.now.range }
    requires within { position < length variable.now.bits.items }
    ensures { OnOk result (text.new.items ≡ text.old.items ++ bit_text (bit_at (variable_seen variable.now) position)) }
{
    push_name(text, variable.name.bytes())?;
    match variable.range {
        Some(range) => push_index(text, index_at(range, position)),
        None => Ok(()),
    }
}

/// Adds the name of a net.
pub fn push_port(text: &mut Vec<u8>, page: &Page<'_>, net: NetId) -> Result<(), AllocError>
    requires page { IsPage page.now }
    requires net { net < length page.now.parts.now.nets.items }
    ensures { OnOk result (text.new.items ≡ text.old.items ++ port_text (variables_of page.now) net) }
{
    match place_of(page.places, page.scope + 1, net) {
        Some((variable, position)) => {
            let variables = &page.parts.scopes[page.scope as usize].variables;
            push_bit(text, &variables[variable], position)
        }
        None => Ok(()),
    }
}

fn edge_word(edge: Edge) -> &'static str
    ensures { result.now ≡ edge_text edge }
{
    match edge {
        Edge::Posedge => "posedge",
        _ => "negedge",
    }
}

fn push_edge(text: &mut Vec<u8>, page: &Page<'_>, net: NetId, edge: Edge) -> Result<(), AllocError>
    requires page { IsPage page.now }
    requires net { net < length page.now.parts.now.nets.items }
    ensures { OnOk result (text.new.items ≡ text.old.items ++ terminal_text (Some edge) (port_text (variables_of page.now) net)) }
{
    text.push(b'(')?;
    text.extend_from_slice(edge_word(edge).as_bytes())?;
    text.push(b' ')?;
    push_port(text, page, net)?;
    text.push(b')')?;
    Ok(())
}

/// Adds the name of a net behind its edge, if it has one.
pub fn push_terminal(
    text: &mut Vec<u8>,
    page: &Page<'_>,
    net: NetId,
    edge: Option<Edge>,
) -> Result<(), AllocError>
    requires page { IsPage page.now }
    requires net { net < length page.now.parts.now.nets.items }
    ensures { OnOk result (text.new.items ≡ text.old.items ++ terminal_text edge (port_text (variables_of page.now) net)) }
{
    match edge {
        Some(edge) => push_edge(text, page, net, edge),
        None => push_port(text, page, net),
    }
}

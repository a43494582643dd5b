// The head of a module (IEEE 1364-2005, 12.1).
use crate::declared::declared_of;
use crate::items::{Direction, HeadPort, Item, ItemKind, Run};
use crate::lists::comma_pieces;
use crate::readers::Reader;
use crate::signs::is_one_of;
use crate::statements::direction_of;
use sg_text::NoMemory;
use std::alloc::Global;
use vl_token::{Symbol, Token};

/// The head of a module: its parameters and its ports.
#[derive(Drop)]
pub struct Head {
    pub params: Option<Item>,
    pub ports: Vec<HeadPort>,
    pub run: Run,
    /// The place behind its semicolon.
    pub behind: usize,
}

// The direction and range of the port before.
#[derive(Clone, Copy)]
struct Before {
    direction: Option<Direction>,
    range: Run,
}

fn port_of(part: &[Token<'_>], whole: Run, before: Before) -> Option<HeadPort> {
    let mut reader = Reader::new(part, whole);
    let direction = match reader.peek() {
        Some(token) => direction_of(token),
        None => None,
    };
    if direction.is_some() {
        reader.step();
    }
    reader.pass_types();
    let range = reader.range()?;
    let name = reader.name()?;
    if !reader.is_done() && !reader.passes(Symbol::Assign) {
        return None;
    }
    let is_own = direction.is_some() || !range.is_empty();
    Some(HeadPort {
        whole,
        direction: if direction.is_some() {
            direction
        } else {
            before.direction
        },
        range: if is_own { range } else { before.range },
        name,
    })
}

fn ports_of(
    alloc: Global,
    part: &[Token<'_>],
    run: Run,
) -> Result<Option<Vec<HeadPort>>, NoMemory> {
    let mut ports = Vec::new(alloc);
    let mut before = Before {
        direction: None,
        range: Run::none(run.first),
    };
    for piece in comma_pieces(alloc, part, run)? {
        let Some(port) = port_of(part, piece, before) else {
            return Ok(None);
        };
        before = Before {
            direction: port.direction,
            range: port.range,
        };
        ports.push(port)?;
    }
    Ok(Some(ports))
}

// The parameters in the parentheses behind `#`.
fn params_of(alloc: Global, part: &[Token<'_>], inner: Run) -> Result<Option<Item>, NoMemory> {
    let mut list = Vec::new(alloc);
    for piece in comma_pieces(alloc, part, inner)? {
        let mut reader = Reader::new(part, piece);
        if reader
            .peek()
            .is_some_and(|token| is_one_of(token, &["parameter", "localparam"]))
        {
            reader.step();
        }
        let Some(declared) = declared_of(part, reader.rest()) else {
            return Ok(None);
        };
        list.push(declared)?;
    }
    Ok(Some(Item {
        whole: Run {
            first: inner.first.saturating_sub(2),
            end: inner.end.saturating_add(1),
        },
        kind: ItemKind::Params(list),
    }))
}

// What stands in the parentheses behind a module's name, and the place behind the semicolon.
fn runs_of(part: &[Token<'_>]) -> Option<(Run, Run, usize)> {
    let all = Run {
        first: 2,
        end: part.len(),
    };
    let mut reader = Reader::new(part, all);
    let params = reader.delay()?;
    let ports = reader.parens().unwrap_or(Run::none(reader.rest().first));
    if reader.passes(Symbol::Semicolon) {
        Some((params, ports, reader.rest().first))
    } else {
        None
    }
}

/// The head of a module from its tokens, if it can be read. Takes memory.
pub fn head_of(alloc: Global, part: &[Token<'_>]) -> Result<Option<Head>, NoMemory> {
    let Some((inner, run, behind)) = runs_of(part) else {
        return Ok(None);
    };
    let Some(ports) = ports_of(alloc, part, run)? else {
        return Ok(None);
    };
    let params = if inner.is_empty() {
        None
    } else {
        params_of(alloc, part, inner)?
    };
    Ok(Some(Head {
        params,
        ports,
        run,
        behind,
    }))
}

// Pulls of nets that nothing else drives, which are constants (IEEE 1364-2005, 7.8, 4.6.3).
use fit_cells::{Cell, Drivers, net_names};
use fit_changes::Rule;
use fit_items::{Declared, Direction, Instance, Run, is_one_of, name_at, push_name};
use fit_values::{Ask, View};
use sg_text::NoMemory;

/// What is known of the nets of a module.
#[derive(Clone, Copy)]
pub struct Known<'k, 'a> {
    pub cell: &'k Cell<'a>,
    pub drivers: &'k Drivers<'a>,
}

impl<'k, 'a> Known<'k, 'a> {
    // Whether nothing drives a net from outside or inside, pulls aside.
    fn is_free(&self, name: &[u8]) -> bool {
        let is_entered = match self.cell.port(name) {
            Some(port) => port.direction != Some(Direction::Output),
            None => false,
        };
        !is_entered && self.drivers.count(name) == 0
    }

    /// Whether one thing drives a net.
    pub fn is_sole(&self, name: &[u8]) -> bool {
        self.drivers.count(name) == 1
    }
}

fn are_free(
    view: &View<'_, '_, '_>,
    instances: &[Instance],
    known: &Known<'_, '_>,
) -> Result<bool, NoMemory> {
    for pull in instances {
        let [terminal] = pull.connections.as_slice() else {
            return Ok(false);
        };
        let names = net_names(view.alloc, view.part, terminal.value)?;
        let is_one = names.len() == 1 && pull.range.is_empty();
        if !is_one || !names.iter().all(|name| known.is_free(name)) {
            return Ok(false);
        }
    }
    Ok(true)
}

// Adds `NAME (net, bit)`.
fn push_buffer(
    view: &View<'_, '_, '_>,
    text: &mut Vec<u8>,
    pull: &Instance,
    bit: &[u8],
) -> Result<(), NoMemory> {
    if let Some(name) = pull.name.and_then(|at| name_at(view.part, at)) {
        push_name(text, name)?;
        text.push(b' ')?;
    }
    text.push(b'(')?;
    for terminal in &pull.connections {
        view.push(text, terminal.value)?;
    }
    text.extend_from_slice(b", ")?;
    text.extend_from_slice(bit)?;
    text.push(b')')?;
    Ok(())
}

// Adds `net`, and a comma before it where it isn't the first.
fn push_net(view: &View<'_, '_, '_>, text: &mut Vec<u8>, pull: &Instance) -> Result<(), NoMemory> {
    if !text.is_empty() {
        text.extend_from_slice(b", ")?;
    }
    for terminal in &pull.connections {
        text.extend_from_slice(&view.text(terminal.value)?)?;
    }
    Ok(())
}

/// Asks for buffers of a constant in the place of pull gates.
pub fn gate_asks(
    view: &View<'_, '_, '_>,
    whole: Run,
    word: usize,
    instances: &[Instance],
    known: &Known<'_, '_>,
    asks: &mut Vec<Ask>,
) -> Result<(), NoMemory> {
    let Some(token) = view.part.get(word) else {
        return Ok(());
    };
    let is_up = is_one_of(token, &["pullup"]);
    if !is_up && !is_one_of(token, &["pulldown"]) || !are_free(view, instances, known)? {
        return Ok(());
    }
    let bit: &[u8] = if is_up { b"1'b1" } else { b"1'b0" };
    let mut text = Vec::from_slice(view.alloc, b"buf ")?;
    let mut what = Vec::new(view.alloc);
    for (place, pull) in instances.iter().enumerate() {
        if place > 0 {
            text.extend_from_slice(b", ")?;
        }
        push_buffer(view, &mut text, pull, bit)?;
        push_net(view, &mut what, pull)?;
    }
    text.push(b';')?;
    what.extend_from_slice(b" is ")?;
    what.extend_from_slice(bit)?;
    asks.push(Ask {
        run: whole,
        text,
        rule: Rule::Pull,
        what,
    })?;
    Ok(())
}

fn is_free_net(view: &View<'_, '_, '_>, net: &Declared, known: &Known<'_, '_>) -> bool {
    match name_at(view.part, net.name) {
        Some(name) => {
            net.value.is_empty() && known.cell.port(name).is_none() && known.is_free(name)
        }
        None => false,
    }
}

/// Asks for supplies in the place of `tri0` and `tri1`.
pub fn net_asks(
    view: &View<'_, '_, '_>,
    whole: Run,
    word: usize,
    names: &[Declared],
    known: &Known<'_, '_>,
    asks: &mut Vec<Ask>,
) -> Result<(), NoMemory> {
    let Some(token) = view.part.get(word) else {
        return Ok(());
    };
    let is_one = is_one_of(token, &["tri1"]);
    if !is_one && !is_one_of(token, &["tri0"]) {
        return Ok(());
    }
    if !names.iter().all(|net| is_free_net(view, net, known)) {
        return Ok(());
    }
    let text: &[u8] = if is_one { b"supply1" } else { b"supply0" };
    let run = Run {
        first: word.saturating_add(1),
        end: whole.end.saturating_sub(1),
    };
    let mut what = view.text(run)?;
    what.extend_from_slice(b" is ")?;
    what.extend_from_slice(text)?;
    asks.push(Ask {
        run: Run {
            first: word,
            end: word.saturating_add(1),
        },
        text: Vec::from_slice(view.alloc, text)?,
        rule: Rule::Pull,
        what,
    })?;
    Ok(())
}

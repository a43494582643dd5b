// Which nets of a module the things in it drive.
use crate::cells::Cells;
use fit_items::{
    Declared, Instance, ItemKind, Module, Run, Side, SpecifyKind, SpecifyPart, is_keyword,
    is_symbol, name_at, name_of, tokens_of,
};
use indexmap::IndexMap;
use sg_text::{Keyword, NoMemory};
use std::alloc::Global;
use vl_token::{Symbol, Token, TokenKind};

// The arguments of a check from which on delayed signals stand, which their copies drive (IEEE 1364-2005, 15.8).
const DELAYED: usize = 7;

// Adds the names of a run that stand outside of brackets.
fn push_nets<'a>(part: &[Token<'a>], run: Run, names: &mut Vec<&'a [u8]>) -> Result<(), NoMemory> {
    let mut depth: u32 = 0;
    for token in tokens_of(part, run) {
        if is_symbol(token, Symbol::LeftBracket) {
            depth = depth.saturating_add(1);
        } else if is_symbol(token, Symbol::RightBracket) {
            depth = depth.saturating_sub(1);
        } else if depth == 0 {
            if let Some(name) = name_of(token) {
                names.push(name)?;
            }
        }
    }
    Ok(())
}

/// The nets that an expression names. Takes memory.
pub fn net_names<'a>(
    alloc: Global,
    part: &[Token<'a>],
    run: Run,
) -> Result<Vec<&'a [u8]>, NoMemory> {
    let mut names = Vec::new(alloc);
    push_nets(part, run, &mut names)?;
    Ok(names)
}

/// Whether a word is that of a gate with several outputs and one input.
fn has_outputs(token: Option<&Token<'_>>) -> bool {
    token.is_some_and(|token| is_keyword(token, Keyword::Buf) || is_keyword(token, Keyword::Not))
}

// `pullup` and `pulldown` aren't counted: they drive what nothing else does.
fn is_pull(token: Option<&Token<'_>>) -> bool {
    match token {
        Some(token) => match token.kind {
            TokenKind::LeftOut(_) => true,
            _ => false,
        },
        None => false,
    }
}

fn push_gates<'a>(
    part: &[Token<'a>],
    word: usize,
    instances: &[Instance],
    names: &mut Vec<&'a [u8]>,
) -> Result<(), NoMemory> {
    if is_pull(part.get(word)) {
        return Ok(());
    }
    for gate in instances {
        let count = if has_outputs(part.get(word)) {
            gate.connections.len().saturating_sub(1)
        } else {
            1
        };
        for terminal in gate.connections.iter().take(count) {
            push_nets(part, terminal.value, names)?;
        }
    }
    Ok(())
}

fn push_sides<'a>(
    part: &[Token<'a>],
    sides: &[Side],
    names: &mut Vec<&'a [u8]>,
) -> Result<(), NoMemory> {
    for side in sides {
        push_nets(part, side.left, names)?;
    }
    Ok(())
}

fn is_supply(token: Option<&Token<'_>>) -> bool {
    token.is_some_and(|token| {
        is_keyword(token, Keyword::Supply0) || is_keyword(token, Keyword::Supply1)
    })
}

fn push_declared<'a>(
    part: &[Token<'a>],
    word: usize,
    declared: &[Declared],
    names: &mut Vec<&'a [u8]>,
) -> Result<(), NoMemory> {
    let all = is_supply(part.get(word));
    for net in declared {
        if all || !net.value.is_empty() {
            if let Some(name) = name_at(part, net.name) {
                names.push(name)?;
            }
        }
    }
    Ok(())
}

fn push_delayed<'a>(
    part: &[Token<'a>],
    parts: &[SpecifyPart],
    names: &mut Vec<&'a [u8]>,
) -> Result<(), NoMemory> {
    for specify in parts {
        if let SpecifyKind::Check { arguments, .. } = &specify.kind {
            for run in arguments.iter().skip(DELAYED) {
                push_nets(part, *run, names)?;
            }
        }
    }
    Ok(())
}

/// Adds the nets that a statement drives, but for those that instances do; each name in one that no rule knows. Takes memory.
pub fn push_driven<'a>(
    part: &[Token<'a>],
    whole: Run,
    kind: &ItemKind,
    names: &mut Vec<&'a [u8]>,
) -> Result<(), NoMemory> {
    match kind {
        ItemKind::Gates {
            word,
            instances,
            ..
        } => push_gates(part, *word, instances, names),
        ItemKind::Assign { sides, .. } => push_sides(part, sides, names),
        ItemKind::Nets {
            word,
            names: declared,
            ..
        } => push_declared(part, *word, declared, names),
        ItemKind::Specify(parts) => push_delayed(part, parts, names),
        ItemKind::Other => push_nets(part, whole, names),
        _ => Ok(()),
    }
}

// Adds the nets that an instance drives.
fn push_instance<'a>(
    part: &[Token<'a>],
    cell: &[u8],
    instance: &Instance,
    cells: &Cells<'_>,
    names: &mut Vec<&'a [u8]>,
) -> Result<(), NoMemory> {
    for (place, connection) in instance.connections.iter().enumerate() {
        let port = connection.port.and_then(|at| name_at(part, at));
        let drives = cells
            .port(cell, port, place)
            .is_some_and(|port| port.drives);
        if drives {
            push_nets(part, connection.value, names)?;
        }
    }
    Ok(())
}

fn push_all<'a>(
    part: &[Token<'a>],
    whole: Run,
    kind: &ItemKind,
    cells: &Cells<'_>,
    names: &mut Vec<&'a [u8]>,
) -> Result<(), NoMemory> {
    let ItemKind::Instances {
        module,
        instances,
        ..
    } = kind
    else {
        return push_driven(part, whole, kind, names);
    };
    let cell = name_at(part, *module).unwrap_or(b"");
    for instance in instances {
        push_instance(part, cell, instance, cells, names)?;
    }
    Ok(())
}

/// How often each net of a module is driven, pulls aside.
#[derive(Drop)]
pub struct Drivers<'a> {
    counts: IndexMap<&'a [u8], u32>,
}

impl<'a> Drivers<'a> {
    /// How many things drive a net or bits of it.
    pub fn count(&self, name: &[u8]) -> u32 {
        self.counts.get(name).copied().unwrap_or(0)
    }

    fn add(&mut self, names: &[&'a [u8]]) -> Result<(), NoMemory> {
        for name in names {
            let count = self.counts.entry(*name)?.or_insert(0);
            *count = count.saturating_add(1);
        }
        Ok(())
    }
}

/// Counts what drives each net of a module. Takes memory.
pub fn drivers_of<'a>(
    alloc: Global,
    part: &[Token<'a>],
    module: &Module,
    cells: &Cells<'_>,
) -> Result<Drivers<'a>, NoMemory> {
    let mut drivers = Drivers {
        counts: IndexMap::new(alloc),
    };
    for item in &module.items {
        let mut names = Vec::new(alloc);
        push_all(part, item.whole, &item.kind, cells, &mut names)?;
        drivers.add(&names)?;
    }
    Ok(drivers)
}

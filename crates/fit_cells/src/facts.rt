// The first pass over a netlist: what its modules and primitives are.
use crate::cells::{Cell, Cells};
use crate::drivers::push_driven;
use crate::links::{Link, Scope, add_links};
use fit_items::{ItemKind, Module, name_at, part_name, read_module};
use fit_parts::part_end;
use indexmap::IndexSet;
use sg_text::NoMemory;
use std::alloc::Global;
use vl_token::Token;

// Notes which inout ports the statements of a module drive, its instances aside.
fn drive_ports<'a>(
    alloc: Global,
    part: &[Token<'a>],
    module: &Module,
    cell: &mut Cell<'a>,
) -> Result<(), NoMemory> {
    for item in &module.items {
        let mut names = Vec::new(alloc);
        push_driven(part, item.whole, &item.kind, &mut names)?;
        for name in &names {
            if cell.is_inout(name) {
                cell.drive(name);
            }
        }
    }
    Ok(())
}

// Adds the links of a module's inout ports.
fn link_ports<'a>(
    alloc: Global,
    part: &[Token<'a>],
    module: &Module,
    owner: &Cell<'a>,
    links: &mut Vec<Link<'a>>,
) -> Result<(), NoMemory> {
    let mut known: IndexSet<(&'a [u8], &'a [u8], &'a [u8])> = IndexSet::new(alloc);
    for item in &module.items {
        if let ItemKind::Instances {
            module: at,
            instances,
            ..
        } = &item.kind
        {
            let scope = Scope {
                alloc,
                part,
                owner,
                name: part_name(part),
                cell: name_at(part, *at).unwrap_or(b""),
            };
            for instance in instances {
                add_links(&scope, instance, &mut known, links)?;
            }
        }
    }
    Ok(())
}

fn note_uses<'a>(
    part: &[Token<'a>],
    module: &Module,
    cells: &mut Cells<'a>,
) -> Result<(), NoMemory> {
    for item in &module.items {
        if let ItemKind::Instances { module: at, .. } = &item.kind {
            if let Some(name) = name_at(part, *at) {
                cells.use_name(name)?;
            }
        }
    }
    Ok(())
}

fn add_part<'a>(
    alloc: Global,
    part: &[Token<'a>],
    cells: &mut Cells<'a>,
    links: &mut Vec<Link<'a>>,
) -> Result<(), NoMemory> {
    let mut cell = Cell::new(alloc, part);
    if let Some(module) = read_module(alloc, part)? {
        cell.add_ports(alloc, part, &module)?;
        note_uses(part, &module, cells)?;
        if cell.has_inouts() {
            drive_ports(alloc, part, &module, &mut cell)?;
            link_ports(alloc, part, &module, &cell, links)?;
        }
    }
    cells.add(part_name(part), cell)
}

/// What the modules and primitives of a netlist are. Takes memory in proportion to their number and that of their ports.
pub fn cells_of<'a>(alloc: Global, tokens: &[Token<'a>]) -> Result<Cells<'a>, NoMemory> {
    let mut cells = Cells::new(alloc);
    let mut links = Vec::new(alloc);
    let mut at = 0;
    while at < tokens.len() {
        let end = part_end(tokens, at);
        add_part(alloc, &tokens[at..end], &mut cells, &mut links)?;
        at = end;
    }
    cells.settle(&links);
    Ok(cells)
}

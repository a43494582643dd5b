// The names of a module.
use crate::library::Unit;
use fit_items::{Direction, ItemKind, Module, Nets, name_at, name_of, nets_of};
use indexmap::{IndexMap, IndexSet};
use sg_text::NoMemory;
use std::alloc::Global;
use vl_token::Token;

/// The ports of a module in the order of its head, and its nets.
#[derive(Drop)]
pub struct Scope<'a> {
    pub ports: Vec<&'a [u8]>,
    pub nets: Nets<'a>,
    directions: IndexMap<&'a [u8], Direction>,
}

impl<'a> Scope<'a> {
    pub fn direction_of(&self, name: &[u8]) -> Option<Direction> {
        self.directions.get(name).copied()
    }

    fn add_head(&mut self, part: &[Token<'a>], module: &Module) -> Result<(), NoMemory> {
        for port in &module.head {
            let Some(name) = name_at(part, port.name) else {
                continue;
            };
            self.ports.push(name)?;
            if let Some(direction) = port.direction {
                self.directions.insert(name, direction)?;
            }
        }
        Ok(())
    }

    fn add_ports(
        &mut self,
        part: &[Token<'a>],
        names: &[usize],
        direction: Direction,
    ) -> Result<(), NoMemory> {
        for at in names {
            if let Some(name) = name_at(part, *at) {
                self.directions.insert(name, direction)?;
            }
        }
        Ok(())
    }
}

/// The names of a module. Takes memory.
pub fn scope_of<'a>(
    alloc: Global,
    part: &[Token<'a>],
    module: &Module,
) -> Result<Scope<'a>, NoMemory> {
    let mut scope = Scope {
        ports: Vec::new(alloc),
        nets: nets_of(alloc, part, module)?,
        directions: IndexMap::new(alloc),
    };
    scope.add_head(part, module)?;
    for item in &module.items {
        if let ItemKind::Ports {
            direction,
            names,
            ..
        } = &item.kind
        {
            scope.add_ports(part, names, *direction)?;
        }
    }
    Ok(scope)
}

/// Names that are taken in a module.
#[derive(Drop)]
pub struct Taken {
    names: IndexSet<Vec<u8>>,
}

impl Taken {
    /// Takes a name, if it is free.
    pub fn take(&mut self, alloc: Global, name: &[u8]) -> Result<bool, NoMemory> {
        if self.names.contains(name) {
            return Ok(false);
        }
        self.names.insert(Vec::from_slice(alloc, name)?)?;
        Ok(true)
    }
}

/// All names of a part. Takes memory.
pub fn names_of(alloc: Global, unit: &Unit<'_, '_>) -> Result<Taken, NoMemory> {
    let mut taken = Taken {
        names: IndexSet::new(alloc),
    };
    for token in unit.part {
        if let Some(name) = name_of(token) {
            taken.take(alloc, name)?;
        }
    }
    Ok(taken)
}

// The parts of a netlist by their names, each read.
use crate::fates::statement_of;
use fit_items::{
    Item, ItemKind, Module, Run, is_keyword, name_at, name_of, part_name, read_module, tokens_of,
};
use indexmap::{IndexMap, IndexSet};
use sg_text::{Keyword, NoMemory};
use std::alloc::Global;
use vl_token::{Mark, Token, TokenKind};

/// What a part is.
#[derive(Drop)]
pub enum UnitKind {
    Module(Module),
    Primitive,
    /// A part whose statements can't be told apart.
    Unread,
}

/// A part of a netlist.
#[derive(Drop)]
pub struct Unit<'t, 'a> {
    pub part: &'t [Token<'a>],
    pub name: &'a [u8],
    pub mark: Option<Mark>,
    pub kind: UnitKind,
}

/// All parts, in order.
#[derive(Drop)]
pub struct Library<'t, 'a> {
    pub units: Vec<Unit<'t, 'a>>,
    places: IndexMap<&'a [u8], usize>,
}

impl Unit<'_, '_> {
    pub fn module(&self) -> Option<&Module> {
        match &self.kind {
            UnitKind::Module(module) => Some(module),
            UnitKind::Primitive | UnitKind::Unread => None,
        }
    }

    pub fn is_cell(&self) -> bool {
        self.mark.is_some_and(|mark| mark.cell)
    }

    fn is_outer(&self) -> bool {
        self.mark.is_some_and(|mark| !mark.cell)
    }
}

impl<'t, 'a> Library<'t, 'a> {
    /// The number of the part of a name; the first, where several have it.
    pub fn place_of(&self, name: &[u8]) -> Option<usize> {
        self.places.get(name).copied()
    }

    pub fn unit_of(&self, name: &[u8]) -> Option<&Unit<'t, 'a>> {
        self.units.get(self.place_of(name)?)
    }

    fn add(&mut self, alloc: Global, part: &'t [Token<'a>]) -> Result<(), NoMemory> {
        let name = part_name(part);
        if !self.places.contains_key(name) {
            self.places.insert(name, self.units.len())?;
        }
        let kind = match read_module(alloc, part)? {
            Some(module) => UnitKind::Module(module),
            None if is_primitive(part) => UnitKind::Primitive,
            None => UnitKind::Unread,
        };
        self.units.push(Unit {
            part,
            name,
            mark: mark_of(part),
            kind,
        })?;
        Ok(())
    }
}

fn is_primitive(part: &[Token<'_>]) -> bool {
    part.first()
        .is_some_and(|token| is_keyword(token, Keyword::Primitive))
}

fn mark_of(part: &[Token<'_>]) -> Option<Mark> {
    match part.first()?.kind {
        TokenKind::Module(mark) => Some(mark),
        _ => None,
    }
}

fn ends_part(token: &Token<'_>) -> bool {
    is_keyword(token, Keyword::EndModule) || is_keyword(token, Keyword::EndPrimitive)
}

/// Reads the parts that have an end. Takes memory.
pub fn read_library<'t, 'a>(
    alloc: Global,
    tokens: &'t [Token<'a>],
) -> Result<Library<'t, 'a>, NoMemory> {
    let mut library = Library {
        units: Vec::new(alloc),
        places: IndexMap::new(alloc),
    };
    let mut first = 0;
    for at in 0..tokens.len() {
        if tokens.get(at).is_some_and(|token| ends_part(token)) {
            let end = at + 1;
            library.add(alloc, tokens_of(tokens, Run { first, end }))?;
            first = end;
        }
    }
    Ok(library)
}

/// The modules that a part may use: those of its instances, or all its names where it can't be read.
fn add_used<'a>(unit: &Unit<'_, 'a>, used: &mut IndexSet<&'a [u8]>) -> Result<(), NoMemory> {
    match &unit.kind {
        UnitKind::Module(module) => add_used_by(unit.part, &module.items, used),
        UnitKind::Primitive => Ok(()),
        UnitKind::Unread => {
            for token in unit.part.iter().skip(2) {
                if let Some(name) = name_of(token) {
                    used.insert(name)?;
                }
            }
            Ok(())
        }
    }
}

fn add_used_by<'a>(
    part: &[Token<'a>],
    items: &[Item],
    used: &mut IndexSet<&'a [u8]>,
) -> Result<(), NoMemory> {
    for item in items {
        if let ItemKind::Instances { module, .. } = &item.kind {
            if let Some(name) = part.get(*module).and_then(|token| name_of(token)) {
                used.insert(name)?;
            }
        }
    }
    Ok(())
}

/// The number of the top: the module of a name, or else the only one that is no cell and that nothing uses. Takes memory.
pub fn top_of(
    alloc: Global,
    library: &Library<'_, '_>,
    name: Option<&str>,
) -> Result<Option<usize>, NoMemory> {
    if let Some(name) = name {
        return Ok(library.place_of(name.as_bytes()));
    }
    let mut used = IndexSet::new(alloc);
    for unit in &library.units {
        add_used(unit, &mut used)?;
    }
    let mut top = None;
    for (place, unit) in library.units.iter().enumerate() {
        if unit.is_outer() && !used.contains(unit.name) {
            if top.is_some() {
                return Ok(None);
            }
            top = Some(place);
        }
    }
    Ok(top)
}

/// The number of the module of which an item has instances, if it is one that was read.
pub fn child_of(library: &Library<'_, '_>, unit: &Unit<'_, '_>, item: &Item) -> Option<usize> {
    let statement = statement_of(item)?;
    let child = library.place_of(name_at(unit.part, statement.module)?)?;
    library.units.get(child)?.module()?;
    Some(child)
}

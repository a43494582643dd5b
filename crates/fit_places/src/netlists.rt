// The modules of a netlist by their names, and its top.
use crate::modules::{Module, module_of};
use indexmap::{IndexMap, IndexSet};
use sg_text::NoMemory;
use std::alloc::Global;
use vl_tree::{Item, Part, Source};

/// A netlist as entries of SDF files see it.
#[derive(Drop)]
pub struct Netlist<'s, 'a> {
    pub modules: IndexMap<&'a [u8], Module<'s, 'a>>,
    pub top: Option<usize>,
}

fn add_used<'a>(items: &[Item<'a>], used: &mut IndexSet<&'a [u8]>) -> Result<(), NoMemory> {
    for item in items {
        if let Item::Instances { module, .. } = item {
            used.insert(module.text)?;
        }
    }
    Ok(())
}

// The only module that is no cell and that none uses.
fn only_top<'a>(alloc: Global, source: &Source<'a>) -> Result<Option<&'a [u8]>, NoMemory> {
    let mut used: IndexSet<&[u8]> = IndexSet::new(alloc);
    for part in &source.parts {
        if let Part::Module(module) = part {
            add_used(&module.items, &mut used)?;
        }
    }
    let mut found = None;
    for part in &source.parts {
        if let Part::Module(module) = part {
            if !module.mark.cell && !used.contains(module.name.text) {
                if found.is_some() {
                    return Ok(None);
                }
                found = Some(module.name.text);
            }
        }
    }
    Ok(found)
}

impl<'s, 'a> Netlist<'s, 'a> {
    /// The modules of a tree, below the top of a name, or else below the only one that may be it. Takes time and memory in proportion to
    /// the tree.
    pub fn new(
        alloc: Global,
        source: &'s Source<'a>,
        top: Option<&[u8]>,
    ) -> Result<Netlist<'s, 'a>, NoMemory> {
        let mut modules: IndexMap<&[u8], Module<'s, 'a>> = IndexMap::new(alloc);
        for part in &source.parts {
            if let Part::Module(tree) = part {
                let module = module_of(alloc, tree)?;
                modules.insert(module.name, module)?;
            }
        }
        let top = match top {
            Some(name) => modules.get_index_of(name),
            None => match only_top(alloc, source)? {
                Some(name) => modules.get_index_of(name),
                None => None,
            },
        };
        Ok(Netlist { modules, top })
    }

    /// Says of a module, if it is there, that an `ifnone` of it was changed.
    pub fn mark(&mut self, name: &[u8]) {
        if let Some(module) = self.modules.get_mut(name) {
            module.is_marked = true;
        }
    }

    /// A module by its place.
    pub fn module(&self, place: usize) -> Option<&Module<'s, 'a>> {
        match self.modules.get_index(place) {
            Some((_, module)) => Some(module),
            None => None,
        }
    }

    /// Whether a module has no instance of another.
    pub fn is_leaf(&self, module: &Module<'s, 'a>) -> bool {
        !module
            .children
            .values()
            .any(|child| self.modules.contains_key(child.module))
    }
}

// Which parts use which.
use crate::below::Below;
use crate::names::{add_items, name_of};
use crate::parts::Heading;
use crate::tops::only_top;
use indexmap::IndexSet;
use sg_text::NoMemory;
use std::alloc::Global;
use vl_tree::Part;

/// Parts of a netlist by their names, and what each uses.
#[derive(Drop)]
pub struct Web<'a> {
    alloc: Global,
    names: IndexSet<&'a [u8]>,
    // what each of them uses, in their order
    uses: Vec<IndexSet<&'a [u8]>>,
    // what any part uses
    used: IndexSet<&'a [u8]>,
    // whether two parts have one name
    twice: bool,
}

// The names that are held, and the places of the parts among them in the order in which they were met.
#[derive(Drop)]
struct Held<'a> {
    names: IndexSet<&'a [u8]>,
    places: Vec<usize>,
}

impl<'a> Web<'a> {
    pub fn new(alloc: Global) -> Web<'a> {
        Web {
            alloc,
            names: IndexSet::new(alloc),
            uses: Vec::new(alloc),
            used: IndexSet::new(alloc),
            twice: false,
        }
    }

    /// Adds a part. Takes memory.
    pub fn add(&mut self, part: &Part<'a>) -> Result<(), NoMemory> {
        let mut uses: IndexSet<&'a [u8]> = IndexSet::new(self.alloc);
        if let Part::Module(module) = part {
            add_items(&module.items, &mut uses)?;
            add_items(&module.items, &mut self.used)?;
        }
        if self.names.insert(name_of(part))? {
            self.uses.push(uses)?;
        } else {
            self.twice = true;
        }
        Ok(())
    }

    /// The name of the top among the parts that were read: the one of a name, or else the only one that may be it.
    pub fn top<'r>(
        &self,
        read: &[Heading<'r>],
        name: Option<&[u8]>,
    ) -> Result<Option<&'r [u8]>, NoMemory> {
        match name {
            Some(name) => Ok(find(read, name)),
            None => only_top(self.alloc, read, &self.used),
        }
    }

    /// The names below a top and its own: of all that there may be where there is no top, or two parts have one name. Takes memory.
    pub fn below(&self, top: Option<&'a [u8]>) -> Result<Below<'a>, NoMemory> {
        match top {
            Some(top) if !self.twice => self.below_top(top),
            _ => Ok(Below::All),
        }
    }

    fn below_top(&self, top: &'a [u8]) -> Result<Below<'a>, NoMemory> {
        let mut held = Held {
            names: IndexSet::new(self.alloc),
            places: Vec::new(self.alloc),
        };
        self.hold(top, &mut held)?;
        // (each part is met once)
        for turn in 0..self.names.len() {
            let Some(place) = held.places.get(turn).copied() else {
                break;
            };
            self.hold_used(place, &mut held)?;
        }
        Ok(Below::Names(held.names))
    }

    fn hold(&self, name: &'a [u8], held: &mut Held<'a>) -> Result<(), NoMemory> {
        if !held.names.insert(name)? {
            return Ok(());
        }
        if let Some(place) = self.names.get_index_of(name) {
            held.places.push(place)?;
        }
        Ok(())
    }

    fn hold_used(&self, place: usize, held: &mut Held<'a>) -> Result<(), NoMemory> {
        if let Some(uses) = self.uses.get(place) {
            for name in uses.as_slice() {
                self.hold(name, held)?;
            }
        }
        Ok(())
    }
}

fn find<'r>(read: &[Heading<'r>], name: &[u8]) -> Option<&'r [u8]> {
    for part in read {
        if let Some(other) = part.name {
            if other == name {
                return Some(other);
            }
        }
    }
    None
}

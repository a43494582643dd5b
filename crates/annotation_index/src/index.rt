// An index of items by a number and a name.
ghost use Rattle.std.specs.Prelude.{◌≡◌, ◌++◌, [], ℕ, List, OnOk};
ghost use Rattle.annotation_index.specs.Index.{AreNamed, items_in, list_at, one_if, same_key};

use indexmap::{IndexMap, IndexSet};
use sg_text::NoMemory;
use std::alloc::Global;

/// Items by a number and a name, as the variables of scopes by a scope and a name, or the instances in a scope by its number and a name.
#[derive(Drop)]
pub struct Index<'a> {
    lists: IndexMap<(u32, &'a [u8]), Vec<u32>>,
    names: IndexSet<&'a [u8]>,
}

// What was in a list that was taken out, or nothing.
fn taken(alloc: Global, list: Option<Vec<u32>>) -> Vec<u32>
    ensures { result.items ≡ items_in list }
{
    match list {
        Some(list) => list,
        None => Vec::new(alloc),
    }
}

impl<'a> Index<'a> {
    /// An index of nothing.
    pub fn new(alloc: Global) -> Index<'a>
        ensures items { (owner : ℕ) (name : List ℕ) → list_at result owner name ≡ [] }
        ensures named { AreNamed result }
    {
        Index {
            lists: IndexMap::new(alloc),
            names: IndexSet::new(alloc),
        }
    }

    /// An item more.
    pub fn add(
        &mut self,
        alloc: Global,
        owner: u32,
        name: &'a [u8],
        item: u32,
    ) -> Result<(), NoMemory>
        requires named { AreNamed self.old }
        ensures items { OnOk result ((o : ℕ) (n : List ℕ) → list_at self.new o n ≡ list_at self.old o n ++ one_if (same_key owner name.now o n) item) }
        ensures named { OnOk result (AreNamed self.new) }
    {
        let mut list = taken(alloc, self.lists.swap_remove(&(owner, name)));
        list.push(item)?;
        self.lists.insert((owner, name), list)?;
        self.names.insert(name)?;
        Ok(())
    }

    /// The items that have a number and a name, as they were added.
    pub fn get(&self, owner: u32, name: &[u8]) -> &[u32]
        requires named { AreNamed self.now }
        ensures { result.now ≡ list_at self.now owner name.now }
    {
        let Some(known) = self.names.get(name) else {
            return &[];
        };
        match self.lists.get(&(owner, *known)) {
            Some(list) => list,
            None => &[],
        }
    }
}

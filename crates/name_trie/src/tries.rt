// A set of names as a tree of their bytes.
use crate::ways::Way;
use indexmap::IndexMap;
use sg_text::NoMemory;
use std::alloc::Global;

// The node at which each name begins.
const ROOT: usize = 0;

/// A set of names. Names with the same first bytes share the nodes of these, so a text is looked up together with all its fronts. Each name is added, and each text looked up, in
/// time in proportion to its length.
#[derive(Drop)]
pub struct Trie {
    // From a node and a byte to the next node.
    steps: IndexMap<(usize, u8), usize>,
    // Whether a name ends at a node.
    ends: Vec<bool>,
}

impl Trie {
    ghost use Rattle.std.specs.Prelude.{◌≡◌, ◌∷◌, ◌++◌, [], ◌<◌, ◌||◌, ℕ, List, Some, false, OnOk, IfOk, bytes_eq, length, option_and_then, slice_index_or, take};
    ghost use Rattle.name_trie.specs.Tree.{IsTree, Steps, flag, follow, has, steps_of};
    ghost use Rattle.name_trie.specs.Turned.{turned};

    /// A set of no names.
    pub fn new(alloc: Global) -> Result<Trie, NoMemory>
        ensures tree { IfOk result IsTree }
        ensures names { IfOk result (λ t. (n : List ℕ) → has t n ≡ false) }
    {
        let mut ends = Vec::new(alloc);
        ends.push(false)?;
        Ok(Trie {
            steps: IndexMap::new(alloc),
            ends,
        })
    }

    /// One name more, gone through that way. Takes memory in proportion to it.
    pub fn add(&mut self, way: Way, name: &[u8]) -> Result<(), NoMemory>
        requires tree { IsTree self.old }
        ensures tree { OnOk result (IsTree self.new) }
        ensures names { OnOk result ((n : List ℕ) → has self.new n ≡ (bytes_eq (turned way name.now) n || has self.old n)) }
    {
        let mut node: usize = ROOT;
        for count in 0..name.len() {
            node = self.grow(node, way.byte(name, count))?;
        }
        self.ends[node] = true;
        Ok(())
    }

    // The node to which a byte leads, made where there is none.
    fn grow(&mut self, node: usize, byte: u8) -> Result<usize, NoMemory>
        requires tree { IsTree self.old }
        requires node { node < length self.old.ends.items }
        ensures { IfOk result (λ next. Steps self.old self.new node byte next) }
    {
        if let Some(next) = self.steps.get(&(node, byte)) {
            return Ok(*next);
        }
        let next = self.ends.len();
        self.ends.push(false)?;
        self.steps.insert((node, byte), next)?;
        Ok(next)
    }

    /// Of each front of a text that is shorter than it, whether it is a name, where the text is gone through that way.
    pub fn fronts(&self, alloc: Global, way: Way, text: &[u8]) -> Result<Vec<bool>, NoMemory>
        ensures count { IfOk result (λ marks. length marks.items ≡ length text.now) }
        ensures marks { IfOk result (λ marks. (k : ℕ) → k < length text.now → slice_index_or marks.items k false ≡ has self.now (take k (turned way text.now))) }
    {
        let mut marks = Vec::new(alloc);
        let mut node = Some(ROOT);
        for count in 0..text.len() {
            marks.push(self.ends_at(node))?;
            node = self.next(node, way.byte(text, count));
        }
        Ok(marks)
    }

    // Whether a name ends at a node.
    fn ends_at(&self, node: Option<usize>) -> bool
        ensures { result ≡ flag self.now.ends.items node }
    {
        match node {
            Some(node) => self.ends.get(node).copied().unwrap_or(false),
            None => false,
        }
    }

    // The node to which a byte leads, if there is one.
    fn next(&self, node: Option<usize>, byte: u8) -> Option<usize>
        ensures { result ≡ option_and_then (λ n. steps_of self.now n byte) node }
    {
        let node = node?;
        self.steps.get(&(node, byte)).copied()
    }
}

// The copies of a module's signals.
ghost use Rattle.std.specs.Prelude.{◌≡◌, IfSome, Some, map, option_map, slice_get};
ghost use Rattle.std.specs.List.{position_from};
ghost use Rattle.vl_tree.specs.Tree.{Module};
ghost use Rattle.elab_lates.specs.Copies.{AreCopies};
ghost use Rattle.elab_lates.specs.Seen.{AreCopiesInRow, IsCopyInRow, copy_seen, placed_seen};
ghost use Rattle.elab_lates.specs.Words.{IsOwn};
ghost use Rattle.elab_model.specs.Lates as def;
ghost use Rattle.elab_model.specs.Members.{Member, members};
ghost use Rattle.elab_model.specs.Names.{variables};

use indexmap::IndexSet;
use sg_text::Place;

/// A delayed copy of a bit, by places in the row of bits of the module's table: the signal, and the bit that the text names for the copy.
#[derive(Clone, Copy, Debug, PartialEq, Eq, Hash)]
pub struct DelayedCopy {
    pub signal: usize,
    pub named: Option<usize>,
}

/// A copy, and the place in the text that asks for it.
#[derive(Clone, Copy, Debug)]
pub struct PlacedCopy {
    pub place: Place,
    pub copy: DelayedCopy,
}

/// The delayed copies of a module's signals (IEEE 1364-2005, 15.8).
#[derive(Drop)]
pub struct ModuleCopies {
    /// Each once, in text order, with the place that asks for it first.
    pub copies: Vec<PlacedCopy>,
    /// Where those that each member is the first to ask for begin among them; one entry more than there are members.
    pub starts: Vec<usize>,
    /// How many bits have copies.
    pub signals: usize,
    // The same copies in the same order, to find one.
    pub(crate) index: IndexSet<DelayedCopy>,
}

impl ModuleCopies {
    /// Those that a member is the first to ask for.
    pub fn own(&self, member: usize) -> &[PlacedCopy]
        ensures own { (m : Module) (i : Member) → AreCopies m self.now → slice_get (members m) member ≡ Some i → map (placed_seen (variables m)) result.now ≡ def.own_copies m (member, i) }
        ensures row { (m : Module) → AreCopies m self.now → AreCopiesInRow (variables m) result.now }
    {
        self.span(member).unwrap_or(&[])
    }

    fn span(&self, member: usize) -> Option<&[PlacedCopy]>
        ensures own { (m : Module) (i : Member) → AreCopies m self.now → slice_get (members m) member ≡ Some i → IsOwn m (member, i) (option_map (λ p. p.now) result) }
        ensures row { (m : Module) → AreCopies m self.now → IfSome result (λ p. AreCopiesInRow (variables m) p.now) }
    {
        let first = *self.starts.get(member)?;
        let end = *self.starts.get(member + 1)?;
        self.copies.get(first..end)
    }

    /// The place of a copy among them.
    pub fn find(&self, copy: DelayedCopy) -> Option<usize>
        ensures { (m : Module) → AreCopies m self.now → IsCopyInRow (variables m) copy
            → result ≡ position_from (λ d. def.is_same_copy (copy_seen (variables m) copy) d.1) 0 (def.module_copies m) }
    {
        self.index.get_index_of(&copy)
    }
}

// Who is told of the cells and entries of a file.
ghost use Rattle.std.specs.Prelude.{[], ◌++◌, IfSome, List, map};
ghost use Rattle.sdf_meaning.specs.MeantSeen.{view_meant};
ghost use Rattle.sdf_tree.specs.declared.tree.Cell as code_cell;
ghost use Rattle.sdf_stream.specs.Told.{Told, told};

use sdf_tree::{Cell, Entry};
use std::alloc::Global;

/// Is told of the cells of a file and of their entries, in the order of the file. What it makes of them may be anything that is made of
/// one list of entries and then of the next.
pub trait Visit {
    /// It may be told of a cell.
    ghost ready: { Self → Type 0 };

    /// It may be told of entries of this cell.
    ghost within: { Self → code_cell.Cell → Type 0 };

    /// What it was and what it is after these entries.
    ghost came: { Self → Self → List Told → Type 0 };

    /// Is told of a cell, without its entries.
    fn cell(&mut self, alloc: Global, cell: &Cell<'_>) -> Option<()>
        requires { ready self.old }
        ensures within { IfSome result (λ _. within self.new cell.now) }
        ensures came { IfSome result (λ _. came self.old self.new []) };

    /// Is told of entries of the cell.
    fn entries(&mut self, alloc: Global, cell: &Cell<'_>, entries: &[Entry<'_>]) -> Option<()>
        requires { within self.old cell.now }
        ensures within { IfSome result (λ _. within self.new cell.now) }
        ensures came { IfSome result (λ _. came self.old self.new (told cell.now (map view_meant entries.now))) };

    ghost leaves: { (v : Self) (cell : code_cell.Cell) → within v cell → ready v };

    ghost came_none: { (v : Self) → ready v → came v v [] };

    ghost came_more: { (a b c : Self) (xs ys : List Told) → came a b xs → came b c ys → came a c (xs ++ ys) };
}

// The scopes of a cell.
ghost use Rattle.std.specs.Prelude.{◌≡◌, ◌<◌, [], ℕ, All, IfOk, OnOk, false, if◌then◌else◌, length, slice_index_or};
ghost use Rattle.sdf_tree.specs.Seen.{view_instance};
ghost use Rattle.annotation_model.specs.Ports.{has};
ghost use Rattle.annotation_model.specs.Scopes.{is_of_cell};
ghost use Rattle.sg_circuit.specs.Seen.{circuit_seen};
ghost use Rattle.annotation_index.specs.Candidates.{cell_scopes};
ghost use Rattle.annotation_places.specs.Places.{ArePlaces, lookups_of};
ghost use Rattle.annotation_scopes.specs.Cells.{AreMarked, AreScopesOf};

use crate::names::called_names;
use crate::walks::descend;
use annotation_places::Places;
use sdf_tree::{Cell, Divider, Instance};
use sg_text::NoMemory;
use std::alloc::Global;

// Marks scopes, or takes their marks off.
fn mark(marks: &mut [bool], scopes: &[u32], mark: bool)
    requires { All (λ t. t < length marks.old) scopes.now }
    ensures count { length marks.new ≡ length marks.old }
    ensures each { (t : ℕ) → slice_index_or marks.new t false ≡ (if has t scopes.now then mark else slice_index_or marks.old t false) }
{
    for scope in scopes {
        marks[*scope as usize] = mark;
    }
}

// The scopes of a cell as the indexes have them, where there is a top.
fn indexed_scopes(
    alloc: Global,
    places: &Places<'_>,
    divider: Divider,
    cell: &Cell<'_>,
) -> Result<Vec<u32>, NoMemory>
    requires places { ArePlaces places.now }
    requires top { 0 < length places.now.parts.now.scopes.items }
    ensures items { IfOk result (λ v. v.items ≡ cell_scopes (lookups_of places.now) divider cell.now.cell_type.now (view_instance cell.now.instance)) }
    ensures within { IfOk result (λ v. All (λ t. t < length places.now.parts.now.scopes.items) v.items) }
{
    match cell.instance {
        Instance::Top => Ok(vec![in alloc; 0]?),
        Instance::All => Ok(Vec::from_slice(alloc, places.of_module(cell.cell_type))?),
        Instance::Path(path) => descend(alloc, places, &called_names(alloc, divider, path)?, 0),
    }
}

// The scopes of a cell. A circuit without a top has none.
fn scopes_of(
    alloc: Global,
    places: &Places<'_>,
    divider: Divider,
    cell: &Cell<'_>,
) -> Result<Vec<u32>, NoMemory>
    requires places { ArePlaces places.now }
    ensures within { IfOk result (λ v. All (λ t. t < length places.now.parts.now.scopes.items) v.items) }
    ensures exact { IfOk result (λ v. (t : ℕ) → t < length places.now.parts.now.scopes.items → has t v.items ≡ is_of_cell (circuit_seen places.now.parts.now) divider cell.now.cell_type.now (view_instance cell.now.instance) t) }
{
    if places.parts.scopes.is_empty() {
        return Ok(Vec::new(alloc));
    }
    indexed_scopes(alloc, places, divider, cell)
}

/// The scopes that are of a cell (IEEE 1497-2001, cell instances), and a mark for each scope of the circuit that tells whether it is one.
#[derive(Drop)]
pub struct CellScopes {
    pub list: Vec<u32>,
    pub marks: Vec<bool>,
}

impl CellScopes {
    /// Of no cell yet.
    pub fn none(alloc: Global, places: &Places<'_>) -> Result<CellScopes, NoMemory>
        ensures marked { IfOk result (λ s. AreMarked (length places.now.parts.now.scopes.items) s) }
        ensures list { IfOk result (λ s. s.list.items ≡ []) }
    {
        Ok(CellScopes {
            list: Vec::new(alloc),
            marks: vec![in alloc; false; places.parts.scopes.len()]?,
        })
    }

    /// Those of a cell in place of those before. Takes time in proportion to both.
    pub fn enter(
        &mut self,
        alloc: Global,
        places: &Places<'_>,
        divider: Divider,
        cell: &Cell<'_>,
    ) -> Result<(), NoMemory>
        requires places { ArePlaces places.now }
        requires marked { AreMarked (length places.now.parts.now.scopes.items) self.old }
        ensures marked { OnOk result (AreMarked (length places.now.parts.now.scopes.items) self.new) }
        ensures scopes { OnOk result (AreScopesOf places.now divider cell.now.cell_type.now (view_instance cell.now.instance) self.new) }
    {
        let list = scopes_of(alloc, places, divider, cell)?;
        mark(&mut self.marks, &self.list, false);
        self.list = list;
        mark(&mut self.marks, &self.list, true);
        Ok(())
    }
}

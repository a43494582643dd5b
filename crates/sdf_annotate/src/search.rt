// The places that entries are for.
ghost use Rattle.std.specs.Prelude.{◌≡◌, ◌==◌, ◌&&◌, IfOk, OnOk, false, length, replicate};
ghost use Rattle.sdf_meaning.specs.MeantSeen.{view_sdf};
ghost use Rattle.annotation_model.specs.Finding.{is_found_check, is_found_spot};
ghost use Rattle.annotation_model.specs.Listed.{IsListOf};
ghost use Rattle.annotation_places.specs.Places.{ArePlaces};
ghost use Rattle.annotation_finder.specs.Finding.{given_seen};
ghost use Rattle.sdf_annotate.specs.Search.{IsReady, IsReadyFor};
ghost use Rattle.sdf_annotate.specs.Seen.{circuit_of};

use crate::tasks::Task;
use annotation_finder::{find_checks, find_spots};
use annotation_scopes::CellScopes;
use sdf_tree::{Cell, Entry};
use sg_text::NoMemory;
use std::alloc::Global;

/// The scopes of a cell, and a mark for each place of the circuit, which is unset between entries.
#[derive(Drop)]
pub struct Search {
    pub scopes: CellScopes,
    pub spots: Vec<bool>,
    pub checks: Vec<bool>,
}

/// The places that an entry is for, by number.
#[derive(Drop)]
pub struct Found {
    pub spots: Vec<u32>,
    pub checks: Vec<u32>,
}

impl Found {
    /// Whether the entry is for nothing.
    pub fn is_empty(&self) -> bool
        ensures { result ≡ ((length self.now.spots.items == 0) && (length self.now.checks.items == 0)) }
    {
        self.spots.is_empty() && self.checks.is_empty()
    }
}

impl Search {
    /// In no cell yet.
    pub fn new(alloc: Global, task: &Task<'_, '_, '_>) -> Result<Search, NoMemory>
        ensures { IfOk result (IsReady task.now) }
    {
        let places = task.places;
        Ok(Search {
            scopes: CellScopes::none(alloc, places)?,
            spots: vec![in alloc; false; places.spots.len()]?,
            checks: vec![in alloc; false; places.parts.checks.len()]?,
        })
    }

    /// In the scopes of a cell.
    pub fn enter(
        &mut self,
        alloc: Global,
        task: &Task<'_, '_, '_>,
        cell: &Cell<'_>,
    ) -> Result<(), NoMemory>
        requires places { ArePlaces task.now.places.now }
        requires ready { IsReady task.now self.old }
        ensures { OnOk result (IsReadyFor task.now cell.now self.new) }
    {
        self.scopes
            .enter(alloc, task.places, task.sdf.divider, cell)
    }

    /// The places that an entry of the cell is for, each once.
    pub fn find(
        &mut self,
        alloc: Global,
        task: &Task<'_, '_, '_>,
        cell: &Cell<'_>,
        entry: &Entry<'_>,
    ) -> Result<Found, NoMemory>
        requires places { ArePlaces task.now.places.now }
        requires ready { IsReadyFor task.now cell.now self.old }
        ensures spots { IfOk result (λ f. IsListOf (is_found_spot (circuit_of task.now) (view_sdf task.now.sdf.now) (given_seen cell.now entry.now)) f.spots.items) }
        ensures checks { IfOk result (λ f. IsListOf (is_found_check (circuit_of task.now) (view_sdf task.now.sdf.now) (given_seen cell.now entry.now)) f.checks.items) }
        ensures ready { OnOk result (IsReadyFor task.now cell.now self.new) }
    {
        let (places, sdf) = (task.places, task.sdf);
        let spots = find_spots(
            alloc,
            places,
            &self.scopes,
            sdf,
            cell,
            entry,
            &mut self.spots,
        )?;
        let checks = find_checks(
            alloc,
            places,
            &self.scopes,
            sdf,
            cell,
            entry,
            &mut self.checks,
        )?;
        Ok(Found { spots, checks })
    }
}

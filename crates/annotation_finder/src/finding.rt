// The places that an entry is for.
ghost use Rattle.std.specs.Prelude.{◌≡◌, IfOk, OnOk, length};
ghost use Rattle.sdf_meaning.specs.MeantSeen.{view_cell_check, view_sdf};
ghost use Rattle.sdf_tree.specs.Meant.{Sdf as SdfSeen, a_check};
ghost use Rattle.sdf_tree.specs.Seen.{view_instance};
ghost use Rattle.sg_circuit.specs.Seen.{circuit_seen};
ghost use Rattle.annotation_model.specs.Finding.{is_found_check, is_found_spot};
ghost use Rattle.annotation_model.specs.Given.{Given};
ghost use Rattle.annotation_model.specs.Listed.{IsListOf};
ghost use Rattle.annotation_places.specs.Places.{ArePlaces};
ghost use Rattle.annotation_scopes.specs.Cells.{AreMarked, AreScopesOf};
ghost use Rattle.annotation_finder.specs.Finding.{AreClear, given_seen};

use crate::candidates::{check_candidates, spot_candidates};
use crate::checks::CheckTest;
use crate::marks::pick_each;
use crate::sought::Sought;
use crate::spots::SpotTest;
use crate::terminals::Terminals;
use annotation_places::Places;
use annotation_scopes::CellScopes;
use sdf_tree::{Cell, CellCheck, Divider, Entry, EntryKind, Sdf};
use sg_text::NoMemory;
use std::alloc::Global;

/// The legs and specify paths that an entry of a cell is for, by number, each once, in no order that is promised. There is a mark for each, which is unset before
/// and afterwards. Takes time in proportion to what leads to the nets of the port that the entry names.
pub fn find_spots(
    alloc: Global,
    places: &Places<'_>,
    scopes: &CellScopes,
    sdf: &Sdf<'_>,
    cell: &Cell<'_>,
    entry: &Entry<'_>,
    marks: &mut [bool],
) -> Result<Vec<u32>, NoMemory>
    requires places { ArePlaces places.now }
    requires marked { AreMarked (length places.now.parts.now.scopes.items) scopes.now }
    requires scopes { AreScopesOf places.now sdf.now.divider cell.now.cell_type.now (view_instance cell.now.instance) scopes.now }
    requires mark_of_each { length marks.old ≡ length places.now.spots.items }
    requires clear { AreClear marks.old }
    ensures found { IfOk result (λ v. IsListOf (is_found_spot (circuit_seen places.now.parts.now) (view_sdf sdf.now) (given_seen cell.now entry.now)) v.items) }
    ensures clear { OnOk result (AreClear marks.new) }
{
    let sought = Sought::of(alloc, sdf.divider, &entry.kind)?;
    let candidates = spot_candidates(alloc, places, &scopes.list, &sought)?;
    let test = SpotTest {
        places,
        cell: scopes,
        sought: &sought,
    };
    pick_each(alloc, &test, &candidates, marks)
}

// The timing checks of a cell that an entry's check is for.
fn find_checks_for(
    alloc: Global,
    places: &Places<'_>,
    scopes: &CellScopes,
    divider: Divider,
    check: &CellCheck<'_>,
    marks: &mut [bool],
) -> Result<Vec<u32>, NoMemory>
    requires places { ArePlaces places.now }
    requires marked { AreMarked (length places.now.parts.now.scopes.items) scopes.now }
    requires mark_of_each { length marks.old ≡ length places.now.parts.now.checks.items }
    requires clear { AreClear marks.old }
    ensures found { IfOk result (λ v. (sdf : SdfSeen) (g : Given) → sdf.divider ≡ divider → g.entry.kind ≡ a_check (view_cell_check check.now) → AreScopesOf places.now divider g.cell_type g.instance scopes.now → IsListOf (is_found_check (circuit_seen places.now.parts.now) sdf g) v.items) }
    ensures clear { OnOk result (AreClear marks.new) }
{
    let terminals = Terminals::of(alloc, divider, check)?;
    let candidates = check_candidates(alloc, places, &scopes.list, &terminals.refer.port)?;
    let test = CheckTest {
        places,
        cell: scopes,
        check,
        terminals: &terminals,
    };
    pick_each(alloc, &test, &candidates, marks)
}

/// The timing checks that an entry of a cell is for, likewise.
pub fn find_checks(
    alloc: Global,
    places: &Places<'_>,
    scopes: &CellScopes,
    sdf: &Sdf<'_>,
    cell: &Cell<'_>,
    entry: &Entry<'_>,
    marks: &mut [bool],
) -> Result<Vec<u32>, NoMemory>
    requires places { ArePlaces places.now }
    requires marked { AreMarked (length places.now.parts.now.scopes.items) scopes.now }
    requires scopes { AreScopesOf places.now sdf.now.divider cell.now.cell_type.now (view_instance cell.now.instance) scopes.now }
    requires mark_of_each { length marks.old ≡ length places.now.parts.now.checks.items }
    requires clear { AreClear marks.old }
    ensures found { IfOk result (λ v. IsListOf (is_found_check (circuit_seen places.now.parts.now) (view_sdf sdf.now) (given_seen cell.now entry.now)) v.items) }
    ensures clear { OnOk result (AreClear marks.new) }
{
    match &entry.kind {
        EntryKind::Check(check) => {
            find_checks_for(alloc, places, scopes, sdf.divider, check, marks)
        }
        _ => Ok(Vec::new(alloc)),
    }
}

// Which legs and paths are what an entry asks for.
ghost use Rattle.std.specs.Prelude.{◌≡◌, ◌<◌, ◌&&◌, length};
ghost use Rattle.sg_circuit.specs.PathsSeen.{IsIndexedCondition, path_seen};
ghost use Rattle.sg_circuit.specs.Seen.{circuit_seen};
ghost use Rattle.annotation_model.specs.Matching as matching;
ghost use Rattle.annotation_places.specs.Places.{ArePlaces, lookups_of};
ghost use Rattle.annotation_scopes.specs.Cells.{AreMarked};
ghost use Rattle.annotation_spots.specs.Rows.{IsIn, spot_of};
ghost use Rattle.annotation_finder.specs.Finding.{is_marked};
ghost use Rattle.annotation_finder.specs.Fitting.{leg_fits, path_fits, spot_fits, spot_passes};
ghost use Rattle.annotation_finder.specs.Sought.{sought_seen};

use crate::legs::{is_source_below, named_below};
use crate::sought::Sought;
use annotation_conditions::{fits_condition, fits_edge};
use annotation_index::Test;
use annotation_places::{Places, Role};
use annotation_scopes::CellScopes;
use annotation_spots::Spot;
use sg_circuit::{ElementKind, Path};

// The net that a leg reads.
fn only(inputs: &[u32]) -> u32
    ensures { result ≡ matching.only inputs.now }
{
    match inputs {
        [first, ..] => *first,
        [] => 0,
    }
}

// Whether a path to an output of a scope is asked for.
fn fits_path(places: &Places<'_>, sought: &Sought, scope: u32, output: u32, path: &Path) -> bool
    requires places { ArePlaces places.now }
    requires scope { scope < length places.now.parts.now.scopes.items }
    requires condition { IsIndexedCondition (length places.now.parts.now.conditions.items) path.now.condition }
    ensures { result ≡ path_fits (circuit_seen places.now.parts.now) (sought_seen sought.now) scope output (path_seen places.now.parts.now.conditions.items places.now.parts.now.leg_timings.items path.now) }
{
    match sought {
        Sought::Between {
            from,
            edge,
            to,
            condition,
        } => {
            from.is_own(places, scope, Role::Input, path.input)
                && to.is_own(places, scope, Role::Output, output)
                && fits_edge(*edge, path.edge)
                && fits_condition(condition, &places.parts.conditions, &path.condition)
        }
        Sought::ToOutput(to) => to.is_own(places, scope, Role::Output, output),
        Sought::AllPaths => true,
        Sought::ToInput(_) | Sought::Connecting { .. } | Sought::Nothing => false,
    }
}

// Whether it is, and the scope is one of the cell's.
fn fits_path_of(
    places: &Places<'_>,
    cell: &CellScopes,
    sought: &Sought,
    scope: u32,
    output: u32,
    path: &Path,
) -> bool
    requires places { ArePlaces places.now }
    requires marked { AreMarked (length places.now.parts.now.scopes.items) cell.now }
    requires scope { scope < length places.now.parts.now.scopes.items }
    requires condition { IsIndexedCondition (length places.now.parts.now.conditions.items) path.now.condition }
    ensures { result ≡ (is_marked cell.now.marks.items scope && path_fits (circuit_seen places.now.parts.now) (sought_seen sought.now) scope output (path_seen places.now.parts.now.conditions.items places.now.parts.now.leg_timings.items path.now)) }
{
    if !cell.marks[scope as usize] {
        return false;
    }
    fits_path(places, sought, scope, output, path)
}

// Whether a leg from a net to another of a scope is asked for, and the scope below which that is named is one of the cell's.
fn fits_leg(
    places: &Places<'_>,
    cell: &CellScopes,
    sought: &Sought,
    scope: u32,
    input: u32,
    output: u32,
) -> bool
    requires places { ArePlaces places.now }
    requires marked { AreMarked (length places.now.parts.now.scopes.items) cell.now }
    requires scope { scope < length places.now.parts.now.scopes.items }
    ensures { result ≡ leg_fits (circuit_seen places.now.parts.now) (lookups_of places.now) (is_marked cell.now.marks.items) (sought_seen sought.now) scope input output }
{
    match sought {
        Sought::ToInput(to) => match named_below(places, to, scope, output) {
            Some(below) => cell.marks[below as usize],
            None => false,
        },
        Sought::Connecting { from, to } => match named_below(places, to, scope, output) {
            Some(below) => {
                cell.marks[below as usize] && is_source_below(places, from, input, below)
            }
            None => false,
        },
        _ => false,
    }
}

/// Whether a leg or path is what is asked for in a cell.
#[derive(Drop)]
pub struct SpotTest<'t, 'a> {
    pub places: &'t Places<'a>,
    pub cell: &'t CellScopes,
    pub sought: &'t Sought,
}

impl SpotTest<'_, '_> {
    // Whether a spot of an element is.
    fn fits(&self, spot: Spot) -> bool
        requires places { ArePlaces self.now.places.now }
        requires marked { AreMarked (length self.now.places.now.parts.now.scopes.items) self.now.cell.now }
        requires spot { IsIn (circuit_seen self.now.places.now.parts.now) spot }
        ensures { result ≡ spot_fits (circuit_seen self.now.places.now.parts.now) (lookups_of self.now.places.now) (is_marked self.now.cell.now.marks.items) (sought_seen self.now.sought.now) (spot_of (circuit_seen self.now.places.now.parts.now) spot) }
    {
        let parts = self.places.parts;
        let element = &parts.elements[spot.element as usize];
        match element.kind {
            ElementKind::Leg { .. } => fits_leg(
                self.places,
                self.cell,
                self.sought,
                element.scope,
                only(&element.inputs),
                element.output,
            ),
            ElementKind::Path { paths, .. } => {
                let path = &parts.paths_in(paths)[spot.path as usize];
                fits_path_of(
                    self.places,
                    self.cell,
                    self.sought,
                    element.scope,
                    element.output,
                    path,
                )
            }
            _ => false,
        }
    }
}

impl Test for SpotTest<'_, '_> {
    ghost test = { λ t place. spot_passes (circuit_seen t.places.now.parts.now) (lookups_of t.places.now) t.cell.now.marks.items (sought_seen t.sought.now) place };

    ghost ready = { λ t. ArePlaces t.places.now × AreMarked (length t.places.now.parts.now.scopes.items) t.cell.now };

    ghost count = { λ t. length t.places.now.spots.items };

    fn passes(&self, place: u32) -> bool {
        self.fits(self.places.spots[place as usize])
    }
}

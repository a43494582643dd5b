// The grids of scopes.
ghost use Rattle.std.specs.Prelude.{◌≡◌, ◌<◌, length};
ghost use Rattle.sdf_meaning.specs.MeantSeen.{view_sdf};
ghost use Rattle.annotation_model.specs.Spots.{grid};
ghost use Rattle.annotation_places.specs.Places.{ArePlaces};
ghost use Rattle.annotation_values.specs.Seen.{grid_seen};
ghost use Rattle.sdf_annotate.specs.Seen.{circuit_of};

use crate::tasks::Task;
use annotation_values::Grid;

/// How the values of a file become ticks in a scope.
pub fn grid_of(task: &Task<'_, '_, '_>, scope: u32) -> Grid
    requires places { ArePlaces task.now.places.now }
    requires scope { scope < length task.now.places.now.parts.now.scopes.items }
    ensures { grid_seen result ≡ grid (circuit_of task.now) (view_sdf task.now.sdf.now) task.now.corner scope }
{
    let parts = task.places.parts;
    Grid {
        corner: task.corner,
        unit: task.sdf.unit,
        precision: parts.scopes[scope as usize].scale.precision,
        tick: parts.tick,
    }
}

// What the values of a list make of the transitions, one after another.
ghost use Rattle.std.specs.Prelude.{◌≡◌, ◌≤◌, OnErr, OnOk, false, length, map, true};
ghost use Rattle.sdf_meaning.specs.MeantSeen.{view_delay_value};
ghost use Rattle.sg_circuit.specs.TimingsSeen.{timings_of};
ghost use Rattle.annotation_model.specs.Applied as def;
ghost use Rattle.annotation_values.specs.Seen.{grid_seen};

use crate::changes::change_at;
use crate::grids::Grid;
use crate::values::TooLarge;
use sdf_tree::DelayValue;
use sg_delay::Limit;

/// Changes the transitions, in the order of `Trans`, by a value for each, as far as there are values.
pub fn change_list(
    grid: Grid,
    increment: bool,
    values: &[DelayValue],
    delays: &mut [u64; 12],
    limits: &mut [Limit; 12],
) -> Result<(), TooLarge>
    requires { length values.now ≤ 12 }
    ensures fine { OnOk result (def.is_each_large increment (map (λ v. def.change_of (grid_seen grid) (view_delay_value v)) values.now) (timings_of delays.old limits.old) ≡ false) }
    ensures changed { OnOk result (timings_of delays.new limits.new ≡ def.changed_each increment (map (λ v. def.change_of (grid_seen grid) (view_delay_value v)) values.now) (timings_of delays.old limits.old)) }
    ensures told { OnErr result (def.is_each_large increment (map (λ v. def.change_of (grid_seen grid) (view_delay_value v)) values.now) (timings_of delays.old limits.old) ≡ true) }
{
    for i in 0..values.len() {
        change_at(grid, increment, &values[i], delays, limits, i)?;
    }
    Ok(())
}

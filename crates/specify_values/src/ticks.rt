// Numbers of a module in ticks.
ghost use Rattle.std.specs.Prelude.{◌≡◌, true, false, IfSome, IfNone};
ghost use Rattle.std.specs.Option.{OnSome};
ghost use Rattle.vl_tree.specs.Seen.{view_mtm};
ghost use Rattle.specify_model.specs.Values.{ticks as ticks_of};
ghost use Rattle.specify_values.specs.Seen.{measured, is_too_long};

use crate::measures::Measure;
use vl_tree::MinTypMax;

/// So many ticks; None for 2^60 and more. Takes no memory.
pub fn ticks(by: Measure, value: &MinTypMax) -> Option<u64>
    ensures size { IfSome result (λ n. n ≡ ticks_of (measured by) (view_mtm value.now)) }
    ensures fits { OnSome result (is_too_long (ticks_of (measured by) (view_mtm value.now)) ≡ false) }
    ensures too_long { IfNone result (is_too_long (ticks_of (measured by) (view_mtm value.now)) ≡ true) }
{
    elab_model::ticks(by.corner, by.tick, by.scale, value)
}

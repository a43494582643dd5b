// Whether paths may be taken by their conditions.
ghost use Rattle.std.specs.Prelude.{◌≡◌, ◌<◌, List, length};
ghost use Rattle.cond_expr.specs.Condition.{Condition};
ghost use Rattle.sg_circuit.specs.PathFitting.{IsConditionWithin};
ghost use Rattle.sg_circuit.specs.PathsSeen.{path_seen, paths_seen};
ghost use Rattle.sg_circuit.specs.declared.elements.LegTiming.{LegTiming as Timings};
ghost use Rattle.sg_circuit.specs.declared.paths.Path.{Path as CodePath};
ghost use Rattle.path_pick.specs.Choice.{is_allowed as is_allowed_among};
ghost use Rattle.path_pick.specs.Marks.{AreMarked};
ghost use Rattle.path_pick.specs.Pass.{condition_is_true};

use cond_expr::Nets;
use sg_circuit::{Path, PathCondition};

/// Whether it is a path's own condition, and isn't 0.
pub(crate) fn is_true<N: Nets>(condition: &PathCondition, nets: &N) -> bool
    requires { IsConditionWithin (length (N.values nets.now)) condition.now }
    ensures { result ≡ condition_is_true (N.values nets.now) condition.now }
{
    match condition {
        PathCondition::If { bound, .. } => bound.holds(nets),
        PathCondition::Always | PathCondition::IfNone => false,
    }
}

/// Whether a path's condition lets it be taken among paths, of which those whose own condition holds have marked inputs.
pub(crate) fn is_allowed<N: Nets>(path: &Path, nets: &N, flags: &[bool]) -> bool
    requires condition { IsConditionWithin (length (N.values nets.now)) path.now.condition }
    requires input { path.now.input < length flags.now }
    ensures { (paths : List CodePath) (conditions : List Condition) (timings : List Timings) → AreMarked paths (N.values nets.now) flags.now
        → result ≡ is_allowed_among (paths_seen conditions timings paths) (N.values nets.now) (path_seen conditions timings path.now) }
{
    match path.condition {
        PathCondition::Always => true,
        PathCondition::If { .. } => is_true(&path.condition, nets),
        PathCondition::IfNone => !flags[path.input as usize],
    }
}

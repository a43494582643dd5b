// The paths that may be taken, and which of two is better.
ghost use Rattle.std.specs.Prelude.{◌≡◌, ◌<◌, List, IfSome, length};
ghost use Rattle.cond_expr.specs.Condition.{Condition};
ghost use Rattle.sg_circuit.specs.PathsSeen.{path_seen, paths_seen};
ghost use Rattle.sg_circuit.specs.declared.paths.Path.{Path as CodePath};
ghost use Rattle.path_pick.specs.Marks.{AreMarked};
ghost use Rattle.path_pick.specs.Pass.{better_of, candidate_seen, is_before, IsReady};
ghost use Rattle.path_pick.specs.Within.{IsPathWithin};

use crate::Stamps;
use crate::conditions::is_allowed;
use crate::pulses::{Pulse, pulse_of};
use crate::stamps::{is_on_edge, time_of_stamp};
use cond_expr::Nets;
use sg_circuit::{LegTiming, Path};

/// A path that may be taken: when its input changed last, and the pulse of the transition.
#[derive(Clone, Copy)]
pub struct Candidate {
    pub time: u64,
    pub pulse: Pulse,
}

/// A path, if it may be taken among paths, of which those whose own condition holds have marked inputs.
pub(crate) fn candidate_from<S: Stamps, N: Nets>(
    path: &Path,
    timings: &[LegTiming],
    stamps: &S,
    nets: &N,
    flags: &[bool],
    place: Option<usize>,
) -> Option<Candidate>
    requires path { IsPathWithin (length (N.values nets.now)) timings.now path.now }
    requires stamp { path.now.input < length (S.stamps stamps.now) }
    requires flag { path.now.input < length flags.now }
    requires place { IfSome place (λ place. place < 12) }
    ensures seen { (paths : List CodePath) (conditions : List Condition) → AreMarked paths (N.values nets.now) flags.now
        → result ≡ candidate_seen (paths_seen conditions timings.now paths) (N.values nets.now) (S.stamps stamps.now) place (path_seen conditions timings.now path.now) }
    ensures ready { IfSome result IsReady }
{
    if !is_allowed(path, nets, flags) {
        return None;
    }
    let stamp = stamps.of(path.input);
    if !is_on_edge(path.edge, stamp) {
        return None;
    }
    let pulse = pulse_of(&timings[path.timing], place);
    Some(Candidate {
        time: time_of_stamp(stamp),
        pulse,
    })
}

// Whether one goes before another: its input changed later, or at the same time and its delay is less.
fn goes_before(one: Candidate, other: Candidate) -> bool
    ensures { result ≡ is_before one other }
{
    one.time > other.time || (one.time == other.time && one.pulse.delay < other.pulse.delay)
}

/// The better of two; the first, where neither goes before the other.
pub(crate) fn better(best: Option<Candidate>, other: Option<Candidate>) -> Option<Candidate>
    ensures better { result ≡ better_of best other }
    ensures ready { IfSome best IsReady → IfSome other IsReady → IfSome result IsReady }
{
    match (best, other) {
        (None, _) => other,
        (_, None) => best,
        (Some(kept), Some(new)) if goes_before(new, kept) => other,
        _ => best,
    }
}

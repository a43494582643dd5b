// One pass over the paths marks their inputs, one keeps the best path so far, and one takes the marks off.
ghost use Rattle.std.specs.Prelude.{◌≡◌, ℕ, ◌<◌, ◌≤◌, ◌^◌, List, All, IfSome, length};
ghost use Rattle.cond_expr.specs.Condition.{Condition};
ghost use Rattle.sg_circuit.specs.PathsSeen.{paths_seen};
ghost use Rattle.path_pick.specs.Choice.{picked};
ghost use Rattle.path_pick.specs.Marks.{AreMarked};
ghost use Rattle.path_pick.specs.Pass.{picked_from, IsReady};
ghost use Rattle.path_pick.specs.Within.{IsPathWithin};

use crate::Stamps;
use crate::candidates::{Candidate, better, candidate_from};
use crate::marks::{Marks, clear_inputs, mark_inputs};
use crate::pulses::place_of;
use cond_expr::Nets;
use sg_circuit::{LegTiming, Path};
use sg_logic::Value;

/// The time of a transition, and the limits of its pulse.
#[derive(Clone, Copy, Debug, PartialEq, Eq)]
pub struct Picked {
    pub time: u64,
    pub reject: u64,
    pub error: u64,
}

// What the best path makes of a transition; without one it is at once, and has no limits.
fn picked_by(best: Option<Candidate>, now: u64) -> Picked
    requires { IfSome best IsReady }
    ensures picked { result ≡ picked_from now best }
    ensures from_now { now ≤ result.time }
    ensures near { now < 2 ^ 61 → result.time < 2 ^ 61 }
    ensures ordered { result.reject ≤ result.error }
{
    match best {
        Some(Candidate { time, pulse }) => Picked {
            time: now.max(time + pulse.delay),
            reject: pulse.reject,
            error: pulse.error,
        },
        None => Picked {
            time: now,
            reject: 0,
            error: 0,
        },
    }
}

// The best of the paths that may be taken, where the inputs of those whose own condition holds are marked.
fn best_of<S: Stamps, N: Nets>(
    paths: &[Path],
    timings: &[LegTiming],
    stamps: &S,
    nets: &N,
    flags: &[bool],
    from: Value,
    to: Value,
) -> Option<Candidate>
    requires paths { All (λ p. IsPathWithin (length (N.values nets.now)) timings.now p) paths.now }
    requires stamps { All (λ p. p.input < length (S.stamps stamps.now)) paths.now }
    requires flags { All (λ p. p.input < length flags.now) paths.now }
    requires marked { AreMarked paths.now (N.values nets.now) flags.now }
    ensures picked { (conditions : List Condition) (now : ℕ) → picked_from now result ≡ picked (paths_seen conditions timings.now paths.now) (N.values nets.now) (S.stamps stamps.now) now from to }
    ensures ready { IfSome result IsReady }
{
    let place = place_of(from, to);
    let mut best = None;
    for path in paths {
        best = better(
            best,
            candidate_from(path, timings, stamps, nets, flags, place),
        );
    }
    best
}

/// When an output that has these paths goes from a value to another, and with which limits: by the path that decides.
/// `timings` is the table of delays and limits that the paths name, and `marks` are of all nets. Takes time in proportion
/// to the paths.
pub fn pick<S: Stamps, N: Nets>(
    paths: &[Path],
    timings: &[LegTiming],
    stamps: &S,
    nets: &N,
    marks: &mut Marks,
    now: u64,
    from: Value,
    to: Value,
) -> Picked
    requires paths { All (λ p. IsPathWithin (length (N.values nets.now)) timings.now p) paths.now }
    requires stamps { All (λ p. p.input < length (S.stamps stamps.now)) paths.now }
    requires marks { marks.old ≡ length (S.stamps stamps.now) }
    // whatever the table of their conditions' texts
    ensures picked { (conditions : List Condition) → result ≡ picked (paths_seen conditions timings.now paths.now) (N.values nets.now) (S.stamps stamps.now) now from to }
    ensures from_now { now ≤ result.time }
    ensures near { now < 2 ^ 61 → result.time < 2 ^ 61 }
    ensures ordered { result.reject ≤ result.error }
    ensures marks { marks.new ≡ marks.old }
{
    mark_inputs(paths, nets, &mut marks.flags);
    let best = best_of(paths, timings, stamps, nets, &marks.flags, from, to);
    clear_inputs(paths, &mut marks.flags);
    picked_by(best, now)
}

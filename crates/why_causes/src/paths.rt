// Which specify path a change came through.
ghost use Rattle.std.specs.Prelude.{◌≡◌, ◌+◌, ◌<◌, ◌==◌, ◌^◌, All, List, length};
ghost use Rattle.cond_expr.specs.Condition.{Condition};
ghost use Rattle.sg_circuit.specs.PathsSeen.{path_seen, paths_seen};
ghost use Rattle.sg_circuit.specs.TimingsSeen.{timings_at};
ghost use Rattle.why_causes.specs.Causes.{picked_path as picked_path_of, through_path as through_path_of};

use crate::changes::{Candidate, Change};
use crate::delays::{delay_at, limit_of};
use crate::inputs::{last_of, later};
use crate::traces::Trace;
use sg_circuit::{LegTiming, Path};

// Whether a time lies so long before another.
fn is_before_by(time: u64, delay: u64, later: u64) -> bool
    ensures { result ≡ (time + delay == later) }
{
    time <= later && later - time == delay
}

// The event of a path's input that lies exactly as long before a change as the path's delay for it.
fn through_path(
    trace: &Trace<'_>,
    timings: &[LegTiming],
    change: Change,
    place: usize,
    path: &Path,
) -> Option<Candidate>
    requires input { path.now.input < length trace.now.first }
    requires timing { path.now.timing < length timings.now }
    requires twelve { length (timings_at timings.now path.now.timing) ≡ 12 }
    requires time { change.time < 2 ^ 60 }
    ensures { (conditions : List Condition) → result ≡ through_path_of trace.now change (place, path_seen conditions timings.now path.now) }
{
    let delay = delay_at(timings, path.timing, change);
    let last = last_of(trace, limit_of(delay, change), place, path.input)?;
    if is_before_by(last.event.time, delay, change.time) {
        Some(last)
    } else {
        None
    }
}

/// Of paths the one whose input has the latest such event; the first among equals.
pub(crate) fn picked_path(
    trace: &Trace<'_>,
    timings: &[LegTiming],
    change: Change,
    paths: &[Path],
) -> Option<Candidate>
    requires inputs { All (λ p. p.input < length trace.now.first) paths.now }
    requires timings { All (λ p. p.timing < length timings.now) paths.now }
    requires twelve { All (λ p. length (timings_at timings.now p.timing) ≡ 12) paths.now }
    requires time { change.time < 2 ^ 60 }
    ensures { (conditions : List Condition) → result ≡ picked_path_of trace.now change (paths_seen conditions timings.now paths.now) }
{
    let mut best = None;
    for (place, path) in paths.iter().enumerate() {
        best = later(best, through_path(trace, timings, change, place, path));
    }
    best
}

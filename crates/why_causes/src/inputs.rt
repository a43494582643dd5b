// The last events of an element's inputs.
ghost use Rattle.std.specs.Prelude.{◌≡◌, ◌<◌, All, length, slice_get};
ghost use Rattle.std.specs.List.{enumerate_from};
ghost use Rattle.why_causes.specs.Candidates.{last_of as last_of_input, last_of_each, latest};
ghost use Rattle.why_causes.specs.Best.{later_of};

use crate::changes::Candidate;
use crate::traces::Trace;
use sg_circuit::NetId;

/// The last event of an input before a time.
pub(crate) fn last_of(trace: &Trace<'_>, time: u64, input: usize, net: NetId) -> Option<Candidate>
    requires { net < length trace.now.first }
    ensures { result ≡ last_of_input trace.now time (input, net) }
{
    let (number, event) = trace.last_before(net, time)?;
    Some(Candidate {
        input,
        number,
        event,
    })
}

/// The later of two; the first, where neither is.
pub(crate) fn later(best: Option<Candidate>, other: Option<Candidate>) -> Option<Candidate>
    ensures { result ≡ later_of best other }
{
    match (best, other) {
        (None, _) => other,
        (Some(kept), Some(new)) if new.event.time > kept.event.time => other,
        _ => best,
    }
}

/// Of the last events of inputs before a time the latest; the first input's among equals.
pub(crate) fn latest_of_each(trace: &Trace<'_>, time: u64, inputs: &[NetId]) -> Option<Candidate>
    requires nets { All (λ n. n < length trace.now.first) inputs.now }
    ensures { result ≡ slice_get (latest (last_of_each trace.now time (enumerate_from 0 inputs.now))) 0 }
{
    let mut best = None;
    for (input, net) in inputs.iter().enumerate() {
        best = later(best, last_of(trace, time, input, *net));
    }
    best
}

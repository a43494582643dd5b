// The nets at which timing checks see their events: delayed signals where they have Lates (IEEE 1364-2005, 15.8).
ghost use Rattle.std.specs.Prelude.{◌≡◌, ◌<◌, length};
ghost use Rattle.std.specs.Option.{option_map};
ghost use Rattle.sg_circuit.specs.Closed.{IsClosed};
ghost use Rattle.sg_circuit.specs.Seen.{circuit_seen};
ghost use Rattle.time_checks.specs.Adjusted.{adjusted_checks};
ghost use Rattle.time_checks.specs.Checking.{check_at};

use sg_circuit::{NetId, Parts};

// That of the reference event.
pub fn refer_net(parts: &Parts, check: usize) -> NetId
    requires closed { IsClosed (circuit_seen parts.now) }
    requires check { check < length parts.now.check_timings.items }
    ensures { result ≡ (check_at (adjusted_checks (circuit_seen parts.now)) check).refer.net }
{
    let timing = &parts.check_timings[check];
    match timing.late {
        Some(lates) => parts.elements[lates[0] as usize].output,
        None => timing.refer.net,
    }
}

// That of the data event, if there is one.
pub fn datum_net(parts: &Parts, check: usize) -> Option<NetId>
    requires closed { IsClosed (circuit_seen parts.now) }
    requires check { check < length parts.now.check_timings.items }
    ensures { result ≡ option_map (λ e. e.net) (check_at (adjusted_checks (circuit_seen parts.now)) check).datum }
{
    let timing = &parts.check_timings[check];
    match &timing.datum {
        Some(event) => match timing.late {
            Some(lates) => Some(parts.elements[lates[1] as usize].output),
            None => Some(event.net),
        },
        None => None,
    }
}

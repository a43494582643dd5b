// What is written of edges and of the limits of pulses.
ghost use Rattle.std.specs.Prelude.{◌≡◌};
ghost use Rattle.sg_circuit.specs.Timings.{limits_or};
ghost use Rattle.sg_circuit.specs.TimingsSeen.{limit_seen};
ghost use Rattle.written_model.specs.Entries.{edge_of};

use sdf_tree::Edge;
use sg_delay::Limit;
use sg_logic::{NEGEDGE, POSEDGE};

/// The limits of a transition's pulses, as numbers.
pub fn limits_of(delay: u64, limit: Limit) -> (u64, u64)
    ensures { result ≡ limits_or delay (limit_seen limit) }
{
    match limit {
        Limit::Follow => (delay, delay),
        Limit::Own(widths) => (widths.reject, widths.error),
    }
}

/// The edge that is written.
pub fn edge_of(edge: Option<sg_logic::Edge>) -> Option<Edge>
    ensures { result ≡ edge_of edge }
{
    match edge {
        Some(edge) if edge == POSEDGE => Some(Edge::Posedge),
        Some(edge) if edge == NEGEDGE => Some(Edge::Negedge),
        _ => None,
    }
}

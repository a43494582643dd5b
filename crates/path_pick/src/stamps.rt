// The last changes of nets.
ghost use Rattle.std.specs.Prelude.{◌≡◌, ◌<◌, ◌^◌, List, None, length, slice_index_or};
ghost use Rattle.std.specs.declared.option.Option.{Option as Optional};
ghost use Rattle.sg_model.specs.Machine.{Stamp as Change};
ghost use Rattle.fan_round.specs.Nets.{stamp_seen};
ghost use Rattle.path_pick.specs.Choice.{is_of_edge, time_of};

use fan_round::Stamp;
use sg_logic::{Edge, edge_matches};

/// The last changes of nets.
pub trait Stamps {
    /// That of each net, if it ever changed.
    ghost stamps: { Self → List (Optional Change) };

    /// That of one of them.
    fn of(&self, net: u32) -> Option<Stamp>
        requires { net < length (stamps self.now) }
        ensures { stamp_seen result ≡ slice_index_or (stamps self.now) net None };
}

/// Whether a change is of an edge. Without an edge any is, and none too.
pub(crate) fn is_on_edge(edge: Option<Edge>, stamp: Option<Stamp>) -> bool
    ensures { result ≡ is_of_edge edge (stamp_seen stamp) }
{
    match (edge, stamp) {
        (None, _) => true,
        (Some(_), None) => false,
        (Some(edge), Some(stamp)) => edge_matches(edge, stamp.before, stamp.after),
    }
}

/// When a net changed last; 0 if it never did.
pub(crate) fn time_of_stamp(stamp: Option<Stamp>) -> u64
    ensures time { result ≡ time_of (stamp_seen stamp) }
    ensures near { result < 2 ^ 60 }
{
    match stamp {
        Some(stamp) => stamp.time,
        None => 0,
    }
}

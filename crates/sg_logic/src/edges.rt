// Edges: sets of changes of a value.
ghost use Rattle.std.specs.Prelude.{◌≡◌};
ghost use Rattle.sg_logic.specs.Edges.{has_change};

use crate::Value;

/// A set of the six changes of an edge list, in the order 01, 10, 0x, x1, 1x, x0.
#[derive(Clone, Copy, Debug, PartialEq, Eq)]
pub struct Edge {
    pub has: [bool; 6],
}

/// The changes 01, 0x and x1: `directions_of_edges` says what they have in common.
pub const POSEDGE: Edge = Edge {
    has: [true, false, true, true, false, false],
};

/// The changes 10, 1x and x0: likewise.
pub const NEGEDGE: Edge = Edge {
    has: [false, true, false, false, true, true],
};

/// Whether a change is one of the edge, where z counts as x. Equal values, and x and z, are no change of any edge.
#[tactic(auto, using(crate::proofs::Places::change_at))]
pub fn edge_matches(edge: Edge, from: Value, to: Value) -> bool
    ensures { result ≡ has_change edge from to }
{
    match (from, to) {
        (Value::Zero, Value::One) => edge.has[0],
        (Value::One, Value::Zero) => edge.has[1],
        (Value::Zero, Value::X | Value::Z) => edge.has[2],
        (Value::X | Value::Z, Value::One) => edge.has[3],
        (Value::One, Value::X | Value::Z) => edge.has[4],
        (Value::X | Value::Z, Value::Zero) => edge.has[5],
        _ => false,
    }
}

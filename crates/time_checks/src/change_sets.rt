// Sets of changes of a value, which are looked up by the numbers of the changes.
ghost use Rattle.std.specs.Prelude.{◌≡◌, ◌<◌};
ghost use Rattle.time_checks.specs.ChangeSets.{change_in, change_number as number_of, edge_set, no_changes, opposite_set};
ghost use Rattle.time_checks.specs.Events.{is_of_edge};

use sg_logic::{Edge, Value, edge_matches};

/// A set of changes, each by its number.
#[derive(Clone, Copy)]
pub struct ChangeSet {
    pub has: [bool; 8],
}

/// The number of a change: those of an edge list have the first six, in their order, a change between x and z has 6, and no change 7.
pub fn change_number(from: Value, to: Value) -> u8
    ensures number { result ≡ number_of from to }
    ensures small { result < 8 }
{
    match (from, to) {
        (Value::Zero, Value::One) => 0,
        (Value::One, Value::Zero) => 1,
        (Value::Zero, Value::X | Value::Z) => 2,
        (Value::X | Value::Z, Value::One) => 3,
        (Value::One, Value::X | Value::Z) => 4,
        (Value::X | Value::Z, Value::Zero) => 5,
        (Value::X, Value::Z) | (Value::Z, Value::X) => 6,
        _ => 7,
    }
}

fn is_change(edge: Option<Edge>, from: Value, to: Value) -> bool
    ensures { result ≡ is_of_edge edge from to }
{
    match edge {
        Some(edge) => edge_matches(edge, from, to),
        None => from != to,
    }
}

impl ChangeSet {
    /// The set without a change.
    pub fn none() -> ChangeSet
        ensures { result ≡ no_changes }
    {
        ChangeSet { has: [false; 8] }
    }

    /// The changes that are of an edge.
    pub fn of_edge(edge: Option<Edge>) -> ChangeSet
        ensures { result ≡ edge_set edge }
    {
        ChangeSet {
            has: [
                is_change(edge, Value::Zero, Value::One),
                is_change(edge, Value::One, Value::Zero),
                is_change(edge, Value::Zero, Value::X),
                is_change(edge, Value::X, Value::One),
                is_change(edge, Value::One, Value::X),
                is_change(edge, Value::X, Value::Zero),
                is_change(edge, Value::X, Value::Z),
                false,
            ],
        }
    }

    /// The changes that are of an edge if they are read backwards.
    pub fn against_edge(edge: Option<Edge>) -> ChangeSet
        ensures { result ≡ opposite_set edge }
    {
        ChangeSet {
            has: [
                is_change(edge, Value::One, Value::Zero),
                is_change(edge, Value::Zero, Value::One),
                is_change(edge, Value::X, Value::Zero),
                is_change(edge, Value::One, Value::X),
                is_change(edge, Value::X, Value::One),
                is_change(edge, Value::Zero, Value::X),
                is_change(edge, Value::Z, Value::X),
                false,
            ],
        }
    }

    /// Whether it has the change of a number.
    pub fn contains(&self, number: u8) -> bool
        requires { number < 8 }
        ensures { result ≡ change_in self.now number }
    {
        self.has[number as usize]
    }
}

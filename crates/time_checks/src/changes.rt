// Changes of nets between two snapshots.
use sg_circuit::NetId;
use sg_logic::Value;

/// A net's value in a snapshot, and in the one before it.
#[derive(Clone, Copy, Debug, PartialEq, Eq)]
pub struct Change {
    pub net: NetId,
    pub from: Value,
    pub to: Value,
}

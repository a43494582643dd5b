// A change of a net.
use sg_circuit::NetId;
use sg_logic::Value;

/// A change of a net: from a time on, in ticks, it has a value.
#[derive(Clone, Copy, Debug, PartialEq, Eq)]
pub struct Event {
    pub time: u64,
    pub net: NetId,
    pub value: Value,
}

// A long run has many.
const EVENT_SIZE: usize = std::mem::size_of::<Event>();

const _: () = prove!(EVENT_SIZE == 16);

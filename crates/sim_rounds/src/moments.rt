// A simulation after a time.
use sg_logic::Value;
use time_checks::Latest;

/// A net's last change: its time, in ticks, and the values before and after it.
#[derive(Clone, Copy, Debug, PartialEq, Eq)]
pub struct LastChange {
    pub time: u64,
    pub before: Value,
    pub after: Value,
}

/// A transition that a driver has pending: the element, the time, in ticks, and the value that its net takes.
#[derive(Clone, Copy, Debug, PartialEq, Eq)]
pub struct Pending {
    pub driver: u32,
    pub time: u64,
    pub value: Value,
}

/// A simulation after a time, from which its run can go on.
#[derive(Debug, Drop)]
pub struct Moment {
    /// In ticks.
    pub time: u64,
    /// The values of the nets.
    pub nets: Vec<Value>,
    /// The last change of each net; none where it has its value of before time 0.
    pub stamps: Vec<Option<LastChange>>,
    /// By driver, and then by time.
    pub pending: Vec<Pending>,
    /// The states of the elements of primitives, in the order of the elements.
    pub udps: Vec<Value>,
    /// The latest events of each timing check.
    pub latest: Vec<Latest>,
    /// The last time that changed a net, or 0.
    pub last: u64,
    /// How many elements were evaluated, up to 2^64 - 1.
    pub evaluations: u64,
}

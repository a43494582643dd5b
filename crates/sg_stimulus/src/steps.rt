// A stimulus and its parts.
use sg_circuit::NetId;
use sg_logic::Value;

/// A net takes a value.
#[derive(Clone, Copy, Debug, PartialEq, Eq)]
pub struct Set {
    pub net: NetId,
    pub value: Value,
}

/// What the stimulus sets at a time, in ticks.
#[derive(Debug, Drop)]
pub struct StimStep {
    pub time: u64,
    pub sets: Vec<Set>,
}

/// What is applied to the inputs of a circuit, and the last time of the run, in ticks.
#[derive(Debug, Drop)]
pub struct Stimulus {
    pub steps: Vec<StimStep>,
    pub end: u64,
}

// Specify paths: which changes of an input an output follows, and how late.
use crate::NetId;
use cond_expr::Bound;
use sg_logic::Edge;

/// The places of a table from `start` up to `end`.
#[derive(Clone, Copy, Debug, PartialEq, Eq)]
pub struct Span {
    pub start: u32,
    pub end: u32,
}

/// When a path may be taken (IEEE 1364-2005, 14.2.4).
#[derive(Drop)]
pub enum PathCondition {
    Always,
    /// Unless its value is 0. `written` is a place in `Parts::conditions`.
    If { written: usize, bound: Bound },
    /// Where no path of the same input and output may be taken by a condition of its own.
    IfNone,
}

/// A path from an input to the bit of an output that has it (IEEE 1364-2005, 14.2).
#[derive(Drop)]
pub struct Path {
    pub input: NetId,
    /// Which changes of the input it is for; without an edge, all.
    pub edge: Option<Edge>,
    pub condition: PathCondition,
    /// A place in `Parts::leg_timings`.
    pub timing: usize,
}

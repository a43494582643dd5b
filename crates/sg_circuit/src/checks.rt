// Timing checks: how a report names them, and what they look for.
use crate::NetId;
use cond_expr::Bound;
use sg_logic::Edge;
use sg_text::{Place, Text};

/// The timing checks (IEEE 1364-2005, 15.2, 15.3).
#[derive(Clone, Copy, Debug, PartialEq, Eq)]
pub enum CheckKind {
    Setup,
    Hold,
    Recovery,
    Removal,
    Skew,
    Setuphold,
    Recrem,
    Width,
    Period,
}

/// A terminal of a timing check, as its module's text names it (IEEE 1364-2005, 15.1).
#[derive(Debug, Drop)]
pub struct Terminal {
    pub name: Text,
    pub bit: Option<i64>,
}

/// A timing check of a scope, as a report names it, and its notifier (IEEE 1364-2005, 15.1).
#[derive(Debug, Drop)]
pub struct Check {
    pub scope: u32,
    pub kind: CheckKind,
    /// The reference event's terminal.
    pub refer: Terminal,
    /// The data event's terminal; width and period have none.
    pub datum: Option<Terminal>,
    /// The net that its violations toggle (IEEE 1364-2005, 15.5).
    pub notifier: Option<NetId>,
    /// Where its keyword stands in the netlist's files.
    pub place: Place,
}

/// How the text of a module spells the conditions of a check's events: places in `Parts::conditions` (IEEE 1364-2005, 15.6).
#[derive(Clone, Copy, Debug, PartialEq, Eq)]
pub struct CheckConditions {
    pub refer: Option<usize>,
    pub datum: Option<usize>,
}

/// The events of a terminal of a timing check (IEEE 1364-2005, 15.1, 15.4, 15.6).
#[derive(Drop)]
pub struct Event {
    pub net: NetId,
    /// The changes of the net that are events; without an edge each is.
    pub edge: Option<Edge>,
    /// They are events only where it enables them.
    pub condition: Option<Bound>,
}

/// What a timing check looks for (IEEE 1364-2005, 15.2, 15.3).
#[derive(Drop)]
pub struct CheckTiming {
    pub kind: CheckKind,
    pub refer: Event,
    pub datum: Option<Event>,
    /// In ticks, in the order of the check's text; the second is 0 where the kind has one limit.
    pub limits: [i64; 2],
    /// In ticks; width alone has one.
    pub threshold: u64,
    /// The elements of the kind Late that delay the reference and the data signal; setuphold and recrem have them, and no other kind
    /// (IEEE 1364-2005, 15.8).
    pub late: Option<[u32; 2]>,
}

/// A limit of a timing check with Lates that is taken as 0, since no delays meet all limits (IEEE 1364-2005, 15.8).
#[derive(Clone, Copy, Debug, PartialEq, Eq)]
pub struct Zero {
    pub check: u32,
    /// Which limit in the order of the check's text: 0 or 1.
    pub part: u32,
    /// What the limit was, in ticks.
    pub value: i64,
}

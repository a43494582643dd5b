// Violations of timing checks.

/// A part of a timing check: a check with two limits has two (IEEE 1364-2005, 15.2, 15.3).
#[derive(Clone, Copy, Debug, PartialEq, Eq)]
pub enum Part {
    Setup,
    Hold,
    Recovery,
    Removal,
    Width,
    Period,
    Skew,
}

/// A violation of a timing check of the circuit: the part, the times of its two events, and the limit, in ticks.
#[derive(Clone, Copy, Debug, PartialEq, Eq)]
pub struct Violation {
    pub check: u32,
    pub part: Part,
    pub refer_time: u64,
    pub datum_time: u64,
    pub limit: i64,
}

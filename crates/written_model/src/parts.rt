// The timing checks of SDF files.

/// A part of a timing check, which is an entry of its own (IEEE 1497-2001, timing check entries).
#[derive(Clone, Copy, Debug, PartialEq, Eq)]
pub enum Part {
    Setup,
    Hold,
    Recovery,
    Removal,
    Skew,
    Width,
    Period,
}

// The latest events of a timing check.

/// The greatest time of a check's reference events, in ticks, and that of its data events; none where no such event came
/// so far.
#[derive(Clone, Copy, Debug, PartialEq, Eq)]
pub struct Latest {
    pub refer: Option<u64>,
    pub datum: Option<u64>,
}

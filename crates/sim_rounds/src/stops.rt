// How a run that is to be stopped ends.
use crate::moments::Moment;
use crate::sim::{Finished, Tally};

/// A run is paused after a time, with what it has come to and what it found, or it ended before.
#[derive(Debug, Drop)]
pub enum Until {
    Paused { moment: Moment, tally: Tally },
    /// Its end is never `Ok`.
    Ended(Finished),
}

// Why a moment isn't saved, and why a text isn't read as one.
use std::alloc::{AllocError, AllocFailed};

/// Why a moment isn't saved: its text would have more than 2^30 bytes, or there was no memory for it.
#[derive(Clone, Copy, Debug, PartialEq, Eq)]
pub enum SaveError {
    TooLarge,
    NoMemory,
}

impl From<AllocError> for SaveError {
    ghost use Rattle.std.specs.Prelude.{◌≡◌};
    ghost use Rattle.sim_save.specs.declared.kinds.SaveError.TheVariants as error;

    ghost from_gives = { λ _ e. e ≡ error.NoMemory };

    fn from(_: AllocError) -> Self {
        SaveError::NoMemory
    }
}

/// Why a half isn't read further: no line that may come stands in front of its last so many bytes, or there was no memory.
#[derive(Clone, Copy, Debug, PartialEq, Eq)]
pub enum Stop {
    Line { left: usize },
    NoMemory,
}

impl From<AllocError> for Stop {
    ghost use Rattle.std.specs.Prelude.{◌≡◌};
    ghost use Rattle.sim_save.specs.declared.kinds.Stop.TheVariants as stop;

    ghost from_gives = { λ _ e. e ≡ stop.NoMemory };

    fn from(_: AllocError) -> Self {
        Stop::NoMemory
    }
}

impl<T: Drop> From<AllocFailed<T>> for Stop {
    ghost use Rattle.std.specs.Prelude.{◌≡◌};
    ghost use Rattle.sim_save.specs.declared.kinds.Stop.TheVariants as stop;

    ghost from_gives = { λ _ e. e ≡ stop.NoMemory };

    fn from(_: AllocFailed<T>) -> Self {
        Stop::NoMemory
    }
}

/// What is wrong with a saved moment; the first of these that is so. The place is byte 0, but for the first and the third.
#[derive(Clone, Copy, Debug, PartialEq, Eq)]
pub enum SaveKind {
    /// The text has more than 2^30 bytes; the place is byte 2^30.
    TooLarge,
    /// Its halves differ.
    Damaged,
    /// A half is no moment: the place is the first line that doesn't go on with one, or the end of the half.
    Syntax,
    /// The tick, or the number of nets, elements, elements of primitives or timing checks, is another than the circuit's.
    OtherCircuit,
    /// The moment doesn't fit the circuit.
    BadMoment,
    /// The time isn't before the end of the stimulus.
    PastEnd,
}

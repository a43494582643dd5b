// Why a circuit isn't written.
use sg_text::NoMemory;
use std::alloc::{AllocError, AllocFailed};
use thiserror::Error;

/// A circuit can't be written as a file that gives it back; a scope is told in which that is so. Or no memory was to be had.
#[derive(Clone, Copy, Debug, PartialEq, Eq, Error)]
pub enum WriteError {
    /// Two entries are for the same, and give it different values.
    #[error("ambiguous in scope {scope}")]
    Ambiguous { scope: u32 },
    /// A time isn't a multiple of its module's precision.
    #[error("off grid in scope {scope}")]
    OffGrid { scope: u32 },
    /// The parentheses of a condition nest deeper than a reader takes them.
    #[error("too deep in scope {scope}")]
    TooDeep { scope: u32 },
    /// A time is longer than a reader takes it.
    #[error("too long in scope {scope}")]
    TooLong { scope: u32 },
    /// The text is longer than a reader takes it. It is told of the top.
    #[error("too large in scope {scope}")]
    TooLarge { scope: u32 },
    #[error("no memory")]
    NoMemory,
}

impl From<AllocError> for WriteError {
    ghost use Rattle.std.specs.Prelude.{◌≡◌};
    ghost use Rattle.written_model.specs.declared.errors.WriteError.TheVariants as error;

    ghost from_gives = { λ _ e. e ≡ error.NoMemory };

    fn from(_: AllocError) -> Self {
        WriteError::NoMemory
    }
}

impl<T: Drop> From<AllocFailed<T>> for WriteError {
    ghost use Rattle.std.specs.Prelude.{◌≡◌};
    ghost use Rattle.written_model.specs.declared.errors.WriteError.TheVariants as error;

    ghost from_gives = { λ _ e. e ≡ error.NoMemory };

    fn from(_: AllocFailed<T>) -> Self {
        WriteError::NoMemory
    }
}

impl From<NoMemory> for WriteError {
    ghost use Rattle.std.specs.Prelude.{◌≡◌};
    ghost use Rattle.written_model.specs.declared.errors.WriteError.TheVariants as error;

    ghost from_gives = { λ _ e. e ≡ error.NoMemory };

    fn from(_: NoMemory) -> Self {
        WriteError::NoMemory
    }
}

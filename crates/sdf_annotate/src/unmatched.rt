// Entries without a counterpart in the circuit, and why there is no annotation.
use sg_text::{NoMemory, Place, Text};
use std::alloc::{AllocError, AllocFailed};
use thiserror::Error;

/// An entry of an SDF file that matched nothing in the circuit (IEEE 1497-2001, 4.2): where it stands, and the word that says
/// what it is. A report tells its line and its word.
#[derive(Debug, Drop)]
pub struct Unmatched {
    pub place: Place,
    pub word: Text,
}

/// Why a circuit isn't annotated.
#[derive(Clone, Copy, Debug, PartialEq, Eq, Error)]
pub enum AnnotError {
    /// At the entry of this place a value, or what it makes, is 2^60 ticks or more.
    #[error("a value of 2^60 ticks or more")]
    TooLarge { place: Place },
    #[error("no memory")]
    NoMemory,
}

impl From<AllocError> for AnnotError {
    ghost use Rattle.std.specs.Prelude.{◌≡◌};
    ghost use Rattle.sdf_annotate.specs.declared.unmatched.AnnotError.TheVariants as error;

    ghost from_gives = { λ _ e. e ≡ error.NoMemory };

    fn from(_: AllocError) -> Self {
        AnnotError::NoMemory
    }
}

impl<T: Drop> From<AllocFailed<T>> for AnnotError {
    ghost use Rattle.std.specs.Prelude.{◌≡◌};
    ghost use Rattle.sdf_annotate.specs.declared.unmatched.AnnotError.TheVariants as error;

    ghost from_gives = { λ _ e. e ≡ error.NoMemory };

    fn from(_: AllocFailed<T>) -> Self {
        AnnotError::NoMemory
    }
}

impl From<NoMemory> for AnnotError {
    ghost use Rattle.std.specs.Prelude.{◌≡◌};
    ghost use Rattle.sdf_annotate.specs.declared.unmatched.AnnotError.TheVariants as error;

    ghost from_gives = { λ _ e. e ≡ error.NoMemory };

    fn from(_: NoMemory) -> Self {
        AnnotError::NoMemory
    }
}

// Why an SDF file isn't taken.
use sdf_read::SdfKind;
use sg_text::NoMemory;
use std::alloc::{AllocError, AllocFailed};

/// Why an SDF file isn't taken with the changes that the rules ask for.
#[derive(Clone, Copy, Debug, PartialEq, Eq)]
pub enum SdfUnfit {
    /// A fault on a line, counted from 1, which is that of the file as it was read too.
    Fault { kind: SdfKind, line: u64 },
    NoMemory,
}

impl From<NoMemory> for SdfUnfit {
    ghost use Rattle.std.specs.Prelude.{◌≡◌};
    ghost use Rattle.fit_sdf.specs.declared.unfit.SdfUnfit.TheVariants as unfit;

    ghost from_gives = { λ _ e. e ≡ unfit.NoMemory };

    fn from(_: NoMemory) -> Self {
        SdfUnfit::NoMemory
    }
}

impl From<AllocError> for SdfUnfit {
    ghost use Rattle.std.specs.Prelude.{◌≡◌};
    ghost use Rattle.fit_sdf.specs.declared.unfit.SdfUnfit.TheVariants as unfit;

    ghost from_gives = { λ _ e. e ≡ unfit.NoMemory };

    fn from(_: AllocError) -> Self {
        SdfUnfit::NoMemory
    }
}

impl<T: Drop> From<AllocFailed<T>> for SdfUnfit {
    ghost use Rattle.std.specs.Prelude.{◌≡◌};
    ghost use Rattle.fit_sdf.specs.declared.unfit.SdfUnfit.TheVariants as unfit;

    ghost from_gives = { λ _ e. e ≡ unfit.NoMemory };

    fn from(_: AllocFailed<T>) -> Self {
        SdfUnfit::NoMemory
    }
}

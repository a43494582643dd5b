// Why a netlist can't be fitted.
use fit_changes::Unfit;
use sg_text::NoMemory;
use std::alloc::{AllocError, AllocFailed};

/// Why a netlist can't be fitted.
#[derive(Debug, Drop)]
pub enum FitError {
    /// These places aren't taken, and no rule helps.
    Unfit(Vec<Unfit>),
    /// The text of a file is wanted that another one includes by this name.
    Wants { from: Vec<u8>, name: Vec<u8> },
    NoMemory,
}

impl From<NoMemory> for FitError {
    ghost use Rattle.std.specs.Prelude.{◌≡◌};
    ghost use Rattle.fit_netlist.specs.declared.faults.FitError.TheVariants as fault;

    ghost from_gives = { λ _ e. e ≡ fault.NoMemory };

    fn from(_: NoMemory) -> Self {
        FitError::NoMemory
    }
}

impl From<AllocError> for FitError {
    ghost use Rattle.std.specs.Prelude.{◌≡◌};
    ghost use Rattle.fit_netlist.specs.declared.faults.FitError.TheVariants as fault;

    ghost from_gives = { λ _ e. e ≡ fault.NoMemory };

    fn from(_: AllocError) -> Self {
        FitError::NoMemory
    }
}

impl<T: Drop> From<AllocFailed<T>> for FitError {
    ghost use Rattle.std.specs.Prelude.{◌≡◌};
    ghost use Rattle.fit_netlist.specs.declared.faults.FitError.TheVariants as fault;

    ghost from_gives = { λ _ e. e ≡ fault.NoMemory };

    fn from(_: AllocFailed<T>) -> Self {
        FitError::NoMemory
    }
}

// Why the work ends before its report.
use sdf_read::SdfKind;
use sg_text::NoMemory;
use sim_save::SaveKind;
use std::alloc::{AllocError, AllocFailed};
use stim_read::StimKind;
use vcd_model::VcdKind;

/// Why an SDF file is refused: a fault of its text, or an entry that is too large for the circuit.
#[derive(Clone, Copy, Debug)]
pub enum SdfFault {
    Text(SdfKind),
    TooLarge,
}

/// A refusal of the words or of a file, by name. The line of a fault is counted from 1; the kind of a netlist's fault is
/// the text of it.
#[derive(Debug, Drop)]
pub enum Refusal<'a> {
    Words,
    Missing(&'a str),
    Netlist {
        name: &'a str,
        line: u64,
        kind: Vec<u8>,
    },
    Sdf {
        name: &'a str,
        line: u64,
        fault: SdfFault,
    },
    Stimulus {
        name: &'a str,
        line: u64,
        kind: StimKind,
    },
    Wave {
        name: &'a str,
        line: u64,
        kind: VcdKind,
    },
    Save {
        name: &'a str,
        line: u64,
        kind: SaveKind,
    },
    /// Why delays can't be written, and the path of an instance in which that is so.
    Unwritten {
        kind: &'static str,
        path: Vec<u8>,
    },
}

/// A refusal, a call on the shelf that failed, or want of memory.
#[derive(Debug, Drop)]
pub enum Stop<'a> {
    Refused(Refusal<'a>),
    Failed,
    NoMemory,
}

impl From<AllocError> for Stop<'_> {
    ghost use Rattle.std.specs.Prelude.{◌≡◌};
    ghost use Rattle.signoff_phases.specs.declared.stop.Stop.TheVariants as stop;

    ghost from_gives = { λ _ e. e ≡ stop.NoMemory };

    fn from(_: AllocError) -> Self {
        Stop::NoMemory
    }
}

impl<T: Drop> From<AllocFailed<T>> for Stop<'_> {
    ghost use Rattle.std.specs.Prelude.{◌≡◌};
    ghost use Rattle.signoff_phases.specs.declared.stop.Stop.TheVariants as stop;

    ghost from_gives = { λ _ e. e ≡ stop.NoMemory };

    fn from(_: AllocFailed<T>) -> Self {
        Stop::NoMemory
    }
}

impl From<NoMemory> for Stop<'_> {
    ghost use Rattle.std.specs.Prelude.{◌≡◌};
    ghost use Rattle.signoff_phases.specs.declared.stop.Stop.TheVariants as stop;

    ghost from_gives = { λ _ e. e ≡ stop.NoMemory };

    fn from(_: NoMemory) -> Self {
        Stop::NoMemory
    }
}

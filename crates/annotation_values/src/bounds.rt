// Which limits a timing check takes.
ghost use Rattle.std.specs.Prelude.{◌≡◌, ℕ, length};
ghost use Rattle.sg_circuit.specs.Circuit.{Circuit};
ghost use Rattle.sg_circuit.specs.Signals.{takes_lates, signals as signals_of};
ghost use Rattle.annotation_model.specs.Spots.{weight_of};
ghost use Rattle.annotation_values.specs.Limits.{bounds_seen};

use sg_circuit::CheckKind;

/// Which limits a timing check takes (IEEE 1364-2005, 15.8).
#[derive(Clone, Copy)]
pub enum Bounds {
    /// None below 0.
    Unsigned,
    /// Below 0 too, as those of setuphold and recrem. So many signals of the check's scope have delayed copies.
    Signed { signals: u32 },
}

impl Bounds {
    /// Those of a kind of timing check, where its scope has so many signals.
    pub fn of(kind: CheckKind, signals: u32) -> Bounds
        ensures { (c : Circuit) (scope : ℕ) → signals ≡ length (signals_of c.checks c.check_timings scope) → bounds_seen result ≡ record { signed = takes_lates kind; weight = weight_of c (takes_lates kind) scope } }
    {
        match kind {
            CheckKind::Setuphold | CheckKind::Recrem => Bounds::Signed { signals },
            _ => Bounds::Unsigned,
        }
    }

    /// How often a limit's size weighs: limits below 0 add up from signal to signal.
    pub fn weight(self) -> u64
        ensures { result ≡ (bounds_seen self).weight }
    {
        match self {
            Bounds::Unsigned => 1,
            Bounds::Signed { signals } => u64::from(signals) + 1,
        }
    }
}

// The timing checks of a simulation.
ghost use Rattle.std.specs.Prelude.{◌≡◌, ℕ, List, [], ◌∷◌, OnOk, length, take};
ghost use Rattle.fan_round.specs.Nets.{AreChanged};
ghost use Rattle.sg_logic.specs.declared.values.Value.{Value as NetValue};
ghost use Rattle.sg_model.specs.Machine.{Snapshot, Violation as CheckViolation};
ghost use Rattle.sim_times.specs.Checks.{HasSeen};
ghost use Rattle.time_checks.specs.declared.latest.Latest.{Latest};

use sg_circuit::NetId;
use sg_logic::Value;
use sg_stimulus::Set;
use sg_text::NoMemory;
use time_checks::Violation;

/// Timing checks, which see one snapshot after another.
pub trait Checks {
    /// The violations that belong to the last of some snapshots, the latest of which is first.
    ghost violated: { Self → List Snapshot → List CheckViolation };

    /// The nets that violations toggle.
    ghost notifiers: { Self → List CheckViolation → List ℕ };

    /// The latest events of each check up to the last of some snapshots.
    ghost latest: { Self → List Snapshot → List Latest };

    /// It is for so many nets.
    ghost over: { Self → ℕ → Type 0 };

    /// It has seen these snapshots, and the nets have these values now.
    ghost stands: { Self → List NetValue → List Snapshot → Type 0 };

    /// Nets changed in a round.
    fn touch(&mut self, changed: &[NetId], before: &[Value], values: &[Value])
        requires over { over self.old (length values.now) }
        requires changed { AreChanged before.now values.now changed.now }
        ensures violated { violated self.new ≡ violated self.old }
        ensures notifiers { notifiers self.new ≡ notifiers self.old }
        ensures latest { latest self.new ≡ latest self.old }
        ensures over { over self.new (length values.now) }
        ensures stands { (ss : List Snapshot) → stands self.old before.now ss → stands self.new values.now ss };

    /// Sees a snapshot: adds its violations, and hands in the toggles of their notifiers.
    fn see(
        &mut self,
        now: u64,
        values: &[Value],
        violations: &mut Vec<Violation>,
        toggles: &mut Vec<Set>,
    ) -> Result<(), NoMemory>
        requires over { over self.old (length values.now) }
        requires empty { toggles.old.items ≡ [] }
        ensures violated { violated self.new ≡ violated self.old }
        ensures notifiers { notifiers self.new ≡ notifiers self.old }
        ensures latest { latest self.new ≡ latest self.old }
        ensures over { OnOk result (over self.new (length values.now)) }
        ensures seen { OnOk result (HasSeen (violated self.old) (notifiers self.old) (stands self.old values.now) (stands self.new values.now) now values.now violations.old.items violations.new.items toggles.new.items) }
        ensures kept { take (length violations.old.items) violations.new.items ≡ violations.old.items };

    /// A snapshot that is that of the time before leaves what it has seen.
    ghost skips: { (c : Self) (t last : ℕ) (values now : List NetValue) (older : List Snapshot) → stands c now (record { time = last; values = values } ∷ older)
        → stands c now (record { time = t; values = values } ∷ record { time = last; values = values } ∷ older) };
}

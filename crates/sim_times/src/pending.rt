// What is asked of the pending transitions between rounds.
ghost use Rattle.std.specs.Prelude.{◌≡◌, ◌+◌, ◌<◌, ◌≤◌, true};
ghost use Rattle.sg_model.specs.Agenda.{NothingBelow, AllRise};
ghost use Rattle.sg_model.specs.Round.{any_due};

use pulse_list::Agenda;

/// Whether a transition is due, where none is pending before now.
pub fn is_any_due<A: Agenda>(agenda: &mut A, now: u64) -> bool
    requires rise { AllRise (A.lists agenda.old) }
    requires below { NothingBelow now (A.lists agenda.old) }
    ensures due { result ≡ any_due now (A.lists agenda.old) }
    ensures lists { A.lists agenda.new ≡ A.lists agenda.old }
{
    match agenda.least() {
        Some(time) => time == now,
        None => false,
    }
}

/// The least time at which a transition is due, or else the latest that is asked for.
pub fn next_due<A: Agenda>(agenda: &mut A, now: u64, latest: u64) -> u64
    requires rise { AllRise (A.lists agenda.old) }
    requires below { NothingBelow (now + 1) (A.lists agenda.old) }
    requires now { now < latest }
    ensures later { now < result }
    ensures within { result ≤ latest }
    ensures below { NothingBelow result (A.lists agenda.old) }
    ensures due { result < latest → any_due result (A.lists agenda.old) ≡ true }
    ensures lists { A.lists agenda.new ≡ A.lists agenda.old }
{
    match agenda.least() {
        Some(time) => time.min(latest),
        None => latest,
    }
}

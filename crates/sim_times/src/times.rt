// The rounds of one time.
ghost use Rattle.std.specs.Prelude.{◌≡◌, ℕ, ◌+◌, ◌^◌, ◌<◌, ◌≤◌, Bool, List, [], false, not, true, IfOk, OnErr, OnOk};
ghost use Rattle.std.specs.Bool.{OnFalse, OnTrue};
ghost use Rattle.sg_logic.specs.declared.values.Value.{Value as NetValue};
ghost use Rattle.sg_model.specs.Machine.{Machine};
ghost use Rattle.sg_model.specs.Time.{Run, is_empty};
ghost use Rattle.sim_times.specs.Times.{AfterRound, AfterSnapshot, Kept, Names, Needs, OnEnd, OnRound, OnWhole, RoundsEnd, ToggleEnds, TurnEnds, count_shown};

use sg_steps::Steps;
use sg_text::NoMemory;
use std::sync::ledger::Ledger;

/// How a time ended: whole, with its rounds spent, reported on a net, or for want of memory.
#[derive(Clone, Copy, Debug, PartialEq, Eq)]
pub enum TimeEnd {
    Whole,
    Spent(u32),
    NoMemory,
}

/// What came of one turn: a round, the end of the time, or nothing for want of memory.
#[derive(Clone, Copy, Debug, PartialEq, Eq)]
pub enum Turn {
    Round,
    End,
    NoMemory,
}

/// What makes rounds. It stands for runs, and holds the changes that are handed in to the next round.
pub trait Rounds<L: Ledger> {
    /// The circuit that it simulates.
    ghost machine: { Self → Machine };

    /// It stands for a run at a time: none of the run's snapshots is later, and their times don't fall.
    ghost stands: { Self → ℕ → Run → Type 0 };

    /// It is ready for a round at a time: the first of all, which evaluates every element, or a later one.
    ghost ready: { Self → Bool → ℕ → Type 0 };

    /// The changes that are handed in to the next round.
    ghost handed: { Self → List (ℕ × NetValue) };

    /// How many evaluations it counted.
    ghost counted: { Self → ℕ };

    /// A round at a time would change a net.
    ghost moves: { Self → ℕ → Type 0 };

    /// What rounds leave.
    ghost kept: { Self → Kept };

    /// Whether a round takes place. Where none does, nothing is pending up to now.
    fn needs(&mut self, now: u64, must: bool) -> bool
        requires { ready self.old must now }
        ensures machine { machine self.new ≡ machine self.old }
        ensures handed { handed self.new ≡ handed self.old }
        ensures kept { kept self.new ≡ kept self.old }
        ensures counted { counted self.new ≡ counted self.old }
        ensures stands { (r : Run) → stands self.old now r → stands self.new now r }
        ensures needs { Needs now must (handed self.old) (stands self.old now) result }
        ensures moves { result ≡ true → must ≡ false → handed self.old ≡ [] → moves self.new now }
        ensures ready { ready self.new must now }
        ensures idle { OnFalse result (ready self.new false now) }
        ensures over { OnFalse result (ready self.new false (now + 1)) };

    /// A round. The first of all evaluates every element, a later one those with a changed input.
    fn round(&mut self, now: u64, all: bool, steps: &mut Steps<L>) -> Result<(), NoMemory>
        requires ready { ready self.old all now }
        requires now { now < 2 ^ 60 }
        ensures machine { machine self.new ≡ machine self.old }
        ensures kept { kept self.new ≡ kept self.old }
        ensures stands { OnOk result (AfterRound (machine self.old) now all (handed self.old) (stands self.old now) (stands self.new now) steps.old steps.new) }
        ensures handed { OnOk result (handed self.new ≡ []) }
        ensures ready { OnOk result (ready self.new false now) }
        ensures counted { OnErr result (counted self.new ≡ counted self.old) }
        ensures no_step { OnErr result (steps.new ≡ steps.old) }
        ensures steps { steps.old ≤ steps.new };

    /// Takes a snapshot, hands in the toggles of the notifiers, and answers whether there is any.
    fn snapshot(&mut self, now: u64) -> Result<bool, NoMemory>
        requires { ready self.old false now }
        ensures machine { machine self.new ≡ machine self.old }
        ensures kept { kept self.new ≡ kept self.old }
        ensures counted { counted self.new ≡ counted self.old }
        ensures stands { OnOk result (AfterSnapshot (machine self.old) now (stands self.old now) (stands self.new now) (handed self.new)) }
        ensures toggles { IfOk result (λ some. is_empty (handed self.new) ≡ not some) }
        ensures moves { IfOk result (λ some. OnTrue some (moves self.new now)) }
        ensures ready { OnOk result ((t : ℕ) → ready self.old false t → ready self.new false t) };

    /// The net that a spent time is reported on. It is the last call.
    fn name(&mut self, now: u64) -> u32
        requires ready { ready self.old false now }
        requires now { now < 2 ^ 60 }
        requires moves { moves self.old now }
        ensures machine { machine self.new ≡ machine self.old }
        ensures kept { kept self.new ≡ kept self.old }
        ensures counted { counted self.new ≡ counted self.old }
        ensures named { Names (machine self.old) now (handed self.old) (stands self.old now) result };

    /// It counted the evaluations of the runs that it stands for.
    ghost counts: { (e : Self) (n : ℕ) (r : Run) → stands e n r → counted e ≡ count_shown r.evaluations };
}

// One turn: a round, or a snapshot and the round of its toggles.
fn make_turn<L: Ledger, R: Rounds<L>>(
    rounds: &mut R,
    now: u64,
    must: bool,
    steps: &mut Steps<L>,
) -> Turn
    requires ready { R.ready rounds.old must now }
    requires now { now < 2 ^ 60 }
    ensures machine { R.machine rounds.new ≡ R.machine rounds.old }
    ensures kept { R.kept rounds.new ≡ R.kept rounds.old }
    ensures steps { steps.old ≤ steps.new }
    ensures turned { TurnEnds (R.machine rounds.old) now must (R.handed rounds.old) (R.stands rounds.old now) (R.stands rounds.new now) (R.counted rounds.new) steps.old steps.new result }
    ensures handed { OnRound result (R.handed rounds.new ≡ []) }
    ensures ready { OnRound result (R.ready rounds.new false now) }
    ensures over { OnEnd result (R.ready rounds.new false (now + 1)) }
{
    if rounds.needs(now, must) {
        return match rounds.round(now, must, steps) {
            Ok(()) => Turn::Round,
            Err(_) => Turn::NoMemory,
        };
    }
    toggle(rounds, now, steps)
}

// A snapshot and the round of its toggles, where there is any.
fn toggle<L: Ledger, R: Rounds<L>>(rounds: &mut R, now: u64, steps: &mut Steps<L>) -> Turn
    requires ready { R.ready rounds.old false now }
    requires over { R.ready rounds.old false (now + 1) }
    requires now { now < 2 ^ 60 }
    ensures machine { R.machine rounds.new ≡ R.machine rounds.old }
    ensures kept { R.kept rounds.new ≡ R.kept rounds.old }
    ensures steps { steps.old ≤ steps.new }
    ensures toggled { ToggleEnds (R.machine rounds.old) now (R.stands rounds.old now) (R.stands rounds.new now) (R.counted rounds.new) steps.old steps.new result }
    ensures handed { OnRound result (R.handed rounds.new ≡ []) }
    ensures ready { OnRound result (R.ready rounds.new false now) }
    ensures after { OnEnd result (R.ready rounds.new false (now + 1)) }
{
    match rounds.snapshot(now) {
        Ok(some) => {
            if !some {
                return Turn::End;
            }
        }
        Err(_) => return Turn::NoMemory,
    }
    match rounds.round(now, false, steps) {
        Ok(()) => Turn::Round,
        Err(_) => Turn::NoMemory,
    }
}

// The end of a time with no round left.
fn last<L: Ledger, R: Rounds<L>>(rounds: &mut R, now: u64) -> TimeEnd
    requires ready { R.ready rounds.old false now }
    requires now { now < 2 ^ 60 }
    requires handed { R.handed rounds.old ≡ [] }
    ensures machine { R.machine rounds.new ≡ R.machine rounds.old }
    ensures kept { R.kept rounds.new ≡ R.kept rounds.old }
    ensures ended { RoundsEnd 0 (R.machine rounds.old) now false [] (R.stands rounds.old now) (R.stands rounds.new now) (R.counted rounds.new) 0 0 result }
    ensures over { OnWhole result (R.ready rounds.new false (now + 1)) }
{
    if rounds.needs(now, false) {
        return TimeEnd::Spent(rounds.name(now));
    }
    match rounds.snapshot(now) {
        Ok(some) => {
            if some {
                TimeEnd::Spent(rounds.name(now))
            } else {
                TimeEnd::Whole
            }
        }
        Err(_) => TimeEnd::NoMemory,
    }
}

/// The rounds of a time, with at most so many.
pub fn make_time<L: Ledger, R: Rounds<L>>(
    rounds: &mut R,
    now: u64,
    first: bool,
    bound: u32,
    steps: &mut Steps<L>,
) -> TimeEnd
    requires ready { R.ready rounds.old first now }
    requires now { now < 2 ^ 60 }
    requires bound { 0 < bound }
    ensures machine { R.machine rounds.new ≡ R.machine rounds.old }
    ensures kept { R.kept rounds.new ≡ R.kept rounds.old }
    ensures steps { steps.old ≤ steps.new }
    ensures ended { RoundsEnd bound (R.machine rounds.old) now first (R.handed rounds.old) (R.stands rounds.old now) (R.stands rounds.new now) (R.counted rounds.new) steps.old steps.new result }
    ensures over { OnWhole result (R.ready rounds.new false (now + 1)) }
{
    let mut must = first;
    for _ in 0..bound {
        match make_turn(rounds, now, must, steps) {
            Turn::Round => {}
            Turn::End => return TimeEnd::Whole,
            Turn::NoMemory => return TimeEnd::NoMemory,
        }
        must = false;
    }
    last(rounds, now)
}

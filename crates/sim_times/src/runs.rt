// The times of a run, one after another, told to a watcher.
ghost use Rattle.std.specs.Prelude.{◌≡◌, ℕ, ◌+◌, ◌-◌, ◌^◌, ◌<◌, ◌≤◌, All, List, ◌∷◌, [], OnErr, OnOk, length, map};
ghost use Rattle.sg_logic.specs.declared.values.Value.{Value as NetValue};
ghost use Rattle.sg_model.specs.Machine.{Machine};
ghost use Rattle.sg_model.specs.Time.{Run};
ghost use Rattle.sg_model.specs.Quiet.{IsLawful, IsQuiet, IsSeen, with_copies};
ghost use Rattle.time_checks.specs.declared.changes.Change.{Change as NetChanged};
ghost use Rattle.sim_times.specs.Times.{Kept, count_shown};
ghost use Rattle.sim_times.specs.Runs.{CauseOfEnd, IsEndOfCall, IsEndOfTime, IsKeptAfter, NamesFaultOfEnd, RunMade, StopMade, TimeMade, calls_at, end_of_call};
ghost use Rattle.sim_times.specs.Watching.{AreDifferences, AreNextCalls, Broke, Got, HasTold, IsNextCall, call_of, net_change};

use crate::watch::Watch;
use cond_expr::Nets;
use sg_circuit::NetId;
use sg_io::{Shelf, ShelfError};
use sg_logic::Value;
use sg_steps::Steps;
use sg_text::NoMemory;
use std::sync::ledger::Ledger;
use time_checks::Change;

/// Why a run ended before its end.
#[derive(Clone, Copy, Debug, PartialEq, Eq)]
pub enum SimEnd {
    /// A time needed more rounds than the bound; the net is one that goes on changing.
    RoundsSpent { time: u64, net: NetId },
    /// The watcher failed.
    WatchFailed,
    /// There was no memory.
    NoMemory,
}

impl From<NoMemory> for SimEnd {
    ghost use Rattle.std.specs.Prelude.{◌≡◌};
    ghost use Rattle.sim_times.specs.declared.runs.SimEnd.TheVariants as end;

    ghost from_gives = { λ _ e. e ≡ end.NoMemory };

    fn from(_: NoMemory) -> Self {
        SimEnd::NoMemory
    }
}

/// What makes times. It stands for runs.
pub trait Times<L: Ledger> {
    /// The circuit that it simulates.
    ghost machine: { Self → Machine };

    /// What the stimulus sets, time by time.
    ghost sets: { Self → ℕ → List (ℕ × NetValue) };

    /// It stands for a run before a time: none of the run's snapshots is later, and their times don't fall.
    ghost stands: { Self → ℕ → Run → Type 0 };

    /// Nothing is pending before a time.
    ghost ready: { Self → ℕ → Type 0 };

    /// How many evaluations it counted.
    ghost counted: { Self → ℕ };

    /// What it keeps of the times that ended.
    ghost kept: { Self → Kept };

    /// The values of all nets.
    ghost values: { Self → List NetValue };

    /// The nets that the last time changed.
    ghost changes: { Self → List NetChanged };

    /// Makes a time, with at most so many rounds.
    fn make(&mut self, now: u64, bound: u32, steps: &mut Steps<L>) -> Result<(), SimEnd>
        requires ready { ready self.old now }
        requires now { now < 2 ^ 60 }
        requires bound { 0 < bound }
        requires told { length (kept self.old).told ≡ length (values self.old) }
        ensures machine { machine self.new ≡ machine self.old }
        ensures sets { sets self.new ≡ sets self.old }
        ensures nets { OnOk result (length (values self.new) ≡ length (values self.old)) }
        ensures made { TimeMade (machine self.old) (sets self.old) bound now (stands self.old now) (stands self.new (now + 1)) (counted self.new) steps.old steps.new result }
        ensures steps { steps.old ≤ steps.new }
        ensures end { IsEndOfTime result }
        ensures ready { OnOk result (ready self.new (now + 1)) }
        ensures changed { OnOk result (AreDifferences (kept self.old).told (values self.new) (map net_change (changes self.new))) }
        ensures within { OnOk result (All (λ c. c.net < length (values self.new)) (changes self.new)) }
        ensures kept { OnOk result (IsKeptAfter now (changes self.new) (values self.new) (kept self.old) (kept self.new)) }
        ensures ended { OnErr result (kept self.new ≡ kept self.old) };

    /// The least later time up to the end at which something is due or set, or the one after the end where there is none.
    fn next(&mut self, now: u64, end: u64) -> u64
        requires ready { ready self.old (now + 1) }
        requires now { now ≤ end }
        requires end { end < 2 ^ 60 }
        ensures later { now < result }
        ensures within { result ≤ end + 1 }
        ensures quiet { (r : Run) (t : ℕ) → stands self.old (now + 1) r → now < t → t < result → IsQuiet (sets self.old) r t }
        ensures busy { (r : Run) → stands self.old (now + 1) r → result ≤ end → ¬ IsQuiet (sets self.old) r result }
        ensures machine { machine self.new ≡ machine self.old }
        ensures sets { sets self.new ≡ sets self.old }
        ensures kept { kept self.new ≡ kept self.old }
        ensures values { values self.new ≡ values self.old }
        ensures stands { (n : ℕ) (r : Run) → stands self.old n r → stands self.new n r }
        ensures ready { ready self.new result };

    /// The values of all nets.
    fn values(&self) -> &[Value]
        ensures { result.now ≡ values self.now };

    /// The nets that the last time changed.
    fn changes(&self) -> &[Change]
        ensures { result.now ≡ changes self.now };

    /// Times that are skipped leave what it stands for.
    ghost skips: { (e : Self) (k n : ℕ) (r : Run) → IsLawful (machine e) → IsSeen r → stands e n r → stands e (n + k) (with_copies k (machine e) n r) };

    /// Its nets have the values of the runs that it stands for.
    ghost shows: { (e : Self) (n : ℕ) (r : Run) → stands e n r → values e ≡ r.state.values };

    /// It keeps their violations.
    ghost holds: { (e : Self) (n : ℕ) (r : Run) → stands e n r → (kept e).violations ≡ r.violations };

    /// It counted their evaluations.
    ghost counts: { (e : Self) (n : ℕ) (r : Run) → stands e n r → counted e ≡ count_shown r.evaluations };
}

/// The values of nets, in a slice.
#[derive(Drop)]
pub struct NetValues<'a> {
    values: &'a [Value],
}

impl Nets for NetValues<'_> {
    ghost values = { λ s. s.values.now };

    fn at(&self, net: u32) -> Value {
        self.values[net as usize]
    }
}

// How a call of a watcher that was refused ends a run.
fn end_of(error: ShelfError) -> SimEnd
    ensures { result ≡ end_of_call error }
{
    match error {
        ShelfError::Failed => SimEnd::WatchFailed,
        ShelfError::NoMemory => SimEnd::NoMemory,
    }
}

// A call of the watcher.
fn tell<S: Shelf, W: Watch<S>>(
    shelf: &mut S,
    watcher: &mut W,
    time: u64,
    changed: &[Change],
    values: &[Value],
) -> Result<(), SimEnd>
    requires nets { length (W.circuit watcher.old).nets ≤ length values.now }
    requires changed { All (λ c. c.net < length values.now) changed.now }
    requires next { IsNextCall (W.stands watcher.old shelf.old) (call_of time changed.now values.now) }
    ensures ok { OnOk result (Got W.stands watcher.old watcher.new shelf.old shelf.new (call_of time changed.now values.now ∷ [])) }
    ensures err { OnErr result (Broke W.stands W.broken watcher.old watcher.new shelf.old shelf.new (call_of time changed.now values.now ∷ [])) }
    ensures call { IsEndOfCall result }
    ensures cause { CauseOfEnd (S.fault_count shelf.old) (S.fault_count shelf.new) result }
    ensures named { NamesFaultOfEnd (W.name watcher.old) (S.last_fault shelf.old) (S.last_fault shelf.new) result }
    ensures name { W.name watcher.new ≡ W.name watcher.old }
    ensures circuit { W.circuit watcher.new ≡ W.circuit watcher.old }
    ensures kept { (a b : S) → W.keeps watcher.old a b → W.keeps watcher.new a b }
    ensures kept_back { (a b : S) → W.keeps watcher.new a b → W.keeps watcher.old a b }
    ensures keeps { W.keeps watcher.old shelf.old shelf.new }
{
    let nets = NetValues { values };
    match watcher.time(shelf, time, changed, &nets) {
        Ok(()) => Ok(()),
        Err(error) => Err(end_of(error)),
    }
}

// The calls of a time: one at time 0, and at a later time where a net changed.
fn tell_time<S: Shelf, W: Watch<S>>(
    shelf: &mut S,
    watcher: &mut W,
    now: u64,
    changed: &[Change],
    values: &[Value],
) -> Result<(), SimEnd>
    requires nets { length (W.circuit watcher.old).nets ≤ length values.now }
    requires changed { All (λ c. c.net < length values.now) changed.now }
    requires next { AreNextCalls (W.stands watcher.old shelf.old) (calls_at now changed.now values.now) }
    ensures ok { OnOk result (Got W.stands watcher.old watcher.new shelf.old shelf.new (calls_at now changed.now values.now)) }
    ensures err { OnErr result (Broke W.stands W.broken watcher.old watcher.new shelf.old shelf.new (calls_at now changed.now values.now)) }
    ensures call { IsEndOfCall result }
    ensures cause { CauseOfEnd (S.fault_count shelf.old) (S.fault_count shelf.new) result }
    ensures named { NamesFaultOfEnd (W.name watcher.old) (S.last_fault shelf.old) (S.last_fault shelf.new) result }
    ensures name { W.name watcher.new ≡ W.name watcher.old }
    ensures circuit { W.circuit watcher.new ≡ W.circuit watcher.old }
    ensures kept { (a b : S) → W.keeps watcher.old a b → W.keeps watcher.new a b }
    ensures kept_back { (a b : S) → W.keeps watcher.new a b → W.keeps watcher.old a b }
    ensures keeps { W.keeps watcher.old shelf.old shelf.new }
{
    if now > 0 && changed.is_empty() {
        return Ok(());
    }
    tell(shelf, watcher, now, changed, values)
}

/// Makes the times from one to another, or up to a spent one, and tells the watcher, who was told of the nets as they
/// are, or of nothing yet. Quiet times are skipped. No call tells the end.
pub fn make_times_until<S: Shelf, W: Watch<S>, L: Ledger, T: Times<L>>(
    times: &mut T,
    from: u64,
    until: u64,
    bound: u32,
    shelf: &mut S,
    watcher: &mut W,
    steps: &mut Steps<L>,
) -> Result<(), SimEnd>
    requires ready { T.ready times.old from }
    requires from { from ≤ until + 1 }
    requires until { until < 2 ^ 60 }
    requires bound { 0 < bound }
    requires law { IsLawful (T.machine times.old) }
    requires told { (T.kept times.old).told ≡ T.values times.old }
    requires nets { length (W.circuit watcher.old).nets ≤ length (T.values times.old) }
    requires before { HasTold (W.stands watcher.old shelf.old) (T.values times.old) }
    ensures machine { T.machine times.new ≡ T.machine times.old }
    ensures latest { (T.kept times.new).latest ≡ (T.kept times.old).latest }
    ensures made { StopMade (T.machine times.old) (T.sets times.old) bound from until (T.stands times.old from) (T.stands times.new (until + 1)) (T.kept times.old) W.stands W.broken watcher.old watcher.new shelf.old shelf.new (T.kept times.new) (T.counted times.new) (steps.new - steps.old) result }
    ensures ready { OnOk result (T.ready times.new (until + 1)) }
    ensures values { OnOk result ((T.kept times.new).told ≡ T.values times.new) }
    ensures many { OnOk result (length (T.values times.new) ≡ length (T.values times.old)) }
    ensures calls { OnOk result (HasTold (W.stands watcher.new shelf.new) (T.values times.new)) }
    ensures steps { steps.old ≤ steps.new }
    ensures cause { CauseOfEnd (S.fault_count shelf.old) (S.fault_count shelf.new) result }
    ensures named { NamesFaultOfEnd (W.name watcher.old) (S.last_fault shelf.old) (S.last_fault shelf.new) result }
    ensures name { W.name watcher.new ≡ W.name watcher.old }
    ensures circuit { W.circuit watcher.new ≡ W.circuit watcher.old }
    ensures kept_back { (a b : S) → W.keeps watcher.new a b → W.keeps watcher.old a b }
    ensures keeps { W.keeps watcher.old shelf.old shelf.new }
{
    let mut now = from;
    while now <= until {
        times.make(now, bound, steps)?;
        tell_time(shelf, watcher, now, times.changes(), times.values())?;
        now = times.next(now, until);
    }
    Ok(())
}

/// Makes the times from one to the end, or up to a spent one, and tells the watcher, who was told of the nets as they
/// are, or of nothing yet; then it tells the end. Quiet times are skipped.
pub fn make_times<S: Shelf, W: Watch<S>, L: Ledger, T: Times<L>>(
    times: &mut T,
    from: u64,
    end: u64,
    bound: u32,
    shelf: &mut S,
    watcher: &mut W,
    steps: &mut Steps<L>,
) -> Result<(), SimEnd>
    requires ready { T.ready times.old from }
    requires from { from ≤ end + 1 }
    requires end { end < 2 ^ 60 }
    requires bound { 0 < bound }
    requires law { IsLawful (T.machine times.old) }
    requires told { (T.kept times.old).told ≡ T.values times.old }
    requires nets { length (W.circuit watcher.old).nets ≤ length (T.values times.old) }
    requires before { HasTold (W.stands watcher.old shelf.old) (T.values times.old) }
    ensures ended { RunMade (T.machine times.old) (T.sets times.old) bound from end (T.stands times.old from) (T.kept times.old) W.stands W.broken watcher.old watcher.new shelf.old shelf.new (T.kept times.new) (T.counted times.new) (steps.new - steps.old) result }
    ensures steps { steps.old ≤ steps.new }
    ensures cause { CauseOfEnd (S.fault_count shelf.old) (S.fault_count shelf.new) result }
    ensures named { NamesFaultOfEnd (W.name watcher.old) (S.last_fault shelf.old) (S.last_fault shelf.new) result }
    ensures name { W.name watcher.new ≡ W.name watcher.old }
    ensures circuit { W.circuit watcher.new ≡ W.circuit watcher.old }
    ensures keeps { W.keeps watcher.old shelf.old shelf.new }
{
    make_times_until(times, from, end, bound, shelf, watcher, steps)?;
    tell(shelf, watcher, end, &[], times.values())
}

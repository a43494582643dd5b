// The timing checks of a circuit, and the toggles of their notifiers.
ghost use Rattle.std.specs.Prelude.{◌≡◌, ℕ, ◌||◌, ◌++◌, ◌<◌, ◌≤◌, [], ◌∷◌, All, IfOk, IfSome, OnOk, drop, false, length, map, replicate};
ghost use Rattle.std.specs.Vec.{vec_capacity};
ghost use Rattle.fan_round.specs.States.{IsIdle};
ghost use Rattle.fan_round.specs.Work.{AreMarked, mark_at};
ghost use Rattle.sg_model.specs.Time.{toggles as toggles_of};
ghost use Rattle.sg_model.specs.Values.{value_at};
ghost use Rattle.sg_stimulus.specs.Seen.{set_seen};
ghost use Rattle.time_checks.specs.Seen.{violation_seen};
ghost use Rattle.sim_rounds.specs.Engines.{AreChecksAt, AreChecksBy};
ghost use Rattle.sim_rounds.specs.Moments.{Fits, snapshot_of};
ghost use Rattle.sim_rounds.specs.MomentsSeen.{moment_seen};
ghost use Rattle.sim_machine.specs.Notifiers.{is_named, is_net, notifier_at, notifiers_of, toggle_to, toggled_value};

use crate::moments::Moment;
use fan_round::{WorkList, clear_work, mark_all};
use sg_circuit::{Check, Circuit, NetId};
use sg_logic::Value;
use sg_stimulus::Set;
use sg_text::NoMemory;
use sim_times::Checks;
use std::alloc::Global;
use time_checks::{Checker, Violation};

/// The timing checks of a circuit.
#[derive(Drop)]
pub struct CircuitChecks<'a> {
    pub(super) checks: &'a [Check],
    pub(super) checker: Checker<'a>,
    // the nets that changed since the last snapshot
    pub(super) touched: WorkList,
    // the notifiers that a snapshot's violations name
    pub(super) named: WorkList,
}

// The notifier of a check.
fn notifier_of(checks: &[Check], check: u32) -> Option<NetId>
    ensures { result ≡ notifier_at checks.now check }
{
    checks.get(check as usize)?.notifier
}

// The notifier of a violated check is marked and listed, where it wasn't yet.
fn mark_notifier(checks: &[Check], check: u32, marks: &mut [bool], list: &mut Vec<u32>)
    requires notifiers { All (λ k. IfSome k.notifier (λ n. n < length marks.old)) checks.now }
    requires room { length marks.old ≤ vec_capacity list.old }
    requires marked { AreMarked marks.old list.old.items }
    ensures marked { AreMarked marks.new list.new.items }
    ensures capacity { vec_capacity list.old ≤ vec_capacity list.new }
    ensures marks { (net : ℕ) → net < length marks.old → mark_at marks.new net ≡ (mark_at marks.old net || is_net net (notifier_at checks.now check)) }
{
    if let Some(net) = notifier_of(checks, check) {
        mark_all(&[net], marks, list);
    }
}

// The notifiers of these violations are.
fn mark_notifiers(
    checks: &[Check],
    violations: &[Violation],
    marks: &mut [bool],
    list: &mut Vec<u32>,
)
    requires notifiers { All (λ k. IfSome k.notifier (λ n. n < length marks.old)) checks.now }
    requires room { length marks.old ≤ vec_capacity list.old }
    requires marked { AreMarked marks.old list.old.items }
    ensures marked { AreMarked marks.new list.new.items }
    ensures capacity { vec_capacity list.old ≤ vec_capacity list.new }
    ensures marks { (net : ℕ) → net < length marks.old → mark_at marks.new net ≡ (mark_at marks.old net || is_named checks.now (map (λ v. violation_seen v) violations.now) net) }
{
    for violation in violations {
        mark_notifier(checks, violation.check, marks, list);
    }
}

// The same, and they are put in order.
fn sort_notifiers(
    checks: &[Check],
    violations: &[Violation],
    marks: &mut [bool],
    list: &mut Vec<u32>,
)
    requires notifiers { All (λ k. IfSome k.notifier (λ n. n < length marks.old)) checks.now }
    requires room { length marks.old ≤ vec_capacity list.old }
    requires none { marks.old ≡ replicate (length marks.old) false }
    requires marked { AreMarked marks.old list.old.items }
    ensures marked { AreMarked marks.new list.new.items }
    ensures capacity { vec_capacity list.old ≤ vec_capacity list.new }
    ensures list { list.new.items ≡ notifiers_of checks.now (length marks.old) (map (λ v. violation_seen v) violations.now) }
{
    mark_notifiers(checks, violations, marks, list);
    list.sort_unstable();
}

// A net that toggles takes this value, if it does (IEEE 1364-2005, 15.5).
fn toggled(value: Value) -> Option<Value>
    ensures { result ≡ toggled_value value }
{
    match value {
        Value::Zero => Some(Value::One),
        Value::One | Value::X => Some(Value::Zero),
        Value::Z => None,
    }
}

fn add_toggle(net: NetId, values: &[Value], toggles: &mut Vec<Set>) -> Result<(), NoMemory>
    requires { net < length values.now }
    ensures { OnOk result (map (λ c. set_seen c) toggles.new.items ≡ map (λ c. set_seen c) toggles.old.items ++ toggle_to (toggled_value (value_at values.now net)) net []) }
{
    if let Some(value) = toggled(values[net as usize]) {
        toggles.push(Set { net, value })?;
    }
    Ok(())
}

// The toggles of these nets are handed in.
fn add_toggles(nets: &[NetId], values: &[Value], toggles: &mut Vec<Set>) -> Result<(), NoMemory>
    requires nets { All (λ net. net < length values.now) nets.now }
    requires empty { toggles.old.items ≡ [] }
    ensures { OnOk result (map (λ c. set_seen c) toggles.new.items ≡ toggles_of nets.now values.now) }
{
    for net in nets {
        add_toggle(*net, values, toggles)?;
    }
    Ok(())
}

// The toggles of the notifiers that violations name are handed in, where no net is listed before or after.
fn toggle_notifiers(
    checks: &[Check],
    violations: &[Violation],
    named: &mut WorkList,
    values: &[Value],
    toggles: &mut Vec<Set>,
) -> Result<(), NoMemory>
    requires notifiers { All (λ k. IfSome k.notifier (λ n. n < length values.now)) checks.now }
    requires idle { IsIdle named.old (length values.now) }
    requires empty { toggles.old.items ≡ [] }
    ensures toggles { OnOk result (map (λ c. set_seen c) toggles.new.items ≡ toggles_of (notifiers_of checks.now (length values.now) (map (λ v. violation_seen v) violations.now)) values.now) }
    ensures idle { IsIdle named.new (length values.now) }
{
    sort_notifiers(checks, violations, &mut named.marks, &mut named.list);
    let handed = add_toggles(&named.list, values, toggles);
    clear_work(&mut named.marks, &mut named.list);
    handed
}

// The violations that were added to so many.
fn added(violations: &[Violation], before: usize) -> &[Violation]
    requires { before ≤ length violations.now }
    ensures { result.now ≡ drop before violations.now }
{
    &violations[before..]
}

impl<'a> CircuitChecks<'a> {
    // The checks of a circuit with their checker, where no net changed since its last snapshot.
    fn of_checker(
        alloc: Global,
        circuit: &'a Circuit,
        checker: Checker<'a>,
    ) -> Result<CircuitChecks<'a>, NoMemory>
        ensures { IfOk result (λ c. AreChecksBy circuit.now checker.entry c.checks.now c.checker c.touched c.named) }
    {
        let parts = circuit.parts();
        let nets = parts.nets.len() as u32;
        let touched = WorkList::new(alloc, nets)?;
        let named = WorkList::new(alloc, nets)?;
        Ok(CircuitChecks {
            checks: &parts.checks,
            checker,
            touched,
            named,
        })
    }

    /// The checks of a circuit, which have seen nothing. Takes memory in proportion to the nets and the checks.
    pub fn new(alloc: Global, circuit: &'a Circuit) -> Result<CircuitChecks<'a>, NoMemory>
        ensures { IfOk result (λ c. AreChecksAt circuit.now [] [] c.checks.now c.checker c.touched c.named) }
    {
        let checker = Checker::new(alloc, circuit)?;
        CircuitChecks::of_checker(alloc, circuit, checker)
    }

    /// The checks of a circuit after the time of a moment that fits it, whose nets they have seen. Takes as much memory as
    /// `new`.
    pub fn resume(
        alloc: Global,
        circuit: &'a Circuit,
        moment: &'a Moment,
    ) -> Result<CircuitChecks<'a>, NoMemory>
        requires { Fits circuit.now (moment_seen moment.now) }
        ensures { IfOk result (λ c. AreChecksAt circuit.now moment.now.latest.items (snapshot_of (moment_seen moment.now) ∷ []) c.checks.now c.checker c.touched c.named) }
    {
        let mut checker = Checker::resume(alloc, circuit, &moment.latest)?;
        // the first snapshot that a checker sees has no violation
        let mut none = Vec::new(alloc);
        checker.see(moment.time, &[], &moment.nets, &mut none)?;
        CircuitChecks::of_checker(alloc, circuit, checker)
    }
}

impl Checks for CircuitChecks<'_> {
    ghost use Rattle.std.specs.Prelude.{length};
    ghost use Rattle.time_checks.specs.Violations.{latest_events, violations_since};
    ghost use Rattle.time_checks.proofs.QuietLaws.{stands-again};
    ghost use Rattle.sim_rounds.specs.CircuitChecks.{AreChecksOver, HaveSeen};
    ghost use Rattle.sim_machine.specs.Notifiers.{notifiers_of};

    ghost violated = { λ c ss. violations_since c.checker.earlier c.checker.checks ss };

    ghost notifiers = { λ c vs. notifiers_of c.checks.now (length c.checker.last) vs };

    ghost latest = { λ c ss. latest_events c.checker.earlier c.checker.checks ss };

    ghost over = { λ c nets. AreChecksOver c.checks.now c.checker c.touched c.named nets };

    ghost stands = { λ c now ss. HaveSeen c.checker c.touched now ss };

    ghost skips = { λ c t last values now older h. record { begun = h.begun; stands = stands-again c.checker t (record { time = last; values = values }) older h.stands; leads = h.leads } };

    fn touch(&mut self, changed: &[NetId], before: &[Value], values: &[Value]) {
        let _ = before;
        let _ = values;
        mark_all(changed, &mut self.touched.marks, &mut self.touched.list);
    }

    fn see(
        &mut self,
        now: u64,
        values: &[Value],
        violations: &mut Vec<Violation>,
        toggles: &mut Vec<Set>,
    ) -> Result<(), NoMemory> {
        let before = violations.len();
        self.checker
            .see(now, &self.touched.list, values, violations)?;
        clear_work(&mut self.touched.marks, &mut self.touched.list);
        let found = added(violations, before);
        toggle_notifiers(self.checks, found, &mut self.named, values, toggles)
    }
}

// One round: what is due takes effect, and the elements with a changed input are evaluated.
ghost use Rattle.std.specs.Prelude.{◌≡◌, ◌+◌, ◌<◌, ◌≤◌, ◌^◌, All, IfOk, OnErr, OnOk, if◌then◌else◌, length, map};
ghost use Rattle.sg_model.specs.Agenda.{NothingBelow};
ghost use Rattle.sg_model.specs.Round.{each_from, element_list, element_value, round as round_of};
ghost use Rattle.sg_model.specs.Time.{count_differing};
ghost use Rattle.sg_stimulus.specs.Seen.{set_seen};
ghost use Rattle.fan_round.specs.Nets.{stamp_seen, AreNets};
ghost use Rattle.fan_round.specs.Rounds.{AreHanded, ArePending, StaysElsewhere};
ghost use Rattle.fan_round.specs.States.{state_seen, IsIdle, IsOfCircuit, IsReady, IsReadyFor};
ghost use Rattle.sg_circuit.specs.FanOut.{IsFanOut};

use crate::evaluation::{Elements, evaluate_all};
use crate::nets::{Nets, change_nets};
use crate::work::{WorkList, clear_work, list_every, list_work};
use pulse_list::Agenda;
use sg_circuit::FanOut;
use sg_steps::Steps;
use sg_stimulus::Set;
use sg_text::NoMemory;
use std::sync::ledger::Ledger;

// The elements with a changed input are evaluated. It answers how many these are.
fn evaluate_work<A: Agenda, L: Ledger, E: Elements<A, L>>(
    nets: &Nets,
    fan: &FanOut,
    work: &mut WorkList,
    elements: &mut E,
    agenda: &mut A,
    now: u64,
    steps: &mut Steps<L>,
) -> Result<u32, NoMemory>
    requires nets { AreNets nets.now }
    requires net_count { E.net_count elements.old ≡ length nets.now.values.items }
    requires fan { IsFanOut (E.machine elements.old).inputs fan.now }
    requires each_net { length nets.now.values.items ≤ length fan.now }
    requires elements { length (E.machine elements.old).inputs ≡ length (A.lists agenda.old) }
    requires few { length (A.lists agenda.old) < 2 ^ 31 }
    requires below { NothingBelow now (A.lists agenda.old) }
    requires now { now < 2 ^ 60 }
    requires idle { IsIdle work.old (length (A.lists agenda.old)) }
    requires stays { StaysElsewhere (E.machine elements.old) now nets.now.before.items nets.now.values.items (map stamp_seen nets.now.stamps.items) (A.lists agenda.old) (E.states elements.old) }
    ensures machine { E.machine elements.new ≡ E.machine elements.old }
    ensures net_count { E.net_count elements.new ≡ E.net_count elements.old }
    ensures lists { OnOk result (A.lists agenda.new ≡ each_from (element_list (E.machine elements.old) now nets.now.before.items nets.now.values.items (map stamp_seen nets.now.stamps.items) (E.states elements.old)) 0 (A.lists agenda.old)) }
    ensures states { OnOk result (E.states elements.new ≡ each_from (element_value (E.machine elements.old) nets.now.before.items nets.now.values.items) 0 (E.states elements.old)) }
    ensures idle { OnOk result (IsIdle work.new (length (A.lists agenda.old))) }
    ensures count { IfOk result (λ n. n ≡ count_differing nets.now.before.items nets.now.values.items (E.machine elements.old).inputs) }
    ensures steps { IfOk result (λ n. steps.new ≡ steps.old + n) }
    ensures no_step { OnErr result (steps.new ≡ steps.old) }
{
    list_work(&nets.changed, fan, &mut work.marks, &mut work.list);
    let count = work.list.len() as u32;
    agenda.reserve(2 * count)?;
    evaluate_all(
        elements,
        agenda,
        &work.list,
        now,
        &nets.before,
        &nets.values,
        &nets.stamps,
        steps,
    );
    clear_work(&mut work.marks, &mut work.list);
    Ok(count)
}

/// A round: what is due and handed in takes effect at once, and the elements with a changed input are evaluated. It
/// answers how many these are, and leaves what evaluating all would.
///
/// `NoMemory` where there is no room for two transitions for each of them. Nothing is evaluated then.
pub fn round<A: Agenda, L: Ledger, E: Elements<A, L>>(
    nets: &mut Nets,
    work: &mut WorkList,
    elements: &mut E,
    agenda: &mut A,
    outputs: &[u32],
    fan: &FanOut,
    now: u64,
    handed: &[Set],
    steps: &mut Steps<L>,
) -> Result<u32, NoMemory>
    requires ready { IsReady (E.machine elements.old) fan.now outputs.now nets.old work.old (A.lists agenda.old) (E.states elements.old) now }
    requires net_count { E.net_count elements.old ≡ length nets.old.values.items }
    requires now { now < 2 ^ 60 }
    requires within { All (λ c. c.net < length nets.old.values.items) handed.now }
    requires handed { AreHanded outputs.now (map (λ c. set_seen c) handed.now) }
    ensures machine { E.machine elements.new ≡ E.machine elements.old }
    ensures net_count { E.net_count elements.new ≡ E.net_count elements.old }
    ensures state { OnOk result (state_seen nets.new (A.lists agenda.new) (E.states elements.new)
        ≡ round_of (E.machine elements.old) now (map (λ c. set_seen c) handed.now) (state_seen nets.old (A.lists agenda.old) (E.states elements.old))) }
    ensures before { OnOk result (nets.new.before.items ≡ nets.old.values.items) }
    ensures ready { OnOk result (IsReady (E.machine elements.old) fan.now outputs.now nets.new work.new (A.lists agenda.new) (E.states elements.new) now) }
    ensures count { IfOk result (λ n. n ≡ count_differing nets.old.values.items nets.new.values.items (E.machine elements.old).inputs) }
    ensures steps { IfOk result (λ n. steps.new ≡ steps.old + n) }
    ensures no_step { OnErr result (steps.new ≡ steps.old) }
{
    change_nets(nets, agenda, outputs, now, handed);
    evaluate_work(nets, fan, work, elements, agenda, now, steps)
}

// The elements are all evaluated.
fn evaluate_every<A: Agenda, L: Ledger, E: Elements<A, L>>(
    nets: &Nets,
    work: &mut WorkList,
    elements: &mut E,
    agenda: &mut A,
    now: u64,
    count: u32,
    steps: &mut Steps<L>,
) -> Result<(), NoMemory>
    requires nets { AreNets nets.now }
    requires net_count { E.net_count elements.old ≡ length nets.now.values.items }
    requires elements { length (A.lists agenda.old) ≡ count }
    requires inputs { length (E.machine elements.old).inputs ≡ count }
    requires states { length (E.states elements.old) ≡ count }
    requires few { count < 2 ^ 31 }
    requires below { NothingBelow now (A.lists agenda.old) }
    requires now { now < 2 ^ 60 }
    requires idle { IsIdle work.old count }
    ensures machine { E.machine elements.new ≡ E.machine elements.old }
    ensures net_count { E.net_count elements.new ≡ E.net_count elements.old }
    ensures lists { OnOk result (A.lists agenda.new ≡ each_from (element_list (E.machine elements.old) now nets.now.before.items nets.now.values.items (map stamp_seen nets.now.stamps.items) (E.states elements.old)) 0 (A.lists agenda.old)) }
    ensures states { OnOk result (E.states elements.new ≡ each_from (element_value (E.machine elements.old) nets.now.before.items nets.now.values.items) 0 (E.states elements.old)) }
    ensures idle { OnOk result (IsIdle work.new count) }
    ensures steps { OnOk result (steps.new ≡ steps.old + count) }
    ensures no_step { OnErr result (steps.new ≡ steps.old) }
{
    list_every(&mut work.list, count);
    agenda.reserve(2 * count)?;
    evaluate_all(
        elements,
        agenda,
        &work.list,
        now,
        &nets.before,
        &nets.values,
        &nets.stamps,
        steps,
    );
    work.list.clear();
    Ok(())
}

/// The first round: every element is evaluated, settled or not. It answers how many these are.
///
/// `NoMemory` as of [`round`].
pub fn first_round<A: Agenda, L: Ledger, E: Elements<A, L>>(
    nets: &mut Nets,
    work: &mut WorkList,
    elements: &mut E,
    agenda: &mut A,
    outputs: &[u32],
    fan: &FanOut,
    now: u64,
    handed: &[Set],
    steps: &mut Steps<L>,
) -> Result<u32, NoMemory>
    requires circuit { IsOfCircuit (E.machine elements.old) fan.now outputs.now (length nets.old.values.items) (length (A.lists agenda.old)) }
    requires states { length (E.states elements.old) ≡ length (A.lists agenda.old) }
    requires nets { AreNets nets.old }
    requires net_count { E.net_count elements.old ≡ length nets.old.values.items }
    requires now { now < 2 ^ 60 }
    requires idle { IsIdle work.old (length (A.lists agenda.old)) }
    requires within { All (λ c. c.net < length nets.old.values.items) handed.now }
    requires handed { AreHanded outputs.now (map (λ c. set_seen c) handed.now) }
    requires pending { ArePending outputs.now nets.old.values.items (A.lists agenda.old) now }
    ensures machine { E.machine elements.new ≡ E.machine elements.old }
    ensures net_count { E.net_count elements.new ≡ E.net_count elements.old }
    ensures state { OnOk result (state_seen nets.new (A.lists agenda.new) (E.states elements.new)
        ≡ round_of (E.machine elements.old) now (map (λ c. set_seen c) handed.now) (state_seen nets.old (A.lists agenda.old) (E.states elements.old))) }
    ensures before { OnOk result (nets.new.before.items ≡ nets.old.values.items) }
    ensures ready { OnOk result (IsReady (E.machine elements.old) fan.now outputs.now nets.new work.new (A.lists agenda.new) (E.states elements.new) now) }
    ensures count { IfOk result (λ n. n ≡ length (E.machine elements.old).inputs) }
    ensures steps { IfOk result (λ n. steps.new ≡ steps.old + n) }
    ensures no_step { OnErr result (steps.new ≡ steps.old) }
{
    let _ = fan;
    change_nets(nets, agenda, outputs, now, handed);
    let count = outputs.len() as u32;
    evaluate_every(nets, work, elements, agenda, now, count, steps)?;
    Ok(count)
}

/// A round: the first of all, or a later one. It answers how many elements it evaluates, each in one step, and leaves
/// what evaluating all would.
///
/// `NoMemory` as of [`round`].
pub fn make_round<A: Agenda, L: Ledger, E: Elements<A, L>>(
    nets: &mut Nets,
    work: &mut WorkList,
    elements: &mut E,
    agenda: &mut A,
    outputs: &[u32],
    fan: &FanOut,
    now: u64,
    all: bool,
    handed: &[Set],
    steps: &mut Steps<L>,
) -> Result<u32, NoMemory>
    requires ready { IsReadyFor all (E.machine elements.old) fan.now outputs.now nets.old work.old (A.lists agenda.old) (E.states elements.old) now }
    requires net_count { E.net_count elements.old ≡ length nets.old.values.items }
    requires now { now < 2 ^ 60 }
    requires within { All (λ c. c.net < length nets.old.values.items) handed.now }
    requires handed { AreHanded outputs.now (map (λ c. set_seen c) handed.now) }
    ensures machine { E.machine elements.new ≡ E.machine elements.old }
    ensures net_count { E.net_count elements.new ≡ E.net_count elements.old }
    ensures state { OnOk result (state_seen nets.new (A.lists agenda.new) (E.states elements.new)
        ≡ round_of (E.machine elements.old) now (map (λ c. set_seen c) handed.now) (state_seen nets.old (A.lists agenda.old) (E.states elements.old))) }
    ensures before { OnOk result (nets.new.before.items ≡ nets.old.values.items) }
    ensures ready { OnOk result (IsReady (E.machine elements.old) fan.now outputs.now nets.new work.new (A.lists agenda.new) (E.states elements.new) now) }
    ensures count { IfOk result (λ n. n ≡ (if all then length (E.machine elements.old).inputs else count_differing nets.old.values.items nets.new.values.items (E.machine elements.old).inputs)) }
    ensures steps { IfOk result (λ n. steps.new ≡ steps.old + n) }
    ensures no_step { OnErr result (steps.new ≡ steps.old) }
{
    if all {
        return first_round(
            nets, work, elements, agenda, outputs, fan, now, handed, steps,
        );
    }
    round(
        nets, work, elements, agenda, outputs, fan, now, handed, steps,
    )
}

// How the values of elements are placed among what is pending.
ghost use Rattle.std.specs.Prelude.{◌≡◌, ◌<◌, ◌≤◌, ◌^◌, ◌+◌, [], All, IsTrue, length};
ghost use Rattle.std.specs.Bool.{OnFalse, OnTrue};
ghost use Rattle.sg_delay.specs.GateDelay.{delay_to};
ghost use Rattle.sg_model.specs.Agenda.{list_at, with_list, NoneBelow};
ghost use Rattle.sg_model.specs.Pending.{last_value, put};
ghost use Rattle.sg_model.specs.Round.{placed_by};
ghost use Rattle.sg_circuit.specs.Closed.{AreTimings, HasDelays, IsPathOf, NamesNets};
ghost use Rattle.sg_circuit.specs.PathsSeen.{paths_seen, spanned, AreIndexedPaths};
ghost use Rattle.sg_circuit.specs.Seen.{delays_at, kind_seen, IsIndexed};
ghost use Rattle.sg_circuit.specs.Timings.{timing_between};
ghost use Rattle.sg_circuit.specs.TimingsSeen.{leg_timing_seen};
ghost use Rattle.path_pick.specs.Choice.{picked};
ghost use Rattle.sim_machine.specs.AtOnce.{IsAtOnce};
ghost use Rattle.sim_machine.specs.Simulated.{rule_of_kind, late_rule, leg_rule, path_rule};

use cond_expr::Nets;
use immediate_list::Immediate;
use path_pick::{Marks, Stamps, pick, pulse_between};
use pulse_list::{Agenda, end_value, place, place_inertial};
use sg_circuit::{Element, ElementKind, LegTiming, Parts, Span};
use sg_delay::{GateDelays, PulseStyle, gate_delay};
use sg_logic::Value;

// A leg's value is placed by the pulse rule.
fn place_leg<A: Agenda>(
    agenda: &mut A,
    element: u32,
    present: Value,
    now: u64,
    value: Value,
    timing: &LegTiming,
)
    requires element { element < length (A.lists agenda.old) }
    requires room { 2 ≤ A.spare agenda.old }
    requires from_now { NoneBelow now (list_at (A.lists agenda.old) element) }
    requires now { now < 2 ^ 60 }
    requires timings { AreTimings (leg_timing_seen timing.now) }
    ensures lists { A.lists agenda.new ≡ with_list (A.lists agenda.old) element
        (placed_by (leg_rule now (timing_between (leg_timing_seen timing.now) (last_value (list_at (A.lists agenda.old) element) present) value)) (list_at (A.lists agenda.old) element) present now value) }
    ensures spare { A.spare agenda.old ≤ A.spare agenda.new + 2 }
{
    let from = end_value(agenda, element, present);
    let pulse = pulse_between(timing, from, value);
    let time = now + pulse.delay;
    place(
        agenda,
        element,
        present,
        now,
        value,
        time,
        pulse.reject,
        pulse.error,
        PulseStyle::OnEvent,
    );
}

// A value is placed by the pulse rule, with the time and the limits of the specify path that decides.
fn place_path<A: Agenda, N: Nets + Stamps>(
    agenda: &mut A,
    parts: &Parts,
    element: u32,
    present: Value,
    now: u64,
    value: Value,
    paths: Span,
    style: PulseStyle,
    nets: &N,
    marks: &mut Marks,
)
    requires element { element < length (A.lists agenda.old) }
    requires room { 2 ≤ A.spare agenda.old }
    requires from_now { NoneBelow now (list_at (A.lists agenda.old) element) }
    requires now { now < 2 ^ 60 }
    requires indexed { AreIndexedPaths (length parts.now.conditions.items) (length parts.now.leg_timings.items) parts.now.paths.items paths }
    requires delays { All (λ p. AreTimings p.timings) (paths_seen parts.now.conditions.items parts.now.leg_timings.items (spanned parts.now.paths.items paths)) }
    requires paths { All (IsPathOf (length (N.values nets.now))) (paths_seen parts.now.conditions.items parts.now.leg_timings.items (spanned parts.now.paths.items paths)) }
    requires stamps { length (N.stamps nets.now) ≡ length (N.values nets.now) }
    requires marks { marks.old ≡ length (N.stamps nets.now) }
    ensures lists { A.lists agenda.new ≡ with_list (A.lists agenda.old) element
        (placed_by (path_rule style (picked (paths_seen parts.now.conditions.items parts.now.leg_timings.items (spanned parts.now.paths.items paths)) (N.values nets.now) (N.stamps nets.now) now (last_value (list_at (A.lists agenda.old) element) present) value))
        (list_at (A.lists agenda.old) element) present now value) }
    ensures spare { A.spare agenda.old ≤ A.spare agenda.new + 2 }
    ensures marks { marks.new ≡ marks.old }
{
    let from = end_value(agenda, element, present);
    let paths = parts.paths_in(paths);
    let picked = pick(
        paths,
        &parts.leg_timings,
        nets,
        nets,
        marks,
        now,
        from,
        value,
    );
    place(
        agenda,
        element,
        present,
        now,
        value,
        picked.time,
        picked.reject,
        picked.error,
        style,
    );
}

// A delayed signal's value is placed behind what is pending, so many ticks later.
fn place_late<A: Agenda>(
    agenda: &mut A,
    element: u32,
    present: Value,
    now: u64,
    value: Value,
    delay: u64,
)
    requires element { element < length (A.lists agenda.old) }
    requires room { 2 ≤ A.spare agenda.old }
    requires from_now { NoneBelow now (list_at (A.lists agenda.old) element) }
    requires now { now < 2 ^ 60 }
    requires delay { delay < 2 ^ 60 }
    ensures lists { A.lists agenda.new ≡ with_list (A.lists agenda.old) element
        (placed_by (late_rule now delay) (list_at (A.lists agenda.old) element) present now value) }
    ensures spare { A.spare agenda.old ≤ A.spare agenda.new + 2 }
{
    let time = now + delay;
    place(
        agenda,
        element,
        present,
        now,
        value,
        time,
        0,
        0,
        PulseStyle::OnEvent,
    );
}

// The delay of a gate, by the place of its delays in a table.
fn delay_of(table: &[GateDelays], place: u32, to: Value) -> u64
    requires place { place < length table.now }
    requires counts { All (λ d. d.count ≤ 3) table.now }
    requires fits { All (λ d. d < 2 ^ 60) (delays_at table.now place) }
    ensures delay { result ≡ delay_to (delays_at table.now place) to }
    ensures fits { result < 2 ^ 60 }
{
    gate_delay(&table[place as usize], to)
}

// Places an element's value by the rule of its kind, with the nets as they are after a round.
fn place_value<A: Agenda, N: Nets + Stamps>(
    agenda: &mut A,
    parts: &Parts,
    element: u32,
    kind: ElementKind,
    present: Value,
    now: u64,
    value: Value,
    nets: &N,
    marks: &mut Marks,
)
    requires element { element < length (A.lists agenda.old) }
    requires room { 2 ≤ A.spare agenda.old }
    requires from_now { NoneBelow now (list_at (A.lists agenda.old) element) }
    requires now { now < 2 ^ 60 }
    requires indexed { IsIndexed parts.now kind }
    requires counts { All (λ d. d.count ≤ 3) parts.now.gate_delays.items }
    requires delays { HasDelays (kind_seen parts.now kind) }
    requires paths { NamesNets (length (N.values nets.now)) (kind_seen parts.now kind) }
    requires stamps { length (N.stamps nets.now) ≡ length (N.values nets.now) }
    requires marks { marks.old ≡ length (N.stamps nets.now) }
    ensures lists { A.lists agenda.new ≡ with_list (A.lists agenda.old) element
        (placed_by (rule_of_kind (kind_seen parts.now kind) now (N.values nets.now) (N.stamps nets.now) (last_value (list_at (A.lists agenda.old) element) present) value) (list_at (A.lists agenda.old) element) present now value) }
    ensures spare { A.spare agenda.old ≤ A.spare agenda.new + 2 }
    ensures marks { marks.new ≡ marks.old }
{
    match kind {
        ElementKind::Gate { delays, .. } | ElementKind::Udp { delays, .. } => {
            let delay = delay_of(&parts.gate_delays, delays, value);
            place_inertial(agenda, element, present, now, value, now + delay);
        }
        ElementKind::Pass { .. } => place_inertial(agenda, element, present, now, value, now),
        ElementKind::Leg { timing } => {
            let timing = &parts.leg_timings[timing as usize];
            place_leg(agenda, element, present, now, value, timing);
        }
        ElementKind::Path { paths, style } => {
            place_path(
                agenda, parts, element, present, now, value, paths, style, nets, marks,
            );
        }
        ElementKind::Late { delay } => place_late(agenda, element, present, now, value, delay),
    }
}

// A value that is placed at once goes to the list in front of the agenda, where nothing is known to be pending. It answers whether it did.
fn place_at_once<A: Agenda>(
    agenda: &mut Immediate<A>,
    element: u32,
    at_once: bool,
    present: Value,
    now: u64,
    value: Value,
) -> bool
    requires element { element < length agenda.old.0 }
    requires room { 2 ≤ agenda.old.1 }
    ensures at_once { OnTrue result (IsTrue at_once) }
    ensures placed { OnTrue result ((list_at agenda.old.0 element ≡ []) × (agenda.new.0 ≡ with_list agenda.old.0 element (put [] present now value))) }
    ensures stays { OnFalse result (agenda.new ≡ agenda.old) }
    ensures spare { agenda.old.1 ≤ agenda.new.1 + 1 }
{
    if !at_once {
        return false;
    }
    agenda.place_at_once(element, present, now, value)
}

/// Places an element's value by the rule of its kind, with the nets as they are after a round. That of an element which places every
/// value at once goes to the list in front of the agenda.
pub fn place_by_kind<A: Agenda, N: Nets + Stamps>(
    agenda: &mut Immediate<A>,
    parts: &Parts,
    element: u32,
    item: &Element,
    at_once: bool,
    present: Value,
    now: u64,
    value: Value,
    nets: &N,
    marks: &mut Marks,
)
    requires element { element < length agenda.old.0 }
    requires room { 2 ≤ agenda.old.1 }
    requires from_now { NoneBelow now (list_at agenda.old.0 element) }
    requires now { now < 2 ^ 60 }
    requires indexed { IsIndexed parts.now item.now.kind }
    requires counts { All (λ d. d.count ≤ 3) parts.now.gate_delays.items }
    requires delays { HasDelays (kind_seen parts.now item.now.kind) }
    requires paths { NamesNets (length (N.values nets.now)) (kind_seen parts.now item.now.kind) }
    requires stamps { length (N.stamps nets.now) ≡ length (N.values nets.now) }
    requires marks { marks.old ≡ length (N.stamps nets.now) }
    requires at_once { OnTrue at_once (IsAtOnce (kind_seen parts.now item.now.kind)) }
    ensures lists { agenda.new.0 ≡ with_list agenda.old.0 element
        (placed_by (rule_of_kind (kind_seen parts.now item.now.kind) now (N.values nets.now) (N.stamps nets.now) (last_value (list_at agenda.old.0 element) present) value) (list_at agenda.old.0 element) present now value) }
    ensures spare { agenda.old.1 ≤ agenda.new.1 + 2 }
    ensures marks { marks.new ≡ marks.old }
{
    if place_at_once(agenda, element, at_once, present, now, value) {
        return;
    }
    place_value(
        agenda, parts, element, item.kind, present, now, value, nets, marks,
    );
}

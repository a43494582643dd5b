// Whether a stimulus can be applied to a circuit.
ghost use Rattle.std.specs.Prelude.{◌↔◌, ◌≢◌, ◌≤◌, All, IsTrue, length, map};
ghost use Rattle.sg_stimulus.specs.Applied.{IsApplied, IsBefore, IsInput, SetsNot, SetsOnce, StepsRise};
ghost use Rattle.sg_stimulus.specs.Seen.{set_seen, step_seen, stimulus_seen};

use crate::{Set, StimStep, Stimulus};
use sg_circuit::{Circuit, Driver, NetId};

// Whether a time comes before the first of some steps.
fn comes_before(time: u64, steps: &[StimStep]) -> bool
    ensures { IsTrue result ↔ IsBefore time (map (λ s. step_seen s) steps.now) }
{
    match steps.first() {
        Some(next) => time < next.time,
        None => true,
    }
}

fn steps_rise(steps: &[StimStep]) -> bool
    ensures { IsTrue result ↔ StepsRise (map (λ s. step_seen s) steps.now) }
{
    let mut rest = steps;
    while let [step, more @ ..] = rest {
        if !comes_before(step.time, more) {
            return false;
        }
        rest = more;
    }
    true
}

fn are_apart(net: NetId, sets: &[Set]) -> bool
    ensures { IsTrue result ↔ All (λ c. c.net ≢ net) sets.now }
{
    sets.iter().all(|set| set.net != net)
}

// Whether none of some sets is of a net.
fn sets_not(net: NetId, sets: &[Set]) -> bool
    ensures { IsTrue result ↔ SetsNot net (map (λ c. set_seen c) sets.now) }
{
    are_apart(net, sets)
}

fn sets_once(sets: &[Set]) -> bool
    ensures { IsTrue result ↔ SetsOnce (map (λ c. set_seen c) sets.now) }
{
    let mut rest = sets;
    while let [set, more @ ..] = rest {
        if !sets_not(set.net, more) {
            return false;
        }
        rest = more;
    }
    true
}

fn is_input(circuit: &Circuit, net: NetId) -> bool
    ensures { IsTrue result ↔ IsInput circuit.now net }
{
    match circuit.parts().nets.get(net as usize) {
        Some(item) => matches!(item.driver, Driver::Stimulus),
        None => false,
    }
}

fn sets_fit(circuit: &Circuit, sets: &[Set]) -> bool
    ensures { IsTrue result ↔ All (λ c. IsInput circuit.now c.net) sets.now }
{
    sets.iter().all(|set| is_input(circuit, set.net))
}

// Whether each step keeps to the end, sets each net once, and sets inputs alone.
fn steps_within(steps: &[StimStep], end: u64) -> bool
    ensures { IsTrue result ↔ All (λ s. s.time ≤ end) steps.now }
{
    steps.iter().all(|step| step.time <= end)
}

fn steps_once(steps: &[StimStep]) -> bool
    ensures { IsTrue result ↔ All (λ s. SetsOnce (map (λ c. set_seen c) s.sets.items)) steps.now }
{
    steps.iter().all(|step| sets_once(&step.sets))
}

fn steps_fit(circuit: &Circuit, steps: &[StimStep]) -> bool
    ensures { IsTrue result ↔ All (λ s. All (λ c. IsInput circuit.now c.net) s.sets.items) steps.now }
{
    steps.iter().all(|step| sets_fit(circuit, &step.sets))
}

impl Stimulus {
    /// Whether it can be applied to a circuit: times rise up to the end, which is below 2^60 ticks, and a step sets each
    /// net once, and only nets that the stimulus drives.
    pub fn fits(&self, circuit: &Circuit) -> bool
        ensures { IsTrue result ↔ IsApplied circuit.now (stimulus_seen self.now) }
    {
        if !steps_rise(&self.steps) {
            return false;
        }
        if !steps_within(&self.steps, self.end) {
            return false;
        }
        if self.end >= 1 << 60 {
            return false;
        }
        if !steps_once(&self.steps) {
            return false;
        }
        steps_fit(circuit, &self.steps)
    }
}

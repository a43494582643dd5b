// The evaluation of the elements of a work list.
ghost use Rattle.std.specs.Prelude.{◌≡◌, ℕ, ◌+◌, ◌*◌, ◌^◌, ◌<◌, ◌≤◌, All, List, [], length, map, slice_set};
ghost use Rattle.sg_logic.specs.declared.values.Value.{Value as NetValue};
ghost use Rattle.sg_logic.specs.declared.values.Value.TheVariants.{X};
ghost use Rattle.sg_model.specs.Agenda.{list_at, with_list, NoneBelow, NothingBelow};
ghost use Rattle.sg_model.specs.Machine.{Machine};
ghost use Rattle.sg_model.specs.Round.{element_list, element_value};
ghost use Rattle.sg_model.specs.Values.{value_at};
ghost use Rattle.fan_round.specs.Lists.{at_places};
ghost use Rattle.fan_round.specs.Nets.{stamp_seen};
ghost use Rattle.fan_round.specs.Rounds.{IsOnce};

use crate::stamps::Stamp;
use pulse_list::Agenda;
use sg_logic::Value;
use sg_steps::Steps;
use std::sync::ledger::Ledger;

/// The elements of a circuit, with the value that each computed last.
pub trait Elements<A: Agenda, L: Ledger> {
    /// The circuit.
    ghost machine: { Self → Machine };

    /// The value that each element computed last.
    ghost states: { Self → List NetValue };

    /// How many nets the circuit has.
    ghost net_count: { Self → ℕ };

    /// Evaluates an element after a round, in one step: its value is placed on the agenda, in room that was made
    /// before. It reads the nets as they were before the round and as they are.
    fn evaluate(
        &mut self,
        agenda: &mut A,
        element: u32,
        now: u64,
        before: &[Value],
        values: &[Value],
        stamps: &[Option<Stamp>],
        steps: &mut Steps<L>,
    )
        requires element { element < length (A.lists agenda.old) }
        requires known { element < length (machine self.old).inputs }
        requires room { 2 ≤ A.spare agenda.old }
        requires from_now { NoneBelow now (list_at (A.lists agenda.old) element) }
        requires now { now < 2 ^ 60 }
        requires before { length before.now ≡ net_count self.old }
        requires values { length values.now ≡ net_count self.old }
        requires stamps { length stamps.now ≡ net_count self.old }
        ensures machine { machine self.new ≡ machine self.old }
        ensures net_count { net_count self.new ≡ net_count self.old }
        ensures lists { A.lists agenda.new ≡ with_list (A.lists agenda.old) element (element_list (machine self.old) now before.now values.now (map stamp_seen stamps.now) (states self.old) element (list_at (A.lists agenda.old) element)) }
        ensures states { states self.new ≡ slice_set (states self.old) element (element_value (machine self.old) before.now values.now element (value_at (states self.old) element)) }
        ensures spare { A.spare agenda.old ≤ A.spare agenda.new + 2 }
        ensures steps { steps.new ≡ steps.old + 1 };
}

/// Evaluates the listed elements, each in one step.
pub fn evaluate_all<A: Agenda, L: Ledger, E: Elements<A, L>>(
    elements: &mut E,
    agenda: &mut A,
    work: &[u32],
    now: u64,
    before: &[Value],
    values: &[Value],
    stamps: &[Option<Stamp>],
    steps: &mut Steps<L>,
)
    requires elements { All (λ e. e < length (A.lists agenda.old)) work.now }
    requires known { All (λ e. e < length (E.machine elements.old).inputs) work.now }
    requires once { IsOnce work.now }
    requires room { 2 * length work.now ≤ A.spare agenda.old }
    requires from_now { NothingBelow now (A.lists agenda.old) }
    requires now { now < 2 ^ 60 }
    requires before { length before.now ≡ E.net_count elements.old }
    requires values { length values.now ≡ E.net_count elements.old }
    requires stamps { length stamps.now ≡ E.net_count elements.old }
    ensures machine { E.machine elements.new ≡ E.machine elements.old }
    ensures net_count { E.net_count elements.new ≡ E.net_count elements.old }
    ensures lists { A.lists agenda.new ≡ at_places (element_list (E.machine elements.old) now before.now values.now (map stamp_seen stamps.now) (E.states elements.old)) [] work.now (A.lists agenda.old) }
    ensures states { E.states elements.new ≡ at_places (element_value (E.machine elements.old) before.now values.now) X work.now (E.states elements.old) }
    ensures steps { steps.new ≡ steps.old + length work.now }
{
    for element in work {
        elements.evaluate(agenda, *element, now, before, values, stamps, steps);
    }
}

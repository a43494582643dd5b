// What makes the times of a circuit.
ghost use Rattle.std.specs.Prelude.{◌≡◌, List, []};
ghost use Rattle.sg_circuit.specs.Circuit.{Circuit};
ghost use Rattle.sg_model.specs.Machine.{Snapshot, State};
ghost use Rattle.time_checks.specs.declared.latest.Latest.{Latest};
ghost use Rattle.sim_rounds.specs.Engines.{AreChecksAt, IsEngineAt};

use crate::circuit_checks::CircuitChecks;
use fan_round::{Nets, WorkList};
use pulse_list::Agenda;
use sg_circuit::{FanOut, NetId};
use sg_stimulus::Stimulus;
use sim_machine::CircuitElements;
use sim_times::{Simulation, Told};
use std::alloc::Global;

/// The nets of a circuit, its elements with what they have pending, and its timing checks, between two times.
#[derive(Drop)]
pub struct Engine<'a, A: Agenda> {
    pub alloc: Global,
    pub nets: Nets,
    pub told: Told,
    pub work: WorkList,
    pub elements: CircuitElements<'a>,
    pub agenda: A,
    pub fan: FanOut,
    // the net that each element drives
    pub outputs: Vec<NetId>,
    pub checks: CircuitChecks<'a>,
}

impl<'a, A: Agenda + Drop> Engine<'a, A> {
    /// The simulation of a stimulus from here on, where this is the last time that changed a net.
    pub fn simulate<'s>(
        self,
        stimulus: &'s Stimulus,
        last: u64,
    ) -> Simulation<'s, A, CircuitElements<'a>, CircuitChecks<'a>>
        ensures engine { (circuit : Circuit) (earlier : List Latest) (state : State) → IsEngineAt circuit earlier state self.entry.nets self.entry.told self.entry.work self.entry.elements (A.lists self.entry.agenda) self.entry.fan self.entry.outputs.items
            → IsEngineAt circuit earlier state result.nets result.told result.work result.elements (A.lists result.agenda) result.fan result.outputs.items }
        ensures checks { (circuit : Circuit) (earlier : List Latest) (snapshots : List Snapshot) → AreChecksAt circuit earlier snapshots self.entry.checks.checks.now self.entry.checks.checker self.entry.checks.touched self.entry.checks.named
            → AreChecksAt circuit earlier snapshots result.checks.checks.now result.checks.checker result.checks.touched result.checks.named }
        ensures stimulus { result.stimulus.now ≡ stimulus.now }
        ensures handed { result.handed.items ≡ [] }
        ensures violations { result.violations.items ≡ [] }
        ensures ended { result.ended ≡ 0 }
        ensures evaluations { result.evaluations ≡ 0 }
        ensures last { result.last ≡ last }
    {
        let Engine {
            alloc,
            nets,
            told,
            work,
            elements,
            agenda,
            fan,
            outputs,
            checks,
        } = self;
        Simulation {
            nets,
            told,
            work,
            elements,
            agenda,
            checks,
            fan,
            outputs,
            stimulus,
            handed: Vec::new(alloc),
            violations: Vec::new(alloc),
            ended: 0,
            evaluations: 0,
            changes: Vec::new(alloc),
            last,
        }
    }
}

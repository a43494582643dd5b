// The reader of dumps, and what it makes of a run's own dump.
ghost use Rattle.std.specs.Prelude.{IfErr, IfOk};
ghost use Rattle.sg_stimulus.specs.Applied.{IsApplied};
ghost use Rattle.sg_stimulus.specs.Seen.{stimulus_seen};
ghost use Rattle.vcd_model.specs.Reading.{IsRead, RefusalStands};
ghost use Rattle.vcd_stim.specs.Back.{ReadsBack};

use crate::reading::read_dump;
use sg_circuit::Circuit;
use sg_stimulus::Stimulus;
use sg_text::Refused;
use std::alloc::Global;
use vcd_model::VcdKind;

/// The stimulus that a value change dump is for a circuit: the variables of the scope with a path, the names of the scopes joined by
/// points, that are named as inputs of the circuit's top stand for these inputs (IEEE 1364-2005, 18.2). Its times are in ticks. Or a
/// fault that stands in the dump, whose file has the number 0. Takes memory in proportion to the header, the number of the top's
/// inputs and the values of inputs.
/// Of the dump of a run of this circuit that ended whole, if it is read in the scope of the top's name, it is a stimulus that makes the run
/// again.
pub fn read_vcd(
    alloc: Global,
    bytes: &[u8],
    circuit: &Circuit,
    scope: &[u8],
) -> Result<Stimulus, Refused<VcdKind>>
    ensures read { IfOk result (λ s. IsRead bytes.now circuit.now scope.now (stimulus_seen s)) }
    ensures refused { IfErr result (λ r. RefusalStands bytes.now circuit.now scope.now r) }
    ensures applied { IfOk result (λ s. IsApplied circuit.now (stimulus_seen s)) }
    ensures back { ReadsBack bytes.now circuit.now scope.now result }
{
    read_dump(alloc, bytes, circuit, scope)
}

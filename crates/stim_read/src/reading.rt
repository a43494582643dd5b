// The reader of stimuli.
ghost use Rattle.std.specs.Prelude.{◌≡◌, IfOk, IfErr, map};
ghost use Rattle.sg_stimulus.specs.Applied.{IsApplied};
ghost use Rattle.sg_stimulus.specs.Seen.{stimulus_seen};
ghost use Rattle.stim_read.specs.Faults.{scale_of, unit_of, unit_said};
ghost use Rattle.stim_read.specs.Meant.{scale_seen};
ghost use Rattle.stim_read.specs.Reading.{IsRead, RefusalStands};
ghost use Rattle.stim_read.specs.Seen.{form_seen, stated_seen};

use crate::StimKind;
use crate::bits::fault;
use crate::forms::Form;
use crate::statements::{Stated, all_stated};
use crate::steps::read_all;
use crate::times::Scale;
use crate::top_inputs::Inputs;
use sg_circuit::Circuit;
use sg_stimulus::Stimulus;
use sg_text::Refused;
use sg_time::Unit;
use std::alloc::Global;

// The most bytes of a text.
const MOST_BYTES: usize = 1 << 28;

const NANOSECOND: Unit = Unit { power: -9 };

fn unit_of(stated: &[Stated]) -> Unit
    ensures { result.power ≡ unit_of (map (λ s. stated_seen s) stated.now) }
{
    match stated {
        [first, ..] => unit_said(&first.form),
        [] => NANOSECOND,
    }
}

fn unit_said(form: &Form) -> Unit
    ensures { result.power ≡ unit_said (form_seen form.now) }
{
    match form {
        Form::Unit(unit) => *unit,
        Form::At(_, _) => NANOSECOND,
        Form::End(_) => NANOSECOND,
        Form::FaultyEnd => NANOSECOND,
        Form::Other => NANOSECOND,
    }
}

fn scale_of(circuit: &Circuit, stated: &[Stated]) -> Scale
    ensures { scale_seen result ≡ scale_of circuit.now (map (λ s. stated_seen s) stated.now) }
{
    Scale {
        unit: unit_of(stated),
        tick: circuit.parts().tick,
    }
}

/// The stimulus that a text says for a circuit, with its times in ticks; or a fault that stands in the text, whose file has the
/// number 0. Takes memory in proportion to the text and the number
/// of the top's inputs.
pub fn read_stim(
    alloc: Global,
    bytes: &[u8],
    circuit: &Circuit,
) -> Result<Stimulus, Refused<StimKind>>
    ensures read { IfOk result (λ s. IsRead bytes.now circuit.now (stimulus_seen s)) }
    ensures refused { IfErr result (λ r. RefusalStands bytes.now circuit.now r) }
    ensures applied { IfOk result (λ s. IsApplied circuit.now (stimulus_seen s)) }
{
    if bytes.len() > MOST_BYTES {
        return Err(fault(StimKind::TooLarge, MOST_BYTES));
    }
    let stated = all_stated(alloc, bytes)?;
    let inputs = Inputs::of(alloc, circuit)?;
    let read = read_all(alloc, &inputs, scale_of(circuit, &stated), &stated)?;
    match read.end {
        Some(end) => Ok(Stimulus {
            steps: read.steps,
            end,
        }),
        None => Err(fault(StimKind::NoEnd, bytes.len())),
    }
}

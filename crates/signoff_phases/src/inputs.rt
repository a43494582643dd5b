// What drives the inputs: a stimulus, or a value change dump.
ghost use Rattle.std.specs.Prelude.{◌≡◌, List, Some, IfErr, IfOk, option_map};
ghost use Rattle.sg_io.specs.Faults.{Cause};
ghost use Rattle.sg_io.specs.Files.{File};
ghost use Rattle.sg_circuit.specs.Circuit.{scope_at};
ghost use Rattle.sg_stimulus.specs.Applied.{IsApplied};
ghost use Rattle.sg_stimulus.specs.Seen.{stimulus_seen};
ghost use Rattle.run_words.specs.Words.{file_of};
ghost use Rattle.run_words.specs.WordsSeen.{input_seen};
ghost use Rattle.signoff_phases.specs.Phases.{DrivingOutcome, InputOutcome, StimulusOutcome, WaveOutcome, scope_or_top};
ghost use Rattle.signoff_phases.specs.Stops.{Gives, IfFailed, NeverFails, SparesWords, end_of_phase};

use crate::phases::file_phase;
use crate::stop::{Refusal, Stop};
use run_words::Input;
use sg_circuit::Circuit;
use sg_io::Shelf;
use sg_stimulus::Stimulus;
use sg_text::Refused;
use std::alloc::Global;
use stim_read::read_stim;
use vcd_stim::read_vcd;

/// What the text of the file of this name says for a circuit.
pub fn stimulus_phase<'a>(
    alloc: Global,
    name: &'a str,
    text: &[u8],
    circuit: &Circuit,
) -> Result<Stimulus, Stop<'a>>
    ensures gives { Gives (λ s. stimulus_seen s) (StimulusOutcome name.now text.now circuit.now) result }
    ensures applied { IfOk result (λ s. IsApplied circuit.now (stimulus_seen s)) }
    ensures works { NeverFails result }
    ensures words { IfErr result (λ s. SparesWords s) }
{
    match read_stim(alloc, text, circuit) {
        Ok(stimulus) => Ok(stimulus),
        Err(Refused::Fault { kind, place }) => {
            let line = place.line_of(text);
            Err(Stop::Refused(Refusal::Stimulus { name, line, kind }))
        }
        Err(Refused::NoMemory) => Err(Stop::NoMemory),
    }
}

// What the text of the dump of this name says for a circuit, of the scope of a path.
fn wave_phase<'a>(
    alloc: Global,
    name: &'a str,
    text: &[u8],
    circuit: &Circuit,
    scope: &[u8],
) -> Result<Stimulus, Stop<'a>>
    ensures gives { Gives (λ s. stimulus_seen s) (WaveOutcome name.now text.now circuit.now scope.now) result }
    ensures applied { IfOk result (λ s. IsApplied circuit.now (stimulus_seen s)) }
    ensures works { NeverFails result }
    ensures words { IfErr result (λ s. SparesWords s) }
{
    match read_vcd(alloc, text, circuit, scope) {
        Ok(stimulus) => Ok(stimulus),
        Err(Refused::Fault { kind, place }) => {
            let line = place.line_of(text);
            Err(Stop::Refused(Refusal::Wave { name, line, kind }))
        }
        Err(Refused::NoMemory) => Err(Stop::NoMemory),
    }
}

fn top_name(circuit: &Circuit) -> &[u8]
    ensures { result.now ≡ (scope_at circuit.now 0).name }
{
    match circuit.parts().scopes.get(0) {
        Some(scope) => scope.name.bytes(),
        None => &[],
    }
}

// The scope of a path, or that of the top's name.
fn scope_or_top<'a>(scope: Option<&'a str>, circuit: &'a Circuit) -> &'a [u8]
    ensures { result.now ≡ scope_or_top (option_map (λ path. path.now) scope.entry) circuit.now }
{
    match scope {
        Some(path) => path.as_bytes(),
        None => top_name(circuit),
    }
}

// What the text of the file of what drives the inputs says for a circuit.
fn driving_phase<'a>(
    alloc: Global,
    input: Input<'a>,
    text: &[u8],
    circuit: &Circuit,
) -> Result<Stimulus, Stop<'a>>
    ensures gives { Gives (λ s. stimulus_seen s) (DrivingOutcome (input_seen input.entry) text.now circuit.now) result }
    ensures applied { IfOk result (λ s. IsApplied circuit.now (stimulus_seen s)) }
    ensures works { NeverFails result }
    ensures words { IfErr result (λ s. SparesWords s) }
{
    match input {
        Input::Stimulus(file) => stimulus_phase(alloc, file, text, circuit),
        Input::Wave { file, scope } => {
            wave_phase(alloc, file, text, circuit, scope_or_top(scope, circuit))
        }
    }
}

fn file_of<'a>(input: Input<'a>) -> &'a str
    ensures { result.now ≡ file_of (input_seen input.entry) }
{
    match input {
        Input::Stimulus(file) => file,
        Input::Wave { file, .. } => file,
    }
}

/// The file of what drives the inputs, and its text.
pub fn input_of<'a, S: Shelf>(
    alloc: Global,
    shelf: &mut S,
    input: Input<'a>,
    circuit: &Circuit,
) -> Result<Stimulus, Stop<'a>>
    ensures gives { (files : List File) → S.files shelf.old ≡ Some files
        → Gives (λ s. stimulus_seen s) (InputOutcome (input_seen input.entry) files circuit.now) result }
    ensures applied { IfOk result (λ s. IsApplied circuit.now (stimulus_seen s)) }
    ensures held { S.files shelf.new ≡ S.files shelf.old }
    ensures cause { Cause (S.fault_count shelf.old) (S.fault_count shelf.new) (end_of_phase result) }
    ensures named { IfFailed (S.last_fault shelf.new ≡ Some (file_of (input_seen input.entry))) result }
    ensures words { IfErr result (λ s. SparesWords s) }
{
    let text = file_phase(alloc, shelf, file_of(input))?;
    driving_phase(alloc, input, &text, circuit)
}

// The statements of a text, one after another.
ghost use Rattle.std.specs.Prelude.{◌≡◌, ◌++◌, [], List, MatchResult, OnOk, map, flat_map};
ghost use Rattle.sg_time.specs.Seen.{number};
ghost use Rattle.sg_stimulus.specs.Seen.{step_seen};
ghost use Rattle.stim_read.specs.Forms.{Form as FormModel};
ghost use Rattle.stim_read.specs.Faults as def;
ghost use Rattle.stim_read.specs.Times.{ticks};
ghost use Rattle.stim_read.specs.Inputs.{all_set};
ghost use Rattle.stim_read.specs.Meant.{IsLast, IsState, IsAllRead, IsMeant, RefusesOneOf, scale_seen, meant_steps, state_after, is_after_ticks, is_early_ticks};
ghost use Rattle.stim_read.specs.Seen.{form_seen, set_seen, stated_seen};

use crate::StimKind;
use crate::bits::{bits_of, fault};
use crate::forms::Form;
use crate::sets::SetText;
use crate::statements::Stated;
use crate::times::{Scale, ticks_of};
use crate::top_inputs::Inputs;
use sg_stimulus::StimStep;
use sg_text::{NoMemory, Refused};
use sg_time::Decimal;
use std::alloc::Global;

/// What is known of the statements so far: whether there is none, and the ticks of the last `at` and of the end.
#[derive(Clone, Copy, Debug)]
pub struct State {
    pub none: bool,
    pub last: Option<u64>,
    pub end: Option<u64>,
}

/// What a statement does.
#[derive(Debug, Drop)]
pub enum Meant {
    Nothing,
    Step(StimStep),
    End(u64),
}

/// The steps of a text, and the ticks of its end, if it has one.
#[derive(Debug, Drop)]
pub struct Read {
    pub steps: Vec<StimStep>,
    pub end: Option<u64>,
}

fn is_after(last: Option<u64>, ticks: u64) -> bool
    ensures { result ≡ is_after_ticks last ticks }
{
    match last {
        Some(last) => last < ticks,
        None => true,
    }
}

fn is_early(last: Option<u64>, ticks: u64) -> bool
    ensures { result ≡ is_early_ticks last ticks }
{
    match last {
        Some(last) => ticks < last,
        None => false,
    }
}

fn checked_ticks(scale: Scale, byte: usize, time: &Decimal) -> Result<u64, Refused<StimKind>>
    ensures { MatchResult result (λ n. (n ≡ ticks (scale_seen scale) (number time.now)) × (def.time_faults (scale_seen scale) byte (number time.now) ≡ []))
        (RefusesOneOf (def.time_faults (scale_seen scale) byte (number time.now))) }
{
    match ticks_of(scale, time) {
        Ok(ticks) => Ok(ticks),
        Err(kind) => Err(fault(kind, byte)),
    }
}

// The ticks of an `at`, which is to be after the one before.
fn at_ticks(
    scale: Scale,
    byte: usize,
    last: Option<u64>,
    time: &Decimal,
) -> Result<u64, Refused<StimKind>>
    ensures { (before : List FormModel) → IsLast (scale_seen scale) last (def.last_time before)
        → MatchResult result (λ n. (n ≡ ticks (scale_seen scale) (number time.now)) × (def.at_faults (scale_seen scale) byte before (number time.now) ≡ []))
        (RefusesOneOf (def.at_faults (scale_seen scale) byte before (number time.now))) }
{
    let ticks = checked_ticks(scale, byte, time)?;
    if !is_after(last, ticks) {
        return Err(fault(StimKind::TimeNotRising, byte));
    }
    Ok(ticks)
}

// The ticks of an `end`, which may not be before the last `at`.
fn end_ticks(
    scale: Scale,
    byte: usize,
    last: Option<u64>,
    time: &Decimal,
) -> Result<u64, Refused<StimKind>>
    ensures { (before : List FormModel) → IsLast (scale_seen scale) last (def.last_time before)
        → MatchResult result (λ n. (n ≡ ticks (scale_seen scale) (number time.now)) × (def.end_faults (scale_seen scale) byte before (number time.now) ≡ []))
        (RefusesOneOf (def.end_faults (scale_seen scale) byte before (number time.now))) }
{
    let ticks = checked_ticks(scale, byte, time)?;
    if is_early(last, ticks) {
        return Err(fault(StimKind::TimeNotRising, byte));
    }
    Ok(ticks)
}

fn step_of(
    alloc: Global,
    inputs: &Inputs,
    ticks: u64,
    byte: usize,
    sets: &[SetText],
) -> Result<StimStep, Refused<StimKind>>
    ensures { MatchResult result (λ step. (step_seen step ≡ record { time = ticks; sets = all_set inputs.now.circuit.now (map (λ s. set_seen s) sets.now) }) × (flat_map (def.set_faults inputs.now.circuit.now byte) (map (λ s. set_seen s) sets.now) ≡ []))
        (RefusesOneOf (flat_map (def.set_faults inputs.now.circuit.now byte) (map (λ s. set_seen s) sets.now))) }
{
    let sets = bits_of(alloc, inputs, byte, sets)?;
    Ok(StimStep { time: ticks, sets })
}

fn meaning_of(
    alloc: Global,
    inputs: &Inputs,
    scale: Scale,
    state: State,
    stated: &Stated,
) -> Result<Meant, Refused<StimKind>>
    ensures { (before : List FormModel) → IsState (scale_seen scale) state before
        → MatchResult result (λ m. IsMeant inputs.now.circuit.now (scale_seen scale) (form_seen stated.now.form) m × (def.faults_of inputs.now.circuit.now (scale_seen scale) before (stated_seen stated.now) ≡ []))
        (RefusesOneOf (def.faults_of inputs.now.circuit.now (scale_seen scale) before (stated_seen stated.now))) }
{
    let byte = stated.byte;
    match &stated.form {
        Form::Unit(_) => {
            if !state.none {
                return Err(fault(StimKind::Syntax, byte));
            }
            Ok(Meant::Nothing)
        }
        Form::At(time, sets) => {
            if state.end.is_some() {
                return Err(fault(StimKind::Syntax, byte));
            }
            let ticks = at_ticks(scale, byte, state.last, time)?;
            let step = step_of(alloc, inputs, ticks, byte, sets)?;
            Ok(Meant::Step(step))
        }
        Form::End(time) => {
            if state.end.is_some() {
                return Err(fault(StimKind::Syntax, byte));
            }
            let ticks = end_ticks(scale, byte, state.last, time)?;
            Ok(Meant::End(ticks))
        }
        Form::FaultyEnd => Err(fault(StimKind::Syntax, byte)),
        Form::Other => Err(fault(StimKind::Syntax, byte)),
    }
}

fn note(meant: Meant, steps: &mut Vec<StimStep>, state: &mut State) -> Result<(), NoMemory>
    ensures steps { OnOk result (map (λ s. step_seen s) steps.new.items ≡ map (λ s. step_seen s) steps.old.items ++ meant_steps meant) }
    ensures state { OnOk result (state.new ≡ state_after meant state.old) }
{
    state.none = false;
    match meant {
        Meant::Nothing => {}
        Meant::Step(step) => {
            state.last = Some(step.time);
            steps.push(step)?;
        }
        Meant::End(ticks) => state.end = Some(ticks),
    }
    Ok(())
}

/// The steps of all statements, and the ticks of the end, if there is one; or a fault of a statement.
pub fn read_all(
    alloc: Global,
    inputs: &Inputs,
    scale: Scale,
    stated: &[Stated],
) -> Result<Read, Refused<StimKind>>
    ensures { MatchResult result (λ read. IsAllRead inputs.now.circuit.now (scale_seen scale) (map (λ s. stated_seen s) stated.now) (map (λ s. step_seen s) read.steps.items) read.end)
        (RefusesOneOf (def.faults_behind inputs.now.circuit.now (scale_seen scale) [] (map (λ s. stated_seen s) stated.now))) }
{
    let mut steps = Vec::new(alloc);
    let mut state = State {
        none: true,
        last: None,
        end: None,
    };
    let mut rest = stated;
    while let [one, more @ ..] = rest {
        let meant = meaning_of(alloc, inputs, scale, state, one)?;
        note(meant, &mut steps, &mut state)?;
        rest = more;
    }
    Ok(Read {
        steps,
        end: state.end,
    })
}

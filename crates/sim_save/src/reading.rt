// A moment read from its text.
ghost use Rattle.std.specs.Prelude.{◌≡◌, ◌++◌, ◌<◌, ◌≤◌, ℕ, List, IfErr, IfOk, MatchOption, count_by, length};
ghost use Rattle.std.specs.Bool.{OnFalse, OnTrue};
ghost use Rattle.sg_circuit.specs.Seen.{circuit_seen};
ghost use Rattle.sg_text.specs.declared.refusals.Refused.TheVariants as refused;
ghost use Rattle.sim_rounds.specs.Moments.{Fits, Moment as NetMoment};
ghost use Rattle.sim_rounds.specs.MomentsSeen.{moment_seen};
ghost use Rattle.sim_save.specs.Faults.{IsBodyOf, IsOfCircuit};
ghost use Rattle.sim_save.specs.Lines.{save_text as text_of};
ghost use Rattle.sim_save.specs.Reading.{GivesBack, IsDamaged, IsRead, IsRefused, IsTextOf, RefusalStands};
ghost use Rattle.sim_save.specs.Refusing.{RefusesHalf, Wants, is_udp_kind};
ghost use Rattle.sim_save.specs.Steps.{Head, Stops};

use crate::bodies::{Saved, read_body};
use crate::kinds::{SaveKind, Stop};
use sg_circuit::{Circuit, Element, ElementKind, Parts};
use sg_text::{Place, Refused};
use sim_rounds::{Moment, fits};
use std::alloc::Global;

const MOST_BYTES: usize = 1 << 30;

fn fault(kind: SaveKind, byte: usize) -> Refused<SaveKind>
    ensures { result ≡ refused.Fault kind (record { file = 0; byte = byte }) }
{
    let place = Place {
        file: 0,
        byte: byte as u64,
    };
    Refused::Fault { kind, place }
}

fn half_of(bytes: &[u8]) -> Option<&[u8]>
    ensures { MatchOption result ((half : List ℕ) → bytes.now ≡ half ++ half → ⊥) (λ half. bytes.now ≡ half.now ++ half.now) }
{
    let (first, second) = bytes.split_at(bytes.len() / 2);
    if first == second { Some(first) } else { None }
}

fn refusal_of(half: &[u8], stop: Stop) -> Refused<SaveKind>
    requires { Stops Head half.now stop }
    ensures { RefusesHalf half.now result }
{
    match stop {
        Stop::Line { left } => {
            let byte = half.len() - left;
            fault(SaveKind::Syntax, byte)
        }
        Stop::NoMemory => Refused::NoMemory,
    }
}

fn read_half(alloc: Global, half: &[u8]) -> Result<Saved, Refused<SaveKind>>
    ensures read { IfOk result (λ s. IsBodyOf half.now s.tick s.elements (moment_seen s.moment)) }
    ensures refused { IfErr result (λ r. RefusesHalf half.now r) }
{
    match read_body(alloc, half) {
        Ok(saved) => Ok(saved),
        Err(stop) => Err(refusal_of(half, stop)),
    }
}

fn count_udps(elements: &[Element]) -> usize
    ensures { result ≡ count_by (λ e. is_udp_kind e.kind) elements.now }
{
    elements
        .iter()
        .filter(|e| matches!(e.kind, ElementKind::Udp { .. }))
        .count()
}

// Whether the numbers of a head are the circuit's.
fn is_of_circuit(saved: &Saved, parts: &Parts) -> bool
    ensures same { OnTrue result (IsOfCircuit (circuit_seen parts.now) saved.now.tick saved.now.elements (moment_seen saved.now.moment)) }
    ensures other { OnFalse result (¬ IsOfCircuit (circuit_seen parts.now) saved.now.tick saved.now.elements (moment_seen saved.now.moment)) }
{
    let moment = &saved.moment;
    if saved.tick != parts.tick.power {
        return false;
    }
    if saved.elements as usize != parts.elements.len() {
        return false;
    }
    if moment.nets.len() != parts.nets.len() {
        return false;
    }
    if moment.udps.len() != count_udps(&parts.elements) {
        return false;
    }
    moment.latest.len() == parts.checks.len()
}

// The same, with the circuit's parts.
fn read_text(
    alloc: Global,
    bytes: &[u8],
    circuit: &Circuit,
    parts: &Parts,
    end: u64,
) -> Result<Moment, Refused<SaveKind>>
    requires { circuit_seen parts.now ≡ circuit.now }
    ensures read { IfOk result (λ m. IsRead bytes.now circuit.now end (moment_seen m)) }
    ensures refused { IfErr result (λ r. RefusalStands bytes.now circuit.now end r) }
    ensures wanting { IfErr result (λ r. Wants bytes.now r) }
{
    if bytes.len() > MOST_BYTES {
        return Err(fault(SaveKind::TooLarge, MOST_BYTES));
    }
    let Some(half) = half_of(bytes) else {
        return Err(fault(SaveKind::Damaged, 0));
    };
    let saved = read_half(alloc, half)?;
    if !is_of_circuit(&saved, parts) {
        return Err(fault(SaveKind::OtherCircuit, 0));
    }
    if !fits(alloc, circuit, &saved.moment)? {
        return Err(fault(SaveKind::BadMoment, 0));
    }
    if saved.moment.time >= end {
        return Err(fault(SaveKind::PastEnd, 0));
    }
    Ok(saved.moment)
}

/// The moment of which this is the text, for a circuit and a run with this end, in ticks; or the first fault that stands in
/// the text, whose file has the number 0. Takes time and memory in proportion to the text and the circuit.
pub fn read_save(
    alloc: Global,
    bytes: &[u8],
    circuit: &Circuit,
    end: u64,
) -> Result<Moment, Refused<SaveKind>>
    ensures read { IfOk result (λ m. IsRead bytes.now circuit.now end (moment_seen m)) }
    ensures refused { IfErr result (λ r. RefusalStands bytes.now circuit.now end r) }
    // No memory is wanted before the line behind the head was read.
    ensures wanting { IfErr result (λ r. Wants bytes.now r) }
    // The text of a moment gives it back; a damaged text gives none.
    ensures given_back { (m : NetMoment) → IsTextOf bytes.now circuit.now end m → GivesBack m result }
    ensures damaged { (m : NetMoment) → Fits circuit.now m → IsDamaged (text_of circuit.now m) bytes.now → IsRefused result }
{
    read_text(alloc, bytes, circuit, circuit.parts(), end)
}

// The text of a moment.
ghost use Rattle.std.specs.Prelude.{◌≡◌, ◌<◌, ◌≤◌, ◌^◌, ◌++◌, IfErr, IfOk, MatchResult, OnOk, [], length, map};
ghost use Rattle.sim_rounds.specs.Moments.{Fits};
ghost use Rattle.sim_rounds.specs.MomentsSeen.{change_seen, moment_seen, pending_seen};
ghost use Rattle.sim_save.specs.Faults.{most_bytes};
ghost use Rattle.sim_save.specs.Large.{IsTooLarge};
ghost use Rattle.sim_save.specs.Lines.{body, change_words, check_line, end_line, head_line, joined, last_line, net_line, net_lines, pending_line, save_text as text_of, udp_line};
ghost use Rattle.sim_save.specs.declared.kinds.SaveError.TheVariants as error;

use crate::kinds::SaveError;
use crate::words::{push_event, push_letter, push_number, push_power};
use sg_circuit::Circuit;
use sg_logic::Value;
use sim_rounds::{LastChange, Moment, Pending};
use std::alloc::{AllocError, Global};
use time_checks::Latest;

const MOST_BYTES_OF_A_HALF: usize = 1 << 29;

fn check_size(half: &[u8]) -> Result<(), SaveError>
    ensures { MatchResult result (λ _. length half.now ≤ 2 ^ 29) (λ e. IsTooLarge half.now e) }
{
    if half.len() > MOST_BYTES_OF_A_HALF {
        return Err(SaveError::TooLarge);
    }
    Ok(())
}

fn push_head(
    text: &mut Vec<u8>,
    tick: i8,
    elements: usize,
    moment: &Moment,
) -> Result<(), AllocError>
    ensures { OnOk result (text.new.items ≡ text.old.items ++ head_line tick elements (moment_seen moment.now)) }
{
    text.extend_from_slice(b"save")?;
    push_number(text, moment.time)?;
    push_power(text, tick)?;
    push_number(text, moment.nets.len() as u64)?;
    push_number(text, elements as u64)?;
    push_number(text, moment.udps.len() as u64)?;
    push_number(text, moment.latest.len() as u64)?;
    text.push(b'\n')?;
    Ok(())
}

fn push_change(text: &mut Vec<u8>, change: Option<LastChange>) -> Result<(), AllocError>
    ensures { OnOk result (text.new.items ≡ text.old.items ++ change_words (change_seen change)) }
{
    match change {
        None => Ok(()),
        Some(change) => {
            push_number(text, change.time)?;
            push_letter(text, change.before)
        }
    }
}

fn push_net(text: &mut Vec<u8>, value: Value, change: Option<LastChange>) -> Result<(), AllocError>
    ensures { OnOk result (text.new.items ≡ text.old.items ++ net_line value (change_seen change)) }
{
    text.push(b'n')?;
    push_letter(text, value)?;
    push_change(text, change)?;
    text.push(b'\n')?;
    Ok(())
}

fn push_nets(
    text: &mut Vec<u8>,
    nets: &[Value],
    changes: &[Option<LastChange>],
) -> Result<(), SaveError>
    requires { length nets.now ≡ length changes.now }
    ensures nets { OnOk result (text.new.items ≡ text.old.items ++ joined (net_lines nets.now (map change_seen changes.now))) }
    ensures large { IfErr result (λ e. IsTooLarge (text.old.items ++ joined (net_lines nets.now (map change_seen changes.now))) e) }
{
    for net in 0..nets.len() {
        push_net(text, nets[net], changes[net])?;
        check_size(text)?;
    }
    Ok(())
}

fn push_pending(text: &mut Vec<u8>, pending: &Pending) -> Result<(), AllocError>
    ensures { OnOk result (text.new.items ≡ text.old.items ++ pending_line (pending_seen pending.now)) }
{
    text.push(b'p')?;
    push_number(text, u64::from(pending.driver))?;
    push_number(text, pending.time)?;
    push_letter(text, pending.value)?;
    text.push(b'\n')?;
    Ok(())
}

fn push_each_pending(text: &mut Vec<u8>, pending: &[Pending]) -> Result<(), SaveError>
    ensures pending { OnOk result (text.new.items ≡ text.old.items ++ joined (map pending_line (map (λ p. pending_seen p) pending.now))) }
    ensures large { IfErr result (λ e. IsTooLarge (text.old.items ++ joined (map pending_line (map (λ p. pending_seen p) pending.now))) e) }
{
    for transition in pending {
        push_pending(text, transition)?;
        check_size(text)?;
    }
    Ok(())
}

fn push_udp(text: &mut Vec<u8>, state: Value) -> Result<(), AllocError>
    ensures { OnOk result (text.new.items ≡ text.old.items ++ udp_line state) }
{
    text.push(b'u')?;
    push_letter(text, state)?;
    text.push(b'\n')?;
    Ok(())
}

fn push_udps(text: &mut Vec<u8>, udps: &[Value]) -> Result<(), SaveError>
    ensures udps { OnOk result (text.new.items ≡ text.old.items ++ joined (map udp_line udps.now)) }
    ensures large { IfErr result (λ e. IsTooLarge (text.old.items ++ joined (map udp_line udps.now)) e) }
{
    for state in udps {
        push_udp(text, *state)?;
        check_size(text)?;
    }
    Ok(())
}

fn push_check(text: &mut Vec<u8>, latest: &Latest) -> Result<(), AllocError>
    ensures { OnOk result (text.new.items ≡ text.old.items ++ check_line latest.now) }
{
    text.push(b'c')?;
    push_event(text, latest.refer)?;
    push_event(text, latest.datum)?;
    text.push(b'\n')?;
    Ok(())
}

fn push_checks(text: &mut Vec<u8>, latest: &[Latest]) -> Result<(), SaveError>
    ensures checks { OnOk result (text.new.items ≡ text.old.items ++ joined (map check_line latest.now)) }
    ensures large { IfErr result (λ e. IsTooLarge (text.old.items ++ joined (map check_line latest.now)) e) }
{
    for known in latest {
        push_check(text, known)?;
        check_size(text)?;
    }
    Ok(())
}

fn push_last(text: &mut Vec<u8>, moment: &Moment) -> Result<(), AllocError>
    ensures { OnOk result (text.new.items ≡ text.old.items ++ last_line (moment_seen moment.now) ++ end_line) }
{
    text.push(b'l')?;
    push_number(text, moment.last)?;
    push_number(text, moment.evaluations)?;
    text.extend_from_slice(b"\nend\n")?;
    Ok(())
}

// Makes an empty text a body.
fn push_body(
    text: &mut Vec<u8>,
    tick: i8,
    elements: usize,
    moment: &Moment,
) -> Result<(), SaveError>
    requires empty { text.old.items ≡ [] }
    requires stamps { length moment.now.nets.items ≡ length moment.now.stamps.items }
    ensures body { OnOk result (text.new.items ≡ body tick elements (moment_seen moment.now)) }
    ensures small { OnOk result (length text.new.items ≤ 2 ^ 29) }
    ensures large { IfErr result (λ e. IsTooLarge (body tick elements (moment_seen moment.now)) e) }
{
    push_head(text, tick, elements, moment)?;
    push_nets(text, &moment.nets, &moment.stamps)?;
    push_each_pending(text, &moment.pending)?;
    push_udps(text, &moment.udps)?;
    push_checks(text, &moment.latest)?;
    push_last(text, moment)?;
    check_size(text)?;
    Ok(())
}

/// The text of a moment that fits a circuit: a body of lines twice.
///
/// `TooLarge` where it has more than 2^30 bytes.
pub fn save_text(alloc: Global, circuit: &Circuit, moment: &Moment) -> Result<Vec<u8>, SaveError>
    requires { Fits circuit.now (moment_seen moment.now) }
    ensures text { IfOk result (λ text. text.items ≡ text_of circuit.now (moment_seen moment.now)) }
    ensures small { IfOk result (λ text. length text.items ≤ most_bytes) }
    ensures too_large { IfErr result (λ e. e ≡ error.TooLarge → most_bytes < length (text_of circuit.now (moment_seen moment.now))) }
{
    let parts = circuit.parts();
    let mut text = Vec::new(alloc);
    push_body(&mut text, parts.tick.power, parts.elements.len(), moment)?;
    text.extend_from_within(..)?;
    Ok(text)
}

// The lines of a half, one kind after another.
ghost use Rattle.std.specs.Prelude.{◌≡◌, ◌++◌, ℕ, zero, [], IfErr, IfOk, length};
ghost use Rattle.sim_save.specs.Lines.{end_line};
ghost use Rattle.sim_save.specs.Sections.{AreChecks, AreNets, AreTransitions, AreUdps};
ghost use Rattle.sim_save.specs.Steps.{IsTransition, Nets, RunsOut, Stops, Udps, counters_line};
ghost use Rattle.sim_save.specs.Taking.{Is64, NoLine};
ghost use Rattle.sim_save.specs.declared.kinds.Stop.TheVariants as stop;

use crate::kinds::Stop;
use crate::lines::{take_check, take_counters, take_end, take_net, take_pending, take_udp};
use sg_logic::Value;
use sim_rounds::{LastChange, Pending};
use std::alloc::AllocError;
use time_checks::Latest;

/// In front of this rest of a half.
pub fn stop_at(left: &[u8]) -> Stop
    ensures { result ≡ stop.Line (length left.now) }
{
    Stop::Line { left: left.len() }
}

/// The lines of so many nets.
pub fn read_nets<'a>(
    nets: &mut Vec<Value>,
    changes: &mut Vec<Option<LastChange>>,
    text: &'a [u8],
    count: u32,
) -> Result<&'a [u8], Stop>
    requires no_nets { nets.old.items ≡ [] }
    requires no_changes { changes.old.items ≡ [] }
    ensures read { IfOk result (λ left. AreNets nets.new.items changes.new.items text.now left.now × (length nets.new.items ≡ count)) }
    ensures stops { (udps checks : ℕ) → IfErr result (λ e. Stops (Nets count udps checks) text.now e) }
{
    let mut left = text;
    while nets.len() < count as usize {
        let Some((value, change, behind)) = take_net(left) else {
            return Err(stop_at(left));
        };
        nets.push(value)?;
        changes.push(change)?;
        left = behind;
    }
    Ok(left)
}

/// The lines of pending transitions, as many as there are.
pub fn read_pending<'a>(pending: &mut Vec<Pending>, text: &'a [u8]) -> Result<&'a [u8], AllocError>
    requires { pending.old.items ≡ [] }
    ensures read { IfOk result (λ left. AreTransitions pending.new.items text.now left.now × NoLine IsTransition left.now) }
    ensures wants { (udps checks : ℕ) → IfErr result (λ _. RunsOut (Nets zero udps checks) text.now) }
{
    let mut left = text;
    while let Some((transition, behind)) = take_pending(left) {
        pending.push(transition)?;
        left = behind;
    }
    Ok(left)
}

/// The lines of so many primitives' states.
pub fn read_udps<'a>(udps: &mut Vec<Value>, text: &'a [u8], count: u32) -> Result<&'a [u8], Stop>
    requires { udps.old.items ≡ [] }
    ensures read { IfOk result (λ left. AreUdps udps.new.items text.now left.now × (length udps.new.items ≡ count)) }
    ensures stops { (checks : ℕ) → IfErr result (λ e. Stops (Udps count checks) text.now e) }
{
    let mut left = text;
    while udps.len() < count as usize {
        let Some((state, behind)) = take_udp(left) else {
            return Err(stop_at(left));
        };
        udps.push(state)?;
        left = behind;
    }
    Ok(left)
}

/// The lines of so many timing checks.
pub fn read_checks<'a>(
    latest: &mut Vec<Latest>,
    text: &'a [u8],
    count: u32,
) -> Result<&'a [u8], Stop>
    requires { latest.old.items ≡ [] }
    ensures read { IfOk result (λ left. AreChecks latest.new.items text.now left.now × (length latest.new.items ≡ count)) }
    ensures stops { IfErr result (λ e. Stops (Udps zero count) text.now e) }
{
    let mut left = text;
    while latest.len() < count as usize {
        let Some((known, behind)) = take_check(left) else {
            return Err(stop_at(left));
        };
        latest.push(known)?;
        left = behind;
    }
    Ok(left)
}

/// The last two lines, with nothing behind them: the last time and the number of evaluations.
pub fn read_ending(text: &[u8]) -> Result<(u64, u64), Stop>
    ensures read { IfOk result (λ r. Is64 r.0 × Is64 r.1 × (text.now ≡ counters_line r.0 r.1 ++ end_line)) }
    ensures stops { IfErr result (λ e. Stops (Udps zero zero) text.now e) }
{
    let Some((last, evaluations, at_end)) = take_counters(text) else {
        return Err(stop_at(text));
    };
    let Some(behind) = take_end(at_end) else {
        return Err(stop_at(at_end));
    };
    if !behind.is_empty() {
        return Err(stop_at(behind));
    }
    Ok((last, evaluations))
}

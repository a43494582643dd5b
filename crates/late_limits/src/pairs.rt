// Timing checks that take limits below 0, as pairs of signals.
ghost use Rattle.std.specs.Prelude.{◌≡◌, ◌<◌, pos, slice_index_or, All, IfOk, OnOk, length, map};
ghost use Rattle.sg_circuit.specs.Pins.{firsts_after};
ghost use Rattle.sg_circuit.specs.Signals.{datum_nets, signal_nets};
ghost use Rattle.late_limits.specs.Found.{signals_at, windows_at};
ghost use Rattle.late_limits.specs.Pairs.{datum_number, pair_of, part_of};

use crate::signals::Signals;
use neg_limits::Pair;
use sg_circuit::{CheckKind, CheckTiming, Event};
use sg_text::NoMemory;
use std::alloc::Global;

fn meet_datum(signals: &mut Signals, datum: &Option<Event>) -> Result<(), NoMemory>
    ensures { OnOk result (signals.new ≡ firsts_after signals.old (datum_nets datum.now)) }
{
    match datum {
        Some(event) => signals.meet(event.net),
        None => Ok(()),
    }
}

fn meet_both(signals: &mut Signals, timing: &CheckTiming) -> Result<(), NoMemory>
    ensures { OnOk result (signals.new ≡ firsts_after signals.old (signal_nets timing.now)) }
{
    signals.meet(timing.refer.net)?;
    meet_datum(signals, &timing.datum)
}

/// Forgets the signals that were, and numbers those of listed checks.
pub(crate) fn meet_all(
    signals: &mut Signals,
    timings: &[CheckTiming],
    checks: &[u32],
) -> Result<(), NoMemory>
    requires { All (λ k. k < length timings.now) checks.now }
    ensures { OnOk result (signals.new ≡ signals_at timings.now checks.now) }
{
    signals.clear();
    for check in checks {
        meet_both(signals, &timings[*check as usize])?;
    }
    Ok(())
}

/// Which limit of a check's text is the setup of its pair, or the hold (IEEE 1364-2005, 15.2.3, 15.2.6).
pub(crate) fn part_of(kind: CheckKind, hold: bool) -> u32
    ensures part { result ≡ part_of kind hold }
    ensures two { result < 2 }
{
    match kind {
        CheckKind::Recrem => u32::from(!hold),
        _ => u32::from(hold),
    }
}

/// That limit.
pub(crate) fn limit_of(kind: CheckKind, limits: &[i64; 2], hold: bool) -> i64
    ensures { result ≡ slice_index_or limits.now (part_of kind hold) (pos 0) }
{
    limits[part_of(kind, hold) as usize]
}

fn datum_number(signals: &Signals, datum: &Option<Event>) -> u32
    ensures { result ≡ datum_number signals.now datum.now }
{
    match datum {
        Some(event) => signals.number(event.net),
        None => 0,
    }
}

fn pair_of(signals: &Signals, timing: &CheckTiming, limits: &[i64; 2]) -> Pair
    ensures { result ≡ pair_of signals.now (record timing.now { limits = limits.now }) }
{
    Pair {
        refer: signals.number(timing.refer.net),
        datum: datum_number(signals, &timing.datum),
        setup: limit_of(timing.kind, limits, false),
        hold: limit_of(timing.kind, limits, true),
    }
}

/// The pairs of listed checks, with limits in place of their own.
pub(crate) fn pairs_of(
    alloc: Global,
    signals: &Signals,
    timings: &[CheckTiming],
    limits: &[[i64; 2]],
    checks: &[u32],
) -> Result<Vec<Pair>, NoMemory>
    requires there { All (λ k. k < length timings.now) checks.now }
    requires each_check { length limits.now ≡ length timings.now }
    ensures { IfOk result (λ pairs. pairs.items ≡ map (λ w. pair_of signals.now w.1) (windows_at timings.now limits.now checks.now)) }
{
    let mut pairs = Vec::with_capacity(alloc, checks.len())?;
    for check in checks {
        let check = *check as usize;
        pairs.push(pair_of(signals, &timings[check], &limits[check]))?;
    }
    Ok(pairs)
}

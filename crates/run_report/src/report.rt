// The report.
ghost use Rattle.std.specs.Prelude.{◌≡◌, ◌++◌, Some, IfOk, OnOk, decimal, map};
ghost use Rattle.time_checks.specs.Seen.{violation_seen};
ghost use Rattle.wave_out.specs.Texts.{line};
ghost use Rattle.run_report.specs.Report.{found_lines, last_lines, report_lines, spent_line, stopped_lines, stopped_summary, summary};
ghost use Rattle.run_report.specs.Reporting.{PutsMade, unmatched_seen};
ghost use Rattle.run_report.specs.Spent.{end_spent, end_time};

use crate::paths::push_net;
use crate::unmatched::push_unmatched;
use crate::violations::push_violations;
use crate::zeroed::push_zeroed;
use sdf_annotate::Unmatched;
use sg_circuit::{Circuit, NetId};
use sg_io::{ShelfError, Sink};
use std::alloc::{AllocError, Global};
use time_checks::Violation;
use wave_out::push_number;

/// A time, in ticks, that needed more rounds than the bound, and a net that went on changing in it.
#[derive(Clone, Copy, Debug, PartialEq, Eq)]
pub struct Spent {
    pub time: u64,
    pub net: NetId,
}

/// How a run ended: whole at a time, or in a time that needed more rounds than the bound, in which a net went on
/// changing. Times are in ticks.
#[derive(Clone, Copy, Debug, PartialEq, Eq)]
pub enum ReportEnd {
    Whole { time: u64 },
    Spent { time: u64, net: NetId },
}

// A word and a number, on a line of their own.
fn push_count(text: &mut Vec<u8>, word: &str, count: u64) -> Result<(), AllocError>
    ensures { OnOk result (text.new.items ≡ text.old.items ++ line (word.now ++ decimal count)) }
{
    text.extend_from_slice(word.as_bytes())?;
    push_number(text, count)?;
    text.push(b'\n')?;
    Ok(())
}

// The last lines of a whole run: how many violations and unmatched entries there are, and the end in ticks.
fn push_summary(
    text: &mut Vec<u8>,
    violations: u64,
    unmatched: u64,
    end: u64,
) -> Result<(), AllocError>
    ensures { OnOk result (text.new.items ≡ text.old.items ++ summary violations unmatched end) }
{
    push_count(text, "violations ", violations)?;
    push_count(text, "unannotated ", unmatched)?;
    push_count(text, "end ", end)
}

// Those of a run that was stopped.
fn push_stopped(
    text: &mut Vec<u8>,
    violations: u64,
    unmatched: u64,
    time: u64,
) -> Result<(), AllocError>
    ensures { OnOk result (text.new.items ≡ text.old.items ++ stopped_summary violations unmatched time) }
{
    push_count(text, "violations ", violations)?;
    push_count(text, "unannotated ", unmatched)?;
    push_count(text, "stopped ", time)
}

// The time that was spent, and its net.
fn push_spent(
    alloc: Global,
    text: &mut Vec<u8>,
    circuit: &Circuit,
    time: u64,
    net: NetId,
) -> Result<(), AllocError>
    ensures { OnOk result (text.new.items ≡ text.old.items ++ spent_line circuit.now time (Some net)) }
{
    text.extend_from_slice(b"rounds spent at ")?;
    push_number(text, time)?;
    text.extend_from_slice(b" on ")?;
    push_net(alloc, text, circuit, net)?;
    text.push(b'\n')?;
    Ok(())
}

/// The line of a time, in ticks, that needed more rounds than the bound, with the path of a net that went on changing in
/// it. Takes memory.
pub fn spent_text(
    alloc: Global,
    circuit: &Circuit,
    time: u64,
    net: NetId,
) -> Result<Vec<u8>, AllocError>
    ensures { IfOk result (λ text. text.items ≡ spent_line circuit.now time (Some net)) }
{
    let mut text = Vec::new(alloc);
    push_spent(alloc, &mut text, circuit, time, net)?;
    Ok(text)
}

// The last lines: the counts and the end, or the time that was spent and its net.
fn push_last(
    alloc: Global,
    text: &mut Vec<u8>,
    circuit: &Circuit,
    violations: u64,
    unmatched: u64,
    end: ReportEnd,
) -> Result<(), AllocError>
    ensures { OnOk result (text.new.items ≡ text.old.items ++ last_lines circuit.now violations unmatched (end_time end) (end_spent end)) }
{
    match end {
        ReportEnd::Whole { time } => push_summary(text, violations, unmatched, time),
        ReportEnd::Spent { time, net } => push_spent(alloc, text, circuit, time, net),
    }
}

// What comes before the last lines.
fn push_found(
    alloc: Global,
    text: &mut Vec<u8>,
    circuit: &Circuit,
    sdf: &[u8],
    unmatched: &[Unmatched],
    violations: &[Violation],
) -> Result<(), AllocError>
    ensures { OnOk result (text.new.items ≡ text.old.items ++ found_lines circuit.now (map (unmatched_seen sdf.now) unmatched.now) (map (λ v. violation_seen v) violations.now)) }
{
    push_unmatched(text, sdf, unmatched)?;
    push_zeroed(alloc, text, circuit, &circuit.parts().zeroed)?;
    push_violations(alloc, text, circuit, violations)
}

// The text of a report.
fn report_of(
    alloc: Global,
    circuit: &Circuit,
    sdf: &[u8],
    unmatched: &[Unmatched],
    violations: &[Violation],
    end: ReportEnd,
) -> Result<Vec<u8>, AllocError>
    ensures { IfOk result (λ text. text.items ≡ report_lines circuit.now (map (unmatched_seen sdf.now) unmatched.now) (map (λ v. violation_seen v) violations.now) (end_time end) (end_spent end)) }
{
    let mut text = Vec::new(alloc);
    push_found(alloc, &mut text, circuit, sdf, unmatched, violations)?;
    push_last(
        alloc,
        &mut text,
        circuit,
        violations.len() as u64,
        unmatched.len() as u64,
        end,
    )?;
    Ok(text)
}

/// Puts a report to a sink, in one call: a line for each entry of the SDF that matched nothing (`sdf` has the bytes of
/// its file), one for each limit that the circuit takes as 0, one for each violation, and then the counts and the end in
/// ticks, or the time that was spent and the path of its net.
///
/// Its form is this project's; the timing checks are those of IEEE 1364-2005, 15. `Failed` only where the sink's call
/// failed. Without memory for the text the sink isn't called.
pub fn write_report<K: Sink>(
    alloc: Global,
    circuit: &Circuit,
    sdf: &[u8],
    unmatched: &[Unmatched],
    violations: &[Violation],
    end: ReportEnd,
    sink: &mut K,
) -> Result<(), ShelfError>
    ensures { PutsMade (report_lines circuit.now (map (unmatched_seen sdf.now) unmatched.now) (map (λ v. violation_seen v) violations.now) (end_time end) (end_spent end)) (K.told sink.old) (K.told sink.new) result }
{
    let text = report_of(alloc, circuit, sdf, unmatched, violations, end)?;
    sink.put(&text)
}

// The text of the report of a run that was stopped.
fn stopped_of(
    alloc: Global,
    circuit: &Circuit,
    sdf: &[u8],
    unmatched: &[Unmatched],
    violations: &[Violation],
    time: u64,
) -> Result<Vec<u8>, AllocError>
    ensures { IfOk result (λ text. text.items ≡ stopped_lines circuit.now (map (unmatched_seen sdf.now) unmatched.now) (map (λ v. violation_seen v) violations.now) time) }
{
    let mut text = Vec::new(alloc);
    push_found(alloc, &mut text, circuit, sdf, unmatched, violations)?;
    push_stopped(
        &mut text,
        violations.len() as u64,
        unmatched.len() as u64,
        time,
    )?;
    Ok(text)
}

/// Puts the report of a run that was stopped after a time, in ticks: as `write_report`, with that time in place of the end.
pub fn write_stopped<K: Sink>(
    alloc: Global,
    circuit: &Circuit,
    sdf: &[u8],
    unmatched: &[Unmatched],
    violations: &[Violation],
    time: u64,
    sink: &mut K,
) -> Result<(), ShelfError>
    ensures { PutsMade (stopped_lines circuit.now (map (unmatched_seen sdf.now) unmatched.now) (map (λ v. violation_seen v) violations.now) time) (K.told sink.old) (K.told sink.new) result }
{
    let text = stopped_of(alloc, circuit, sdf, unmatched, violations, time)?;
    sink.put(&text)
}

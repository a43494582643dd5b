// The entries of delays.
ghost use Rattle.std.specs.Prelude.{◌≡◌, ◌++◌, ◌<◌, ◌≤◌, ℕ, List, OnOk, flat_map, length, map};
ghost use Rattle.cond_expr.specs.Condition.{Condition};
ghost use Rattle.sg_circuit.specs.declared.elements.LegTiming.{LegTiming as CodeTiming};
ghost use Rattle.sg_circuit.specs.PathsSeen.{IsIndexedCondition, IsIndexedPath, condition_seen, path_seen};
ghost use Rattle.sg_circuit.specs.Timings.{limits_or};
ghost use Rattle.sg_circuit.specs.TimingsSeen.{leg_timing_seen, limit_seen, timings_of};
ghost use Rattle.written_model.specs.Entries as entries;
ghost use Rattle.written_model.specs.Entries.{condition_of, numbers_of, path_key};
ghost use Rattle.written_text.specs.Page.{IsPage, before_path, behind_path, path_entry_of, variables_of};
ghost use Rattle.written_model.specs.Text.{delay_text, io_path_text, leg_text, line, path_text};

use crate::conditions::push_words;
use crate::pages::{Page, push_port, push_terminal};
use crate::words::push_value;
use sg_circuit::{LegTiming, NetId, Path, PathCondition};
use sg_delay::Limit;
use std::alloc::AllocError;
use written_entries::{bare, edge_of, limits_of};

fn push_delay(text: &mut Vec<u8>, delay: u64, limits: (u64, u64)) -> Result<(), AllocError>
    ensures { OnOk result (text.new.items ≡ text.old.items ++ delay_text (record { delay = delay; reject = limits.0; error = limits.1 })) }
{
    text.extend_from_slice(b" (")?;
    push_value(text, delay)?;
    text.push(b' ')?;
    push_value(text, limits.0)?;
    text.push(b' ')?;
    push_value(text, limits.1)?;
    text.push(b')')?;
    Ok(())
}

// The delays and the limits of the transitions.
fn push_each(text: &mut Vec<u8>, delays: &[u64; 12], limits: &[Limit; 12]) -> Result<(), AllocError>
    ensures { OnOk result (text.new.items ≡ text.old.items ++ flat_map delay_text (map numbers_of (timings_of delays.now limits.now))) }
{
    for transition in 0..12 {
        let delay = delays[transition];
        push_delay(text, delay, limits_of(delay, limits[transition]))?;
    }
    Ok(())
}

fn push_timing(text: &mut Vec<u8>, timing: &LegTiming) -> Result<(), AllocError>
    ensures { OnOk result (text.new.items ≡ text.old.items ++ flat_map delay_text (map numbers_of (leg_timing_seen timing.now))) }
{
    push_each(text, &timing.delays.at, &timing.limits.at)
}

/// Adds the line of a leg to a net.
pub fn push_leg(
    text: &mut Vec<u8>,
    page: &Page<'_>,
    net: NetId,
    timing: &LegTiming,
) -> Result<(), AllocError>
    requires page { IsPage page.now }
    requires net { net < length page.now.parts.now.nets.items }
    ensures { OnOk result (text.new.items ≡ text.old.items ++ line (leg_text (variables_of page.now) (record { net = net; numbers = map numbers_of (leg_timing_seen timing.now) }))) }
{
    text.extend_from_slice(b"(PORT ")?;
    push_port(text, page, net)?;
    push_timing(text, timing)?;
    text.extend_from_slice(b")\n")
}

// A path without its condition.
fn push_io_path(
    text: &mut Vec<u8>,
    page: &Page<'_>,
    output: NetId,
    path: &Path,
) -> Result<(), AllocError>
    requires page { IsPage page.now }
    requires output { output < length page.now.parts.now.nets.items }
    requires nets { path.now.input < length page.now.parts.now.nets.items }
    requires timing { path.now.timing < length page.now.parts.now.leg_timings.items }
    ensures { OnOk result (text.new.items ≡ text.old.items ++ io_path_text (variables_of page.now) (path_entry_of page.now output path.now)) }
{
    text.extend_from_slice(b"(IOPATH ")?;
    push_terminal(text, page, path.input, edge_of(path.edge))?;
    text.push(b' ')?;
    push_port(text, page, output)?;
    push_timing(text, &page.parts.leg_timings[path.timing])?;
    text.push(b')')?;
    Ok(())
}

// What stands before a path that has a condition.
fn push_condition(
    text: &mut Vec<u8>,
    page: &Page<'_>,
    condition: &PathCondition,
) -> Result<(), AllocError>
    requires written { IsIndexedCondition (length page.now.parts.now.conditions.items) condition.now }
    ensures { OnOk result (text.new.items ≡ text.old.items ++ before_path (condition_of (condition_seen page.now.parts.now.conditions.items condition.now))) }
{
    match condition {
        PathCondition::Always => Ok(()),
        PathCondition::If { written, .. } => {
            text.extend_from_slice(b"(COND ")?;
            push_words(text, bare(page.parts.conditions[*written].tokens()))?;
            text.push(b' ')?;
            Ok(())
        }
        PathCondition::IfNone => text.extend_from_slice(b"(CONDELSE "),
    }
}

// And what stands behind it.
fn push_end(text: &mut Vec<u8>, condition: &PathCondition) -> Result<(), AllocError>
    ensures { (conditions : List Condition) → OnOk result (text.new.items ≡ text.old.items ++ behind_path (condition_of (condition_seen conditions condition.now))) }
{
    match condition {
        PathCondition::Always => text.extend_from_slice(b"\n"),
        _ => text.extend_from_slice(b")\n"),
    }
}

/// Adds the line of a path.
pub fn push_path(
    text: &mut Vec<u8>,
    page: &Page<'_>,
    output: NetId,
    path: &Path,
) -> Result<(), AllocError>
    requires page { IsPage page.now }
    requires output { output < length page.now.parts.now.nets.items }
    requires nets { path.now.input < length page.now.parts.now.nets.items }
    requires indexed { IsIndexedPath (length page.now.parts.now.conditions.items) (length page.now.parts.now.leg_timings.items) path.now }
    ensures { OnOk result (text.new.items ≡ text.old.items ++ line (path_text (variables_of page.now) (path_entry_of page.now output path.now))) }
{
    push_condition(text, page, &path.condition)?;
    push_io_path(text, page, output, path)?;
    push_end(text, &path.condition)
}

/// Whether there is an edge, as a number.
pub fn one_if(edge: Option<sdf_tree::Edge>) -> u32
    ensures is { result ≡ entries.one_if edge }
    ensures small { result ≤ 1 }
{
    match edge {
        Some(_) => 1,
        None => 0,
    }
}

fn condition_rank(condition: &PathCondition) -> u32
    ensures is { (conditions : List Condition) → result ≡ entries.condition_rank (condition_of (condition_seen conditions condition.now)) }
    ensures small { result ≤ 1 }
{
    match condition {
        PathCondition::Always => 0,
        _ => 1,
    }
}

/// How much a path asks for.
pub fn path_rank(path: &Path) -> u32
    ensures { (conditions : List Condition) (timings : List CodeTiming) (output : ℕ) → result ≡ entries.path_rank (path_key output (path_seen conditions timings path.now)) }
{
    one_if(edge_of(path.edge)) + condition_rank(&path.condition)
}

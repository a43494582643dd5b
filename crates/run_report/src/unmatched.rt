// The lines of the SDF's entries that matched nothing.
ghost use Rattle.std.specs.Prelude.{◌≡◌, ◌≤◌, ◌++◌, ◌==◌, ℕ, List, OnOk, count_by, flat_map, length, map, min};
ghost use Rattle.run_report.specs.Report.{unmatched_line};
ghost use Rattle.run_report.specs.Reporting.{IsReached, unmatched_seen};
ghost use Rattle.run_report.specs.Texts.{line_of};

use sdf_annotate::Unmatched;
use std::alloc::AllocError;
use wave_out::push_number;

/// How many of a file's bytes were looked through for line feeds, and the line of the byte behind them.
#[derive(Clone, Copy)]
pub struct Reached {
    pub end: usize,
    pub line: u64,
}

const FRONT: Reached = Reached { end: 0, line: 1 };

fn breaks_in(bytes: &[u8]) -> u64
    ensures count { result ≡ count_by (λ b. b == 10) bytes.now }
    ensures few { result ≤ length bytes.now }
{
    bytes.iter().filter(|b| **b == b'\n').count() as u64
}

// How many bytes stand before a place; all, where it is past the end.
fn bytes_before(sdf: &[u8], byte: u64) -> usize
    ensures { result ≡ min (length sdf.now) byte }
{
    sdf.len().min(usize::try_from(byte).unwrap_or(sdf.len()))
}

// From where to look on up to an end: from the front, where more was looked through already.
fn start_for(reached: Reached, end: usize) -> Reached
    ensures reached { (sdf : List ℕ) → IsReached sdf reached → IsReached sdf result }
    ensures before { result.end ≤ end }
{
    if reached.end <= end { reached } else { FRONT }
}

// The line of a byte, looked for from what was reached before.
fn reach(sdf: &[u8], before: Reached, byte: u64) -> Reached
    requires { IsReached sdf.now before }
    ensures reached { IsReached sdf.now result }
    ensures line { result.line ≡ line_of sdf.now byte }
{
    let end = bytes_before(sdf, byte);
    let start = start_for(before, end);
    let breaks = breaks_in(&sdf[start.end..end]);
    Reached {
        end,
        line: start.line + breaks,
    }
}

fn push_entry(text: &mut Vec<u8>, line: u64, entry: &Unmatched) -> Result<(), AllocError>
    ensures { OnOk result (text.new.items ≡ text.old.items ++ unmatched_line (record { line = line; word = entry.now.word })) }
{
    text.extend_from_slice(b"unannotated ")?;
    push_number(text, line)?;
    text.push(b' ')?;
    text.extend_from_slice(entry.word.bytes())?;
    text.push(b'\n')?;
    Ok(())
}

/// Adds a line for each entry, in the file of these bytes. Entries in the order of the file take time in proportion to it.
pub fn push_unmatched(
    text: &mut Vec<u8>,
    sdf: &[u8],
    unmatched: &[Unmatched],
) -> Result<(), AllocError>
    ensures { OnOk result (text.new.items ≡ text.old.items ++ flat_map unmatched_line (map (unmatched_seen sdf.now) unmatched.now)) }
{
    let mut reached = FRONT;
    for entry in unmatched {
        reached = reach(sdf, reached, entry.place.byte);
        push_entry(text, reached.line, entry)?;
    }
    Ok(())
}

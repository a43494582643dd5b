// The lines of a report: one for each change.
ghost use Rattle.std.specs.Prelude.{◌≡◌, ◌≤◌, ◌+◌, ◌++◌, IfOk, OnOk, length, map};
ghost use Rattle.fit_changes.specs.Changes.{AreInOrder, change_seen};
ghost use Rattle.fit_changes.specs.Lines.{AreSorted, line_of, line_seen, lines_from, lines_of, told_line};

use crate::changes::feeds;
use crate::{Change, Changes, Rule};
use sg_text::NoMemory;
use std::alloc::Global;

/// A change as it is told: in which file (its number from 0), on which line (from 1) of the text that it changes, by
/// which rule, in which part (the name of a module or primitive, empty outside), and what it is in words.
#[derive(Drop)]
pub struct Line {
    pub file: usize,
    pub number: u64,
    pub rule: Rule,
    pub part: Vec<u8>,
    pub what: Vec<u8>,
}

// The line of a byte, from that of an earlier one.
fn line_at(source: &[u8], from: usize, line: u64, byte: usize) -> u64
    requires line { line ≡ line_of source.now from }
    requires order { (from ≤ byte) × (byte ≤ length source.now) }
    ensures { result ≡ line_of source.now byte }
{
    line + feeds(&source[from..byte]) as u64
}

fn told(alloc: Global, file: usize, number: u64, change: &Change) -> Result<Line, NoMemory>
    ensures { IfOk result (λ l. line_seen l ≡ told_line file number (change_seen change.now)) }
{
    Ok(Line {
        file,
        number,
        rule: change.rule,
        part: Vec::from_slice(alloc, &change.part)?,
        what: Vec::from_slice(alloc, &change.what)?,
    })
}

fn add_each(
    alloc: Global,
    file: usize,
    source: &[u8],
    changes: &[Change],
    lines: &mut Vec<Line>,
) -> Result<(), NoMemory>
    requires { AreInOrder 0 source.now (map change_seen changes.now) }
    ensures { OnOk result (map line_seen lines.new.items ≡ map line_seen lines.old.items ++ map (λ c. told_line file (line_of source.now c.byte) c) (map change_seen changes.now)) }
{
    let mut from = 0;
    let mut line = 1;
    for change in changes {
        let at = line_at(source, from, line, change.byte);
        lines.push(told(alloc, file, at, change)?)?;
        let end = change.byte + change.size;
        line = line_at(source, change.byte, at, end);
        from = end;
    }
    Ok(())
}

/// Adds the lines of the changes of files that have numbers from one on, file by file. Takes memory for them.
pub fn add_lines(
    alloc: Global,
    first: usize,
    list: &[Changes<'_>],
    lines: &mut Vec<Line>,
) -> Result<(), NoMemory>
    ensures { OnOk result (map line_seen lines.new.items ≡ map line_seen lines.old.items ++ lines_from first list.now) }
{
    let mut file = first;
    for changes in list {
        add_each(alloc, file, changes.text(), changes.changes(), lines)?;
        let Some(next) = file.checked_add(1) else {
            return Err(NoMemory);
        };
        file = next;
    }
    Ok(())
}

/// Puts lines in the order of files and lines. Those of one line of a file stay in their order.
pub fn sort_lines(lines: &mut Vec<Line>) -> Result<(), NoMemory>
    ensures { OnOk result (AreSorted (map line_seen lines.old.items) (map line_seen lines.new.items)) }
{
    lines.sort_by_key(|line| (line.file, line.number))?;
    Ok(())
}

// Entries of cells as they are meant.
ghost use Rattle.std.specs.Prelude.{◌≡◌, ◌++◌, ◌∷◌, [], true, false, IfOk, OnOk, map};
ghost use Rattle.std.specs.List.{flat_map};
ghost use Rattle.sdf_tree.specs.Meant as meant;
ghost use Rattle.sdf_tree.specs.Seen.{view_body, view_check, view_check_body, view_entry, view_group, view_part};
ghost use Rattle.sdf_meaning.specs.MeantSeen.{view_kind, view_meant};

use crate::numbers::{delay_values, optional_triple, triple_of};
use sdf_tree::{
    CellCheck, Entry, EntryKind, Skipped, WrittenBody, WrittenCheck, WrittenCheckBody,
    WrittenEntry, WrittenGroup, WrittenPart,
};
use sg_text::{NoMemory, Place};
use std::alloc::Global;

fn kind_of_body<'a>(alloc: Global, body: WrittenBody<'a>) -> Result<EntryKind<'a>, NoMemory>
    ensures { IfOk result (λ kind. view_kind kind ≡ meant.kind_of_body (view_body body.entry)) }
{
    match body {
        WrittenBody::IoPath {
            condition,
            from,
            to,
            retains: _,
            delays,
        } => {
            let delays = delay_values(alloc, &delays)?;
            Ok(EntryKind::IoPath {
                condition,
                from,
                to,
                delays,
            })
        }
        WrittenBody::Port { port, delays } => {
            let delays = delay_values(alloc, &delays)?;
            Ok(EntryKind::Port { port, delays })
        }
        WrittenBody::Interconnect { from, to, delays } => {
            let delays = delay_values(alloc, &delays)?;
            Ok(EntryKind::Interconnect { from, to, delays })
        }
        WrittenBody::Device { output, delays } => {
            let delays = delay_values(alloc, &delays)?;
            Ok(EntryKind::Device { output, delays })
        }
        WrittenBody::NetDelay { .. } => Ok(EntryKind::Skipped(Skipped::NetDelay)),
    }
}

/// An entry of `ABSOLUTE`, or of `INCREMENT`.
pub fn entry_of<'a>(
    alloc: Global,
    increment: bool,
    entry: WrittenEntry<'a>,
) -> Result<Entry<'a>, NoMemory>
    ensures { IfOk result (λ e. view_meant e ≡ meant.entry_of increment (view_entry entry.entry)) }
{
    let place = entry.place;
    let kind = kind_of_body(alloc, entry.body)?;
    Ok(Entry {
        place,
        increment,
        kind,
    })
}

/// Puts entries behind others.
fn add_entries<'a>(
    alloc: Global,
    entries: &mut Vec<Entry<'a>>,
    increment: bool,
    written: Vec<WrittenEntry<'a>>,
) -> Result<(), NoMemory>
    ensures { OnOk result (map view_meant entries.new.items ≡ map view_meant entries.old.items ++ map (meant.entry_of increment) (map view_entry written.entry.items)) }
{
    for entry in written {
        let meant = entry_of(alloc, increment, entry)?;
        entries.push(meant)?;
    }
    Ok(())
}

/// Puts the entries of a group behind others.
pub fn add_group<'a>(
    alloc: Global,
    entries: &mut Vec<Entry<'a>>,
    group: WrittenGroup<'a>,
) -> Result<(), NoMemory>
    ensures { OnOk result (map view_meant entries.new.items ≡ map view_meant entries.old.items ++ meant.entries_of_group (view_group group.entry)) }
{
    match group {
        WrittenGroup::Absolute(written) => add_entries(alloc, entries, false, written),
        WrittenGroup::Increment(written) => add_entries(alloc, entries, true, written),
        WrittenGroup::PathPulse {
            place,
            percent,
            ports,
            reject,
            error,
        } => {
            let kind = EntryKind::PathPulse {
                percent,
                ports,
                reject: triple_of(reject),
                error: optional_triple(error),
            };
            add_entry(entries, place, kind)
        }
    }
}

fn add_groups<'a>(
    alloc: Global,
    entries: &mut Vec<Entry<'a>>,
    groups: Vec<WrittenGroup<'a>>,
) -> Result<(), NoMemory>
    ensures { OnOk result (map view_meant entries.new.items ≡ map view_meant entries.old.items ++ flat_map meant.entries_of_group (map view_group groups.entry.items)) }
{
    for group in groups {
        add_group(alloc, entries, group)?;
    }
    Ok(())
}

fn kind_of_check(body: WrittenCheckBody<'_>) -> EntryKind<'_>
    ensures { view_kind result ≡ meant.kind_of_check (view_check_body body.entry) }
{
    match body {
        WrittenCheckBody::Pair {
            check,
            first,
            second,
            limit,
        } => EntryKind::Check(CellCheck::Pair {
            check,
            first,
            second,
            limit: triple_of(limit),
        }),
        WrittenCheckBody::Window {
            check,
            first,
            second,
            first_limit,
            second_limit,
        } => EntryKind::Check(CellCheck::Window {
            check,
            first,
            second,
            first_limit: triple_of(first_limit),
            second_limit: triple_of(second_limit),
        }),
        WrittenCheckBody::Single {
            check,
            terminal,
            limit,
        } => EntryKind::Check(CellCheck::Single {
            check,
            terminal,
            limit: triple_of(limit),
        }),
        WrittenCheckBody::Skipped(construct) => EntryKind::Skipped(construct),
    }
}

/// A timing check as an entry.
pub fn entry_of_check(check: WrittenCheck<'_>) -> Entry<'_>
    ensures { view_meant result ≡ meant.entry_of_check (view_check check.entry) }
{
    let place = check.place;
    Entry {
        place,
        increment: false,
        kind: kind_of_check(check.body),
    }
}

/// Puts the entries of timing checks behind others.
fn add_checks<'a>(
    entries: &mut Vec<Entry<'a>>,
    checks: Vec<WrittenCheck<'a>>,
) -> Result<(), NoMemory>
    ensures { OnOk result (map view_meant entries.new.items ≡ map view_meant entries.old.items ++ map meant.entry_of_check (map view_check checks.entry.items)) }
{
    for check in checks {
        add_entry(entries, check.place, kind_of_check(check.body))?;
    }
    Ok(())
}

/// Puts the entries of a part of a cell behind others.
pub fn add_part<'a>(
    alloc: Global,
    entries: &mut Vec<Entry<'a>>,
    part: WrittenPart<'a>,
) -> Result<(), NoMemory>
    ensures { OnOk result (map view_meant entries.new.items ≡ map view_meant entries.old.items ++ meant.entries_of_part (view_part part.entry)) }
{
    match part {
        WrittenPart::Delays(groups) => add_groups(alloc, entries, groups),
        WrittenPart::Checks(checks) => add_checks(entries, checks),
        WrittenPart::Skipped { place, construct } => {
            add_entry(entries, place, EntryKind::Skipped(construct))
        }
    }
}

/// Puts an entry behind others, which isn't an increment.
fn add_entry<'a>(
    entries: &mut Vec<Entry<'a>>,
    place: Place,
    kind: EntryKind<'a>,
) -> Result<(), NoMemory>
    ensures { OnOk result (map view_meant entries.new.items ≡ map view_meant entries.old.items ++ record { place = place; increment = false; kind = view_kind kind.entry } ∷ []) }
{
    entries.push(Entry {
        place,
        increment: false,
        kind,
    })?;
    Ok(())
}

// The entries of a cell, each told as soon as it is read.
ghost use Rattle.std.specs.Prelude.{IfSome, IsTrue, true};
ghost use Rattle.sdf_tree.specs.Checks as checks;
ghost use Rattle.sdf_tree.specs.Entries as entries;
ghost use Rattle.sdf_tree.specs.Files as files;
ghost use Rattle.sdf_tree.specs.Seen.{view_check, view_entry, view_group, view_part};
ghost use Rattle.sdf_stream.specs.Scans.{AreClosed, AreFine, IsScanned, IsTold, check_contents, entry_contents, group_contents, part_contents};
ghost use Rattle.sdf_stream.specs.Told.{told};

use crate::lexing::{begins, opens, whole_part};
use crate::visits::Visit;
use crate::window::Window;
use sdf_meaning::{Valued, add_group, add_part, entry_of, entry_of_check};
use sdf_read::{Checks, Entries, Groups, Parts};
use sdf_tree::{
    Cell, Divider, Entry, Keyword, WrittenCheck, WrittenEntry, WrittenGroup, WrittenPart,
};
use std::alloc::Global;

/// Whether all numbers are numbers, and no limits cross.
pub fn is_fine<T: Valued>(part: &T) -> bool
    ensures { IsTrue result → AreFine (T.numbers (T.view part.now)) (T.crossings (T.view part.now)) }
{
    part.bad_place().is_none() && part.crossing_place().is_none()
}

fn tell_entry<'a, V: Visit>(
    alloc: Global,
    cell: &Cell<'a>,
    increment: bool,
    entry: WrittenEntry<'a>,
    visitor: &mut V,
) -> Option<()>
    requires { V.within visitor.old cell.now }
    ensures within { IfSome result (λ _. V.within visitor.new cell.now) }
    ensures told { IfSome result (λ _. IsTold (entry_contents increment) (λ es. V.came visitor.old visitor.new (told cell.now es)) (view_entry entry.entry)) }
{
    if !is_fine(&entry) {
        return None;
    }
    let Ok(entry) = entry_of(alloc, increment, entry) else {
        return None;
    };
    visitor.entries(alloc, cell, &[entry])
}

fn tell_group<'a, V: Visit>(
    alloc: Global,
    cell: &Cell<'a>,
    group: WrittenGroup<'a>,
    visitor: &mut V,
) -> Option<()>
    requires { V.within visitor.old cell.now }
    ensures within { IfSome result (λ _. V.within visitor.new cell.now) }
    ensures told { IfSome result (λ _. IsTold group_contents (λ es. V.came visitor.old visitor.new (told cell.now es)) (view_group group.entry)) }
{
    if !is_fine(&group) {
        return None;
    }
    let mut entries: Vec<Entry<'a>> = Vec::new(alloc);
    let Ok(_) = add_group(alloc, &mut entries, group) else {
        return None;
    };
    visitor.entries(alloc, cell, &entries)
}

fn tell_check<'a, V: Visit>(
    alloc: Global,
    cell: &Cell<'a>,
    check: WrittenCheck<'a>,
    visitor: &mut V,
) -> Option<()>
    requires { V.within visitor.old cell.now }
    ensures within { IfSome result (λ _. V.within visitor.new cell.now) }
    ensures told { IfSome result (λ _. IsTold check_contents (λ es. V.came visitor.old visitor.new (told cell.now es)) (view_check check.entry)) }
{
    if !is_fine(&check) {
        return None;
    }
    visitor.entries(alloc, cell, &[entry_of_check(check)])
}

fn tell_part<'a, V: Visit>(
    alloc: Global,
    cell: &Cell<'a>,
    part: WrittenPart<'a>,
    visitor: &mut V,
) -> Option<()>
    requires { V.within visitor.old cell.now }
    ensures within { IfSome result (λ _. V.within visitor.new cell.now) }
    ensures told { IfSome result (λ _. IsTold part_contents (λ es. V.came visitor.old visitor.new (told cell.now es)) (view_part part.entry)) }
{
    if !is_fine(&part) {
        return None;
    }
    let mut entries: Vec<Entry<'a>> = Vec::new(alloc);
    let Ok(_) = add_part(alloc, &mut entries, part) else {
        return None;
    };
    visitor.entries(alloc, cell, &entries)
}

// The entries of `ABSOLUTE` or `INCREMENT`, and the parenthesis behind them.
#[tactic(auto, using(sdf_read::proofs::PartsExact::entry_part))]
fn scan_entries<'a, V: Visit>(
    alloc: Global,
    window: &mut Window<'a>,
    divider: Divider,
    cell: &Cell<'a>,
    increment: bool,
    visitor: &mut V,
) -> Option<()>
    requires { V.within visitor.old cell.now }
    ensures within { IfSome result (λ _. V.within visitor.new cell.now) }
    ensures scanned { IfSome result (λ _. AreClosed (entries.entry true divider) (entry_contents increment) (λ es. V.came visitor.old visitor.new (told cell.now es)) window.old window.new) }
{
    'more: while opens(window)? {
        let entry = whole_part::<Entries>(alloc, window, divider)?;
        tell_entry(alloc, cell, increment, entry, visitor)?;
    }
    Some(())
}

// What the tokens at hand begin in `DELAY`.
#[tactic(auto, using(sdf_read::proofs::PartsExact::group_part))]
fn scan_group<'a, V: Visit>(
    alloc: Global,
    window: &mut Window<'a>,
    divider: Divider,
    cell: &Cell<'a>,
    visitor: &mut V,
) -> Option<()>
    requires { V.within visitor.old cell.now }
    ensures within { IfSome result (λ _. V.within visitor.new cell.now) }
    ensures scanned { IfSome result (λ _. IsScanned (entries.group true divider) group_contents (λ es. V.came visitor.old visitor.new (told cell.now es)) window.old window.new) }
{
    if begins(&window.tokens, Keyword::Absolute) {
        return scan_entries(alloc, window, divider, cell, false, visitor);
    }
    if begins(&window.tokens, Keyword::Increment) {
        return scan_entries(alloc, window, divider, cell, true, visitor);
    }
    let group = whole_part::<Groups>(alloc, window, divider)?;
    tell_group(alloc, cell, group, visitor)
}

// What stands in `DELAY`, and the parenthesis behind it.
fn scan_groups<'a, V: Visit>(
    alloc: Global,
    window: &mut Window<'a>,
    divider: Divider,
    cell: &Cell<'a>,
    visitor: &mut V,
) -> Option<()>
    requires { V.within visitor.old cell.now }
    ensures within { IfSome result (λ _. V.within visitor.new cell.now) }
    ensures scanned { IfSome result (λ _. AreClosed (entries.group true divider) group_contents (λ es. V.came visitor.old visitor.new (told cell.now es)) window.old window.new) }
{
    'more: while opens(window)? {
        scan_group(alloc, window, divider, cell, visitor)?;
    }
    Some(())
}

// What stands in `TIMINGCHECK`, and the parenthesis behind it.
#[tactic(auto, using(sdf_read::proofs::PartsExact::check_part))]
fn scan_checks<'a, V: Visit>(
    alloc: Global,
    window: &mut Window<'a>,
    divider: Divider,
    cell: &Cell<'a>,
    visitor: &mut V,
) -> Option<()>
    requires { V.within visitor.old cell.now }
    ensures within { IfSome result (λ _. V.within visitor.new cell.now) }
    ensures scanned { IfSome result (λ _. AreClosed (checks.check divider) check_contents (λ es. V.came visitor.old visitor.new (told cell.now es)) window.old window.new) }
{
    'more: while opens(window)? {
        let check = whole_part::<Checks>(alloc, window, divider)?;
        tell_check(alloc, cell, check, visitor)?;
    }
    Some(())
}

// The part of a cell that the tokens at hand begin.
#[tactic(auto, using(sdf_read::proofs::PartsExact::cell_part))]
fn scan_part<'a, V: Visit>(
    alloc: Global,
    window: &mut Window<'a>,
    divider: Divider,
    cell: &Cell<'a>,
    visitor: &mut V,
) -> Option<()>
    requires { V.within visitor.old cell.now }
    ensures within { IfSome result (λ _. V.within visitor.new cell.now) }
    ensures scanned { IfSome result (λ _. IsScanned (files.part true divider) part_contents (λ es. V.came visitor.old visitor.new (told cell.now es)) window.old window.new) }
{
    if begins(&window.tokens, Keyword::Delay) {
        return scan_groups(alloc, window, divider, cell, visitor);
    }
    if begins(&window.tokens, Keyword::TimingCheck) {
        return scan_checks(alloc, window, divider, cell, visitor);
    }
    let part = whole_part::<Parts>(alloc, window, divider)?;
    tell_part(alloc, cell, part, visitor)
}

/// The parts of a cell, and the parenthesis behind them.
pub fn scan_parts<'a, V: Visit>(
    alloc: Global,
    window: &mut Window<'a>,
    divider: Divider,
    cell: &Cell<'a>,
    visitor: &mut V,
) -> Option<()>
    requires { V.within visitor.old cell.now }
    ensures within { IfSome result (λ _. V.within visitor.new cell.now) }
    ensures scanned { IfSome result (λ _. AreClosed (files.part true divider) part_contents (λ es. V.came visitor.old visitor.new (told cell.now es)) window.old window.new) }
{
    'more: while opens(window)? {
        scan_part(alloc, window, divider, cell, visitor)?;
    }
    Some(())
}

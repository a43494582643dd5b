// The cells: the entries of a scope.
ghost use Rattle.std.specs.Prelude.{◌≡◌, ◌≤◌, ◌<◌, ◌∷◌, [], ◌++◌, All, OnOk, codes, drop, flat_map, length, take};
ghost use Rattle.written_entries.specs.Groups.{AreChecksOf, AreElementsOf};
ghost use Rattle.written_text.specs.Page.{IsCheckOf, IsElementOf, IsPage, IsPathOf, check_lines, check_lines_at, check_lines_of, circuit_of, delay_lines_of, leg_lines, leg_lines_at, parts_text_of, path_lines, path_lines_at, ranked_line};
ghost use Rattle.written_model.specs.Text.{cell_line, enclosed, line};

use crate::checks::{check_rank, push_check};
use crate::delays::{path_rank, push_leg, push_path};
use crate::instances::push_cell_line;
use crate::pages::Page;
use sg_circuit::{CheckConditions, CheckTiming, Element, ElementKind, NetId, Path};
use std::alloc::{AllocError, Global};

fn push_leg_of(text: &mut Vec<u8>, page: &Page<'_>, element: &Element) -> Result<(), AllocError>
    requires page { IsPage page.now }
    requires element { IsElementOf page.now element.now }
    ensures { OnOk result (text.new.items ≡ text.old.items ++ leg_lines page.now element.now) }
{
    match element.kind {
        ElementKind::Leg { timing } => push_leg(
            text,
            page,
            element.output,
            &page.parts.leg_timings[timing as usize],
        ),
        _ => Ok(()),
    }
}

/// Adds the lines of the legs among these elements.
pub fn push_legs(text: &mut Vec<u8>, page: &Page<'_>, elements: &[u32]) -> Result<(), AllocError>
    requires page { IsPage page.now }
    requires elements { AreElementsOf page.now.parts.now.elements.items page.now.scope elements.now }
    ensures { OnOk result (text.new.items ≡ text.old.items ++ flat_map (leg_lines_at page.now) elements.now) }
{
    for number in elements {
        push_leg_of(text, page, &page.parts.elements[*number as usize])?;
    }
    Ok(())
}

fn push_if_ranked(
    text: &mut Vec<u8>,
    page: &Page<'_>,
    output: NetId,
    path: &Path,
    rank: u32,
) -> Result<(), AllocError>
    requires page { IsPage page.now }
    requires output { output < length page.now.parts.now.nets.items }
    requires path { IsPathOf page.now path.now }
    ensures { OnOk result (text.new.items ≡ text.old.items ++ ranked_line page.now rank output path.now) }
{
    if path_rank(path) != rank {
        return Ok(());
    }
    push_path(text, page, output, path)
}

fn push_paths_to(
    text: &mut Vec<u8>,
    page: &Page<'_>,
    output: NetId,
    paths: &[Path],
    rank: u32,
) -> Result<(), AllocError>
    requires page { IsPage page.now }
    requires output { output < length page.now.parts.now.nets.items }
    requires paths { All (IsPathOf page.now) paths.now }
    ensures { OnOk result (text.new.items ≡ text.old.items ++ flat_map (ranked_line page.now rank output) paths.now) }
{
    for path in paths {
        push_if_ranked(text, page, output, path, rank)?;
    }
    Ok(())
}

fn push_paths_of(
    text: &mut Vec<u8>,
    page: &Page<'_>,
    element: &Element,
    rank: u32,
) -> Result<(), AllocError>
    requires page { IsPage page.now }
    requires element { IsElementOf page.now element.now }
    ensures { OnOk result (text.new.items ≡ text.old.items ++ path_lines page.now rank element.now) }
{
    match element.kind {
        ElementKind::Path { paths, .. } => {
            push_paths_to(text, page, element.output, page.parts.paths_in(paths), rank)
        }
        _ => Ok(()),
    }
}

fn push_paths_ranked(
    text: &mut Vec<u8>,
    page: &Page<'_>,
    elements: &[u32],
    rank: u32,
) -> Result<(), AllocError>
    requires page { IsPage page.now }
    requires elements { AreElementsOf page.now.parts.now.elements.items page.now.scope elements.now }
    ensures { OnOk result (text.new.items ≡ text.old.items ++ flat_map (path_lines_at page.now rank) elements.now) }
{
    for number in elements {
        push_paths_of(text, page, &page.parts.elements[*number as usize], rank)?;
    }
    Ok(())
}

/// Adds the lines of the paths of these elements, those first that ask for least.
pub fn push_paths(text: &mut Vec<u8>, page: &Page<'_>, elements: &[u32]) -> Result<(), AllocError>
    requires page { IsPage page.now }
    requires elements { AreElementsOf page.now.parts.now.elements.items page.now.scope elements.now }
    ensures { OnOk result (text.new.items ≡ text.old.items ++ flat_map (λ rank. flat_map (path_lines_at page.now rank) elements.now) (0 ∷ 1 ∷ 2 ∷ [])) }
{
    push_paths_ranked(text, page, elements, 0)?;
    push_paths_ranked(text, page, elements, 1)?;
    push_paths_ranked(text, page, elements, 2)
}

fn push_check_if_ranked(
    text: &mut Vec<u8>,
    page: &Page<'_>,
    timing: &CheckTiming,
    written: CheckConditions,
    rank: u32,
) -> Result<(), AllocError>
    requires page { IsPage page.now }
    requires check { IsCheckOf page.now timing.now written }
    ensures { OnOk result (text.new.items ≡ text.old.items ++ check_lines page.now rank timing.now written) }
{
    if check_rank(timing, written) != rank {
        return Ok(());
    }
    push_check(text, page, timing, written)
}

fn push_checks_ranked(
    text: &mut Vec<u8>,
    page: &Page<'_>,
    checks: &[u32],
    rank: u32,
) -> Result<(), AllocError>
    requires page { IsPage page.now }
    requires checks { AreChecksOf page.now.parts.now.checks.items page.now.scope checks.now }
    ensures { OnOk result (text.new.items ≡ text.old.items ++ flat_map (check_lines_at page.now rank) checks.now) }
{
    for number in checks {
        let number = *number as usize;
        let timing = &page.parts.check_timings[number];
        push_check_if_ranked(
            text,
            page,
            timing,
            page.parts.check_conditions[number],
            rank,
        )?;
    }
    Ok(())
}

/// Adds the lines of these timing checks, those first that ask for least.
pub fn push_checks(text: &mut Vec<u8>, page: &Page<'_>, checks: &[u32]) -> Result<(), AllocError>
    requires page { IsPage page.now }
    requires checks { AreChecksOf page.now.parts.now.checks.items page.now.scope checks.now }
    ensures { OnOk result (text.new.items ≡ text.old.items ++ flat_map (λ rank. flat_map (check_lines_at page.now rank) checks.now) (0 ∷ 1 ∷ 2 ∷ 3 ∷ 4 ∷ [])) }
{
    push_checks_ranked(text, page, checks, 0)?;
    push_checks_ranked(text, page, checks, 1)?;
    push_checks_ranked(text, page, checks, 2)?;
    push_checks_ranked(text, page, checks, 3)?;
    push_checks_ranked(text, page, checks, 4)
}

// Ends what began at `start` with a line up to `inner`: by a last line, or by nothing at all where nothing stands behind the first.
fn close(text: &mut Vec<u8>, start: usize, inner: usize, last: &[u8]) -> Result<(), AllocError>
    requires start { start ≤ inner }
    requires inner { inner ≤ length text.old.items }
    ensures { OnOk result (text.new.items ≡ take start text.old.items ++ enclosed (drop start (take inner text.old.items)) last.now (drop inner text.old.items)) }
{
    if text.len() > inner {
        return text.extend_from_slice(last);
    }
    text.truncate(start);
    Ok(())
}

// The block of delays.
fn push_delay_block(text: &mut Vec<u8>, page: &Page<'_>, elements: &[u32]) -> Result<(), AllocError>
    requires page { IsPage page.now }
    requires elements { AreElementsOf page.now.parts.now.elements.items page.now.scope elements.now }
    ensures { OnOk result (text.new.items ≡ text.old.items ++ enclosed (line (codes "(DELAY (ABSOLUTE")) (line (codes "))")) (delay_lines_of page.now elements.now)) }
{
    let start = text.len();
    text.extend_from_slice(b"(DELAY (ABSOLUTE\n")?;
    let inner = text.len();
    push_legs(text, page, elements)?;
    push_paths(text, page, elements)?;
    close(text, start, inner, b"))\n")
}

// The block of timing checks.
fn push_check_block(text: &mut Vec<u8>, page: &Page<'_>, checks: &[u32]) -> Result<(), AllocError>
    requires page { IsPage page.now }
    requires checks { AreChecksOf page.now.parts.now.checks.items page.now.scope checks.now }
    ensures { OnOk result (text.new.items ≡ text.old.items ++ enclosed (line (codes "(TIMINGCHECK")) (line (codes ")")) (check_lines_of page.now checks.now)) }
{
    let start = text.len();
    text.extend_from_slice(b"(TIMINGCHECK\n")?;
    let inner = text.len();
    push_checks(text, page, checks)?;
    close(text, start, inner, b")\n")
}

/// Adds the cell of a scope, unless it has nothing to write.
pub fn push_cell(
    alloc: Global,
    text: &mut Vec<u8>,
    page: &Page<'_>,
    elements: &[u32],
    checks: &[u32],
) -> Result<(), AllocError>
    requires page { IsPage page.now }
    requires elements { AreElementsOf page.now.parts.now.elements.items page.now.scope elements.now }
    requires checks { AreChecksOf page.now.parts.now.checks.items page.now.scope checks.now }
    ensures { OnOk result (text.new.items ≡ text.old.items ++ enclosed (cell_line (circuit_of page.now) page.now.scope) (line (codes ")")) (parts_text_of page.now elements.now checks.now)) }
{
    let start = text.len();
    push_cell_line(alloc, text, page.parts, page.scope)?;
    let inner = text.len();
    push_delay_block(text, page, elements)?;
    push_check_block(text, page, checks)?;
    close(text, start, inner, b")\n")
}

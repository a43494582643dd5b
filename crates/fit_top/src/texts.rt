// The texts of a report, and those of SDF files with their changes.
ghost use Rattle.std.specs.Prelude.{◌≡◌, ◌++◌, IfOk, map};
ghost use Rattle.fit_changes.specs.Lines.{line_seen, lines_from};
ghost use Rattle.fit_changes.specs.Report.{first_told};
ghost use Rattle.fit_changes.specs.Rounds.{written};
ghost use Rattle.fit_sdf.specs.Counts.{count_seen};
ghost use Rattle.fit_top.specs.Answer.{report_text};

use fit_changes::{Changes, Line, add_lines, push_counts, push_lines, push_told};
use fit_sdf::{Count, push_sdf_counts};
use sg_text::NoMemory;
use std::alloc::Global;

/// The texts of files with their changes.
pub fn written_texts(alloc: Global, list: &[Changes<'_>]) -> Result<Vec<Vec<u8>>, NoMemory>
    ensures { IfOk result (λ made. map (λ t. t.items) made.items ≡ written list.now) }
{
    let mut made = Vec::new(alloc);
    for changes in list {
        made.push(changes.changed(alloc)?)?;
    }
    Ok(made)
}

/// Lines, and behind them those of the changes of files, whose numbers begin with one.
pub fn with_lines(
    alloc: Global,
    lines: Vec<Line>,
    first: usize,
    list: &[Changes<'_>],
) -> Result<Vec<Line>, NoMemory>
    ensures { IfOk result (λ all. map line_seen all.items ≡ map line_seen lines.items ++ lines_from first list.now) }
{
    let mut all = lines;
    add_lines(alloc, first, list, &mut all)?;
    Ok(all)
}

/// The report of changes, in files of these names, and of the entries that find their places.
pub fn report_text(
    alloc: Global,
    names: &[&str],
    lines: &[Line],
    counts: &[Count],
) -> Result<Vec<u8>, NoMemory>
    ensures { IfOk result (λ text. text.items ≡ report_text (map (λ n. n.now) names.now) (map line_seen lines.now) (map count_seen counts.now)) }
{
    let mut text = Vec::new(alloc);
    push_lines(&mut text, names, lines)?;
    push_counts(&mut text, lines)?;
    push_sdf_counts(&mut text, counts)?;
    Ok(text)
}

/// The first line of the report by which values or violations may change, if there is one.
pub fn told_text(alloc: Global, names: &[&str], lines: &[Line]) -> Result<Vec<u8>, NoMemory>
    ensures { IfOk result (λ text. text.items ≡ first_told (map (λ n. n.now) names.now) (map line_seen lines.now)) }
{
    let mut text = Vec::new(alloc);
    push_told(&mut text, names, lines)?;
    Ok(text)
}

// Cells and files as they are meant.
ghost use Rattle.std.specs.Prelude.{◌≡◌, IfOk, OnOk, map};
ghost use Rattle.std.specs.List.{flat_map};
ghost use Rattle.sdf_tree.specs.Meant as meant;
ghost use Rattle.sdf_tree.specs.Seen.{view_cell, view_file, view_file_part, view_head, view_part};
ghost use Rattle.sdf_meaning.specs.FileSteps as steps;
ghost use Rattle.sdf_meaning.specs.MeantSeen.{view_meant, view_meant_cell, view_sdf};

use crate::meant_entries::add_part;
use sdf_tree::{
    Cell, Divider, Entry, Sdf, WrittenCell, WrittenFile, WrittenFilePart, WrittenHead, WrittenPart,
};
use sg_text::NoMemory;
use sg_time::Unit;
use std::alloc::Global;

const NANOSECOND: Unit = Unit { power: -9 };

fn entries_of<'a>(alloc: Global, parts: Vec<WrittenPart<'a>>) -> Result<Vec<Entry<'a>>, NoMemory>
    ensures { IfOk result (λ entries. map view_meant entries.items ≡ flat_map meant.entries_of_part (map view_part parts.entry.items)) }
{
    let mut entries: Vec<Entry<'a>> = Vec::new(alloc);
    for part in parts {
        add_part(alloc, &mut entries, part)?;
    }
    entries.shrink_to_fit();
    Ok(entries)
}

fn cell_of<'a>(alloc: Global, cell: WrittenCell<'a>) -> Result<Cell<'a>, NoMemory>
    ensures { IfOk result (λ c. view_meant_cell c ≡ meant.cell_of (view_cell cell.entry)) }
{
    let cell_type = cell.cell_type;
    let instance = cell.instance;
    let entries = entries_of(alloc, cell.parts)?;
    Ok(Cell {
        cell_type,
        instance,
        entries,
    })
}

/// What a file says with another head behind it.
fn add_head(sdf: &mut Sdf<'_>, head: WrittenHead<'_>)
    ensures { view_sdf sdf.new ≡ steps.with_head (view_sdf sdf.old) (view_head head.entry) }
{
    match head {
        WrittenHead::Divider(divider) => sdf.divider = divider,
        WrittenHead::TimeScale(unit) => sdf.unit = unit,
        WrittenHead::Text => {}
        WrittenHead::Value(_) => {}
    }
}

/// What a file says with another part behind it.
fn add_file_part<'a>(
    alloc: Global,
    sdf: &mut Sdf<'a>,
    part: WrittenFilePart<'a>,
) -> Result<(), NoMemory>
    ensures { OnOk result (view_sdf sdf.new ≡ steps.with_part (view_sdf sdf.old) (view_file_part part.entry)) }
{
    match part {
        WrittenFilePart::Head(head) => add_head(sdf, head),
        WrittenFilePart::Cell(cell) => {
            let cell = cell_of(alloc, cell)?;
            sdf.cells.push(cell)?;
        }
    }
    Ok(())
}

/// What a file means.
pub fn sdf_of<'a>(alloc: Global, file: WrittenFile<'a>) -> Result<Sdf<'a>, NoMemory>
    ensures { IfOk result (λ sdf. view_sdf sdf ≡ meant.sdf_of (view_file file.entry)) }
{
    let cells = Vec::new(alloc);
    let mut sdf = Sdf {
        unit: NANOSECOND,
        divider: Divider::Point,
        cells,
    };
    for part in file.parts {
        add_file_part(alloc, &mut sdf, part)?;
    }
    Ok(sdf)
}

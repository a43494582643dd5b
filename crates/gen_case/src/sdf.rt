// The SDF file: a rise and a fall for each stage.
ghost use Rattle.std.specs.Prelude.{◌≡◌, ◌++◌, IfOk, OnOk};
ghost use Rattle.gen_case.specs.Case.{cell_line, sdf_of};

use crate::numbers::push_number;
use sg_text::NoMemory;
use std::alloc::{AllocError, Global};

fn push_cell(text: &mut Vec<u8>, stage: u32) -> Result<(), AllocError>
    ensures { OnOk result (text.new.items ≡ text.old.items ++ cell_line stage) }
{
    text.extend_from_slice(b"(CELL (CELLTYPE \"INV\") (INSTANCE u")?;
    push_number(text, stage as u64)?;
    text.extend_from_slice(b") (DELAY (ABSOLUTE (IOPATH A Y (")?;
    push_number(text, (100 + 10 * (stage % 7)) as u64)?;
    text.extend_from_slice(b") (")?;
    push_number(text, (100 + 10 * (stage % 5)) as u64)?;
    text.extend_from_slice(b")))))\n")?;
    Ok(())
}

/// The SDF file of so many stages.
pub fn sdf_of(alloc: Global, stages: u32) -> Result<Vec<u8>, NoMemory>
    ensures { IfOk result (λ text. text.items ≡ sdf_of stages) }
{
    let mut text = Vec::from_slice(alloc, b"(DELAYFILE (TIMESCALE 1ps)\n")?;
    for stage in 1..=stages {
        push_cell(&mut text, stage)?;
    }
    text.extend_from_slice(b")\n")?;
    Ok(text)
}

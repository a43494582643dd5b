// The files that are read.
ghost use Rattle.std.specs.Prelude.{◌≡◌, ℕ, List, IfOk, Some, map};
ghost use Rattle.sg_io.specs.Faults.{Cause};
ghost use Rattle.sg_io.specs.Files.{File, bytes_of};
ghost use Rattle.fit_top.specs.Answer.{files_of};
ghost use Rattle.fit_top.specs.Stops.{FailsAmong, FailsAt, NeverFolder, end_of};
ghost use Rattle.fit_top.specs.Work.{GivesFiles, GivesText, input_seen};

use crate::stop::Stop;
use sg_io::{ReadError, Shelf};
use sg_text::NoMemory;
use std::alloc::Global;

// One byte more than an input file may have.
const READ_LIMIT: u64 = (1 << 28) + 1;

/// A file that was read.
#[derive(Drop)]
pub struct Input<'a> {
    pub name: &'a str,
    pub text: Vec<u8>,
}

/// The text of a file, or that there is none of its name.
pub fn read_text<'a, S: Shelf>(
    alloc: Global,
    shelf: &mut S,
    name: &str,
) -> Result<Option<Vec<u8>>, Stop<'a>>
    ensures gives { (files : List File) → S.files shelf.old ≡ Some files → GivesText (bytes_of name.now files) result }
    ensures held { S.files shelf.new ≡ S.files shelf.old }
    ensures cause { Cause (S.fault_count shelf.old) (S.fault_count shelf.new) (end_of result) }
    ensures folders { NeverFolder result }
    ensures named { FailsAt (S.last_fault shelf.new) name.now result }
{
    match shelf.read(alloc, name, READ_LIMIT) {
        Ok(text) => Ok(Some(text)),
        Err(ReadError::Missing) => Ok(None),
        Err(ReadError::Failed) => Err(Stop::Failed),
        Err(ReadError::NoMemory) => Err(Stop::NoMemory),
    }
}

/// The files of these names, in order, or the first name of which there is none.
pub fn read_files<'a, S: Shelf>(
    alloc: Global,
    shelf: &mut S,
    names: &[&'a str],
) -> Result<Result<Vec<Input<'a>>, &'a str>, Stop<'a>>
    ensures gives { (files : List File) → S.files shelf.old ≡ Some files → GivesFiles (files_of (map (λ n. n.now) names.now) files) result }
    ensures held { S.files shelf.new ≡ S.files shelf.old }
    ensures cause { Cause (S.fault_count shelf.old) (S.fault_count shelf.new) (end_of result) }
    ensures folders { NeverFolder result }
    ensures named { FailsAmong (S.last_fault shelf.new) (map (λ n. n.now) names.now) result }
{
    let mut inputs = Vec::new(alloc);
    for name in names {
        let name = *name;
        let found = read_text(alloc, shelf, name)?;
        let Some(text) = found else {
            return Ok(Err(name));
        };
        inputs.push(Input { name, text })?;
    }
    Ok(Ok(inputs))
}

/// The texts of files.
pub fn texts_of(alloc: Global, inputs: Vec<Input<'_>>) -> Result<Vec<Vec<u8>>, NoMemory>
    ensures { IfOk result (λ texts. map (λ t. t.items) texts.items ≡ map (λ i. (input_seen i).bytes) inputs.entry.items) }
{
    let mut texts = Vec::new(alloc);
    for input in inputs {
        texts.push(input.text)?;
    }
    Ok(texts)
}

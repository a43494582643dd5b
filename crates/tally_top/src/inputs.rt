// The files that are read.
ghost use Rattle.std.specs.Prelude.{◌≡◌, ◌∷◌, [], List, ℕ, Some, option_map};
ghost use Rattle.sg_io.specs.Faults.{Cause};
ghost use Rattle.sg_io.specs.Files.{File};
ghost use Rattle.tally_top.specs.Answer.{text_of, waive_text};
ghost use Rattle.tally_top.specs.Promises.{with_name};
ghost use Rattle.tally_top.specs.Seen.{FailsAmong, GivesText};

use sg_io::{ReadError, Shelf, ShelfError};
use std::alloc::Global;

/// The text of a file, or that there is none of its name.
pub fn read_text<S: Shelf>(
    alloc: Global,
    shelf: &mut S,
    name: &str,
) -> Result<Option<Vec<u8>>, ShelfError>
    ensures gives { (held : List File) → S.files shelf.old ≡ Some held → GivesText (text_of name.now held) result }
    ensures held { S.files shelf.new ≡ S.files shelf.old }
    ensures cause { Cause (S.fault_count shelf.old) (S.fault_count shelf.new) result }
    ensures named { FailsAmong (S.last_fault shelf.new) (name.now ∷ []) result }
{
    match shelf.read(alloc, name, u64::MAX) {
        Ok(text) => Ok(Some(text)),
        Err(ReadError::Missing) => Ok(None),
        Err(ReadError::Failed) => Err(ShelfError::Failed),
        Err(ReadError::NoMemory) => Err(ShelfError::NoMemory),
    }
}

/// The text of the waivers, which is empty where no file is named.
pub fn read_waive<S: Shelf>(
    alloc: Global,
    shelf: &mut S,
    name: Option<&str>,
) -> Result<Option<Vec<u8>>, ShelfError>
    ensures gives { (held : List File) → S.files shelf.old ≡ Some held → GivesText (waive_text (option_map (λ n. n.now) name.entry) held) result }
    ensures held { S.files shelf.new ≡ S.files shelf.old }
    ensures cause { Cause (S.fault_count shelf.old) (S.fault_count shelf.new) result }
    ensures named { FailsAmong (S.last_fault shelf.new) (with_name (option_map (λ n. n.now) name.entry)) result }
{
    match name {
        Some(name) => read_text(alloc, shelf, name),
        None => Ok(Some(Vec::new(alloc))),
    }
}

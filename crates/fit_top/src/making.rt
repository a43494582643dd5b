// The files that are made.
ghost use Rattle.std.specs.Prelude.{◌≡◌, ◌++◌, OnOk, map, zip};
ghost use Rattle.sg_io.specs.Faults.{Cause, NamesFault};
ghost use Rattle.sg_io.specs.Files.{BothTell};
ghost use Rattle.fit_top.specs.Answer.{made_file};
ghost use Rattle.fit_top.specs.Making.{Leaves, LeavesAll};
ghost use Rattle.fit_top.specs.Stops.{FailsAmong, IfFolder, NeverFails, NeverFolder, end_of, folder_end};
ghost use Rattle.fit_top.specs.Work.{made_seen};

use crate::folders::Folders;
use crate::stop::Stop;
use fit_words::made_name;
use sg_io::{Shelf, ShelfError};
use sg_text::NoMemory;
use std::alloc::Global;

/// A file that is made.
#[derive(Drop)]
pub struct Made {
    pub name: String,
    pub text: Vec<u8>,
}

/// Adds the files that are made in a folder of files of these names, with their texts.
pub fn add_files(
    alloc: Global,
    folder: &str,
    names: &[&str],
    texts: &[Vec<u8>],
    made: &mut Vec<Made>,
) -> Result<(), NoMemory>
    ensures { OnOk result (map made_seen made.new.items ≡ map made_seen made.old.items ++ map (made_file folder.now) (zip (map (λ n. n.now) names.now) (map (λ t. t.items) texts.now))) }
{
    for (name, written) in names.iter().zip(texts) {
        let text = Vec::from_slice(alloc, written)?;
        let name = made_name(alloc, folder, name)?;
        made.push(Made { name, text })?;
    }
    Ok(())
}

// Makes a file of this text.
fn make_text<S: Shelf>(shelf: &mut S, name: &str, text: &[u8]) -> Result<(), ShelfError>
    ensures file { BothTell (S.files shelf.old) (S.files shelf.new) (Leaves name.now text.now result) }
    ensures cause { Cause (S.fault_count shelf.old) (S.fault_count shelf.new) result }
    ensures named { NamesFault name.now (S.last_fault shelf.old) (S.last_fault shelf.new) result }
{
    shelf.create(name)?;
    shelf.append(name, text)?;
    Ok(())
}

fn make_file<S: Shelf>(shelf: &mut S, file: &Made) -> Result<(), ShelfError>
    ensures file { BothTell (S.files shelf.old) (S.files shelf.new) (Leaves (made_seen file.now).name (made_seen file.now).bytes result) }
    ensures cause { Cause (S.fault_count shelf.old) (S.fault_count shelf.new) result }
    ensures named { NamesFault (made_seen file.now).name (S.last_fault shelf.old) (S.last_fault shelf.new) result }
{
    make_text(shelf, &file.name, &file.text)
}

// Makes files, one after another.
fn make_files<'a, S: Shelf>(shelf: &mut S, made: &[Made]) -> Result<(), Stop<'a>>
    ensures files { BothTell (S.files shelf.old) (S.files shelf.new) (LeavesAll (map made_seen made.now) result) }
    ensures cause { Cause (S.fault_count shelf.old) (S.fault_count shelf.new) (end_of result) }
    ensures named { FailsAmong (S.last_fault shelf.new) (map (λ f. f.name) (map made_seen made.now)) result }
    ensures folders { NeverFolder result }
{
    for file in made {
        make_file(shelf, file)?;
    }
    Ok(())
}

fn make_folder<'a, F: Folders>(folders: &mut F, name: &'a str) -> Result<(), Stop<'a>>
    ensures cause { Cause (F.fault_count folders.old) (F.fault_count folders.new) (folder_end result) }
    ensures named { IfFolder (λ n. n ≡ name.now) result }
    ensures never { NeverFails result }
{
    match folders.make(name) {
        Ok(()) => Ok(()),
        Err(ShelfError::Failed) => Err(Stop::Folder(name)),
        Err(ShelfError::NoMemory) => Err(Stop::NoMemory),
    }
}

/// Makes the folder and then the files, if there are any.
pub fn make_all<'a, S: Shelf, F: Folders>(
    shelf: &mut S,
    folders: &mut F,
    folder: &'a str,
    made: &[Made],
) -> Result<(), Stop<'a>>
    ensures files { BothTell (S.files shelf.old) (S.files shelf.new) (LeavesAll (map made_seen made.now) result) }
    ensures held { IfFolder (λ _. S.files shelf.new ≡ S.files shelf.old) result }
    ensures cause { Cause (S.fault_count shelf.old) (S.fault_count shelf.new) (end_of result) }
    ensures folders { Cause (F.fault_count folders.old) (F.fault_count folders.new) (folder_end result) }
    ensures named { FailsAmong (S.last_fault shelf.new) (map (λ f. f.name) (map made_seen made.now)) result }
    ensures folder { IfFolder (λ n. n ≡ folder.now) result }
{
    if made.len() == 0 {
        return Ok(());
    }
    make_folder(folders, folder)?;
    make_files(shelf, made)
}

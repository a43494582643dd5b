// Places that aren't taken, as they are told.
ghost use Rattle.std.specs.Prelude.{◌≡◌, ◌<◌, IfErr, IfOk, length, option_map};
ghost use Rattle.fit_netlist.specs.Fitted.{Tells};

use crate::faults::FitError;
use fit_changes::Unfit;
use netlist_read::{NetlistKind, write_kind};
use sg_text::{NoMemory, Place};
use std::alloc::Global;
use vl_parse::ParseKind;

pub fn syntax_kind(kind: ParseKind<'_>) -> NetlistKind<'_> {
    match kind {
        ParseKind::Syntax => NetlistKind::Syntax,
        ParseKind::Unsupported(word) => NetlistKind::Unsupported(word),
        ParseKind::Specify(kind) => NetlistKind::Specify(kind),
    }
}

/// The bytes of a name.
pub fn bytes_of(name: Option<&str>) -> Option<&[u8]>
    ensures { option_map (λ n. n.now) result ≡ option_map (λ n. n.now) name.entry }
{
    match name {
        Some(name) => Some(name.as_bytes()),
        None => None,
    }
}

pub fn line_of(files: &[Vec<u8>], place: Place) -> u64 {
    match files.get(place.file as usize) {
        Some(text) => place.line_of(text),
        None => 1,
    }
}

/// A place as it is told, in the part of a name.
pub fn unfit(
    alloc: Global,
    files: &[Vec<u8>],
    kind: &NetlistKind<'_>,
    place: Place,
    part: &[u8],
) -> Result<Unfit, NoMemory> {
    let kind = write_kind(alloc, kind)?;
    let part = Vec::from_slice(alloc, part)?;
    Ok(Unfit {
        file: place.file,
        line: line_of(files, place),
        kind,
        part,
    })
}

fn only(alloc: Global, unfit: Unfit) -> Result<Vec<Unfit>, NoMemory>
    ensures { IfOk result (λ list. 0 < length list.items) }
{
    let mut list = Vec::new(alloc);
    list.push(unfit)?;
    Ok(list)
}

fn refuse_one(alloc: Global, unfit: Unfit) -> FitError
    ensures { Tells result }
{
    match only(alloc, unfit) {
        Ok(list) => FitError::Unfit(list),
        Err(NoMemory) => FitError::NoMemory,
    }
}

/// The refusal of one place, which is in no part.
pub fn refuse(alloc: Global, files: &[Vec<u8>], kind: &NetlistKind<'_>, place: Place) -> FitError
    ensures { Tells result }
{
    match unfit(alloc, files, kind, place, b"") {
        Ok(unfit) => refuse_one(alloc, unfit),
        Err(NoMemory) => FitError::NoMemory,
    }
}

/// Refuses places, if there are some.
pub fn refuse_some(list: Vec<Unfit>) -> Result<(), FitError>
    ensures { IfErr result Tells }
{
    if list.is_empty() {
        Ok(())
    } else {
        Err(FitError::Unfit(list))
    }
}

fn at_start(alloc: Global, word: &[u8]) -> Result<Unfit, NoMemory> {
    Ok(Unfit {
        file: 0,
        line: 1,
        kind: Vec::from_slice(alloc, word)?,
        part: Vec::new(alloc),
    })
}

// The refusal of changes as a whole.
fn refuse_changes(alloc: Global, word: &[u8]) -> FitError
    ensures { Tells result }
{
    match at_start(alloc, word) {
        Ok(unfit) => refuse_one(alloc, unfit),
        Err(NoMemory) => FitError::NoMemory,
    }
}

/// The refusal of changes that left out what is used.
pub fn refuse_unreached(alloc: Global) -> FitError
    ensures { Tells result }
{
    refuse_changes(alloc, b"Unreached")
}

/// The refusal of changes of which one isn't what its rule says.
pub fn refuse_inexact(alloc: Global) -> FitError
    ensures { Tells result }
{
    refuse_changes(alloc, b"Inexact")
}

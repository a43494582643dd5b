// The files that a netlist includes (IEEE 1364-2005, 19.5): each is read once it is wanted.
ghost use Rattle.std.specs.Prelude.{◌≡◌, ℕ, List, IfOk, IfSome, IsTrue, OnOk, bytes_eq, map, unwrap_or, []};
ghost use Rattle.std.specs.List.{list_any};
ghost use Rattle.std.specs.Path.{path_join, path_parent};
ghost use Rattle.sg_io.specs.Faults.{Cause};
ghost use Rattle.fit_words.specs.Words as words;
ghost use Rattle.fit_words.specs.WordsSeen.{asked_seen};
ghost use Rattle.fit_top.specs.Including.{AreSought, FailsReading, GivesSought, IsSource, any_has_path, has_path};
ghost use Rattle.fit_top.specs.Stops.{FailsAt, NeverFolder, end_of};
ghost use Rattle.fit_top.specs.Work.{IsAttempt, IsFit};

use crate::fitting::{Attempt, fit_known, missing_include};
use crate::inputs::read_text;
use crate::stop::Stop;
use fit_changes::Unfit;
use fit_netlist::Fitted;
use fit_text::{Found, Included};
use fit_words::Asked;
use sg_io::Shelf;
use sg_text::NoMemory;
use std::alloc::Global;
use std::path::Path;

// So many files may be included.
const MOST: usize = 4096;

fn has_path(found: &Option<Found>, file: &[u8]) -> bool
    ensures { result ≡ has_path file.now found.now }
{
    match found {
        Some(found) => found.path.as_slice() == file,
        None => false,
    }
}

fn any_has_path(included: &[Included], file: &[u8]) -> bool
    ensures { result ≡ any_has_path file.now included.now }
{
    included.iter().any(|one| has_path(&one.found, file))
}

fn any_is(names: &[&str], file: &[u8]) -> bool
    ensures { result ≡ list_any (λ n. bytes_eq n.now file.now) names.now }
{
    names.iter().any(|name| name.as_bytes() == file)
}

// Whether a file is the netlist's, or one that was found.
fn is_source(asked: &Asked<'_>, included: &[Included], file: &[u8]) -> bool
    requires { AreSought (asked_seen asked.now) included.now }
    ensures { IsTrue result → IsSource (asked_seen asked.now) file.now }
{
    any_is(&asked.netlists, file) || any_has_path(included, file)
}

// A name that a file may have.
fn name_of(name: &[u8]) -> Option<&str> {
    match std::str::from_utf8(name) {
        Ok("") | Err(_) => None,
        Ok(name) => Some(name),
    }
}

fn parent_of(file: &str) -> &str
    ensures { result.now ≡ unwrap_or (path_parent file.now) [] }
{
    match Path::new(file).parent() {
        Some(folder) => folder.as_str(),
        None => "",
    }
}

// The file of a name in a folder, if it is there.
fn find_at<'a, S: Shelf>(
    alloc: Global,
    folder: &str,
    name: &str,
    shelf: &mut S,
) -> Result<Option<Found>, Stop<'a>>
    ensures found { IfOk result (λ found. IfSome found (λ f. f.path.items ≡ path_join folder.now name.now)) }
    ensures held { S.files shelf.new ≡ S.files shelf.old }
    ensures cause { Cause (S.fault_count shelf.old) (S.fault_count shelf.new) (end_of result) }
    ensures named { FailsAt (S.last_fault shelf.new) (path_join folder.now name.now) result }
    ensures folders { NeverFolder result }
{
    let path = Path::new(folder).join(alloc, name)?.into_string();
    match read_text(alloc, shelf, path.as_str())? {
        Some(text) => Ok(Some(Found {
            path: path.into_bytes(),
            text,
        })),
        None => Ok(None),
    }
}

// The same beside the file that includes it.
fn find_beside<'a, S: Shelf>(
    alloc: Global,
    asked: &Asked<'_>,
    file: &[u8],
    name: &str,
    shelf: &mut S,
) -> Result<Option<Found>, Stop<'a>>
    requires { IsSource (asked_seen asked.now) file.now }
    ensures found { IfOk result (GivesSought (asked_seen asked.now)) }
    ensures held { S.files shelf.new ≡ S.files shelf.old }
    ensures cause { Cause (S.fault_count shelf.old) (S.fault_count shelf.new) (end_of result) }
    ensures named { FailsReading (asked_seen asked.now) (S.last_fault shelf.new) result }
    ensures folders { NeverFolder result }
{
    match std::str::from_utf8(file) {
        Ok(file) => find_at(alloc, parent_of(file), name, shelf),
        Err(_) => Ok(None),
    }
}

// The same in the first folder in which it is.
fn find_in<'a, S: Shelf>(
    alloc: Global,
    asked: &Asked<'_>,
    name: &str,
    shelf: &mut S,
) -> Result<Option<Found>, Stop<'a>>
    ensures found { IfOk result (GivesSought (asked_seen asked.now)) }
    ensures held { S.files shelf.new ≡ S.files shelf.old }
    ensures cause { Cause (S.fault_count shelf.old) (S.fault_count shelf.new) (end_of result) }
    ensures named { FailsReading (asked_seen asked.now) (S.last_fault shelf.new) result }
    ensures folders { NeverFolder result }
{
    let folders = asked.includes.as_slice();
    for folder in folders {
        let found = find_at(alloc, folder, name, shelf)?;
        if found.is_some() {
            return Ok(found);
        }
    }
    Ok(None)
}

// The same beside the file that includes it, or else in the first folder.
fn find_from<'a, S: Shelf>(
    alloc: Global,
    asked: &Asked<'_>,
    file: &[u8],
    name: &str,
    shelf: &mut S,
) -> Result<Option<Found>, Stop<'a>>
    requires { IsSource (asked_seen asked.now) file.now }
    ensures found { IfOk result (GivesSought (asked_seen asked.now)) }
    ensures held { S.files shelf.new ≡ S.files shelf.old }
    ensures cause { Cause (S.fault_count shelf.old) (S.fault_count shelf.new) (end_of result) }
    ensures named { FailsReading (asked_seen asked.now) (S.last_fault shelf.new) result }
    ensures folders { NeverFolder result }
{
    let found = find_beside(alloc, asked, file, name, shelf)?;
    if found.is_some() {
        return Ok(found);
    }
    find_in(alloc, asked, name, shelf)
}

// The file that another one includes by this name. What no file includes, as a macro of the command line, is looked for in
// the folders alone.
fn find<'a, S: Shelf>(
    alloc: Global,
    asked: &Asked<'_>,
    included: &[Included],
    from: &[u8],
    name: &[u8],
    shelf: &mut S,
) -> Result<Option<Found>, Stop<'a>>
    requires { AreSought (asked_seen asked.now) included.now }
    ensures found { IfOk result (GivesSought (asked_seen asked.now)) }
    ensures held { S.files shelf.new ≡ S.files shelf.old }
    ensures cause { Cause (S.fault_count shelf.old) (S.fault_count shelf.new) (end_of result) }
    ensures named { FailsReading (asked_seen asked.now) (S.last_fault shelf.new) result }
    ensures folders { NeverFolder result }
{
    let Some(name) = name_of(name) else {
        return Ok(None);
    };
    if is_source(asked, included, from) {
        return find_from(alloc, asked, from, name, shelf);
    }
    find_in(alloc, asked, name, shelf)
}

// Looks for a file, and keeps what was found.
fn include<'a, S: Shelf>(
    alloc: Global,
    asked: &Asked<'_>,
    from: Vec<u8>,
    name: Vec<u8>,
    included: &mut Vec<Included>,
    shelf: &mut S,
) -> Result<(), Stop<'a>>
    requires { AreSought (asked_seen asked.now) included.old.items }
    ensures sought { OnOk result (AreSought (asked_seen asked.now) included.new.items) }
    ensures held { S.files shelf.new ≡ S.files shelf.old }
    ensures cause { Cause (S.fault_count shelf.old) (S.fault_count shelf.new) (end_of result) }
    ensures named { FailsReading (asked_seen asked.now) (S.last_fault shelf.new) result }
    ensures folders { NeverFolder result }
{
    let found = find(alloc, asked, included, &from, &name, shelf)?;
    included.push(Included { from, name, found })?;
    Ok(())
}

fn is_included(included: &[Included], from: &[u8], name: &[u8]) -> bool {
    included.iter().any(|one| one.from.as_slice() == from && one.name.as_slice() == name)
}

// What comes of a netlist where no more files are read.
fn ended(alloc: Global, attempt: Attempt) -> Result<Result<Fitted, Vec<Unfit>>, NoMemory>
    ensures { (asked : words.Asked) (read : List (List ℕ)) → IsAttempt asked read attempt → IfOk result (IsFit asked read) }
{
    match attempt {
        Attempt::Fitted(fitted) => Ok(Ok(fitted)),
        Attempt::Unfit(places) => Ok(Err(places)),
        Attempt::Wants { name, .. } => Ok(Err(missing_include(alloc, &name)?)),
    }
}

/// The netlist as it is to be written, or the places that aren't taken. A file that is included is read once it is wanted:
/// beside the one that includes it, or else in the first of the folders in which it is. After too many files, or where one
/// is wanted again, the next is refused.
pub fn fit<'a, S: Shelf>(
    alloc: Global,
    asked: &Asked<'_>,
    texts: &[Vec<u8>],
    shelf: &mut S,
) -> Result<Result<Fitted, Vec<Unfit>>, Stop<'a>>
    ensures fit { IfOk result (IsFit (asked_seen asked.now) (map (λ t. t.items) texts.now)) }
    ensures held { S.files shelf.new ≡ S.files shelf.old }
    ensures cause { Cause (S.fault_count shelf.old) (S.fault_count shelf.new) (end_of result) }
    ensures named { FailsReading (asked_seen asked.now) (S.last_fault shelf.new) result }
    ensures folders { NeverFolder result }
{
    let mut included = Vec::new(alloc);
    for _ in 0..MOST {
        match fit_known(alloc, asked, texts, &included)? {
            Attempt::Fitted(fitted) => return Ok(Ok(fitted)),
            Attempt::Unfit(places) => return Ok(Err(places)),
            Attempt::Wants { from, name } => {
                if is_included(&included, &from, &name) {
                    return Ok(Err(missing_include(alloc, &name)?));
                }
                include(alloc, asked, from, name, &mut included, shelf)?;
            }
        }
    }
    let last = fit_known(alloc, asked, texts, &included)?;
    Ok(ended(alloc, last)?)
}

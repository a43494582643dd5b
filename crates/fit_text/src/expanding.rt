// The texts of all files.
ghost use Rattle.std.specs.Prelude.{◌≡◌, ◌<◌, IfOk, length, map};
ghost use Rattle.fit_text.specs.Expanded.{AreTold, texts};

use crate::given::{Expansion, Given};
use crate::reader::Reader;
use fit_changes::{Change, Changes, Unfit};
use fit_macros::{Form, Line, Part};
use sg_text::NoMemory;
use std::alloc::Global;
use std::mem;

// A text with changes, which are in order.
fn with_changes<'a>(
    alloc: Global,
    text: &'a [u8],
    changes: Vec<Change>,
) -> Result<Changes<'a>, NoMemory>
    ensures { IfOk result (λ made. made.text ≡ text.now) }
{
    let mut made = Changes::new(alloc, text);
    let mut changes = changes;
    changes.reverse();
    while let Some(change) = changes.pop() {
        made.add(change)?;
    }
    Ok(made)
}

// The texts with the changes of each, the first of which come last.
fn all_with_changes<'a>(
    alloc: Global,
    files: &'a [Vec<u8>],
    lists: Vec<Vec<Change>>,
) -> Result<Vec<Changes<'a>>, NoMemory>
    ensures { IfOk result (λ list. map (λ f. f.text) list.items ≡ texts files.now) }
{
    let mut lists = lists;
    let mut list = Vec::new(alloc);
    for file in files {
        let changes = lists.pop().unwrap_or(Vec::new(alloc));
        list.push(with_changes(alloc, file, changes)?)?;
    }
    Ok(list)
}

// Whether a place stands behind a line.
fn is_behind(unfit: &Unfit, line: Line) -> bool {
    unfit.file > line.file || unfit.file == line.file && unfit.line > line.number
}

impl<'t> Reader<'t> {
    // The changes of each file.
    fn read_files(&mut self, files: &'t [Vec<u8>]) -> Result<Vec<Vec<Change>>, NoMemory> {
        let names: &'t [&'t str] = self.given.names;
        let mut lists = Vec::new(self.alloc);
        for (at, file) in files.iter().enumerate() {
            if self.wanted.is_some() {
                break;
            }
            let name = match names.get(at) {
                Some(name) => name.as_bytes(),
                None => b"",
            };
            lists.push(self.read_file(u32::try_from(at).unwrap_or(u32::MAX), name, file)?)?;
        }
        self.end_files()?;
        Ok(lists)
    }

    // A branch that is open at the end is told, unless its directives stay, since their reader tells it then.
    fn end_files(&mut self) -> Result<(), NoMemory> {
        self.part = Part::outside();
        let mut open = mem::replace(&mut self.branches, Vec::new(self.alloc));
        while let Some(branch) = open.pop() {
            if matches!(branch.form, Form::Gone) {
                self.tell_open(branch.line)?;
            }
        }
        Ok(())
    }

    // Tells a branch in the order of lines.
    fn tell_open(&mut self, line: Line) -> Result<(), NoMemory> {
        let kind = Vec::from_slice(self.alloc, b"UnbalancedIf")?;
        let unfit = self.unfit_at(line, kind)?;
        let behind = self
            .unfit
            .iter()
            .take_while(|unfit| !is_behind(unfit, line))
            .count();
        self.unfit.insert(behind.min(self.unfit.len()), unfit)?;
        Ok(())
    }
}

/// Works out macros, included files and directives of several texts, as far as these aren't taken as they are. Takes
/// memory and time in proportion to them and to what is brought in.
pub fn expand<'a>(
    alloc: Global,
    files: &'a [Vec<u8>],
    given: &Given<'_>,
) -> Result<Expansion<'a>, NoMemory>
    ensures { IfOk result (AreTold (texts files.now)) }
{
    let mut reader = Reader::new(alloc, *given)?;
    let mut lists = reader.read_files(files)?;
    lists.reverse();
    let Reader { unfit, wanted, .. } = reader;
    if let Some(wanted) = wanted {
        return Ok(Expansion::Wants {
            from: wanted.from,
            name: wanted.name,
        });
    }
    if !unfit.is_empty() {
        return Ok(Expansion::Unfit(unfit));
    }
    Ok(Expansion::Expanded(all_with_changes(alloc, files, lists)?))
}

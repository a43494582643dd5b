// The macros that are defined, and those of them that the texts still define once they are changed.
use crate::directives::directive_of;
use crate::pieces::{behind, cut, front};
use indexmap::IndexMap;
use sg_text::NoMemory;
use std::alloc::Global;
use vl_pieces::Class;

/// How many uses of macros may lie within one another.
pub const DEEPEST: u8 = 16;

/// A macro: the names of its arguments, if it has some, between their parentheses, and its text; in which file it is
/// defined, and on which line. No file: beside the files.
#[derive(Clone, Copy)]
pub struct Macro<'t> {
    pub parameters: Option<&'t [u8]>,
    pub text: &'t [u8],
    pub file: &'t [u8],
    pub line: u64,
}

// A name: its macro, and the text that the changed texts define for it. A name that these define is one of a macro.
#[derive(Clone, Copy)]
struct Entry<'t> {
    meant: Option<Macro<'t>>,
    written: Option<&'t [u8]>,
    // whether a use may stay, as it was found when there were so many definitions
    stays: bool,
    found_at: u64,
}

/// The macros by their names.
#[derive(Drop)]
pub struct Macros<'t> {
    entries: IndexMap<&'t [u8], Entry<'t>>,
    definitions: u64,
}

impl<'t> Macros<'t> {
    pub fn new(alloc: Global) -> Macros<'t> {
        Macros {
            entries: IndexMap::new(alloc),
            definitions: 1,
        }
    }

    fn entry(&self, name: &[u8]) -> Option<Entry<'t>> {
        match self.entries.get(name) {
            Some(entry) => Some(*entry),
            None => None,
        }
    }

    /// The macro of a name.
    pub fn get(&self, name: &[u8]) -> Option<Macro<'t>> {
        self.entry(name)?.meant
    }

    /// Whether a name is defined.
    pub fn is_defined(&self, name: &[u8]) -> bool {
        self.get(name).is_some()
    }

    /// Whether the changed texts define a name.
    pub fn is_written(&self, name: &[u8]) -> bool {
        match self.entry(name) {
            Some(entry) => entry.written.is_some(),
            None => false,
        }
    }

    /// Defines a macro anew; its definition stays in the changed text, or goes.
    pub fn define(&mut self, name: &'t [u8], new: Macro<'t>, stays: bool) -> Result<(), NoMemory> {
        let before = match self.entry(name) {
            Some(entry) => entry.written,
            None => None,
        };
        let written = if stays { Some(new.text) } else { before };
        self.definitions = self.definitions.saturating_add(1);
        let entry = Entry {
            meant: Some(new),
            written,
            stays: false,
            found_at: 0,
        };
        self.entries.insert(name, entry)?;
        Ok(())
    }

    /// The macro of a name is no more, and the changed texts say so too.
    pub fn undefine(&mut self, name: &[u8]) {
        self.definitions = self.definitions.saturating_add(1);
        let _ = self.entries.swap_remove(name);
    }

    /// Whether a macro's use may stay: the changed texts give the same for it.
    pub fn stays(&mut self, name: &'t [u8]) -> Result<bool, NoMemory> {
        self.stays_within(name, DEEPEST)
    }

    #[cycle(staying)]
    fn stays_within(&mut self, name: &'t [u8], left: u8) -> Result<bool, NoMemory> {
        let Some(entry) = self.entry(name) else {
            return Ok(false);
        };
        if entry.found_at == self.definitions {
            return Ok(entry.stays);
        }
        let stays = match plain_text(entry) {
            Some(text) if left > 0 => self.text_stays(text, left - 1)?,
            _ => false,
        };
        let found = Entry {
            meant: entry.meant,
            written: entry.written,
            stays,
            found_at: self.definitions,
        };
        self.entries.insert(name, found)?;
        Ok(stays)
    }

    // Whether all uses in a macro's text may stay.
    #[cycle(staying)]
    fn text_stays(&mut self, text: &'t [u8], left: u8) -> Result<bool, NoMemory> {
        let mut rest = text;
        while let [_, ..] = rest {
            let (class, piece) = front(rest);
            let name = cut(piece, 1).1;
            if class == Class::Use
                && (directive_of(name).is_some() || !self.stays_within(name, left)?)
            {
                return Ok(false);
            }
            rest = behind(rest, piece.len());
        }
        Ok(true)
    }
}

// The text of a macro without arguments that the changed texts define alike.
fn plain_text<'t>(entry: Entry<'t>) -> Option<&'t [u8]> {
    let meant = entry.meant?;
    let written = entry.written?;
    if meant.parameters.is_none() && meant.text == written {
        Some(written)
    } else {
        None
    }
}

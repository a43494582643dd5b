// Changes as they are collected.
use fit_changes::Change;
use fit_delays::push_draft;
use fit_entries::{Note, Work};
use sdf_lex::Token;
use sg_text::NoMemory;
use std::alloc::Global;

/// A text, and the changes that are asked for, in the order of its bytes.
#[derive(Drop)]
pub struct Pen<'a> {
    pub alloc: Global,
    pub text: &'a [u8],
    pub edits: Vec<Change>,
}

/// The line feeds from one byte to another.
pub fn feeds_of(alloc: Global, text: &[u8], from: usize, end: usize) -> Result<Vec<u8>, NoMemory> {
    let mut feeds = Vec::new(alloc);
    if let Some(bytes) = text.get(from..end) {
        for b in bytes {
            if *b == b'\n' {
                feeds.push(b'\n')?;
            }
        }
    }
    Ok(feeds)
}

/// The bytes from the first parenthesis of a group to behind the last.
pub fn span_of(group: &[Token<'_>]) -> Option<(usize, usize)> {
    let first = group.first()?;
    let last = group.last()?;
    Some((first.byte as usize, (last.byte as usize).saturating_add(1)))
}

impl<'a> Pen<'a> {
    /// Asks for a text in the place of some bytes: the last note tells it, those before it stand for themselves.
    pub fn change(
        &mut self,
        from: usize,
        end: usize,
        text: Vec<u8>,
        notes: Vec<Note>,
        part: &[u8],
    ) -> Result<(), NoMemory> {
        let mut notes = notes;
        let Some(last) = notes.pop() else {
            return Ok(());
        };
        for note in notes {
            self.tell(from, note, part)?;
        }
        self.edits.push(Change {
            byte: from,
            size: end.saturating_sub(from),
            text,
            rule: last.rule,
            part: Vec::from_slice(self.alloc, part)?,
            what: last.what,
        })?;
        Ok(())
    }

    /// Tells something at a byte, where nothing is changed.
    pub fn tell(&mut self, byte: usize, note: Note, part: &[u8]) -> Result<(), NoMemory> {
        self.edits.push(Change {
            byte,
            size: 0,
            text: Vec::new(self.alloc),
            rule: note.rule,
            part: Vec::from_slice(self.alloc, part)?,
            what: note.what,
        })?;
        Ok(())
    }

    /// Asks for what is written in the place of an entry, if something is told of it.
    pub fn write(&mut self, work: Work<'_, '_>, part: &[u8]) -> Result<(), NoMemory> {
        if work.notes.is_empty() {
            return Ok(());
        }
        let Some((from, end)) = span_of(work.group) else {
            return Ok(());
        };
        let mut text = Vec::new(self.alloc);
        for draft in &work.drafts {
            if !draft.is_gone {
                if !text.is_empty() {
                    text.push(b' ')?;
                }
                push_draft(&mut text, draft)?;
            }
        }
        text.extend_from_slice(&feeds_of(self.alloc, self.text, from, end)?)?;
        self.change(from, end, text, work.notes, part)
    }
}

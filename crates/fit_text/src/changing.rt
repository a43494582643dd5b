// A file's text, and its changes so far.
use fit_changes::{Change, Rule};
use sg_text::NoMemory;
use std::alloc::Global;
use vl_pieces::Class;

/// By which rule a text changes, in which part, and what it is in words.
use fit_macros::{Joint, cut, feeds, is_base};

#[derive(Drop)]
pub struct Reason {
    pub rule: Rule,
    pub part: Vec<u8>,
    pub what: Vec<u8>,
}

// Text that isn't taken, and goes: where it begins.
#[derive(Drop)]
struct Gap {
    from: usize,
    reason: Reason,
}

/// A file's text, and its changes so far.
#[derive(Drop)]
pub struct FileText<'t> {
    alloc: Global,
    pub name: &'t [u8],
    text: &'t [u8],
    changes: Vec<Change>,
    gap: Option<Gap>,
    // where the last change ends, and the byte that is before it now
    end: usize,
    last: u8,
}

impl<'t> FileText<'t> {
    /// A text without changes.
    pub fn new(alloc: Global, name: &'t [u8], text: &'t [u8]) -> FileText<'t> {
        FileText {
            alloc,
            name,
            text,
            changes: Vec::new(alloc),
            gap: None,
            end: 0,
            last: b'\n',
        }
    }

    // The byte before one, as the changes leave it.
    fn last_before(&self, at: usize) -> u8 {
        if at == self.end {
            return self.last;
        }
        match cut(self.text, at).0.last() {
            Some(b) => *b,
            None => b'\n',
        }
    }

    fn byte_at(&self, at: usize) -> u8 {
        match self.text.get(at) {
            Some(b) => *b,
            None => b'\n',
        }
    }

    fn feeds_between(&self, from: usize, end: usize) -> usize {
        feeds(cut(cut(self.text, end).0, from).1)
    }

    // Whether the base of a constant ends before a byte.
    fn has_base_before(&self, at: usize) -> bool {
        match cut(self.text, at).0 {
            [.., b'\'', base] => is_base(*base),
            _ => false,
        }
    }

    /// Whether the macro's use from a byte on is a part of a constant, as in `` `WIDTH'b0`` or `` 8'h`VALUE``
    /// (IEEE 1364-2005, 3.5.1).
    pub fn is_in_constant(&self, at: usize, size: usize) -> bool {
        self.has_base_before(at) || self.byte_at(at.saturating_add(size)) == b'\''
    }

    /// The text that may stand from a byte on.
    pub fn joint_at(&self, at: usize) -> Joint {
        if self.has_base_before(at) {
            Joint::behind(self.alloc, b'\'')
        } else {
            Joint::behind(self.alloc, self.last_before(at))
        }
    }

    fn change(
        &mut self,
        from: usize,
        end: usize,
        text: Vec<u8>,
        reason: Reason,
    ) -> Result<(), NoMemory> {
        self.last = match text.last() {
            Some(b) => *b,
            None => self.last_before(from),
        };
        self.end = end;
        let Reason { rule, part, what } = reason;
        self.changes.push(Change {
            byte: from,
            size: end.saturating_sub(from),
            text,
            rule,
            part,
            what,
        })?;
        Ok(())
    }

    /// Puts a text in the place of so many bytes, with their line feeds behind it.
    pub fn give(
        &mut self,
        at: usize,
        size: usize,
        out: Joint,
        reason: Reason,
    ) -> Result<(), NoMemory> {
        let end = at.saturating_add(size);
        let text = out.finish(self.byte_at(end), self.feeds_between(at, end))?;
        self.change(at, end, text, reason)
    }

    /// From a byte on the text goes.
    pub fn open_gap(&mut self, from: usize, reason: Reason) {
        self.gap = Some(Gap { from, reason });
    }

    /// What went up to a byte, and so many bytes more, are line feeds alone, but for a directive.
    pub fn close_gap(&mut self, at: usize, size: usize, directive: &[u8]) -> Result<(), NoMemory> {
        let Some(Gap { from, reason }) = self.gap.take() else {
            return Ok(());
        };
        let lines = self.feeds_between(from, at);
        let last = if lines > 0 {
            b'\n'
        } else {
            self.last_before(from)
        };
        let mut out = Joint::behind(self.alloc, last);
        out.push(Class::Use, directive)?;
        let end = at.saturating_add(size);
        let rest = out.finish(self.byte_at(end), self.feeds_between(at, end))?;
        let mut text = Vec::new(self.alloc);
        for _ in 0..lines {
            text.push(b'\n')?;
        }
        text.extend_from_slice(&rest)?;
        self.change(from, end, text, reason)
    }

    /// The changes, where the text that goes does so to its end.
    pub fn finish(self) -> Result<Vec<Change>, NoMemory> {
        let mut file = self;
        let end = file.text.len();
        file.close_gap(end, 0, b"")?;
        let FileText { changes, .. } = file;
        Ok(changes)
    }
}

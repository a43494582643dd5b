// Changes of a text, in order.
ghost use Rattle.std.specs.Prelude.{◌≡◌, ◌==◌, ◌+◌, ◌-◌, ◌≤◌, ◌++◌, [], None, Some, IfOk, OnErr, OnOk, count_by, drop, if◌then◌else◌, length, map, take};
ghost use Rattle.fit_changes.specs.Changes.{AreInOrder, change_seen, changed, fits, fits_behind, is_feed, with_change};

use crate::Rule;
use sg_text::NoMemory;
use std::alloc::Global;
use std::marker::Model;

/// A change of a text: from a byte on so many bytes give way to others. It tells by which rule, in which part (the name
/// of a module or primitive, empty outside), and what it is in words.
#[derive(Drop)]
pub struct Change {
    pub byte: usize,
    pub size: usize,
    pub text: Vec<u8>,
    pub rule: Rule,
    pub part: Vec<u8>,
    pub what: Vec<u8>,
}

/// A text, and changes of it in order: none begins before the end of the one before it, all lie in the text, and each
/// has as many line feeds as what it replaces.
#[derive(Drop)]
pub struct Changes<'a> {
    text: &'a [u8],
    changes: Vec<Change>,
    end: usize,
}

impl<'a> Model for Changes<'a> {
    ghost use Rattle.std.specs.Prelude.{◌≡◌, map};
    ghost use Rattle.fit_changes.specs.Changes.{AreInOrder, ChangedText, change_seen, end_of};

    ghost Value = { ChangedText };

    ghost view = { λ t. record { text = t.text.now; changes = map change_seen t.changes.items } };

    ghost invariant = { λ t. AreInOrder 0 t.text.now (map change_seen t.changes.items) × (t.end ≡ end_of 0 (map change_seen t.changes.items)) };
}

const LINE_FEED: u8 = b'\n';

/// How many line feeds a text has.
pub(crate) fn feeds(text: &[u8]) -> usize
    ensures { result ≡ count_by is_feed text.now }
{
    text.iter().filter(|b| **b == LINE_FEED).count()
}

// Where a change ends, if it is in order behind a byte.
fn end_behind(end: usize, text: &[u8], change: &Change) -> Option<usize>
    ensures { result ≡ (if fits_behind end text.now (change_seen change.now) then Some (change.now.byte + change.now.size) else None) }
{
    let length = text.len();
    if change.byte < end || length < change.byte || length - change.byte < change.size {
        return None;
    }
    if feeds(&change.text) != feeds(&text[change.byte..][..change.size]) {
        return None;
    }
    Some(change.byte + change.size)
}

// Adds what stands between a byte and a change, and what the change puts in its place.
fn push_change(
    made: &mut Vec<u8>,
    text: &[u8],
    from: usize,
    change: &Change,
) -> Result<(), NoMemory>
    requires { (from ≤ change.now.byte) × (change.now.byte + change.now.size ≤ length text.now) }
    ensures { OnOk result (made.new.items ≡ made.old.items ++ (take (change.now.byte - from) (drop from text.now) ++ change.now.text.items)) }
{
    made.extend_from_slice(&text[from..change.byte])?;
    made.extend_from_slice(&change.text)?;
    Ok(())
}

// A text with changes.
fn changed_text(alloc: Global, text: &[u8], changes: &[Change]) -> Result<Vec<u8>, NoMemory>
    requires { AreInOrder 0 text.now (map change_seen changes.now) }
    ensures { IfOk result (λ made. made.items ≡ changed text.now (map change_seen changes.now)) }
{
    let mut made = Vec::new(alloc);
    let mut from = 0;
    for change in changes {
        push_change(&mut made, text, from, change)?;
        from = change.byte + change.size;
    }
    made.extend_from_slice(&text[from..])?;
    Ok(made)
}

impl<'a> Changes<'a> {
    /// A text without changes. Takes no memory.
    pub fn new(alloc: Global, text: &'a [u8]) -> Changes<'a>
        ensures text { result.text ≡ text.now }
        ensures none { result.changes ≡ [] }
    {
        Changes {
            text,
            changes: Vec::new(alloc),
            end: 0,
        }
    }

    /// The text as it is without them.
    pub fn text(&self) -> &'a [u8]
        ensures text { result.now ≡ self.now.text }
        ensures order { AreInOrder 0 self.now.text self.now.changes }
    {
        self.text
    }

    /// The changes, in order.
    pub fn changes(&self) -> &[Change]
        ensures changes { map change_seen result.now ≡ self.now.changes }
        ensures order { AreInOrder 0 self.now.text self.now.changes }
    {
        &self.changes
    }

    pub fn len(&self) -> usize
        ensures { result ≡ length self.now.changes }
    {
        self.changes.len()
    }

    pub fn is_empty(&self) -> bool
        ensures { result ≡ (length self.now.changes == 0) }
    {
        self.changes.len() == 0
    }

    /// Adds a change behind those that are there, if it is in order behind them, and answers whether it is.
    pub fn add(&mut self, change: Change) -> Result<bool, NoMemory>
        ensures added { IfOk result (λ added. self.new ≡ (if added then with_change self.old (change_seen change) else self.old)) }
        ensures fits { IfOk result (λ added. added ≡ fits self.old (change_seen change)) }
        ensures err { OnErr result (self.new ≡ self.old) }
        ensures text { self.new.text ≡ self.old.text }
    {
        let Some(end) = end_behind(self.end, self.text, &change) else {
            return Ok(false);
        };
        self.changes.push(change)?;
        self.end = end;
        Ok(true)
    }

    /// The text with them. Takes memory.
    pub fn changed(&self, alloc: Global) -> Result<Vec<u8>, NoMemory>
        ensures { IfOk result (λ made. made.items ≡ changed self.now.text self.now.changes) }
    {
        changed_text(alloc, self.text, &self.changes)
    }
}

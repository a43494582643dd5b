// What is told of an entry.
use fit_changes::Rule;
use sg_text::NoMemory;
use std::alloc::Global;

/// A rule by which an entry is changed, and how.
#[derive(Drop)]
pub struct Note {
    pub rule: Rule,
    pub what: Vec<u8>,
}

/// Adds a note, if it isn't there. Its text is that of the pieces.
pub fn add_note(
    alloc: Global,
    notes: &mut Vec<Note>,
    rule: Rule,
    pieces: &[&[u8]],
) -> Result<(), NoMemory> {
    let mut what = Vec::new(alloc);
    for piece in pieces {
        what.extend_from_slice(piece)?;
    }
    if notes.iter().any(|one| one.rule == rule && one.what == what) {
        return Ok(());
    }
    notes.push(Note { rule, what })?;
    Ok(())
}

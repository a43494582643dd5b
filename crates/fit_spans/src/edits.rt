// A change that is asked for.
ghost use Rattle.std.specs.Prelude.{◌≡◌, map};

use crate::spans::Span;
use fit_changes::{Change, Changes, Rule};
use sg_text::NoMemory;
use std::alloc::Global;

/// A change of one of the files.
#[derive(Drop)]
pub struct Edit {
    pub file: u32,
    pub change: Change,
}

/// Puts a text in the place of a span. Takes memory.
pub fn edit_of(
    alloc: Global,
    span: Span,
    text: &[u8],
    rule: Rule,
    part: &[u8],
    what: Vec<u8>,
) -> Result<Edit, NoMemory> {
    let text = Vec::from_slice(alloc, text)?;
    let part = Vec::from_slice(alloc, part)?;
    Ok(Edit {
        file: span.file,
        change: Change {
            byte: span.byte,
            size: span.end.saturating_sub(span.byte),
            text,
            rule,
            part,
            what,
        },
    })
}

/// A text of three. Takes memory.
pub fn joined_text(
    alloc: Global,
    first: &[u8],
    second: &[u8],
    third: &[u8],
) -> Result<Vec<u8>, NoMemory> {
    let mut text = Vec::from_slice(alloc, first)?;
    text.extend_from_slice(second)?;
    text.extend_from_slice(third)?;
    Ok(text)
}

// Adds a change to those of its file. Answers whether it was in order there.
fn add_edit(files: &mut [Changes<'_>], edit: Edit) -> Result<bool, NoMemory>
    ensures { map (λ f. f.text) files.new ≡ map (λ f. f.text) files.old }
{
    let Edit { file, change } = edit;
    let at = file as usize;
    if at >= files.len() {
        return Ok(false);
    }
    files[at].add(change)
}

/// Adds changes to those of their files, but for those that aren't in order there.
pub fn add_edits(files: &mut [Changes<'_>], edits: Vec<Edit>) -> Result<(), NoMemory>
    ensures { map (λ f. f.text) files.new ≡ map (λ f. f.text) files.old }
{
    let mut edits = edits;
    edits.reverse();
    while let Some(edit) = edits.pop() {
        add_edit(files, edit)?;
    }
    Ok(())
}

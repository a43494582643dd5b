// Changes of checks with conditions of their time stamp and their time check, which have to keep their violations.
use fit_changes::{Changes, Rule};
use fit_checks::is_exact;
use fit_items::{Edit, Span, text_of};
use sg_text::NoMemory;
use std::alloc::Global;

fn replaced<'a>(files: &[Changes<'a>], edit: &Edit) -> Option<&'a [u8]> {
    let span = Span {
        file: edit.file,
        byte: edit.change.byte,
        end: edit.change.byte.saturating_add(edit.change.size),
    };
    text_of(files, span)
}

fn is_kept(alloc: Global, edit: &Edit, files: &[Changes<'_>]) -> Result<bool, NoMemory> {
    match edit.change.rule {
        Rule::StampCondition | Rule::SplitCheck => match replaced(files, edit) {
            Some(old) => is_exact(alloc, old, &edit.change.text),
            None => Ok(false),
        },
        _ => Ok(true),
    }
}

/// Changes without those of checks that wouldn't have the same violations: of statements with macros, or ones that aren't
/// taken so. Takes memory.
pub fn exact_of(
    alloc: Global,
    edits: Vec<Edit>,
    files: &[Changes<'_>],
) -> Result<Vec<Edit>, NoMemory> {
    let mut edits = edits;
    edits.reverse();
    let mut kept = Vec::new(alloc);
    while let Some(edit) = edits.pop() {
        if is_kept(alloc, &edit, files)? {
            kept.push(edit)?;
        }
    }
    Ok(kept)
}

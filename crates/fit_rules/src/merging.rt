// Changes in the order of files and bytes; of two that overlap, the one that was asked for first.
use fit_items::Edit;
use sg_text::NoMemory;
use std::alloc::Global;

// A change, and how many were asked for before it.
#[derive(Drop)]
struct Ranked {
    rank: usize,
    edit: Edit,
}

fn sorted(alloc: Global, edits: Vec<Edit>) -> Result<Vec<Ranked>, NoMemory> {
    let mut edits = edits;
    let mut list = Vec::new(alloc);
    while let Some(edit) = edits.pop() {
        list.push(Ranked {
            rank: edits.len(),
            edit,
        })?;
    }
    list.reverse();
    list.sort_by_key(|ranked| {
        let change = &ranked.edit.change;
        (ranked.edit.file, change.byte, change.size > 0)
    })?;
    Ok(list)
}

fn overlaps(one: &Edit, other: &Edit) -> bool {
    one.file == other.file && other.change.byte < one.change.byte.saturating_add(one.change.size)
}

// Of two that overlap the one that was asked for first; else both, the later one as the second.
fn kept(one: Ranked, other: Ranked) -> (Option<Ranked>, Ranked) {
    if !overlaps(&one.edit, &other.edit) {
        (Some(one), other)
    } else if other.rank < one.rank {
        (None, other)
    } else {
        (None, one)
    }
}

// Those that overlap none that was asked for before, in order.
fn without_overlaps(alloc: Global, sorted: Vec<Ranked>) -> Result<Vec<Edit>, NoMemory> {
    let mut sorted = sorted;
    sorted.reverse();
    let mut list = Vec::new(alloc);
    let Some(mut last) = sorted.pop() else {
        return Ok(list);
    };
    while let Some(next) = sorted.pop() {
        let (before, behind) = kept(last, next);
        if let Some(before) = before {
            list.push(before.edit)?;
        }
        last = behind;
    }
    list.push(last.edit)?;
    Ok(list)
}

/// Changes in the order of files and bytes, but for those that overlap one that was asked for before. Takes memory.
pub fn in_order(alloc: Global, edits: Vec<Edit>) -> Result<Vec<Edit>, NoMemory> {
    without_overlaps(alloc, sorted(alloc, edits)?)
}

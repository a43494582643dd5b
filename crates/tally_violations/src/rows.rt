// A text cut into rows, and rows into words.
ghost use Rattle.std.specs.Prelude.{◌≡◌, IfOk, filter, length, map, nat_lt};
ghost use Rattle.std.specs.List.{slice_split};
ghost use Rattle.tally_violations.specs.Seen.{AddsRow};
ghost use Rattle.tally_violations.specs.Rows.{is_blank, rows, word_at, words};

use std::alloc::{AllocError, AllocFailed, Global};
use thiserror::Error;

/// What a row says: nothing of what is asked for, one of it, or it has no form.
#[derive(Debug, Drop)]
pub enum Row<X> {
    Passed,
    Told(X),
    Faulty,
}

/// Why a text isn't read: its first line that has no form, or want of memory.
#[derive(Clone, Copy, Debug, PartialEq, Eq, Error)]
pub enum Unread {
    #[error("line {0}")]
    Line(u64),
    #[error("no memory")]
    NoMemory,
}

impl From<AllocError> for Unread {
    ghost use Rattle.std.specs.Prelude.{◌≡◌};
    ghost use Rattle.tally_violations.specs.declared.rows.Unread.TheVariants as unread;

    ghost from_gives = { λ _ e. e ≡ unread.NoMemory };

    fn from(_: AllocError) -> Self {
        Unread::NoMemory
    }
}

impl<T: Drop> From<AllocFailed<T>> for Unread {
    ghost use Rattle.std.specs.Prelude.{◌≡◌};
    ghost use Rattle.tally_violations.specs.declared.rows.Unread.TheVariants as unread;

    ghost from_gives = { λ _ e. e ≡ unread.NoMemory };

    fn from(_: AllocFailed<T>) -> Self {
        Unread::NoMemory
    }
}

/// Adds what the row of a line tells, or stops at a row that has no form.
pub fn add_row<X: Drop>(items: &mut Vec<X>, row: Row<X>, line: u64) -> Result<(), Unread>
    ensures { AddsRow row line items.old.items items.new.items result }
{
    match row {
        Row::Passed => Ok(()),
        Row::Told(item) => {
            items.push(item)?;
            Ok(())
        }
        Row::Faulty => Err(Unread::Line(line)),
    }
}

/// What stands between line feeds.
pub fn rows_of(alloc: Global, text: &[u8]) -> Result<Vec<&[u8]>, AllocError>
    ensures { IfOk result (λ made. map (λ r. r.now) made.items ≡ rows text.now) }
{
    text.split(|b| *b == b'\n').collect(alloc)
}

fn is_blank(byte: u8) -> bool
    ensures { result ≡ is_blank byte }
{
    byte == b' ' || byte == b'\t' || byte == b'\r'
}

fn parts_of(alloc: Global, row: &[u8]) -> Result<Vec<&[u8]>, AllocError>
    ensures { IfOk result (λ parts. map (λ w. w.now) parts.items ≡ slice_split is_blank row.now) }
{
    row.split(|b| is_blank(*b)).collect(alloc)
}

fn drop_empty(parts: &mut Vec<&[u8]>)
    ensures { parts.new.items ≡ filter (λ w. nat_lt 0 (length w.now)) parts.old.items }
{
    parts.retain(|part| part.len() > 0);
}

/// The words of a row.
pub fn words_of(alloc: Global, row: &[u8]) -> Result<Vec<&[u8]>, AllocError>
    ensures { IfOk result (λ made. map (λ w. w.now) made.items ≡ words row.now) }
{
    let mut parts = parts_of(alloc, row)?;
    drop_empty(&mut parts);
    Ok(parts)
}

/// A word by its number, empty past the last.
pub fn word_at<'a>(words: &[&'a [u8]], at: usize) -> &'a [u8]
    ensures { result.now ≡ word_at (map (λ w. w.now) words.now) at }
{
    match words.get(at) {
        Some(word) => *word,
        None => &[],
    }
}

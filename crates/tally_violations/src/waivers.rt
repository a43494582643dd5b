// The waivers of a file, and what they leave.
ghost use Rattle.std.specs.Prelude.{◌≡◌, ◌≤◌, IfOk, length, map, not, option_map};
ghost use Rattle.std.specs.List.{list_any, prefix_len};
ghost use Rattle.tally_violations.specs.Left as left;
ghost use Rattle.tally_violations.specs.Rows.{told_from};
ghost use Rattle.tally_violations.specs.Seen.{row_seen, waiver_seen, ReadsAs};
ghost use Rattle.tally_violations.specs.Waivers as def;

use crate::numbers::number_of;
use crate::rows::{Row, Unread, add_row, rows_of, word_at, words_of};
use crate::violations::Violation;
use sg_text::NoMemory;
use std::alloc::Global;

/// What a waiver takes away: a part that is None takes all, `from` is inside and `to` isn't.
#[derive(Clone, Copy, Debug)]
pub struct Waiver<'a> {
    pub line: u64,
    pub instance: Option<&'a [u8]>,
    pub check: Option<&'a [u8]>,
    pub from: Option<u64>,
    pub to: Option<u64>,
}

fn is_star(word: &[u8]) -> bool
    ensures { result ≡ def.is_star word.now }
{
    word == b"*".as_slice()
}

fn name_of(word: &[u8]) -> Option<&[u8]>
    ensures { option_map (λ n. n.now) result ≡ def.name_of word.now }
{
    if is_star(word) { None } else { Some(word) }
}

fn bound_of(word: &[u8]) -> Option<Option<u64>>
    ensures { result ≡ def.bound_of word.now }
{
    if is_star(word) {
        return Some(None);
    }
    Some(Some(number_of(word)?))
}

fn waiver_of<'a>(line: u64, words: &[&'a [u8]]) -> Option<Waiver<'a>>
    ensures { option_map (λ w. waiver_seen w) result ≡ def.waiver_of line (map (λ w. w.now) words.now) }
{
    let from = bound_of(word_at(words, 2))?;
    let to = bound_of(word_at(words, 3))?;
    Some(Waiver {
        line,
        instance: name_of(word_at(words, 0)),
        check: name_of(word_at(words, 1)),
        from,
        to,
    })
}

fn begins_comment(word: &[u8]) -> bool
    ensures { result ≡ def.begins_comment word.now }
{
    match word {
        [first, ..] => *first == b'#',
        [] => false,
    }
}

// How many words stand before a comment.
fn plain_len(words: &[&[u8]]) -> usize
    ensures size { result ≡ prefix_len (λ w. not (def.begins_comment w.now)) words.now }
    ensures within { result ≤ length words.now }
{
    words.iter().take_while(|w| !begins_comment(w)).count()
}

fn plain_row<'a>(line: u64, words: &[&'a [u8]]) -> Row<Waiver<'a>>
    ensures { row_seen (λ w. waiver_seen w) result ≡ def.plain_row line (map (λ w. w.now) words.now) }
{
    if words.len() == 0 {
        return Row::Passed;
    }
    if words.len() != 4 {
        return Row::Faulty;
    }
    match waiver_of(line, words) {
        Some(waiver) => Row::Told(waiver),
        None => Row::Faulty,
    }
}

fn row_of<'a>(line: u64, words: &[&'a [u8]]) -> Row<Waiver<'a>>
    ensures { row_seen (λ w. waiver_seen w) result ≡ def.waiver_row line (map (λ w. w.now) words.now) }
{
    plain_row(line, &words[..plain_len(words)])
}

// What rows tell, the first of which is the first line.
fn waivers_of<'a>(alloc: Global, rows: &[&'a [u8]]) -> Result<Vec<Waiver<'a>>, Unread>
    ensures { ReadsAs (λ x. waiver_seen x) (told_from def.waiver_row 1 (map (λ r. r.now) rows.now)) result }
{
    let mut waivers = Vec::new(alloc);
    for (index, row) in rows.iter().enumerate() {
        let words = words_of(alloc, row)?;
        let line = index as u64 + 1;
        add_row(&mut waivers, row_of(line, &words), line)?;
    }
    Ok(waivers)
}

/// The waivers of a file, or the number of the first line that has no form.
pub fn read_waivers(alloc: Global, text: &[u8]) -> Result<Vec<Waiver<'_>>, Unread>
    ensures { ReadsAs (λ w. waiver_seen w) (def.waivers text.now) result }
{
    let rows = rows_of(alloc, text)?;
    waivers_of(alloc, &rows)
}

fn is_named(name: Option<&[u8]>, word: &[u8]) -> bool
    ensures { result ≡ left.is_named name.entry word.now }
{
    match name {
        Some(name) => name == word,
        None => true,
    }
}

fn is_from(from: Option<u64>, time: u64) -> bool
    ensures { result ≡ left.is_from from time }
{
    match from {
        Some(from) => from <= time,
        None => true,
    }
}

fn is_to(to: Option<u64>, time: u64) -> bool
    ensures { result ≡ left.is_to to time }
{
    match to {
        Some(to) => time < to,
        None => true,
    }
}

fn waives(waiver: &Waiver<'_>, violation: &Violation<'_>) -> bool
    ensures { result ≡ left.waives waiver.now violation.now }
{
    is_named(waiver.instance, violation.instance)
        && is_named(waiver.check, violation.check)
        && is_from(waiver.from, violation.time)
        && is_to(waiver.to, violation.time)
}

fn is_waived(waivers: &[Waiver<'_>], violation: &Violation<'_>) -> bool
    ensures { result ≡ list_any (λ w. left.waives w violation.now) waivers.now }
{
    waivers.iter().any(|waiver| waives(waiver, violation))
}

/// Whether a waiver takes one of some violations.
pub fn is_used(violations: &[Violation<'_>], waiver: &Waiver<'_>) -> bool
    ensures { result ≡ list_any (λ v. left.waives waiver.now v) violations.now }
{
    violations.iter().any(|violation| waives(waiver, violation))
}

/// The violations that no waiver takes, in their order.
pub fn left_by<'a>(
    alloc: Global,
    waivers: &[Waiver<'_>],
    violations: &[Violation<'a>],
) -> Result<Vec<Violation<'a>>, NoMemory>
    ensures { IfOk result (λ kept. kept.items ≡ left.left_by waivers.now violations.now) }
{
    let mut kept = Vec::new(alloc);
    for violation in violations {
        if !is_waived(waivers, violation) {
            kept.push(*violation)?;
        }
    }
    Ok(kept)
}

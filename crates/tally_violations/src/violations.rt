// The violations of a report.
ghost use Rattle.std.specs.Prelude.{◌≡◌, ◌<◌, ◌^◌, ◌&&◌, IfOk, IfSome, length, map, nat_eq, option_map};
ghost use Rattle.std.specs.Int.RustNames.{unsigned_abs};
ghost use Rattle.tally_violations.specs.Rows.{told_from};
ghost use Rattle.tally_violations.specs.Seen.{row_seen, violation_seen, ReadsAs};
ghost use Rattle.tally_violations.specs.Violations as def;

use crate::numbers::{number_of, signed_of};
use crate::rows::{Row, Unread, add_row, rows_of, word_at, words_of};
use std::alloc::Global;

/// A violation that a report tells.
#[derive(Clone, Copy, Debug)]
pub struct Violation<'a> {
    pub instance: &'a [u8],
    /// The word of the check.
    pub check: &'a [u8],
    /// The later of its two times, in ticks.
    pub time: u64,
    /// By how many ticks the limit was missed.
    pub short: i64,
}

fn is_word(text: &[u8], word: &str) -> bool
    ensures { result ≡ def.is_text word.now text.now }
{
    text == word.as_bytes()
}

fn is_limit_before(check: &[u8]) -> bool
    ensures { result ≡ def.is_limit_before check.now }
{
    is_word(check, "setup") || is_word(check, "removal")
}

fn is_limit_behind(check: &[u8]) -> bool
    ensures { result ≡ def.is_limit_behind check.now }
{
    is_word(check, "hold")
        || is_word(check, "recovery")
        || is_word(check, "width")
        || is_word(check, "period")
}

// By how much the limit of a check was missed.
fn short_of(check: &[u8], reference: u64, datum: u64, limit: i64) -> Option<i64>
    requires reference { reference < 2 ^ 60 }
    requires datum { datum < 2 ^ 60 }
    requires limit { unsigned_abs limit < 2 ^ 60 }
    ensures { result ≡ def.short_of check.now reference datum limit }
{
    let behind = datum as i64 - reference as i64;
    if is_limit_before(check) {
        return Some(limit + behind);
    }
    if is_limit_behind(check) {
        return Some(limit - behind);
    }
    if is_word(check, "skew") {
        return Some(behind - limit);
    }
    None
}

fn violation_of<'a>(words: &[&'a [u8]]) -> Option<Violation<'a>>
    ensures { option_map (λ v. violation_seen v) result ≡ def.violation_of (map (λ w. w.now) words.now) }
{
    let time = number_of(word_at(words, 1))?;
    let reference = number_of(word_at(words, 5))?;
    let datum = number_of(word_at(words, 7))?;
    let limit = signed_of(word_at(words, 9))?;
    let check = word_at(words, 3);
    let short = short_of(check, reference, datum, limit)?;
    Some(Violation {
        instance: word_at(words, 2),
        check,
        time,
        short,
    })
}

fn is_form(words: &[&[u8]]) -> bool
    ensures { result ≡ def.is_form (map (λ w. w.now) words.now) }
{
    words.len() == 10 && is_word(word_at(words, 8), "limit")
}

fn row_of<'a>(words: &[&'a [u8]]) -> Row<Violation<'a>>
    ensures { row_seen (λ v. violation_seen v) result ≡ def.violation_row 0 (map (λ w. w.now) words.now) }
{
    if !is_word(word_at(words, 0), "violation") {
        return Row::Passed;
    }
    if !is_form(words) {
        return Row::Faulty;
    }
    match violation_of(words) {
        Some(violation) => Row::Told(violation),
        None => Row::Faulty,
    }
}

// What rows tell, the first of which is the first line.
fn violations_of<'a>(alloc: Global, rows: &[&'a [u8]]) -> Result<Vec<Violation<'a>>, Unread>
    ensures { ReadsAs (λ x. violation_seen x) (told_from def.violation_row 1 (map (λ r. r.now) rows.now)) result }
{
    let mut violations = Vec::new(alloc);
    for (index, row) in rows.iter().enumerate() {
        let words = words_of(alloc, row)?;
        let line = index as u64 + 1;
        add_row(&mut violations, row_of(&words), line)?;
    }
    Ok(violations)
}

/// The violations that a report tells, or the number of the first line that has no form (docs/VIOLATIONS.md).
pub fn read_report(alloc: Global, text: &[u8]) -> Result<Vec<Violation<'_>>, Unread>
    ensures { ReadsAs (λ v. violation_seen v) (def.violations text.now) result }
{
    let rows = rows_of(alloc, text)?;
    violations_of(alloc, &rows)
}

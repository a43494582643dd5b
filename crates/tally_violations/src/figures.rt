// The text of the figures.
ghost use Rattle.std.specs.Prelude.{◌≡◌, ◌≤◌, ◌++◌, ◌∷◌, OnOk, decimal, flat_map, length};
ghost use Rattle.std.specs.Fmt.{signed_decimal};
ghost use Rattle.tally_violations.specs.Figures.{count_line, counts_text, figures_text, group_line, key_text, unused_line, values_text, word_text};
ghost use Rattle.tally_violations.specs.Groups.{groups};
ghost use Rattle.tally_violations.specs.Left.{unused};

use crate::groups::{same_len, worst};
use crate::violations::Violation;
use crate::waivers::{Waiver, is_used};
use itoa::Buffer;
use sg_text::NoMemory;

fn push_word(text: &mut Vec<u8>, word: &[u8]) -> Result<(), NoMemory>
    ensures { OnOk result (text.new.items ≡ text.old.items ++ word_text word.now) }
{
    text.push(b' ')?;
    text.extend_from_slice(word)?;
    Ok(())
}

fn push_number(text: &mut Vec<u8>, number: u64) -> Result<(), NoMemory>
    ensures { OnOk result (text.new.items ≡ text.old.items ++ word_text (decimal number)) }
{
    let mut buffer = Buffer::new();
    push_word(text, buffer.format(number).as_bytes())
}

fn push_signed(text: &mut Vec<u8>, number: i64) -> Result<(), NoMemory>
    ensures { OnOk result (text.new.items ≡ text.old.items ++ word_text (signed_decimal number)) }
{
    let mut buffer = Buffer::new();
    push_word(text, buffer.format(number).as_bytes())
}

fn push_key(text: &mut Vec<u8>, violation: &Violation<'_>) -> Result<(), NoMemory>
    ensures { OnOk result (text.new.items ≡ text.old.items ++ key_text violation.now) }
{
    text.extend_from_slice(violation.instance)?;
    push_word(text, violation.check)
}

fn push_values(text: &mut Vec<u8>, count: u64, first: u64, short: i64) -> Result<(), NoMemory>
    ensures { OnOk result (text.new.items ≡ text.old.items ++ values_text count first short) }
{
    push_word(text, b"count")?;
    push_number(text, count)?;
    push_word(text, b"first")?;
    push_number(text, first)?;
    push_word(text, b"short")?;
    push_signed(text, short)
}

// The line of a group: its first violation and the others.
fn push_group(
    text: &mut Vec<u8>,
    first: &Violation<'_>,
    others: &[Violation<'_>],
) -> Result<(), NoMemory>
    ensures { OnOk result (text.new.items ≡ text.old.items ++ group_line (first.now ∷ others.now)) }
{
    push_key(text, first)?;
    let count = others.len() as u64 + 1;
    push_values(text, count, first.time, worst(first, others))?;
    text.push(b'\n')?;
    Ok(())
}

fn push_groups(text: &mut Vec<u8>, ordered: &[Violation<'_>]) -> Result<(), NoMemory>
    ensures { OnOk result (text.new.items ≡ text.old.items ++ flat_map group_line (groups ordered.now)) }
{
    let mut at = 0;
    while let Some((first, rest)) = ordered[at..].split_first() {
        let size = same_len(first, rest);
        push_group(text, first, &rest[..size])?;
        at += 1 + size;
    }
    Ok(())
}

fn push_waiver(text: &mut Vec<u8>, name: &str, waiver: &Waiver<'_>) -> Result<(), NoMemory>
    ensures { OnOk result (text.new.items ≡ text.old.items ++ unused_line name.now waiver.now) }
{
    let mut buffer = Buffer::new();
    text.extend_from_slice(b"unused ")?;
    text.extend_from_slice(name.as_bytes())?;
    text.push(b':')?;
    text.extend_from_slice(buffer.format(waiver.line).as_bytes())?;
    text.push(b'\n')?;
    Ok(())
}

fn push_unused(
    text: &mut Vec<u8>,
    name: &str,
    violations: &[Violation<'_>],
    waivers: &[Waiver<'_>],
) -> Result<(), NoMemory>
    ensures { OnOk result (text.new.items ≡ text.old.items ++ flat_map (unused_line name.now) (unused violations.now waivers.now)) }
{
    for waiver in waivers {
        if !is_used(violations, waiver) {
            push_waiver(text, name, waiver)?;
        }
    }
    Ok(())
}

fn push_count(text: &mut Vec<u8>, word: &str, count: usize) -> Result<(), NoMemory>
    ensures { OnOk result (text.new.items ≡ text.old.items ++ count_line word.now count) }
{
    text.extend_from_slice(word.as_bytes())?;
    push_number(text, count as u64)?;
    text.push(b'\n')?;
    Ok(())
}

fn push_counts(text: &mut Vec<u8>, left: usize, waived: usize) -> Result<(), NoMemory>
    ensures { OnOk result (text.new.items ≡ text.old.items ++ counts_text left waived) }
{
    push_count(text, "violations", left)?;
    push_count(text, "waived", waived)
}

/// Adds the figures: a line for each group of the violations that are left, which stand in order, a line for each waiver that takes
/// none of all violations, and how many are left and how many were taken.
pub fn push_figures(
    text: &mut Vec<u8>,
    name: &str,
    all: &[Violation<'_>],
    waivers: &[Waiver<'_>],
    ordered: &[Violation<'_>],
) -> Result<(), NoMemory>
    ensures { OnOk result (text.new.items ≡ text.old.items ++ figures_text name.now all.now waivers.now ordered.now) }
{
    push_groups(text, ordered)?;
    push_unused(text, name, all, waivers)?;
    push_counts(text, ordered.len(), all.len().saturating_sub(ordered.len()))
}

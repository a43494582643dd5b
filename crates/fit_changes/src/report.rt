// The report of changes.
ghost use Rattle.std.specs.Prelude.{◌≡◌, ◌++◌, [], OnOk, codes, count_by, decimal, flat_map, map, slice_index_or};
ghost use Rattle.std.specs.List.{find, list_any};
ghost use Rattle.fit_changes.specs.Lines.{line_seen};
ghost use Rattle.fit_changes.specs.Report.{are_told, count_line, counts_text, first_told, is_by, kept_text, line_if, line_text, lines_text, part_text, place_text, rule_line, rule_text, tells};
ghost use Rattle.fit_changes.specs.Rules.{is_told, rules};

use crate::rules::RULES;
use crate::{Line, Rule};
use itoa::Buffer;
use sg_text::NoMemory;

fn push_number(text: &mut Vec<u8>, number: u64) -> Result<(), NoMemory>
    ensures { OnOk result (text.new.items ≡ text.old.items ++ decimal number) }
{
    let mut buffer = Buffer::new();
    text.extend_from_slice(buffer.format(number).as_bytes())?;
    Ok(())
}

fn name_of<'a>(names: &[&'a str], file: usize) -> &'a str
    ensures { result.now ≡ slice_index_or (map (λ n. n.now) names.now) file [] }
{
    match names.get(file) {
        Some(name) => name,
        None => "",
    }
}

fn push_place(text: &mut Vec<u8>, file: &str, line: u64) -> Result<(), NoMemory>
    ensures { OnOk result (text.new.items ≡ text.old.items ++ place_text file.now line) }
{
    text.extend_from_slice(file.as_bytes())?;
    text.push(b':')?;
    push_number(text, line)?;
    text.extend_from_slice(b": ")?;
    Ok(())
}

fn push_part(text: &mut Vec<u8>, part: &[u8]) -> Result<(), NoMemory>
    ensures { OnOk result (text.new.items ≡ text.old.items ++ part_text part.now) }
{
    match part {
        [] => text.push(b'-')?,
        _ => text.extend_from_slice(part)?,
    }
    Ok(())
}

fn kept_word(told: bool) -> &'static str
    ensures { result.now ≡ kept_text told }
{
    if told { ": told " } else { ": same " }
}

fn push_rule(text: &mut Vec<u8>, rule: Rule) -> Result<(), NoMemory>
    ensures { OnOk result (text.new.items ≡ text.old.items ++ rule_text rule) }
{
    text.extend_from_slice(kept_word(rule.is_told()).as_bytes())?;
    text.extend_from_slice(rule.word().as_bytes())?;
    text.extend_from_slice(b": ")?;
    Ok(())
}

fn push_line(text: &mut Vec<u8>, names: &[&str], line: &Line) -> Result<(), NoMemory>
    ensures { OnOk result (text.new.items ≡ text.old.items ++ line_text (map (λ n. n.now) names.now) (line_seen line.now)) }
{
    push_place(text, name_of(names, line.file), line.number)?;
    push_part(text, &line.part)?;
    push_rule(text, line.rule)?;
    text.extend_from_slice(&line.what)?;
    text.push(b'\n')?;
    Ok(())
}

/// Adds lines, of files with these names.
pub fn push_lines(text: &mut Vec<u8>, names: &[&str], lines: &[Line]) -> Result<(), NoMemory>
    ensures { OnOk result (text.new.items ≡ text.old.items ++ lines_text (map (λ n. n.now) names.now) (map line_seen lines.now)) }
{
    for line in lines {
        push_line(text, names, line)?;
    }
    Ok(())
}

/// Adds the first of the lines by which values or violations may change, if there is one.
pub fn push_told(text: &mut Vec<u8>, names: &[&str], lines: &[Line]) -> Result<(), NoMemory>
    ensures { OnOk result (text.new.items ≡ text.old.items ++ first_told (map (λ n. n.now) names.now) (map line_seen lines.now)) }
{
    for line in lines {
        if line.rule.is_told() {
            return push_line(text, names, line);
        }
    }
    Ok(())
}

fn tell_any(lines: &[Line]) -> bool
    ensures { result ≡ list_any (λ l. is_told l.rule) lines.now }
{
    lines.iter().any(|line| line.rule.is_told())
}

/// Whether values or violations may change by one of the changes.
pub fn are_told(lines: &[Line]) -> bool
    ensures { result ≡ are_told (map line_seen lines.now) }
{
    tell_any(lines)
}

fn is_by(line: &Line, rule: Rule) -> bool
    ensures { result ≡ is_by rule (line_seen line.now) }
{
    line.rule.number() == rule.number()
}

fn count_of(rule: Rule, lines: &[Line]) -> usize
    ensures { result ≡ count_by (is_by rule) (map line_seen lines.now) }
{
    lines.iter().filter(|line| is_by(line, rule)).count()
}

fn push_some(text: &mut Vec<u8>, word: &str, count: usize) -> Result<(), NoMemory>
    ensures { OnOk result (text.new.items ≡ text.old.items ++ count_line word.now count) }
{
    text.extend_from_slice(word.as_bytes())?;
    text.push(b' ')?;
    push_number(text, count as u64)?;
    text.push(b'\n')?;
    Ok(())
}

fn push_count(text: &mut Vec<u8>, rule: Rule, lines: &[Line]) -> Result<(), NoMemory>
    ensures { OnOk result (text.new.items ≡ text.old.items ++ rule_line (map line_seen lines.now) rule) }
{
    let count = count_of(rule, lines);
    if count == 0 {
        return Ok(());
    }
    push_some(text, rule.word(), count)
}

fn push_each(text: &mut Vec<u8>, rules: &[Rule], lines: &[Line]) -> Result<(), NoMemory>
    ensures { OnOk result (text.new.items ≡ text.old.items ++ flat_map (rule_line (map line_seen lines.now)) rules.now) }
{
    for rule in rules {
        push_count(text, *rule, lines)?;
    }
    Ok(())
}

/// Adds how many changes there are, by each rule that occurs and in all.
pub fn push_counts(text: &mut Vec<u8>, lines: &[Line]) -> Result<(), NoMemory>
    ensures { OnOk result (text.new.items ≡ text.old.items ++ counts_text (map line_seen lines.now)) }
{
    push_each(text, &RULES, lines)?;
    push_some(text, "changes", lines.len())
}

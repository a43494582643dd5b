// What is told of a generated case.
ghost use Rattle.std.specs.Prelude.{◌≡◌, ◌++◌, IfOk, OnOk, decimal};
ghost use Rattle.wave_out.specs.Texts.{line};
ghost use Rattle.signoff_top.specs.Answer.{summary_lines};
ghost use Rattle.signoff_top.specs.Work.{case_told};

use crate::work::CaseDone;
use itoa::Buffer;
use run_report::{Spent, spent_text};
use std::alloc::{AllocError, Global};

/// Adds a word and a number, on a line of their own.
pub fn push_count(text: &mut Vec<u8>, word: &str, count: u64) -> Result<(), AllocError>
    ensures { OnOk result (text.new.items ≡ text.old.items ++ line (word.now ++ decimal count)) }
{
    let mut buffer = Buffer::new();
    text.extend_from_slice(word.as_bytes())?;
    text.extend_from_slice(buffer.format(count).as_bytes())?;
    text.push(b'\n')?;
    Ok(())
}

fn summary_text(
    alloc: Global,
    stages: u32,
    evaluations: u64,
    last: u64,
    violations: usize,
) -> Result<Vec<u8>, AllocError>
    ensures { IfOk result (λ text. text.items ≡ summary_lines stages evaluations last violations) }
{
    let mut text = Vec::new(alloc);
    push_count(&mut text, "stages ", stages as u64)?;
    push_count(&mut text, "evaluations ", evaluations)?;
    push_count(&mut text, "last ", last)?;
    push_count(&mut text, "violations ", violations as u64)?;
    Ok(text)
}

/// The summary of a case that was run, or the line of the time that was spent.
pub fn case_text(alloc: Global, done: &CaseDone<'_>) -> Result<Vec<u8>, AllocError>
    ensures { IfOk result (λ text. text.items ≡ case_told done.now) }
{
    let end = &done.end;
    match end.spent {
        Some(Spent { time, net }) => spent_text(alloc, &done.task.circuit, time, net),
        None => summary_text(
            alloc,
            done.stages,
            end.evaluations,
            end.last,
            end.violations.len(),
        ),
    }
}

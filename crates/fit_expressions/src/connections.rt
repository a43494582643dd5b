// Expressions at gates and instances.
use crate::spans::{span_before, told_text, whole_span};
use crate::work::Work;
use fit_changes::{Changes, Rule};
use fit_items::{Connection, Edit, Instance, Run, edit_of, joined_text, part_name};
use fit_terms::{Scope, Stop, is_left};
use sg_text::{Keyword, NoMemory};
use std::alloc::Global;
use vl_token::{Token, TokenKind};

/// The edits of a statement, and how many numbers of wires they take.
#[derive(Drop)]
pub struct Connected {
    pub edits: Vec<Edit>,
    pub wires: u64,
}

// How many outputs a gate has before its inputs (IEEE 1364-2005, 7.2, 7.3), None of what is no gate with inputs.
fn outputs_of(token: Option<&Token<'_>>, terminals: usize) -> Option<usize> {
    match token?.kind {
        TokenKind::Word(Keyword::Buf | Keyword::Not) => Some(terminals.saturating_sub(1)),
        TokenKind::Word(_) => Some(1),
        _ => None,
    }
}

// The edit of an expression, if it can be made of gates.
fn value_edit<'a>(
    alloc: Global,
    scope: &Scope<'_, 'a>,
    files: &[Changes<'_>],
    work: &mut Work<'a>,
    value: Run,
    one_bit: bool,
    first: u64,
) -> Result<Edit, Stop> {
    let Some(span) = whole_span(files, scope.part, value) else {
        return Err(Stop::Other);
    };
    let term = work.read(alloc, scope, value)?;
    let width = if one_bit { 1 } else { term.width()? };
    let bits = work.bits(alloc, &term, width)?;
    let mut text = Vec::new(alloc);
    work.push_bits(&mut text, first, &bits)?;
    crate::spans::push_feeds(&mut text, files, span)?;
    let told = told_text(alloc, files, scope.part, value)?;
    let what = joined_text(alloc, &told, b" as ", b"gates")?;
    let rule = work.rule(b"");
    Ok(edit_of(alloc, span, &text, rule, part_name(scope.part), what)?)
}

// The edits of an instance's connections but for the first ones.
fn add_edits<'a>(
    alloc: Global,
    scope: &Scope<'_, 'a>,
    files: &[Changes<'_>],
    work: &mut Work<'a>,
    connections: &[Connection],
    one_bit: bool,
    first: u64,
    edits: &mut Vec<Edit>,
) -> Result<(), Stop> {
    for connection in connections {
        let value = connection.value;
        if !value.is_empty() && !is_left(scope.part, value) {
            edits.push(value_edit(alloc, scope, files, work, value, one_bit, first)?)?;
        }
    }
    Ok(())
}

// The edit that puts gates before a statement.
fn front_edit(
    alloc: Global,
    scope: &Scope<'_, '_>,
    files: &[Changes<'_>],
    whole: Run,
    work: &Work<'_>,
    first: u64,
) -> Result<Edit, Stop> {
    let Some(span) = span_before(files, scope.part, whole) else {
        return Err(Stop::Other);
    };
    let mut text = Vec::new(alloc);
    work.push(&mut text, first, b"")?;
    let what = Vec::from_slice(alloc, b"gates of what stands behind them")?;
    let rule = work.rule(b"");
    Ok(edit_of(alloc, span, &text, rule, part_name(scope.part), what)?)
}

fn behind(connections: &[Connection], outputs: usize) -> &[Connection] {
    if outputs <= connections.len() {
        &connections[outputs..]
    } else {
        &connections[..0]
    }
}

// The connections of an instance that may be expressions, and whether they are one bit each.
fn inputs_of<'i>(
    part: &[Token<'_>],
    word: Option<usize>,
    instance: &'i Instance,
) -> &'i [Connection] {
    let all = instance.connections.as_slice();
    if !instance.range.is_empty() {
        return behind(all, all.len());
    }
    let Some(word) = word else {
        return all;
    };
    match outputs_of(part.get(word), all.len()) {
        Some(outputs) => behind(all, outputs),
        None => behind(all, all.len()),
    }
}

/// The edits of the expressions at the gates or instances of a statement. The word is a gate's.
pub fn edits_at<'a>(
    alloc: Global,
    scope: &Scope<'_, 'a>,
    files: &[Changes<'_>],
    whole: Run,
    word: Option<usize>,
    instances: &[Instance],
    first: u64,
) -> Result<Connected, Stop> {
    let mut work = Work::new(alloc);
    let mut inner = Vec::new(alloc);
    for instance in instances {
        let inputs = inputs_of(scope.part, word, instance);
        let one_bit = word.is_some();
        add_edits(
            alloc, scope, files, &mut work, inputs, one_bit, first, &mut inner,
        )?;
    }
    let mut edits = Vec::new(alloc);
    if work.has_gates() {
        edits.push(front_edit(alloc, scope, files, whole, &work, first)?)?;
    }
    edits.append(&mut inner)?;
    Ok(Connected {
        edits,
        wires: work.wires(),
    })
}

// The changes of the checks of a module that have conditions of their time stamp and their time check.
use crate::limits::{are_bits, has_name_below};
use crate::pieces::has_directive;
use crate::spelling::text_of_kinds;
use fit_changes::{Changes, Rule};
use fit_checks::{Form, Written, form_of, kinds_of, made, written_of};
use fit_items::{
    Edit, ItemKind, Module, Nets, Span, SpecifyKind, edit_of, nets_of, part_name, span_of_all,
    text_of, tokens_of,
};
use sg_text::NoMemory;
use std::alloc::Global;
use vl_token::Token;
use vl_tree::TwoLimitCheck;

const LINE_FEED: u8 = b'\n';

// What is written for a check, if it has a condition and can be written otherwise.
fn form_in(
    alloc: Global,
    part: &[Token<'_>],
    module: &Module,
    nets: &Nets<'_>,
    written: &Written<'_, '_>,
) -> Result<Option<Form>, NoMemory> {
    let (stamp, check) = (written.stamp(), written.check());
    if stamp.is_empty() && check.is_empty() {
        return Ok(None);
    }
    if !are_bits(nets, stamp) || !are_bits(nets, check) {
        return Ok(None);
    }
    if has_name_below(part, module, written) {
        return Ok(None);
    }
    form_of(alloc, written)
}

fn rule_of(form: Form) -> Rule {
    match form {
        Form::OnBoth => Rule::StampCondition,
        Form::Split => Rule::SplitCheck,
    }
}

// What a change is, in words.
fn words_of(
    alloc: Global,
    written: &Written<'_, '_>,
    form: Form,
) -> Result<Option<Vec<u8>>, NoMemory> {
    match (form, written.kind) {
        (Form::OnBoth, _) => {
            let kinds = kinds_of(alloc, written.stamp())?;
            let Some(mut words) = text_of_kinds(alloc, &kinds)? else {
                return Ok(None);
            };
            words.extend_from_slice(b" on both terminals")?;
            Ok(Some(words))
        }
        (Form::Split, TwoLimitCheck::SetupHold) => {
            Ok(Some(Vec::from_slice(alloc, b"$setuphold as $setup and $hold")?))
        }
        (Form::Split, TwoLimitCheck::RecRem) => {
            Ok(Some(Vec::from_slice(alloc, b"$recrem as $recovery and $removal")?))
        }
    }
}

// The text with as many line feeds as one that it replaces.
fn push_feeds(text: &mut Vec<u8>, replaced: &[u8]) -> Result<(), NoMemory> {
    for byte in replaced {
        if *byte == LINE_FEED {
            text.push(LINE_FEED)?;
        }
    }
    Ok(())
}

// The bytes of a statement, where they can give way to others.
fn replaced_span(files: &[Changes<'_>], statement: &[Token<'_>]) -> Option<Span> {
    let span = span_of_all(files, statement)?;
    if has_directive(text_of(files, span)?) {
        return None;
    }
    Some(span)
}

// The change of a check, if there is one.
fn check_edit(
    alloc: Global,
    part: &[Token<'_>],
    module: &Module,
    nets: &Nets<'_>,
    statement: &[Token<'_>],
    files: &[Changes<'_>],
) -> Result<Option<Edit>, NoMemory> {
    let Some(written) = written_of(alloc, statement)? else {
        return Ok(None);
    };
    let Some(form) = form_in(alloc, part, module, nets, &written)? else {
        return Ok(None);
    };
    let Some(span) = replaced_span(files, statement) else {
        return Ok(None);
    };
    let kinds = made(alloc, &written, form)?;
    let Some(mut text) = text_of_kinds(alloc, &kinds)? else {
        return Ok(None);
    };
    let Some(words) = words_of(alloc, &written, form)? else {
        return Ok(None);
    };
    push_feeds(&mut text, text_of(files, span).unwrap_or(b""))?;
    let edit = edit_of(alloc, span, &text, rule_of(form), part_name(part), words)?;
    Ok(Some(edit))
}

/// The changes of the checks of a module that have conditions of their time stamp and their time check (IEEE 1364-2005, 15.8.2),
/// in the order of its text. A check that can't be written otherwise stays: one whose conditions differ that names delayed
/// signals or has a limit below 0, or one with a condition that isn't taken or is of more than one bit. Takes memory.
pub fn condition_edits(
    alloc: Global,
    part: &[Token<'_>],
    module: &Module,
    files: &[Changes<'_>],
) -> Result<Vec<Edit>, NoMemory> {
    let nets = nets_of(alloc, part, module)?;
    let mut edits = Vec::new(alloc);
    for item in &module.items {
        let ItemKind::Specify(statements) = &item.kind else {
            continue;
        };
        for statement in statements {
            let SpecifyKind::Check { .. } = statement.kind else {
                continue;
            };
            let tokens = tokens_of(part, statement.whole);
            if let Some(edit) = check_edit(alloc, part, module, &nets, tokens, files)? {
                edits.push(edit)?;
            }
        }
    }
    Ok(edits)
}

// What rules ask for, as changes of files.
use crate::leaving::left_of;
use fit_items::{
    Edit, Run, Span, edit_of, joined, piece_of, push_token, span_of, span_of_all, text_of,
    tokens_of,
};
use fit_values::{Ask, View};
use sg_text::NoMemory;
use vl_token::Token;

// The place of a token, as the place before it.
fn span_before(view: &View<'_, '_, '_>, at: usize) -> Option<Span> {
    let (_, span) = piece_of(view.files, view.part.get(at)?)?;
    Some(Span {
        file: span.file,
        byte: span.byte,
        end: span.byte,
    })
}

// The bytes that an ask gives way to, if no macro gave them.
fn own_span(view: &View<'_, '_, '_>, run: Run) -> Option<Span> {
    if run.is_empty() {
        return span_before(view, run.first);
    }
    let tokens = tokens_of(view.part, run);
    if tokens
        .iter()
        .all(|token| span_of(view.files, token).is_some())
    {
        span_of_all(view.files, tokens)
    } else {
        None
    }
}

fn are_at_one_place(one: Option<&Token<'_>>, other: Option<&Token<'_>>) -> bool {
    match (one, other) {
        (Some(one), Some(other)) => {
            one.place.file == other.place.file && one.place.byte == other.place.byte
        }
        _ => false,
    }
}

// The bytes of a statement, uses of macros included, if these give nothing outside of it.
fn whole_span(view: &View<'_, '_, '_>, whole: Run) -> Option<Span> {
    let first = view.part.get(whole.first);
    let last = view.part.get(whole.end.saturating_sub(1));
    let before = view.part.get(whole.first.saturating_sub(1));
    let behind = view.part.get(whole.end);
    if are_at_one_place(before, first) || are_at_one_place(last, behind) {
        return None;
    }
    let (_, begin) = piece_of(view.files, first?)?;
    let (_, end) = piece_of(view.files, last?)?;
    joined(begin, end)
}

// The text with what is left of that which it replaces: line feeds and directives.
fn change(
    view: &View<'_, '_, '_>,
    span: Span,
    ask: Ask,
    edits: &mut Vec<Edit>,
) -> Result<(), NoMemory> {
    let mut text = ask.text;
    let old = text_of(view.files, span).unwrap_or(b"");
    text.extend_from_slice(&left_of(view.alloc, old)?)?;
    edits.push(edit_of(view.alloc, span, &text, ask.rule, view.name(), ask.what)?)?;
    Ok(())
}

// The ask whose text stands at a place.
fn ask_at(asks: &[Ask], at: usize) -> Option<&Ask> {
    let place = asks.iter().position(|ask| ask.run.first == at)?;
    asks.get(place)
}

// A statement as it is written with what is asked for.
fn spelled(view: &View<'_, '_, '_>, whole: Run, asks: &[Ask]) -> Result<Vec<u8>, NoMemory> {
    let mut text = Vec::new(view.alloc);
    let mut behind = whole.first;
    for (place, token) in tokens_of(view.part, whole).iter().enumerate() {
        let at = whole.first.saturating_add(place);
        if at < behind {
            continue;
        }
        if let Some(ask) = ask_at(asks, at) {
            text.extend_from_slice(&ask.text)?;
            behind = ask.run.end;
        }
        if at >= behind {
            push_token(&mut text, view.files, token)?;
        }
        text.push(b' ')?;
    }
    Ok(text)
}

// One change for all that is asked for in a statement.
fn whole_edit(
    view: &View<'_, '_, '_>,
    whole: Run,
    asks: Vec<Ask>,
    edits: &mut Vec<Edit>,
) -> Result<bool, NoMemory> {
    let Some(span) = whole_span(view, whole) else {
        return Ok(false);
    };
    let text = spelled(view, whole, &asks)?;
    let mut asks = asks;
    asks.reverse();
    if let Some(first) = asks.pop() {
        let ask = Ask {
            run: whole,
            text,
            rule: first.rule,
            what: first.what,
        };
        change(view, span, ask, edits)?;
    }
    Ok(true)
}

/// Adds the changes that are asked for in a statement, and answers whether they can be made. Where a macro gave what is to change,
/// the statement is spelled out as a whole, in one change. Takes memory.
pub fn statement_edits(
    view: &View<'_, '_, '_>,
    whole: Run,
    asks: Vec<Ask>,
    edits: &mut Vec<Edit>,
) -> Result<bool, NoMemory> {
    if !asks.iter().all(|ask| own_span(view, ask.run).is_some()) {
        return whole_edit(view, whole, asks, edits);
    }
    let mut asks = asks;
    asks.reverse();
    while let Some(ask) = asks.pop() {
        if let Some(span) = own_span(view, ask.run) {
            change(view, span, ask, edits)?;
        }
    }
    Ok(true)
}

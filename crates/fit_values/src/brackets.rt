// Constant expressions of ranges and selects (IEEE 1364-2005, 3.3.1, 5.2.1).
use crate::arithmetic::ask_for;
use crate::asks::{Ask, View};
use crate::values::{Value, Values, value_of};
use fit_changes::Rule;
use fit_items::{Run, closing_of, is_symbol, pieces_between, tokens_of, whole_number};
use sg_text::NoMemory;
use vl_token::Symbol;

// The value, if it is one whole number.
fn whole_value(value: Option<Value>) -> Option<Value> {
    let value = value?;
    value.single()?.whole()?;
    Some(value)
}

fn piece_ask(
    view: &View<'_, '_, '_>,
    run: Run,
    values: &Values<'_>,
    asks: &mut Vec<Ask>,
) -> Result<(), NoMemory> {
    if whole_number(view.part, run).is_some() {
        return Ok(());
    }
    match whole_value(value_of(view.alloc, view.part, run, values)?) {
        Some(value) => ask_for(view, run, &value, Rule::Arithmetic, asks),
        None => Ok(()),
    }
}

fn pieces_asks(
    view: &View<'_, '_, '_>,
    inner: Run,
    values: &Values<'_>,
    asks: &mut Vec<Ask>,
) -> Result<(), NoMemory> {
    for piece in pieces_between(view.alloc, view.part, inner, Symbol::Colon)? {
        piece_ask(view, piece, values, asks)?;
    }
    Ok(())
}

fn inner_of(view: &View<'_, '_, '_>, open: usize, end: usize) -> Option<Run> {
    let close = closing_of(view.part, open, end)?;
    Some(Run {
        first: open.saturating_add(1),
        end: close,
    })
}

/// Asks for numbers in the ranges and selects of a run.
pub fn bracket_asks(
    view: &View<'_, '_, '_>,
    run: Run,
    values: &Values<'_>,
    asks: &mut Vec<Ask>,
) -> Result<(), NoMemory> {
    for (place, token) in tokens_of(view.part, run).iter().enumerate() {
        if is_symbol(token, Symbol::LeftBracket) {
            let open = run.first.saturating_add(place);
            if let Some(inner) = inner_of(view, open, run.end) {
                pieces_asks(view, inner, values, asks)?;
            }
        }
    }
    Ok(())
}

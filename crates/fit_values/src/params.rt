// Parameters and specparams whose values are constant expressions (IEEE 1364-2005, 4.10).
use crate::arithmetic::{Amounts, ask_for, is_plain};
use crate::asks::{Ask, View};
use crate::limits::zero_ask;
use crate::values::Values;
use fit_changes::Rule;
use fit_items::{Declared, Run, is_keyword, is_one_of, name_at};
use sg_text::{Keyword, NoMemory};

// A specparam of pulse limits has two values.
fn is_pulse_name(name: &[u8]) -> bool {
    name.starts_with(b"PATHPULSE$")
}

fn specparam_ask(
    view: &View<'_, '_, '_>,
    declared: &Declared,
    values: &Values<'_>,
    asks: &mut Vec<Ask>,
) -> Result<(), NoMemory> {
    let Some(name) = name_at(view.part, declared.name) else {
        return Ok(());
    };
    if is_pulse_name(name) || is_plain(view, declared.value, values, Amounts::Numbers)? {
        return Ok(());
    }
    let Some(value) = values.get(name) else {
        return Ok(());
    };
    if value.is_below_zero() {
        zero_ask(view, declared.value, name, &value, asks)
    } else {
        ask_for(view, declared.value, &value, Rule::Arithmetic, asks)
    }
}

/// Asks for numbers in the place of the values of specparams; 0 for a number below 0, which as a limit or a delay is 0.
pub fn specparam_asks(
    view: &View<'_, '_, '_>,
    list: &[Declared],
    values: &Values<'_>,
    asks: &mut Vec<Ask>,
) -> Result<(), NoMemory> {
    for declared in list {
        specparam_ask(view, declared, values, asks)?;
    }
    Ok(())
}

fn is_known(view: &View<'_, '_, '_>, declared: &Declared, values: &Values<'_>) -> bool {
    match name_at(view.part, declared.name) {
        Some(name) => !is_pulse_name(name) && values.get(name).is_some(),
        None => false,
    }
}

// Adds `NAME is VALUE`.
fn push_known(
    view: &View<'_, '_, '_>,
    text: &mut Vec<u8>,
    declared: &Declared,
    values: &Values<'_>,
) -> Result<(), NoMemory> {
    if !text.is_empty() {
        text.extend_from_slice(b", ")?;
    }
    let name = name_at(view.part, declared.name).unwrap_or(b"");
    text.extend_from_slice(name)?;
    text.extend_from_slice(b" is ")?;
    match values.get(name) {
        Some(value) => value.push(text),
        None => Ok(()),
    }
}

fn begins_parameters(view: &View<'_, '_, '_>, whole: Run) -> bool {
    match view.part.get(whole.first) {
        Some(token) => {
            is_one_of(token, &["parameter", "localparam"]) || is_keyword(token, Keyword::SpecParam)
        }
        None => false,
    }
}

// A list of parameters before the ports begins with `#`.
fn is_list(view: &View<'_, '_, '_>, whole: Run) -> bool {
    whole.first == 2 && !begins_parameters(view, whole) && whole.first < view.module.head_run.first
}

/// Asks that parameters, and specparams outside of a specify block, go whose values are known: each of their uses is a number then.
pub fn parameter_asks(
    view: &View<'_, '_, '_>,
    whole: Run,
    list: &[Declared],
    values: &Values<'_>,
    asks: &mut Vec<Ask>,
) -> Result<(), NoMemory> {
    let goes = begins_parameters(view, whole) || is_list(view, whole);
    if !goes || !list.iter().all(|declared| is_known(view, declared, values)) {
        return Ok(());
    }
    let mut what = Vec::new(view.alloc);
    for declared in list {
        push_known(view, &mut what, declared, values)?;
    }
    asks.push(Ask {
        run: whole,
        text: Vec::new(view.alloc),
        rule: Rule::Arithmetic,
        what,
    })?;
    Ok(())
}

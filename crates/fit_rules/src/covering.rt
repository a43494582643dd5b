// Whether each use of a parameter is within what is replaced.
use fit_items::{ItemKind, Run, is_symbol, name_of};
use fit_values::{Values, View};
use sg_text::NoMemory;
use vl_token::{Symbol, Token};

fn mark(marks: &mut [bool], run: Run) {
    for at in run.first..run.end {
        if let Some(mark) = marks.get_mut(at) {
            *mark = true;
        }
    }
}

// Marks what declares constants, and specify blocks: the name of a parameter that is left there is refused.
fn mark_declared(view: &View<'_, '_, '_>, marks: &mut [bool]) {
    for item in &view.module.items {
        if let ItemKind::Params(_) | ItemKind::Specify(_) = &item.kind {
            mark(marks, item.whole);
        }
    }
}

// Whether a token is a use of a parameter, and not the name of a port of another module.
fn is_use(before: Option<&Token<'_>>, token: &Token<'_>, values: &Values<'_>) -> bool {
    if before.is_some_and(|before| is_symbol(before, Symbol::Point)) {
        return false;
    }
    match name_of(token) {
        Some(name) => !values.stays(name),
        None => false,
    }
}

/// Whether each use of a parameter stands in one of these runs, or where another constant is declared. Takes memory.
pub fn are_covered(
    view: &View<'_, '_, '_>,
    runs: &[Run],
    values: &Values<'_>,
) -> Result<bool, NoMemory> {
    let mut marks = vec![in view.alloc; false; view.part.len()]?;
    mark_declared(view, &mut marks);
    for run in runs {
        mark(&mut marks, *run);
    }
    let mut before = None;
    for (token, is_marked) in view.part.iter().zip(marks.iter()) {
        if !*is_marked && is_use(before, token, values) {
            return Ok(false);
        }
        before = Some(token);
    }
    Ok(true)
}

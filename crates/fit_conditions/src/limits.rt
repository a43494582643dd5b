// Limits that are names of values below 0, and names of conditions that are more than one bit.
use fit_checks::{Written, is_minus};
use fit_items::{
    Declared, ItemKind, Module, Nets, SpecifyKind, SpecifyPart, is_symbol, name_at, name_of,
    tokens_of,
};
use vl_token::{Symbol, Token};

fn is_below(part: &[Token<'_>], names: &[Declared], name: &[u8]) -> bool {
    names.iter().any(|declared| {
        name_at(part, declared.name) == Some(name)
            && tokens_of(part, declared.value)
                .iter()
                .any(|token| is_minus(token))
    })
}

fn is_below_in(part: &[Token<'_>], statements: &[SpecifyPart], name: &[u8]) -> bool {
    statements.iter().any(|statement| match &statement.kind {
        SpecifyKind::Params(names) => is_below(part, names, name),
        _ => false,
    })
}

// Whether a module gives a name a value with a minus.
fn is_name_below(part: &[Token<'_>], module: &Module, name: &[u8]) -> bool {
    module.items.iter().any(|item| match &item.kind {
        ItemKind::Params(names) => is_below(part, names, name),
        ItemKind::Specify(statements) => is_below_in(part, statements, name),
        _ => false,
    })
}

/// Whether a limit of a check has a name whose value may be below 0.
pub fn has_name_below(part: &[Token<'_>], module: &Module, written: &Written<'_, '_>) -> bool {
    [written.first, written.second].iter().any(|limit| {
        limit.iter().any(|token| match name_of(token) {
            Some(name) => is_name_below(part, module, name),
            None => false,
        })
    })
}

/// Whether each name in a condition is one bit, as far as the module declares it.
pub fn are_bits(nets: &Nets<'_>, run: &[Token<'_>]) -> bool {
    for at in 0..run.len() {
        let Some(name) = name_at(run, at) else {
            continue;
        };
        let is_selected = run
            .get(at + 1)
            .is_some_and(|token| is_symbol(token, Symbol::LeftBracket));
        if nets.declares(name) && nets.get(name) != Some(None) && !is_selected {
            return false;
        }
    }
    true
}

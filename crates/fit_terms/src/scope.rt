// The module that expressions stand in.
use fit_items::{Declared, ItemKind, Module, Nets, Run, is_one_of, name_at, tokens_of};
use vl_token::{Symbol, Token, TokenKind};

/// A module: its tokens, what they say, and its nets.
#[derive(Clone, Copy)]
pub struct Scope<'s, 'a> {
    pub part: &'s [Token<'a>],
    pub module: &'s Module,
    pub nets: &'s Nets<'a>,
}

fn is_among(part: &[Token<'_>], list: &[Declared], text: &[u8]) -> bool {
    list.iter()
        .any(|declared| name_at(part, declared.name) == Some(text))
}

/// Whether a name is that of a constant.
pub fn is_parameter(scope: &Scope<'_, '_>, text: &[u8]) -> bool {
    scope.module.items.iter().any(|item| match &item.kind {
        ItemKind::Params(list) => is_among(scope.part, list, text),
        _ => false,
    })
}

/// Whether a net or constant may have a sign, so that what it is extended by isn't 0 (IEEE 1364-2005, 5.5).
pub fn has_signs(part: &[Token<'_>]) -> bool {
    part.iter()
        .any(|token| is_one_of(token, &["signed", "integer"]))
}

fn is_mark(symbol: Symbol) -> bool {
    match symbol {
        Symbol::LeftBrace | Symbol::RightBrace | Symbol::Comma => true,
        _ => false,
    }
}

// Whether a token stands in what signoff takes, in brackets or not.
fn is_plain_token(token: &Token<'_>, in_brackets: bool) -> bool {
    match token.kind {
        TokenKind::Name(_) | TokenKind::Sized(_) => true,
        TokenKind::Symbol(Symbol::LeftBracket | Symbol::RightBracket) => true,
        TokenKind::Number { .. } | TokenKind::Symbol(Symbol::Colon | Symbol::Minus) => in_brackets,
        TokenKind::Symbol(symbol) => is_mark(symbol),
        _ => false,
    }
}

fn is_bracket(token: &Token<'_>, symbol: Symbol) -> bool {
    fit_items::is_symbol(token, symbol)
}

/// Whether a run is of the form that signoff takes: a net, a select, a constant with a width, or these in braces.
pub fn is_plain(part: &[Token<'_>], run: Run) -> bool {
    let mut in_brackets = false;
    for token in tokens_of(part, run) {
        if !is_plain_token(token, in_brackets) {
            return false;
        }
        if is_bracket(token, Symbol::LeftBracket) {
            in_brackets = true;
        } else if is_bracket(token, Symbol::RightBracket) {
            in_brackets = false;
        }
    }
    true
}

/// Whether it is a number alone, which is given a width by another rule.
pub fn is_lone_number(part: &[Token<'_>], run: Run) -> bool {
    match tokens_of(part, run) {
        [token] => match token.kind {
            TokenKind::Number { .. } | TokenKind::Unsized { .. } => true,
            _ => false,
        },
        _ => false,
    }
}

/// Whether no operator stands in a run: this module leaves it as it is.
pub fn is_left(part: &[Token<'_>], run: Run) -> bool {
    is_plain(part, run) || is_lone_number(part, run)
}

// The next tokens of a text.
ghost use Rattle.std.specs.Prelude.{◌≡◌, ◌<◌, Ok, IfSome, IsTrue, length, map, true};
ghost use Rattle.grammar.specs.Exact.{Exact};
ghost use Rattle.sdf_lex.specs.Seen.{lexeme};
ghost use Rattle.sdf_tree.specs.Kinds as kinds;
ghost use Rattle.sdf_tree.specs.Kinds.{kind_of};
ghost use Rattle.sdf_tree.specs.Rules as rules;
ghost use Rattle.sdf_windows.specs.Movable.{Says};
ghost use Rattle.sdf_stream.specs.Windows.{Begins, Grown, HasMore, IsOne, Opened, Stepped};

use crate::window::Window;
use grammar::ReadFault;
use sdf_lex::{Token, lex_piece};
use sdf_read::depth_after;
use sdf_terms::parts::{Form, Part};
use sdf_terms::tokens::{is_left, is_word, right};
use sdf_tree::{Divider, Keyword};
use std::alloc::Global;

// Puts the tokens of the next piece behind those at hand.
fn step(window: &mut Window<'_>) -> Option<()>
    requires { 0 < length window.old.rest.now }
    ensures { IfSome result (λ _. Stepped window.old window.new) }
{
    let before = window.tokens.len();
    let Ok(size) = lex_piece(&mut window.tokens, window.at, window.rest) else {
        return None;
    };
    let depth = depth_after(&window.tokens[before..], window.depth)?;
    window.at += size;
    window.rest = &window.rest[size..];
    window.depth = depth;
    Some(())
}

/// One token more at the least, or whether the text has none.
pub fn more(window: &mut Window<'_>) -> Option<bool>
    ensures { IfSome result (λ more. HasMore window.old window.new more) }
{
    let before = window.tokens.len();
    'more: while window.tokens.len() == before {
        if window.rest.is_empty() {
            return Some(false);
        }
        step(window)?;
    }
    Some(true)
}

/// The tokens up to the end of the innermost parentheses that are open.
pub fn close(window: &mut Window<'_>) -> Option<()>
    ensures { IfSome result (λ _. Grown window.old window.new) }
{
    let open = window.depth;
    'more: while window.depth >= open {
        if window.rest.is_empty() {
            return None;
        }
        step(window)?;
    }
    Some(())
}

/// Whether the tokens are an opening parenthesis and a word.
pub fn begins(tokens: &[Token<'_>], word: Keyword) -> bool
    ensures { IsTrue result → Begins word (map lexeme tokens.now) }
{
    if tokens.len() != 2 || !is_left(tokens, 0) {
        return false;
    }
    is_word(tokens, 1, word)
}

// Whether the tokens are a closing parenthesis.
fn ends(tokens: &[Token<'_>]) -> bool
    ensures { IsTrue result → Says (rules.mark kinds.is_right) (map lexeme tokens.now) tt }
{
    match right(tokens, 0) {
        Ok(next) => next == tokens.len(),
        Err(_) => false,
    }
}

/// In the place of the tokens at hand come a parenthesis that closes, or the first two tokens of what is opened.
pub fn opens(window: &mut Window<'_>) -> Option<bool>
    ensures { IfSome result (λ more. Opened window.old window.new more) }
{
    window.tokens.clear();
    if !more(window)? {
        return None;
    }
    if ends(&window.tokens) {
        return Some(false);
    }
    if !more(window)? {
        return None;
    }
    Some(true)
}

/// What was read, if it ends behind so many tokens.
pub fn all_of<T: Drop>(read: Result<(T, usize), ReadFault>, count: usize) -> Option<T>
    ensures { IfSome result (λ x. read ≡ Ok (x, count)) }
{
    match read {
        Ok((value, next)) => { if next == count { Some(value) } else { None } }
        Err(_) => None,
    }
}

/// The part that the tokens at hand begin.
pub fn whole_part<'a, P: Part<'a>>(
    alloc: Global,
    window: &mut Window<'a>,
    divider: Divider,
) -> Option<P::Value>
    requires { (form : Form) → Exact kind_of (P.rule form) }
    ensures { IfSome result (λ part. IsOne (P.rule (record { limited = true; divider = divider })) window.old window.new (P.view part)) }
{
    close(window)?;
    let form = Form {
        limited: true,
        divider,
    };
    let read = P::read(alloc, &window.tokens, 0, form);
    all_of(read, window.tokens.len())
}

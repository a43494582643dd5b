// Conditions without the parentheses round them.
ghost use Rattle.std.specs.Prelude.{◌≡◌, IfNone, IfSome};
ghost use Rattle.std.specs.Bool.{OnFalse, OnTrue};
ghost use Rattle.cond_expr.specs.Same.{IsBalanced, IsEnclosed, in_parentheses};
ghost use Rattle.annotation_model.specs.Same.{bare};

use cond_expr::Tok;
use sg_text::Text;

// Whether each parenthesis that opens is closed by one behind it, and each that closes was opened.
fn is_balanced(tokens: &[Tok<Text>]) -> bool
    ensures yes { OnTrue result (IsBalanced tokens.now) }
    ensures no { OnFalse result (IsBalanced tokens.now → ⊥) }
{
    let mut unclosed = 0usize;
    for token in tokens {
        match token {
            Tok::Left => unclosed += 1,
            Tok::Right if unclosed == 0 => return false,
            Tok::Right => unclosed -= 1,
            _ => {}
        }
    }
    unclosed == 0
}

// What stands between the first token and the last, where these are parentheses that close each other.
fn inside(tokens: &[Tok<Text>]) -> Option<&[Tok<Text>]>
    ensures some { IfSome result (λ inner. (tokens.now ≡ in_parentheses 1 inner.now) × IsBalanced inner.now) }
    ensures none { IfNone result (IsEnclosed tokens.now → ⊥) }
{
    match tokens {
        [Tok::Left, inner @ .., Tok::Right] if is_balanced(inner) => Some(inner),
        _ => None,
    }
}

/// The tokens without the pairs of parentheses that enclose all of them.
pub fn bare(tokens: &[Tok<Text>]) -> &[Tok<Text>]
    ensures { result.now ≡ bare tokens.now }
{
    let mut left = tokens;
    while let Some(inner) = inside(left) {
        left = inner;
    }
    left
}

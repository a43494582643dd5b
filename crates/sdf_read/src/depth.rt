// How deep parentheses stand within one another.
ghost use Rattle.std.specs.Prelude.{◌≡◌, ◌≤◌, ◌<◌, ◌↔◌, IfSome, IsTrue, MatchOption, map};
ghost use Rattle.sdf_lex.specs.Seen.{lexeme, meaning};
ghost use Rattle.sdf_read.specs.Depth.{AreShallow, IsTooDeep, NoneTooDeep, depth_behind, depth_from};

use sdf_lex::{Lexeme, Token};
use sdf_terms::tokens::token_at;

// The most parentheses that may stand within one another.
const DEEPEST: u64 = 32;

/// How many parentheses are open behind a token.
fn depth_behind(depth: u64, token: Lexeme<'_>) -> u64
    requires { depth ≤ 32 }
    ensures { result ≡ depth_behind depth (meaning token.entry) }
{
    match token {
        Lexeme::Left => depth + 1,
        Lexeme::Right if depth > 0 => depth - 1,
        _ => depth,
    }
}

fn is_too_deep(depth: u64) -> bool
    ensures { IsTrue result ↔ (32 < depth) }
{
    depth > DEEPEST
}

/// The position of the first opening parenthesis inside 32 others. One that closes nothing counts for nothing.
pub fn first_too_deep(tokens: &[Token<'_>]) -> Option<usize>
    ensures { MatchOption result (NoneTooDeep (map lexeme tokens.now)) (IsTooDeep (map lexeme tokens.now)) }
{
    let mut depth = 0u64;
    let mut at = 0usize;
    'more: while let Some(token) = token_at(tokens, at) {
        let behind = depth_behind(depth, token.lexeme);
        if is_too_deep(behind) {
            return Some(at);
        }
        depth = behind;
        at += 1;
    }
    None
}

/// How many parentheses are open behind tokens, where it is nowhere more than 32.
pub fn depth_after(tokens: &[Token<'_>], depth: u64) -> Option<u64>
    requires { depth ≤ 32 }
    ensures { IfSome result (λ behind. (behind ≤ 32) × (behind ≡ depth_from depth (map lexeme tokens.now)) × AreShallow depth (map lexeme tokens.now)) }
{
    let mut open = depth;
    let mut rest = tokens;
    while let [token, tail @ ..] = rest {
        let behind = depth_behind(open, token.lexeme);
        if is_too_deep(behind) {
            return None;
        }
        open = behind;
        rest = tail;
    }
    Some(open)
}

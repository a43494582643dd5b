// Why a specify block is refused.
ghost use Rattle.std.specs.Prelude.{◌≡◌, ◌≤◌, ◌↔◌, ℕ, false, IfOk, map};
ghost use Rattle.vl_token.specs.Seen.{lexeme, meaning};
ghost use Rattle.vl_tree.specs.Specify as specify;
ghost use Rattle.vl_specify.specs.Faults.{KindStands, is_one_of, left_out, told, told_by_limit};

use crate::blocks::block;
use grammar::ReadFault;
use sg_text::{Keyword, NoMemory};
use std::alloc::Global;
use vl_terms::tokens::token_at;
use vl_token::{Symbol, Token, TokenKind};

/// The kind of fault for which a specify block is refused.
#[derive(Clone, Copy, Debug, PartialEq, Eq)]
pub enum SpecifyKind {
    /// No rule takes the token there.
    Syntax,
    /// The word is `showcancelled`, which is left out.
    ShowCancelled,
    /// A timing check that is left out, or an argument of one that may not be filled.
    UnsupportedCheck,
    /// A list of delays that has not 1, 2, 3, 6 or 12 of them.
    BadDelayCount,
}

// In the order of the definition.
const LEFT_OUT: [&str; 3] = ["$timeskew", "$fullskew", "$nochange"];

/// Whether a text is one of these.
fn is_one_of(names: &[&str], text: &[u8]) -> bool
    ensures { result ≡ is_one_of (map (λ name. name.now) names.now) text.now }
{
    let mut rest = names;
    while let [name, tail @ ..] = rest {
        if name.as_bytes() == text {
            return true;
        }
        rest = tail;
    }
    false
}

/// Whether a timing check is left out.
#[tactic(auto, unfolding(crate::specs::Faults::left_out))]
fn is_left_out(text: &[u8]) -> bool
    ensures { result ≡ is_one_of left_out text.now }
{
    is_one_of(&LEFT_OUT, text)
}

/// What the failing token says alone.
fn told(kind: TokenKind<'_>) -> Option<SpecifyKind>
    ensures { result ≡ told (meaning kind.entry) }
{
    match kind {
        TokenKind::Word(word) if Keyword::ShowCancelled.number() == word.number() => Some(
            SpecifyKind::ShowCancelled,
        ),
        TokenKind::System(text) if is_left_out(text) => Some(SpecifyKind::UnsupportedCheck),
        _ => None,
    }
}

/// What it says where the block with its limits lifted goes on with it.
fn told_by_limit(kind: TokenKind<'_>) -> SpecifyKind
    ensures { result ≡ told_by_limit (meaning kind.entry) }
{
    match kind {
        TokenKind::Symbol(Symbol::Comma | Symbol::RightParen) => SpecifyKind::BadDelayCount,
        _ => SpecifyKind::UnsupportedCheck,
    }
}

/// The position up to which tokens begin a block with its limits lifted.
#[tactic(auto, using(crate::proofs::Refusals::reach_if_read, crate::proofs::Refusals::reach_if_failed))]
fn reach(alloc: Global, tokens: &[Token<'_>], at: usize) -> Result<usize, NoMemory>
    ensures { IfOk result (λ n. (k : ℕ) → at ≤ k → (specify.block false).language.Begins (map lexeme tokens.now) at k ↔ (k ≤ n)) }
{
    match block(alloc, tokens, at, false) {
        Ok((_, next)) | Err(ReadFault::At(next)) => Ok(next),
        Err(ReadFault::Memory) => Err(NoMemory),
    }
}

/// The kind of fault of a block that begins at a position and fails at another. Reads the block again, and takes memory for it,
/// where the failing token alone doesn't tell.
pub fn kind_at(
    alloc: Global,
    tokens: &[Token<'_>],
    at: usize,
    failing: usize,
) -> Result<SpecifyKind, NoMemory>
    requires { at ≤ failing }
    ensures { IfOk result (λ kind. KindStands (map lexeme tokens.now) at failing kind) }
{
    let Some(token) = token_at(tokens, failing) else {
        return Ok(SpecifyKind::Syntax);
    };
    if let Some(kind) = told(token.kind) {
        return Ok(kind);
    }
    let reached = reach(alloc, tokens, at)?;
    if failing < reached {
        return Ok(told_by_limit(token.kind));
    }
    Ok(SpecifyKind::Syntax)
}

// The reading of a specify block, from a position among tokens on.
ghost use Rattle.std.specs.Prelude.{◌≡◌, ℕ, ◌+◌, true, IfOk, IfErr, map, slice_get};
ghost use Rattle.vl_token.specs.Seen.{lexeme};
ghost use Rattle.vl_tree.specs.Seen.{view_block};
ghost use Rattle.vl_tree.specs.Specify as specify;
ghost use Rattle.vl_tree.specs.Tree.{SpecifyBlock as BlockSeen};
ghost use Rattle.vl_specify.specs.Reading.{IsBlock, RefusalStands, fault_place};

use crate::blocks::block;
use crate::faults::{SpecifyKind, kind_at};
use grammar::ReadFault;
use sg_text::{Place, Refused};
use std::alloc::Global;
use vl_terms::tokens::token_at;
use vl_token::Token;
use vl_tree::SpecifyBlock;

/// A specify block, and the position behind it.
#[derive(Debug, Drop)]
pub struct SpecifyRead<'a> {
    pub block: SpecifyBlock<'a>,
    pub next: usize,
}

/// The place of a fault at a token, or behind the last one.
fn place_of_fault(tokens: &[Token<'_>], at: usize, end: Place) -> Place
    ensures { result ≡ fault_place end (slice_get (map lexeme tokens.now) at) }
{
    match token_at(tokens, at) {
        Some(token) => token.place,
        None => end,
    }
}

/// The specify block that begins at a position (IEEE 1364-2005, clauses 14 and 15), and the position behind it; `end` is the
/// place behind the last token. Where there is none the place is that of the failing token, the first with which the tokens
/// up to it begin no block, or `end`.
pub fn read_specify<'a>(
    alloc: Global,
    tokens: &[Token<'a>],
    at: usize,
    end: Place,
) -> Result<SpecifyRead<'a>, Refused<SpecifyKind>>
    // What is read is spelled.
    ensures found { IfOk result (λ read. (specify.block true).language.Spells (map lexeme tokens.now) at (view_block read.block) read.next) }
    // And with one token more nothing is begun.
    ensures longest { IfOk result (λ read. (specify.block true).language.Begins (map lexeme tokens.now) at (read.next + 1) → ⊥) }
    // What is spelled is read, unless memory runs out.
    ensures only { (tree : BlockSeen) (j : ℕ) → (specify.block true).language.Spells (map lexeme tokens.now) at tree j → IsBlock tree j result }
    // A refusal is at the failing token.
    ensures fault { IfErr result (λ refusal. RefusalStands (map lexeme tokens.now) at end refusal) }
{
    let failing = match block(alloc, tokens, at, true) {
        Ok((block, next)) => return Ok(SpecifyRead { block, next }),
        Err(ReadFault::Memory) => return Err(Refused::NoMemory),
        Err(ReadFault::At(failing)) => failing,
    };
    let kind = kind_at(alloc, tokens, at, failing)?;
    Err(Refused::Fault {
        kind,
        place: place_of_fault(tokens, failing, end),
    })
}

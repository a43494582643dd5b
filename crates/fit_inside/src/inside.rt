// Whether no rule concerns files.
ghost use Rattle.std.specs.Prelude.{◌≡◌, true, IfOk, map};
ghost use Rattle.vl_lex.specs.Seen.{texts};
ghost use Rattle.vl_token.specs.Seen.{lexeme};
ghost use Rattle.fit_inside.specs.Inside.{IsInside};
ghost use Rattle.fit_inside.specs.Seen.{AreFlat};

use crate::flat::is_flat;
use sg_text::{NoMemory, Place, Refused};
use std::alloc::Global;
use vl_lex::lex;
use vl_parse::parse;
use vl_token::Token;

/// The place behind the last byte of the last file.
pub fn end_of(files: &[Vec<u8>]) -> Place {
    let before = files.len().saturating_sub(1);
    let byte = match files.last() {
        Some(text) => text.len() as u64,
        None => 0,
    };
    Place {
        file: u32::try_from(before).unwrap_or(u32::MAX),
        byte,
    }
}

fn are_flat(alloc: Global, files: &[Vec<u8>], tokens: &[Token<'_>]) -> Result<bool, NoMemory>
    ensures taken { IfOk result (λ flat. flat ≡ true → AreFlat (map lexeme tokens.now)) }
    ensures only { AreFlat (map lexeme tokens.now) → IfOk result (λ flat. flat ≡ true) }
{
    match parse(alloc, tokens, end_of(files)) {
        Ok(tree) => is_flat(alloc, &tree),
        Err(Refused::Fault { .. }) => Ok(false),
        Err(Refused::NoMemory) => Err(NoMemory),
    }
}

/// Whether no rule concerns the files. Takes memory for tokens and tree.
pub fn is_inside(alloc: Global, files: &[Vec<u8>]) -> Result<bool, NoMemory>
    ensures inside { IfOk result (λ inside. inside ≡ true → IsInside (texts files.now)) }
    ensures only { IsInside (texts files.now) → IfOk result (λ inside. inside ≡ true) }
{
    match lex(alloc, files) {
        Ok(tokens) => are_flat(alloc, files, &tokens),
        Err(Refused::Fault { .. }) => Ok(false),
        Err(Refused::NoMemory) => Err(NoMemory),
    }
}

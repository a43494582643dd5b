// The reading of a file's tokens.
ghost use Rattle.std.specs.Prelude.{◌≡◌, List, true, false, IfOk, IfErr, length, map, slice_get};
ghost use Rattle.grammar.specs.Reach.{IsReach};
ghost use Rattle.grammar.specs.Reading.{Gives};
ghost use Rattle.grammar.specs.Rule.{read_all};
ghost use Rattle.sdf_lex.specs.Seen.{lexeme};
ghost use Rattle.sdf_tree.specs.Files as files;
ghost use Rattle.sdf_tree.specs.Seen.{view_file};
ghost use Rattle.sdf_tree.specs.Written.{FilePart};
ghost use Rattle.sdf_read.specs.Reading.{IsFile, KindStands, RefusalStands, fault_place};

use crate::faults::SdfKind;
use crate::files::file;
use grammar::ReadFault;
use sdf_lex::Token;
use sdf_terms::tokens::token_at;
use sdf_tree::WrittenFile;
use sg_text::{NoMemory, Place, Refused};
use std::alloc::Global;

/// All tokens as a file.
fn whole<'a>(
    alloc: Global,
    tokens: &[Token<'a>],
    limited: bool,
) -> Result<WrittenFile<'a>, ReadFault>
    ensures { Gives view_file result (read_all (files.file limited) (map lexeme tokens.now)) }
{
    let (parts, next) = file(alloc, tokens, 0, limited)?;
    if next == tokens.len() {
        Ok(WrittenFile { parts })
    } else {
        Err(ReadFault::At(next))
    }
}

/// How many tokens begin a file in which lists of delays have any length.
#[tactic(auto, using(crate::proofs::Reached::file_read, crate::proofs::Reached::file_failed))]
fn reach(alloc: Global, tokens: &[Token<'_>]) -> Result<usize, NoMemory>
    ensures { IfOk result (λ n. IsReach (files.file false).language (map lexeme tokens.now) n) }
{
    match whole(alloc, tokens, false) {
        Ok(_) => Ok(tokens.len()),
        Err(ReadFault::At(failing)) => Ok(failing),
        Err(ReadFault::Memory) => Err(NoMemory),
    }
}

/// The kind of fault at a failing token. Reads the tokens again, and takes memory for it.
fn kind_at(alloc: Global, tokens: &[Token<'_>], failing: usize) -> Result<SdfKind, NoMemory>
    ensures { IfOk result (λ kind. KindStands (map lexeme tokens.now) failing kind) }
{
    let reached = reach(alloc, tokens)?;
    if failing < reached {
        Ok(SdfKind::BadCount)
    } else {
        Ok(SdfKind::Syntax)
    }
}

/// The place of a token, or the end.
pub fn place_of_fault(tokens: &[Token<'_>], at: usize, end: Place) -> Place
    ensures { result ≡ fault_place end (slice_get (map lexeme tokens.now) at) }
{
    match token_at(tokens, at) {
        Some(token) => token.place(),
        None => end,
    }
}

/// The parts of a file's tokens, as they are written; `end` is the place behind the last token. Where they spell none the place
/// is that of the failing token, the first with which the tokens up to it begin no file, or `end`.
pub fn read_written<'a>(
    alloc: Global,
    tokens: &[Token<'a>],
    end: Place,
) -> Result<WrittenFile<'a>, Refused<SdfKind>>
    // What is read is spelled.
    ensures found { IfOk result (λ file. (files.file true).language.Spells (map lexeme tokens.now) 0 (view_file file) (length (map lexeme tokens.now))) }
    // What is spelled is read, unless memory runs out.
    ensures only { (parts : List FilePart) → (files.file true).language.Spells (map lexeme tokens.now) 0 parts (length (map lexeme tokens.now)) → IsFile parts result }
    // A refusal is at the failing token.
    ensures fault { IfErr result (λ refusal. RefusalStands (map lexeme tokens.now) end refusal) }
{
    match whole(alloc, tokens, true) {
        Ok(file) => Ok(file),
        Err(ReadFault::Memory) => Err(Refused::NoMemory),
        Err(ReadFault::At(at)) => {
            let kind = kind_at(alloc, tokens, at)?;
            Err(Refused::Fault {
                kind,
                place: place_of_fault(tokens, at, end),
            })
        }
    }
}

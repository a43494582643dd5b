// An SDF file from its bytes.
ghost use Rattle.std.specs.Prelude.{◌≡◌, List, Result, Ok, IfOk, IfErr, OnOk, map};
ghost use Rattle.sdf_lex.specs.Lexes.{Lexes};
ghost use Rattle.sdf_lex.specs.Seen.{lexeme};
ghost use Rattle.sdf_tree.specs.Meant as meant;
ghost use Rattle.sdf_tree.specs.Seen.{view_file};
ghost use Rattle.sdf_tree.specs.Written.{FilePart};
ghost use Rattle.sdf_read.specs.Depth.{NoneTooDeep};
ghost use Rattle.sdf_read.specs.Outcomes.{Fault, Outcome, meaning_of, meaning_unless};
ghost use Rattle.sdf_read.specs.Phases.{AreRead, AreSpelled, BytesStand, DepthStands, Refuses};
ghost use Rattle.sdf_read.specs.Reads.{Reads, Stands, Tells, end_of, kind_of_bytes};

use crate::depth::first_too_deep;
use crate::faults::SdfKind;
use crate::reading::{place_of_fault, read_written};
use sdf_lex::{LexKind, Token, lex};
use sdf_meaning::{file_bad_number, file_crossing, sdf_of};
use sdf_tree::{Sdf, WrittenFile};
use sg_text::{Place, Refused};
use std::alloc::Global;

fn kind_of_bytes(kind: LexKind) -> SdfKind
    ensures { result ≡ kind_of_bytes kind }
{
    match kind {
        LexKind::BadByte => SdfKind::BadByte,
        LexKind::FileTooLarge => SdfKind::FileTooLarge,
    }
}

// The place behind the last byte.
fn end_of(bytes: &[u8]) -> Place
    ensures { result ≡ end_of bytes.now }
{
    Place {
        file: 0,
        byte: bytes.len() as u64,
    }
}

fn tokens_of(alloc: Global, bytes: &[u8]) -> Result<Vec<Token<'_>>, Refused<SdfKind>>
    ensures read { IfOk result (λ tokens. Lexes bytes.now (Ok (map lexeme tokens.items))) }
    ensures refused { IfErr result (BytesStand bytes.now) }
{
    match lex(alloc, bytes) {
        Ok(tokens) => Ok(tokens),
        Err(Refused::Fault { kind, place }) => Err(Refused::Fault {
            kind: kind_of_bytes(kind),
            place,
        }),
        Err(Refused::NoMemory) => Err(Refused::NoMemory),
    }
}

fn check_depth(tokens: &[Token<'_>], end: Place) -> Result<(), Refused<SdfKind>>
    ensures shallow { OnOk result (NoneTooDeep (map lexeme tokens.now)) }
    ensures refused { IfErr result (DepthStands (map lexeme tokens.now) end) }
{
    match first_too_deep(tokens) {
        Some(at) => Err(Refused::Fault {
            kind: SdfKind::TooDeep,
            place: place_of_fault(tokens, at, end),
        }),
        None => Ok(()),
    }
}

// A number that is none is told before limits that cross.
fn refuse_values(bad_number: Option<Place>, crossing: Option<Place>) -> Result<(), Refused<SdfKind>>
    ensures faultless { (parts : List FilePart) → OnOk result (meaning_unless bad_number crossing parts ≡ Ok (meant.sdf_of parts)) }
    ensures refused { (parts : List FilePart) → IfErr result (Refuses (λ p. meaning_unless bad_number crossing parts ≡ p)) }
{
    match (bad_number, crossing) {
        (Some(place), _) => Err(Refused::Fault {
            kind: SdfKind::BadNumber,
            place,
        }),
        (None, Some(place)) => Err(Refused::Fault {
            kind: SdfKind::LimitsCross,
            place,
        }),
        (None, None) => Ok(()),
    }
}

fn check_values(file: &WrittenFile<'_>) -> Result<(), Refused<SdfKind>>
    ensures faultless { OnOk result (meaning_of (view_file file.now) ≡ Ok (meant.sdf_of (view_file file.now))) }
    ensures refused { IfErr result (Refuses (λ p. meaning_of (view_file file.now) ≡ p)) }
{
    refuse_values(file_bad_number(file), file_crossing(file))
}

/// The parts of a file's tokens, which are nowhere too deep.
fn read_tree<'a>(
    alloc: Global,
    tokens: &[Token<'a>],
    end: Place,
) -> Result<WrittenFile<'a>, Refused<SdfKind>>
    ensures spelled { IfOk result (λ file. AreSpelled (map lexeme tokens.now) (view_file file)) }
    ensures refused { IfErr result (Refuses (Outcome (map lexeme tokens.now) end)) }
{
    check_depth(tokens, end)?;
    read_written(alloc, tokens, end)
}

/// The parts of a file. Its tokens are gone then.
fn read_parts(alloc: Global, bytes: &[u8]) -> Result<WrittenFile<'_>, Refused<SdfKind>>
    ensures read { IfOk result (λ file. AreRead bytes.now (view_file file)) }
    ensures refused { IfErr result (Refuses (Reads bytes.now)) }
{
    let tokens = tokens_of(alloc, bytes)?;
    read_tree(alloc, &tokens, end_of(bytes))
}

/// What an SDF file means (IEEE 1497-2001), with file 0 in its places. Its names and texts are parts of the bytes, and its values are in
/// the file's unit. A name of a condition stands for its bytes without backslashes.
///
/// The first of these phases that finds a fault tells it: the file's size, its bytes, how deep parentheses stand, the grammar, the numbers,
/// and limits that cross. A fault of the grammar is told at the failing token, or behind the last byte. Takes time and memory in
/// proportion to the file.
pub fn read_sdf(alloc: Global, bytes: &[u8]) -> Result<Sdf<'_>, Refused<SdfKind>>
    // The file is what it answers.
    ensures found { Stands (Reads bytes.now) result }
    // It is nothing else.
    ensures only { (o : Result meant.Sdf Fault) → Reads bytes.now o → Tells o result }
{
    let file = read_parts(alloc, bytes)?;
    check_values(&file)?;
    let sdf = sdf_of(alloc, file)?;
    Ok(sdf)
}

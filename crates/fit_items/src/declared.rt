// Names that are declared, and assignments.
use crate::items::{Declared, Run, Side};
use crate::lists::{comma_pieces, pieces_between};
use crate::readers::Reader;
use sg_text::NoMemory;
use std::alloc::Global;
use vl_token::{Symbol, Token};

/// A name, perhaps with words of its type before it and `= value` behind it.
pub fn declared_of(part: &[Token<'_>], whole: Run) -> Option<Declared> {
    let mut reader = Reader::new(part, whole);
    reader.pass_types();
    reader.range()?;
    let name = reader.name()?;
    if reader.is_done() || reader.passes(Symbol::Assign) {
        Some(Declared {
            name,
            value: reader.rest(),
        })
    } else {
        None
    }
}

/// Names with commas between them, if the run is that. Takes memory.
pub fn declarations_of(
    alloc: Global,
    part: &[Token<'_>],
    run: Run,
) -> Result<Option<Vec<Declared>>, NoMemory> {
    let mut list = Vec::new(alloc);
    for piece in comma_pieces(alloc, part, run)? {
        let Some(declared) = declared_of(part, piece) else {
            return Ok(None);
        };
        list.push(declared)?;
    }
    Ok(Some(list))
}

/// Assignments with commas between them, if the run is that. Takes memory.
pub fn sides_of(
    alloc: Global,
    part: &[Token<'_>],
    run: Run,
) -> Result<Option<Vec<Side>>, NoMemory> {
    let mut sides = Vec::new(alloc);
    for piece in comma_pieces(alloc, part, run)? {
        let both = pieces_between(alloc, part, piece, Symbol::Assign)?;
        let [left, right] = both.as_slice() else {
            return Ok(None);
        };
        sides.push(Side {
            left: *left,
            right: *right,
        })?;
    }
    Ok(Some(sides))
}

// The reader of files.
ghost use Rattle.std.specs.Prelude.{◌≡◌, map};
ghost use Rattle.grammar.specs.Reading.{Gives};
ghost use Rattle.sdf_lex.specs.Seen.{lexeme};
ghost use Rattle.sdf_tree.specs.Files as files;
ghost use Rattle.sdf_tree.specs.Seen.{view_file_part};
ghost use Rattle.sdf_read.specs.Files.{state};

use crate::cells::cell;
use crate::heads::{head, head_stands};
use grammar::ReadFault;
use sdf_lex::Token;
use sdf_terms::parts::Form;
use sdf_terms::tokens::{is_left, left, right, word};
use sdf_tree::{Divider, Keyword, WrittenFilePart, WrittenHead};
use std::alloc::Global;

/// What joins names behind a part, and whether heads may still come.
#[derive(Clone, Copy)]
struct State {
    heads: bool,
    divider: Divider,
}

/// `"(" head ")" | "(" cell ")"`, the first where heads may come
#[tactic(auto, unfolding(sdf_tree::specs::Files::file_part_parts))]
fn file_part<'a>(
    alloc: Global,
    tokens: &[Token<'a>],
    at: usize,
    limited: bool,
    here: State,
) -> Result<(WrittenFilePart<'a>, usize), ReadFault>
    ensures { Gives (λ x. (view_file_part x.0, x.1)) result ((files.file_part limited (state here)).read (map lexeme tokens.now) at) }
{
    let next = left(tokens, at)?;
    if here.heads && head_stands(tokens, next) {
        let (head, next) = head(tokens, next)?;
        let next = right(tokens, next)?;
        return Ok((WrittenFilePart::Head(head), next));
    }
    let form = Form {
        limited,
        divider: here.divider,
    };
    let (cell, next) = cell(alloc, tokens, next, form)?;
    let next = right(tokens, next)?;
    Ok((WrittenFilePart::Cell(cell), next))
}

fn state_after(here: State, part: &WrittenFilePart<'_>) -> State
    ensures { state result ≡ files.state_after_part (state here) (view_file_part part.now) }
{
    match part {
        WrittenFilePart::Head(WrittenHead::Divider(divider)) => State {
            heads: here.heads,
            divider: *divider,
        },
        WrittenFilePart::Head(_) => here,
        WrittenFilePart::Cell(_) => State {
            heads: false,
            divider: here.divider,
        },
    }
}

/// `{ head } { cell }`
#[tactic(auto, unfolding(sdf_tree::specs::Files::file_parts_parts))]
fn file_parts<'a>(
    alloc: Global,
    tokens: &[Token<'a>],
    at: usize,
    limited: bool,
) -> Result<(Vec<WrittenFilePart<'a>>, usize), ReadFault>
    ensures { Gives (λ x. (map view_file_part x.0.items, x.1)) result ((files.file_parts_parts limited).read (map lexeme tokens.now) at) }
{
    let mut parts = Vec::new(alloc);
    let mut next = at;
    let mut here = State {
        heads: true,
        divider: Divider::Point,
    };
    'more: while is_left(tokens, next) {
        let (part, behind) = file_part(alloc, tokens, next, limited, here)?;
        here = state_after(here, &part);
        parts.push(part)?;
        next = behind;
    }
    Ok((parts, next))
}

/// `"(" DELAYFILE { head } { cell } ")"`. Where it isn't limited, lists of delays have any length.
#[tactic(auto, unfolding(sdf_tree::specs::Files::file_body))]
pub fn file<'a>(
    alloc: Global,
    tokens: &[Token<'a>],
    at: usize,
    limited: bool,
) -> Result<(Vec<WrittenFilePart<'a>>, usize), ReadFault>
    ensures { Gives (λ x. (map view_file_part x.0.items, x.1)) result ((files.file limited).read (map lexeme tokens.now) at) }
{
    let next = left(tokens, at)?;
    let next = word(tokens, next, Keyword::DelayFile)?;
    let (parts, next) = file_parts(alloc, tokens, next, limited)?;
    let next = right(tokens, next)?;
    Ok((parts, next))
}

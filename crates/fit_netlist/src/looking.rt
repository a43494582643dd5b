// Which parts aren't taken, and which of them the top reaches.
ghost use Rattle.std.specs.Prelude.{IfErr};
ghost use Rattle.fit_netlist.specs.Fitted.{Tells};

use crate::changing::write_all;
use crate::faults::FitError;
use crate::reading::read_tokens;
use crate::refusing::{bytes_of, line_of, refuse_some, syntax_kind, unfit};
use fit_changes::{Changes, Unfit};
use fit_inside::end_of;
use fit_parts::{Below, Web, heading_of, headings, part_end};
use itoa::Buffer;
use netlist_read::{NetlistKind, write_kind};
use sg_text::{NoMemory, Place, Refused};
use std::alloc::Global;
use vl_parse::parse;
use vl_token::Token;
use vl_tree::Part;

// Where a part isn't taken, and why.
#[derive(Clone, Copy)]
struct Fault<'a> {
    name: Option<&'a [u8]>,
    kind: NetlistKind<'a>,
    place: Place,
}

fn add_parts<'a>(parts: &[Part<'a>], web: &mut Web<'a>) -> Result<(), NoMemory> {
    for part in parts {
        web.add(part)?;
    }
    Ok(())
}

// Adds a part that is taken, and tells where another isn't.
fn look_at<'a>(
    alloc: Global,
    part: &[Token<'a>],
    end: Place,
    web: &mut Web<'a>,
) -> Result<Option<Fault<'a>>, NoMemory> {
    match parse(alloc, part, end) {
        Ok(source) => {
            add_parts(&source.parts, web)?;
            Ok(None)
        }
        Err(Refused::Fault { kind, place }) => Ok(Some(Fault {
            name: heading_of(part).name,
            kind: syntax_kind(kind),
            place,
        })),
        Err(Refused::NoMemory) => Err(NoMemory),
    }
}

fn add_look<'a>(
    alloc: Global,
    part: &[Token<'a>],
    end: Place,
    web: &mut Web<'a>,
    faults: &mut Vec<Option<Fault<'a>>>,
) -> Result<(), NoMemory> {
    let fault = look_at(alloc, part, end, web)?;
    faults.push(fault)?;
    Ok(())
}

fn look_at_all<'a>(
    alloc: Global,
    tokens: &[Token<'a>],
    end: Place,
    web: &mut Web<'a>,
) -> Result<Vec<Option<Fault<'a>>>, NoMemory> {
    let mut faults = Vec::new(alloc);
    let mut at = 0;
    while at < tokens.len() {
        let behind = part_end(tokens, at);
        add_look(alloc, &tokens[at..behind], end, web, &mut faults)?;
        at = behind;
    }
    Ok(faults)
}

// Whether a part may be left out: it has a name, and that isn't below the top.
fn is_outside(fault: &Fault<'_>, below: &Below<'_>) -> bool {
    match fault.name {
        Some(name) => !below.holds(name),
        None => false,
    }
}

fn add_fault(
    alloc: Global,
    texts: &[Vec<u8>],
    fault: &Fault<'_>,
    list: &mut Vec<Unfit>,
) -> Result<(), NoMemory> {
    let name = fault.name.unwrap_or(b"");
    let place = unfit(alloc, texts, &fault.kind, fault.place, name)?;
    list.push(place)?;
    Ok(())
}

// The faults of parts that are below the top, in order.
fn reached(
    alloc: Global,
    texts: &[Vec<u8>],
    faults: &[Option<Fault<'_>>],
    below: &Below<'_>,
) -> Result<Vec<Unfit>, NoMemory> {
    let mut list = Vec::new(alloc);
    for fault in faults {
        if let Some(fault) = fault {
            if !is_outside(fault, below) {
                add_fault(alloc, texts, fault, &mut list)?;
            }
        }
    }
    Ok(list)
}

// `left out: KIND on line N`
fn why(alloc: Global, texts: &[Vec<u8>], fault: &Fault<'_>) -> Result<Vec<u8>, NoMemory> {
    let mut text = Vec::from_slice(alloc, b"left out: ")?;
    let kind = write_kind(alloc, &fault.kind)?;
    text.extend_from_slice(&kind)?;
    text.extend_from_slice(b" on line ")?;
    let mut buffer = Buffer::new();
    text.extend_from_slice(buffer.format(line_of(texts, fault.place)).as_bytes())?;
    Ok(text)
}

fn whys(
    alloc: Global,
    texts: &[Vec<u8>],
    faults: &[Option<Fault<'_>>],
) -> Result<Vec<Option<Vec<u8>>>, NoMemory> {
    let mut list = Vec::new(alloc);
    for fault in faults {
        match fault {
            Some(fault) => list.push(Some(why(alloc, texts, fault)?))?,
            None => list.push(None)?,
        }
    }
    Ok(list)
}

/// For each part why it is left out, if it is: it isn't taken with these changes, and the top doesn't reach it. Refuses those that the top
/// reaches, or that have no name. Takes memory in proportion to the texts.
pub fn left_out(
    alloc: Global,
    list: &[Changes<'_>],
    top: Option<&str>,
) -> Result<Vec<Option<Vec<u8>>>, FitError>
    ensures refused { IfErr result Tells }
{
    let texts = write_all(alloc, list)?;
    let tokens = read_tokens(alloc, &texts)?;
    let mut web = Web::new(alloc);
    let faults = look_at_all(alloc, &tokens, end_of(&texts), &mut web)?;
    let read = headings(alloc, &tokens)?;
    drop(tokens);
    let top = web.top(&read, bytes_of(top))?;
    let below = web.below(top)?;
    refuse_some(reached(alloc, &texts, &faults, &below)?)?;
    Ok(whys(alloc, &texts, &faults)?)
}

// Whether files are a netlist, and whether it stays itself when it is printed and read again.
use crate::files::files_of;
use sg_text::{NoMemory, Place, Refused};
use std::alloc::{AllocError, Global};
use vl_lex::lex;
use vl_parse::{ParseKind, parse};
use vl_print::print;
use vl_specify::read_specify;
use vl_token::Token;
use vl_tree::Source;

fn refusal(alloc: Global, refused: Refused<ParseKind<'_>>) -> Result<String, AllocError> {
    match refused {
        Refused::NoMemory => Err(AllocError),
        Refused::Fault {
            kind: ParseKind::Syntax,
            place,
        } => format!(in alloc; "{} Syntax", place.byte),
        Refused::Fault {
            kind: ParseKind::Specify(kind),
            place,
        } => format!(in alloc; "{} Specify {kind:?}", place.byte),
        Refused::Fault {
            kind: ParseKind::Unsupported(word),
            place,
        } => {
            let word = std::str::from_utf8(word).unwrap_or("?");
            format!(in alloc; "{} Unsupported {word}", place.byte)
        }
    }
}

// Whether the tokens that are printed for it are the same netlist again.
fn again(alloc: Global, tree: &Source<'_>, end: Place) -> Result<String, NoMemory> {
    let tokens = print(alloc, tree)?;
    let Ok(read) = parse(alloc, &tokens, end) else {
        return Ok(String::from_str(alloc, "printed otherwise")?);
    };
    let twice = print(alloc, &read)?;
    let outcome = if twice == tokens {
        "ok"
    } else {
        "read otherwise"
    };
    Ok(String::from_str(alloc, outcome)?)
}

fn outcome_of(alloc: Global, tokens: &[Token<'_>], end: Place) -> Result<String, NoMemory> {
    match parse(alloc, tokens, end) {
        Ok(tree) => again(alloc, &tree, end),
        Err(refused) => Ok(refusal(alloc, refused)?),
    }
}

// The place behind the last file.
fn end_of(files: &[Vec<u8>]) -> Place {
    let byte = match files.last() {
        Some(file) => file.len() as u64,
        None => 0,
    };
    Place { file: 0, byte }
}

/// `ok`, or why the files are no netlist, with the byte.
pub fn outcome(alloc: Global, line: &str) -> Result<String, NoMemory> {
    let files = files_of(alloc, line)?;
    match lex(alloc, &files) {
        Ok(tokens) => outcome_of(alloc, &tokens, end_of(&files)),
        Err(_) => Ok(String::from_str(alloc, "no tokens")?),
    }
}

fn block_of(alloc: Global, tokens: &[Token<'_>], end: Place) -> Result<String, NoMemory> {
    match read_specify(alloc, tokens, 0, end) {
        Ok(read) => Ok(format!(in alloc; "ok {}", read.next)?),
        Err(Refused::Fault { kind, place }) => { Ok(format!(in alloc; "{} {kind:?}", place.byte)?) }
        Err(Refused::NoMemory) => Err(NoMemory),
    }
}

/// `ok` and the number of its tokens, or why the files begin with no specify block, with the byte.
pub fn block(alloc: Global, line: &str) -> Result<String, NoMemory> {
    let files = files_of(alloc, line)?;
    match lex(alloc, &files) {
        Ok(tokens) => block_of(alloc, &tokens, end_of(&files)),
        Err(_) => Ok(String::from_str(alloc, "no tokens")?),
    }
}

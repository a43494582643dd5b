//! Reads SDF files, one a line, and says of each whether it is one: `ok`, or the byte of the fault and its kind. A line `lex TEXT`
//! shows the tokens of a text instead, each behind its byte. In each line ↵ stands for a line feed, ␁ for byte 1 and ␡ for byte 127.
#![tactic(auto)]

mod lexing;

use sdf_read::read_sdf;
use sg_text::Refused;
use std::alloc::{AllocError, Global};
use std::io;

// What stands for what a line can't hold.
fn byte_for(mark: char) -> char {
    match mark {
        '↵' => '\n',
        '␁' => '\u{1}',
        '␡' => '\u{7f}',
        other => other,
    }
}

fn bytes_of(alloc: Global, line: &str) -> Result<Vec<u8>, AllocError> {
    let mut text = String::new(alloc);
    for mark in line.chars() {
        text.push(byte_for(mark))?;
    }
    Ok(text.into_bytes())
}

fn describe(alloc: Global, line: &str) -> Result<String, AllocError> {
    let text = bytes_of(alloc, line)?;
    match read_sdf(alloc, &text) {
        Ok(_) => String::from_str(alloc, "ok"),
        Err(Refused::Fault { kind, place }) => format!(in alloc; "{} {kind:?}", place.byte),
        Err(Refused::NoMemory) => Err(AllocError),
    }
}

fn outcome(alloc: Global, line: &str) -> Result<String, AllocError> {
    match line.split_once(' ') {
        Some(("lex", text)) => lexing::tokens(alloc, &bytes_of(alloc, text)?),
        _ => describe(alloc, line),
    }
}

fn main(rt: HostRuntime) -> io::Result<()> {
    for line in rt.lines(rt.alloc()) {
        let outcome = outcome(rt.alloc(), &line?)?;
        println!(rt; "{outcome}")?;
    }
    Ok(())
}

//! Reads netlists, one a line, and says of each whether it is one: `ok`, or the byte of the failing token and the kind. The
//! tokens that are printed for a netlist are read again, and printed as before. A line `lex TEXT` shows the tokens of a text
//! instead, and `places TEXT` where they stand, as file and byte, or where and why the text has none. A line `block TEXT` says how
//! many tokens the specify block is that the text begins with, or where and why there is none. In each line ↵ stands for a line
//! feed, ␁ for byte 1 and ␡ for byte 127, and ‖ divides files.
#![tactic(auto)]

mod files;
mod lexing;
mod netlists;
mod tokens;

use sg_text::NoMemory;
use std::alloc::Global;

fn outcome(alloc: Global, line: &str) -> Result<String, NoMemory> {
    match line.split_once(' ') {
        Some(("lex", text)) => lexing::tokens(alloc, text),
        Some(("places", text)) => lexing::places(alloc, text),
        Some(("block", text)) => netlists::block(alloc, text),
        _ => netlists::outcome(alloc, line),
    }
}

fn main(rt: HostRuntime) -> anyhow::Result<()> {
    for line in rt.lines(rt.alloc()) {
        let outcome = outcome(rt.alloc(), &line?)?;
        println!(rt; "{outcome}")?;
    }
    Ok(())
}

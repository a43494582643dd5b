//! Elaborates netlists and prints of each its circuit, or why it has none and on which line. A netlist begins behind a line `case NAME`, with `top=NAME` and `corner=min` or
//! `corner=max` behind the name where they are given.
#![tactic(auto)]

mod case;
mod circuits;

use crate::case::Case;

fn main(rt: HostRuntime) -> anyhow::Result<()> {
    let alloc = rt.alloc();
    let mut out = String::new(alloc);
    let mut case = Case::new(alloc);
    for line in rt.lines(alloc) {
        let line = line?;
        match line.strip_prefix("case ") {
            Some(words) => {
                case.show(alloc, &mut out)?;
                case = Case::of(alloc, words)?;
            }
            None => case.add(&line)?,
        }
    }
    case.show(alloc, &mut out)?;
    print!(rt; "{out}")?;
    Ok(())
}

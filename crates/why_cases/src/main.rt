//! Runs whole cases of `why` over files in memory, and prints the status and the report of each. A case begins with a line `case NAME`.
//! `file NAME` begins a file, whose lines follow; `open` takes away its last line end. `words W ..` are the words of the command line, and `word W` is one more,
//! with its blanks.
//! `fail CALL` lets a call of the shelf fail, counted from 0, and `fail_report CALL` one of the report's sink.
#![tactic(auto)]

mod case;

use crate::case::Case;

fn main(rt: HostRuntime) -> anyhow::Result<()> {
    let alloc = rt.alloc();
    let mut out = String::new(alloc);
    let mut case = Case::of(alloc, "")?;
    for line in rt.lines(alloc) {
        let line = line?;
        match line.strip_prefix("case ") {
            Some(title) => {
                case.show(alloc, &mut out)?;
                case = Case::of(alloc, title)?;
            }
            None => case.add(alloc, &line)?,
        }
    }
    case.show(alloc, &mut out)?;
    print!(rt; "{out}")?;
    Ok(())
}

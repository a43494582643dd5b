//! Runs whole cases over files in memory, and prints the status, the report and the dump of each, with `‖` behind a text that doesn't end with a line. A case begins with a
//! line `case NAME`. `file NAME` begins a file, whose lines follow; `open` takes away its last line end. `words W ..` are the words of the command line, and `made NAME` asks for
//! a file that the run may have made. `cut NAME` runs it instead once with each front of a file, and prints how many have an answer. `fail CALL TAKEN` lets a call of the shelf fail after so many bytes, counted from 0, and `fail_report CALL TAKEN` one of the report's sink.
#![tactic(auto)]

mod case;

use crate::case::Case;

fn main(rt: HostRuntime) -> anyhow::Result<()> {
    let alloc = rt.alloc();
    let mut out = String::new(alloc);
    let mut case = Case::new(alloc);
    for line in rt.lines(alloc) {
        let line = line?;
        match line.strip_prefix("case ") {
            Some(title) => {
                case.show(alloc, &mut out)?;
                case = Case::of(alloc, title)?;
            }
            None => case.add(alloc, &line)?,
        }
    }
    case.show(alloc, &mut out)?;
    print!(rt; "{out}")?;
    Ok(())
}

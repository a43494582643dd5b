//! Runs whole cases of `fit` over files in memory, and prints status and report of each, and the files that it asks for, with `‖` behind a text that doesn't end with a line.
//! A case begins with a line `case NAME`. `file NAME` begins a file, whose lines follow; `open` takes away its last line end, and `␍` at the end of a line stands for a carriage
//! return, as in what is printed. `words W ..` are the words of the command line, and `made NAME` asks for a file that may be made. `fail CALL TAKEN` lets a call of the shelf fail after so many
//! bytes, counted from 0, `fail_report CALL TAKEN` one of the report's sink, and `fail_folders` each folder; `same ONE OTHER` lets two names reach one file.
#![tactic(auto)]

mod case;

use crate::case::Case;

fn main(rt: HostRuntime) -> anyhow::Result<()> {
    let alloc = rt.alloc();
    let mut out = String::new(alloc);
    let mut case = Case::new(alloc);
    for line in rt.lines(alloc) {
        let line = line?;
        match line.strip_prefix("case ") {
            Some(title) => {
                case.show(alloc, &mut out)?;
                case = Case::of(alloc, title)?;
            }
            None => case.add(alloc, &line)?,
        }
    }
    case.show(alloc, &mut out)?;
    print!(rt; "{out}")?;
    Ok(())
}

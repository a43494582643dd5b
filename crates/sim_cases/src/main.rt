//! Simulates small netlists over the plain agenda, and prints what a watcher is told of each: a line for each time, with the nets that changed, the value before and the value after.
//! Then come the violations of its timing checks, the number of evaluations and the last time that changed a net. A case begins with a line `case NAME`, its netlist follows, and
//! behind a line `stimulus` its stimulus.
#![tactic(auto)]

mod case;
mod lines;

use crate::case::Case;

fn main(rt: HostRuntime) -> anyhow::Result<()> {
    let alloc = rt.alloc();
    let mut out = String::new(alloc);
    let mut case = Case::new(alloc);
    for line in rt.lines(alloc) {
        let line = line?;
        match line.strip_prefix("case ") {
            Some(title) => {
                case.show(alloc, &mut out)?;
                case = Case::of(alloc, title)?;
            }
            None => case.add(&line)?,
        }
    }
    case.show(alloc, &mut out)?;
    print!(rt; "{out}")?;
    Ok(())
}

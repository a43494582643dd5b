//! Simulates a netlist of gates under a stimulus, and writes its value change dump and a report.
#![tactic(auto)]

mod streams;

use crate::streams::held_streams;
use sg_io::{FileShelf, StdSink};
use signoff_top::program;
use std::env;
use std::process::ExitCode;

fn main(rt: HostRuntime) -> ExitCode {
    let _held = held_streams(&rt);
    let alloc = rt.alloc();
    let mut shelf = FileShelf::new(alloc, &rt);
    let mut report = StdSink::new(&rt);
    program(alloc, env::args(&rt), &mut shelf, &mut report)
}

//! Tells what a change or a violation in a gate-level run came from.
#![tactic(auto)]

use sg_io::{FileShelf, StdSink};
use std::env;
use std::process::ExitCode;
use why_top::program;

fn main(rt: HostRuntime) -> ExitCode {
    let alloc = rt.alloc();
    let mut shelf = FileShelf::new(alloc, &rt);
    let mut report = StdSink::new(&rt);
    program(alloc, env::args(&rt), &mut shelf, &mut report)
}

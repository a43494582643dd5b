//! Brings a netlist and its SDF files into what `signoff` takes, and tells each change.
#![tactic(auto)]

use fit_top::{FileFolders, program};
use sg_io::{FileShelf, StdSink};
use std::env;
use std::process::ExitCode;

fn main(rt: HostRuntime) -> ExitCode {
    let alloc = rt.alloc();
    let mut shelf = FileShelf::new(alloc, &rt);
    let mut folders = FileFolders::new(&rt);
    let mut report = StdSink::new(&rt);
    program(alloc, env::args(&rt), &mut shelf, &mut folders, &mut report)
}

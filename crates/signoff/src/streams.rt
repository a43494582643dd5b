// The standard streams that the program was started without.
ghost use Rattle.std.specs.Prelude.{◌≤ℤ◌, All, IfSome, pos};
ghost use Rattle.std.specs.Fd.{file_raw_fd};

use std::fs::{self, File};
use std::os::fd::AsRawFd;

// The null device, where the lowest free descriptor, which is the one that it gets, is that of a stream.
fn held_stream(rt: &HostRuntime) -> Option<File>
    ensures { IfSome result (λ file. file_raw_fd file ≤ℤ pos 2) }
{
    let file = fs::open(rt, "/dev/null").ok()?;
    if file.as_raw_fd() <= 2 {
        Some(file)
    } else {
        None
    }
}

/// The null device in the place of each stream that is closed, so that no file gets its descriptor and what is meant for
/// the stream. It is opened for reading: to write to such a stream fails, as where it is closed.
pub fn held_streams(rt: &HostRuntime) -> [Option<File>; 3]
    ensures { All (λ held. IfSome held (λ file. file_raw_fd file ≤ℤ pos 2)) result }
{
    [held_stream(rt), held_stream(rt), held_stream(rt)]
}

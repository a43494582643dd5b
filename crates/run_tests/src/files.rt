// Files of the real system as a shelf, and standard output as a sink.
use sg_io::{FileShelf, ReadError, Shelf, ShelfError, Sink, StdSink};
use std::alloc::Global;
use std::fs;
use std::io::{self, Read};
use std::os::fd::AsRawFd;
use std::test::Fail;

fn reads<S: Shelf>(
    alloc: Global,
    shelf: &mut S,
    name: &str,
    limit: u64,
    bytes: &[u8],
) -> Result<bool, ReadError> {
    Ok(shelf.read(alloc, name, limit)?.as_slice() == bytes)
}

fn append_twice<S: Shelf>(shelf: &mut S, name: &str) -> Result<(), ShelfError> {
    shelf.append(name, b"end")?;
    shelf.append(name, b"module")
}

#[test]
fn a_file_comes_back_as_written(rt: HostRuntime) -> Result<(), Fail> {
    let alloc = rt.alloc();
    let name = "run_tests_written.tmp";
    let mut shelf = FileShelf::new(alloc, &rt);
    shelf.create(name)?;
    append_twice(&mut shelf, name)?;
    assert!(rt; reads(alloc, &mut shelf, name, 4, b"endm")?);
    shelf.create(name)?;
    assert!(rt; reads(alloc, &mut shelf, name, 4, b"")?);
    fs::remove_file(&rt, name)?;
    Ok(())
}

#[test]
fn a_file_that_is_renamed_midway_takes_all_bytes(rt: HostRuntime) -> Result<(), Fail> {
    let alloc = rt.alloc();
    let mut shelf = FileShelf::new(alloc, &rt);
    shelf.create("run_tests_before.tmp")?;
    shelf.append("run_tests_before.tmp", b"wire ")?;
    fs::rename(&rt, "run_tests_before.tmp", "run_tests_after.tmp")?;
    append_twice(&mut shelf, "run_tests_before.tmp")?;
    assert!(rt;
        reads(
            alloc,
            &mut shelf,
            "run_tests_after.tmp",
            99,
            b"wire endmodule"
        )?
    );
    let gone = shelf.read(alloc, "run_tests_before.tmp", 9).err();
    assert_eq!(rt; gone, Some(ReadError::Missing));
    fs::remove_file(&rt, "run_tests_after.tmp")?;
    Ok(())
}

#[test]
fn a_file_of_another_name_is_opened(rt: HostRuntime) -> Result<(), Fail> {
    let alloc = rt.alloc();
    let mut shelf = FileShelf::new(alloc, &rt);
    shelf.create("run_tests_kept.tmp")?;
    append_twice(&mut shelf, "run_tests_other.tmp")?;
    assert!(rt; reads(alloc, &mut shelf, "run_tests_other.tmp", 99, b"endmodule")?);
    assert!(rt; reads(alloc, &mut shelf, "run_tests_kept.tmp", 99, b"")?);
    fs::remove_file(&rt, "run_tests_kept.tmp")?;
    fs::remove_file(&rt, "run_tests_other.tmp")?;
    Ok(())
}

// The name of the writing end is gone before the first bytes are appended.
#[test]
fn a_pipe_takes_all_bytes(rt: HostRuntime) -> Result<(), Fail> {
    let alloc = rt.alloc();
    let (mut reader, writer) = io::pipe(&rt)?;
    let name = format!(in alloc; "/proc/self/fd/{}", writer.as_raw_fd())?;
    let mut shelf = FileShelf::new(alloc, &rt);
    shelf.create(&name)?;
    drop(writer);
    append_twice(&mut shelf, &name)?;
    let mut buffer = [0; 16];
    let count = reader.read(&mut buffer)?;
    assert_eq!(rt; &buffer[..count], b"endmodule".as_slice());
    Ok(())
}

// Appends so many bytes to a new file; how many are read back, up to the limit.
fn long_file<S: Shelf>(
    alloc: Global,
    shelf: &mut S,
    name: &str,
    len: usize,
    limit: u64,
) -> Result<usize, ReadError> {
    let bytes = vec![in alloc; b'7'; len]?;
    if shelf.create(name).is_err() || shelf.append(name, &bytes).is_err() {
        return Err(ReadError::Failed);
    }
    Ok(shelf.read(alloc, name, limit)?.len())
}

#[test]
fn files_of_many_blocks(rt: HostRuntime) -> Result<(), Fail> {
    let alloc = rt.alloc();
    let name = "run_tests_long.tmp";
    let mut shelf = FileShelf::new(alloc, &rt);
    let whole = long_file(alloc, &mut shelf, name, 150_000, 200_000);
    assert_eq!(rt; whole, Ok(150_000));
    let first = long_file(alloc, &mut shelf, name, 150_000, 140_000);
    assert_eq!(rt; first, Ok(140_000));
    fs::remove_file(&rt, name)?;
    Ok(())
}

// A folder can't be written or read, and a full device takes no bytes.
#[test]
fn failed_calls_are_told(rt: HostRuntime) -> Result<(), Fail> {
    let alloc = rt.alloc();
    let mut shelf = FileShelf::new(alloc, &rt);
    assert_eq!(rt; shelf.create("."), Err(ShelfError::Failed));
    shelf.create("/dev/full")?;
    assert_eq!(rt; shelf.append("/dev/full", b"x"), Err(ShelfError::Failed));
    assert_eq!(rt; shelf.read(alloc, "./", 4).err(), Some(ReadError::Failed));
    assert_eq!(rt; shelf.failed(), Some("./"));
    assert_eq!(rt; shelf.faults(), 3);
    Ok(())
}

#[test]
fn standard_output_takes_bytes(rt: HostRuntime) -> Result<(), Fail> {
    let mut sink = StdSink::new(&rt);
    assert_eq!(rt; sink.put(b"put by a test\n"), Ok(()));
    assert_eq!(rt; sink.faults(), 0);
    Ok(())
}

// The first bytes of any reader, all bytes to any writer, and what it means that a file didn't open.
ghost use Rattle.std.specs.Prelude.{◌≡◌, ◌≢◌, ◌+◌, ◌<◌, ◌≤◌, ℕ, IfOk, IfErr, IfSome, OnOk, IsOk, IsTrue, length, take, vec_len};
ghost use Rattle.std.specs.Io.{ReadsAtMost, StartsWith, WritesAtMost, appended_bytes};
ghost use Rattle.std.specs.Io.KnownBytes.{Appends, Consumes, IsAtEnd, ReadConsumes, WriteAppends};
ghost use Rattle.std.specs.IoError.{error_kind};
ghost use Rattle.sg_io.specs.Opening.{opening_error, writing_error};

use crate::{ReadError, ShelfError};
use std::alloc::{AllocError, Global};
use std::io::{self, ErrorKind, Read, Write};

// What it means that a file didn't open that is to be read.
fn opening_error(kind: ErrorKind) -> ReadError
    ensures { result ≡ opening_error kind }
{
    match kind {
        ErrorKind::NotFound => ReadError::Missing,
        ErrorKind::OutOfMemory => ReadError::NoMemory,
        _ => ReadError::Failed,
    }
}

/// What it means that a file didn't open that is to be written.
pub fn writing_error(kind: ErrorKind) -> ShelfError
    ensures { result ≡ writing_error kind }
{
    match kind {
        ErrorKind::OutOfMemory => ShelfError::NoMemory,
        _ => ShelfError::Failed,
    }
}

/// The first `limit` bytes of a file that opened, or why there are none.
pub fn read_opened<F: Read + Drop>(
    alloc: Global,
    opened: io::Result<F>,
    limit: u64,
) -> Result<Vec<u8>, ReadError>
    ensures bytes { IfOk opened (λ file. IfSome (F.remaining file)
        (λ all. IfOk result (λ v. v.items ≡ take limit all))) }
    ensures limit { IfOk result (λ v. vec_len v ≤ limit) }
    ensures refused { IfErr opened (λ e. result ≡ Err (opening_error (error_kind e))) }
    ensures there { IsOk opened → IfErr result (λ e. e ≢ ReadError.Missing) }
{
    match opened {
        Ok(mut file) => read_up_to(alloc, &mut file, limit),
        Err(e) => Err(opening_error(e.kind())),
    }
}

const BLOCK: usize = 65536;

// Room for so many bytes. The number is a parameter, so that no proof writes the bytes out.
fn buffer_of(alloc: Global, len: usize) -> Result<Vec<u8>, AllocError>
    ensures { IfOk result (λ v. vec_len v ≡ len) }
{
    vec![in alloc; 0u8; len]
}

// The first `limit` bytes that the reader has, or all where they are fewer. Each turn takes a byte at least.
fn read_up_to<F: Read>(alloc: Global, reader: &mut F, limit: u64) -> Result<Vec<u8>, ReadError>
    ensures bytes { IfSome (F.remaining reader.old) (λ all. IfOk result (λ v. v.items ≡ take limit all)) }
    ensures limit { IfOk result (λ v. vec_len v ≤ limit) }
    ensures there { IfErr result (λ e. e ≢ ReadError.Missing) }
{
    let mut bytes = Vec::new(alloc);
    let mut buffer = buffer_of(alloc, BLOCK)?;
    let mut left = limit;
    while left > 0 {
        let most = usize::try_from(left).unwrap_or(BLOCK).min(BLOCK);
        let count = add_read(reader, &mut buffer[..most], &mut bytes)?;
        if count == 0 {
            return Ok(bytes);
        }
        left -= count as u64;
    }
    Ok(bytes)
}

// Adds what one read into the buffer gives; how many bytes those are, none only at the end.
fn add_read<F: Read>(
    reader: &mut F,
    buffer: &mut [u8],
    bytes: &mut Vec<u8>,
) -> Result<usize, ReadError>
    ensures most { IfOk result (λ n. n ≤ length buffer.old) }
    ensures grows { IfOk result (λ n. vec_len bytes.new ≡ vec_len bytes.old + n) }
    ensures starts { OnOk result (StartsWith bytes.new.items bytes.old.items) }
    ensures read { OnOk result (Consumes (F.remaining reader.old) (F.remaining reader.new)
        (appended_bytes bytes.old.items bytes.new.items)) }
    ensures end { IfOk result (λ n. n ≡ 0 → 0 < length buffer.old → IsAtEnd (F.remaining reader.new)) }
    ensures there { IfErr result (λ e. e ≢ ReadError.Missing) }
{
    let Ok(count) = read_some(reader, buffer) else {
        return Err(ReadError::Failed);
    };
    bytes.extend_from_slice(&buffer[..count])?;
    Ok(count)
}

// One read, again where a signal interrupts it.
fn read_some<F: Read>(reader: &mut F, buffer: &mut [u8]) -> io::Result<usize>
    ensures bound { ReadsAtMost result buffer.new }
    ensures bytes { ReadConsumes (F.remaining reader.old) (F.remaining reader.new) result buffer.new }
{
    for _ in 0..u64::MAX {
        match reader.read(buffer) {
            Ok(count) => return Ok(count),
            Err(e) => {
                if e.kind() != ErrorKind::Interrupted {
                    return Err(e);
                }
            }
        }
    }
    Err(io::Error::from(ErrorKind::TimedOut))
}

/// Whether all bytes were added and flushed. Where not, the first of them may have been added.
pub fn write_whole<W: Write>(writer: &mut W, bytes: &[u8]) -> bool
    ensures whole { IsTrue result → Appends (W.contents writer.old) (W.contents writer.new) bytes.now }
    ensures part { (taken : ℕ) × Appends (W.contents writer.old) (W.contents writer.new) (take taken bytes.now) }
{
    let mut rest = bytes;
    while !rest.is_empty() {
        let Ok(count) = write_some(writer, rest) else {
            return false;
        };
        if count == 0 {
            return false;
        }
        rest = &rest[count..];
    }
    writer.flush().is_ok()
}

// One write, again where a signal interrupts it.
fn write_some<W: Write>(writer: &mut W, bytes: &[u8]) -> io::Result<usize>
    ensures bound { WritesAtMost result bytes.now }
    ensures bytes { WriteAppends (W.contents writer.old) (W.contents writer.new) result bytes.now }
{
    for _ in 0..u64::MAX {
        match writer.write(bytes) {
            Ok(count) => return Ok(count),
            Err(e) => {
                if e.kind() != ErrorKind::Interrupted {
                    return Err(e);
                }
            }
        }
    }
    Err(io::Error::from(ErrorKind::TimedOut))
}

/// Adds bytes to a file that opened, or tells why there is none.
pub fn write_opened<F: Write + Drop>(opened: io::Result<F>, bytes: &[u8]) -> Result<(), ShelfError>
    ensures refused { IfErr opened (λ e. result ≡ Err (writing_error (error_kind e))) }
    ensures failed { IsOk opened → result ≢ Err ShelfError.NoMemory }
{
    match opened {
        Ok(mut file) => {
            if write_whole(&mut file, bytes) {
                Ok(())
            } else {
                Err(ShelfError::Failed)
            }
        }
        Err(e) => Err(writing_error(e.kind())),
    }
}

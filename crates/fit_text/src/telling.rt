// Words of what is told.
use itoa::Buffer;
use sg_text::NoMemory;

/// Adds where a text comes from: its file and line, or the command line.
pub fn push_origin(text: &mut Vec<u8>, file: &[u8], line: u64) -> Result<(), NoMemory> {
    text.extend_from_slice(b" of ")?;
    if file.is_empty() {
        text.extend_from_slice(b"--define")?;
        return Ok(());
    }
    text.extend_from_slice(file)?;
    text.push(b':')?;
    let mut buffer = Buffer::new();
    text.extend_from_slice(buffer.format(line).as_bytes())?;
    Ok(())
}

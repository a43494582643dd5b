// Names as they are written.
use sg_text::{NoMemory, is_name_start, is_reserved};
use vl_pieces::name_len;

/// Whether the bytes are a name that is written without a backslash (IEEE 1364-2005, 3.7).
pub fn is_plain_name(name: &[u8]) -> bool {
    match name {
        [first, rest @ ..] => {
            is_name_start(*first) && name_len(rest) == rest.len() && !is_reserved(name)
        }
        [] => false,
    }
}

/// Adds a name as it is written: an escaped one with its backslash and the blank that ends it.
pub fn push_name(text: &mut Vec<u8>, name: &[u8]) -> Result<(), NoMemory> {
    if is_plain_name(name) {
        text.extend_from_slice(name)?;
        return Ok(());
    }
    text.push(b'\\')?;
    text.extend_from_slice(name)?;
    text.push(b' ')?;
    Ok(())
}

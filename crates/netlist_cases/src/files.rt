// The files of a line.
use std::alloc::{AllocError, Global};

// What stands for what a line can't hold.
fn byte_for(mark: char) -> char {
    match mark {
        '↵' => '\n',
        '␁' => '\u{1}',
        '␡' => '\u{7f}',
        other => other,
    }
}

fn file_of(alloc: Global, text: &str) -> Result<Vec<u8>, AllocError> {
    let mut file = String::new(alloc);
    for mark in text.chars() {
        file.push(byte_for(mark))?;
    }
    Ok(file.into_bytes())
}

pub fn files_of(alloc: Global, line: &str) -> Result<Vec<Vec<u8>>, AllocError> {
    let mut files = Vec::new(alloc);
    for text in line.split('‖') {
        files.push(file_of(alloc, text)?)?;
    }
    Ok(files)
}

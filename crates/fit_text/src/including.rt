// Files that are included.
use crate::given::Included;
use crate::reader::{Reader, Wanted};
use crate::sources::Source;
use fit_macros::{cut, gap_size, line_size};
use sg_text::NoMemory;

/// The name of a file behind `include`, and the size with its quotes.
pub fn included_name(text: &[u8]) -> Option<(&[u8], usize)> {
    let gaps = gap_size(text);
    let (closing, inner) = match cut(text, gaps).1 {
        [b'"', inner @ ..] => (b'"', inner),
        [b'<', inner @ ..] => (b'>', inner),
        _ => return None,
    };
    let line = cut(inner, line_size(inner)).0;
    let size = line.iter().position(|b| *b == closing)?;
    Some((
        cut(line, size).0,
        gaps.saturating_add(size).saturating_add(2),
    ))
}

// The marks of UTF-8 and UTF-16.
fn has_byte_order_mark(text: &[u8]) -> bool {
    matches!(
        text,
        [0xef, 0xbb, 0xbf, ..] | [0xfe, 0xff, ..] | [0xff, 0xfe, ..]
    )
}

impl<'t> Reader<'t> {
    /// The file that is included under a name, if it is known whether there is one.
    pub fn included(&self, from: &[u8], name: &[u8]) -> Option<&'t Included> {
        let included: &'t [Included] = self.given.included;
        included.iter().find(|file| file.from.as_slice() == from && file.name.as_slice() == name)
    }

    /// Keeps the first file that isn't known yet.
    pub fn want(&mut self, from: &[u8], name: &[u8]) -> Result<(), NoMemory> {
        if self.wanted.is_none() {
            let from = Vec::from_slice(self.alloc, from)?;
            let name = Vec::from_slice(self.alloc, name)?;
            self.wanted = Some(Wanted { from, name });
        }
        Ok(())
    }

    /// Tells a byte-order mark at the front of a file.
    pub fn tell_mark(&mut self, source: Source<'t, '_>) -> Result<(), NoMemory> {
        if has_byte_order_mark(source.rest) {
            let help = b"save the file as UTF-8 without its byte-order mark";
            self.tell("ByteOrderMark", help, source)?;
        }
        Ok(())
    }
}

// The pieces of a text that is replaced.
use vl_pieces::{Class, Mode, first_piece, is_among};

const DIRECTIVES: [&str; 21] = [
    "`begin_keywords",
    "`celldefine",
    "`default_nettype",
    "`define",
    "`else",
    "`elsif",
    "`end_keywords",
    "`endcelldefine",
    "`endif",
    "`ifdef",
    "`ifndef",
    "`include",
    "`line",
    "`nounconnected_drive",
    "`pragma",
    "`resetall",
    "`timescale",
    "`unconnected_drive",
    "`undef",
    "`protect",
    "`endprotect",
];

// No text that is read is longer.
const MOST: usize = 1 << 60;

/// Whether a directive may stand in a text.
pub fn has_directive(text: &[u8]) -> bool {
    let mut rest = text;
    while !rest.is_empty() {
        if rest.len() > MOST {
            return true;
        }
        let (class, size) = first_piece(Mode::Plain, rest);
        if class == Class::Use && is_among(&DIRECTIVES, &rest[..size]) {
            return true;
        }
        rest = &rest[size..];
    }
    false
}

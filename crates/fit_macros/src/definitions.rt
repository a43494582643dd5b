// The definition of a macro (IEEE 1364-2005, 19.3.1).
use crate::pieces::{behind_blanks, cut, feeds};
use sg_text::is_name_start;
use vl_pieces::name_len;

const LINE_FEED: u8 = b'\n';

/// A definition: the macro's name, the names of its arguments between their parentheses, its text behind blanks, the size
/// of what stands before its text, and that of all.
#[derive(Clone, Copy)]
pub struct Definition<'t> {
    pub name: &'t [u8],
    pub parameters: Option<&'t [u8]>,
    pub text: &'t [u8],
    pub head: usize,
    pub size: usize,
}

impl<'t> Definition<'t> {
    /// Whether it is one line without arguments.
    pub fn is_simple(self) -> bool {
        self.parameters.is_none() && feeds(self.text) == 0
    }
}

// How many bytes stand before the first end of a line without a backslash before it.
fn size_of_lines(text: &[u8]) -> usize {
    let mut size = 0;
    let mut before = 0;
    for (at, b) in text.iter().enumerate() {
        if *b == LINE_FEED && before != b'\\' {
            return size;
        }
        if *b != b'\r' {
            before = *b;
            size = at.saturating_add(1);
        }
    }
    size
}

// The names in parentheses at the front of a text, and what is behind them.
fn parameters_of(text: &[u8]) -> Option<(&[u8], &[u8])> {
    let size = text.iter().position(|b| *b == b')')?;
    let (names, rest) = cut(text, size);
    Some((names, cut(rest, 1).1))
}

/// The definition behind the directive's name.
pub fn definition_of<'t>(text: &'t [u8]) -> Option<Definition<'t>> {
    let (lines, _) = cut(text, size_of_lines(text));
    let named = behind_blanks(lines);
    if named.len() == lines.len() || !is_name_start(*named.first()?) {
        return None;
    }
    let (name, rest) = cut(named, name_len(named));
    let (parameters, text) = match rest {
        [b'(', inner @ ..] => {
            let (names, text) = parameters_of(inner)?;
            (Some(names), text)
        }
        _ => (None, rest),
    };
    Some(Definition {
        name,
        parameters,
        text: behind_blanks(text),
        head: lines.len().saturating_sub(text.len()),
        size: lines.len(),
    })
}

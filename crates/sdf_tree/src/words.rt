// What words are, by what stands in them.
ghost use Rattle.std.specs.Prelude.{◌≡◌, ◌||◌, is_some};
ghost use Rattle.sdf_lex.specs.Names.{path_parts};
ghost use Rattle.sdf_tree.specs.Words as words;
ghost use Rattle.sdf_tree.specs.PathWords.{are_names, path_name};

use sdf_lex::{first_part, is_instance_name, is_name};

/// What joins the names of a path.
#[derive(Clone, Copy, Debug, PartialEq, Eq)]
pub enum Divider {
    /// `.`
    Point,
    /// `/`
    Slash,
}

impl Divider {
    /// The divider that a word is.
    pub fn of(text: &[u8]) -> Option<Divider>
        ensures { result ≡ words.divider_of text.now }
    {
        match text {
            b"." => Some(Divider::Point),
            b"/" => Some(Divider::Slash),
            _ => None,
        }
    }

    /// The byte that joins names.
    pub fn byte(self) -> u8
        ensures { result ≡ words.divider_byte self }
    {
        match self {
            Divider::Point => b'.',
            Divider::Slash => b'/',
        }
    }
}

fn is_path_name(part: &[u8], brackets: bool) -> bool
    ensures { result ≡ path_name brackets part.now }
{
    if brackets {
        return is_instance_name(part);
    }
    is_name(part)
}

// Whether brackets may stand in a part of a path: they may where another is behind it.
fn takes_brackets(behind: Option<&[u8]>, brackets: bool) -> bool
    ensures { result ≡ (brackets || is_some behind.entry) }
{
    brackets || behind.is_some()
}

// Whether bytes are names with the divider between two of them, where brackets may stand in the last or not.
fn is_path(bytes: &[u8], divider: u8, brackets: bool) -> bool
    ensures { result ≡ are_names brackets (path_parts divider bytes.now) }
{
    let mut left = Some(bytes);
    'more: while let Some(path) = left {
        let (part, behind) = first_part(divider, path);
        if !is_path_name(part, takes_brackets(behind, brackets)) {
            return false;
        }
        left = behind;
    }
    true
}

/// Whether a word is a port's or a net's path: names of letters, digits, `_` and `$`, or of any byte behind a backslash, with
/// the divider between two of them. Brackets may stand in those of instances, which lead to the last.
pub fn is_port_path(divider: Divider, text: &[u8]) -> bool
    ensures { result ≡ words.is_port_path divider text.now }
{
    is_path(text, divider.byte(), false)
}

/// Whether a word is an instance's path: the same, with brackets in each name.
pub fn is_instance_path(divider: Divider, text: &[u8]) -> bool
    ensures { result ≡ words.is_instance_path divider text.now }
{
    is_path(text, divider.byte(), true)
}

/// Whether a word begins with a sign, a digit or a point.
pub fn begins_number(text: &[u8]) -> bool
    ensures { result ≡ words.begins_number text.now }
{
    match text {
        [first, ..] => {
            first.is_ascii_digit() || *first == b'+' || *first == b'-' || *first == b'.'
        }
        [] => false,
    }
}

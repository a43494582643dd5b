// Sections of a dump's header and items behind it, as they are written.

/// `$var`: its place, the width, the code, the name, and the range where it stands apart.
#[derive(Clone, Copy, Debug)]
pub struct Declaration<'a> {
    pub byte: usize,
    pub width: u32,
    pub code: &'a [u8],
    pub name: &'a [u8],
    pub range: Option<&'a [u8]>,
}

/// A section of the header.
#[derive(Clone, Copy, Debug)]
pub enum Section<'a> {
    /// `$date`, `$version` or `$comment`.
    Remark,
    /// The power of ten of a second.
    Timescale(i8),
    /// `$scope`, with its name.
    Enters(&'a [u8]),
    /// `$upscope`.
    Leaves,
    Declares(Declaration<'a>),
}

/// What stands behind the header.
#[derive(Clone, Copy, Debug)]
pub enum Item<'a> {
    /// A comment, or a word without effect.
    Nothing,
    Instant {
        byte: usize,
        digits: &'a [u8],
    },
    /// A value, its place and that of its code.
    Value {
        byte: usize,
        code_byte: usize,
        bits: &'a [u8],
        code: &'a [u8],
    },
    Real {
        byte: usize,
        code_byte: usize,
        code: &'a [u8],
    },
}

// A word of a dump's text.
/// A word, and the place of its first byte.
#[derive(Clone, Copy, Debug)]
pub struct Word<'a> {
    pub byte: usize,
    pub bytes: &'a [u8],
}

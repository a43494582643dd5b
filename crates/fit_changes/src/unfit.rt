// A place that can't be taken.

/// A place of a file that can't be taken, and that no rule helps.
#[derive(Debug, Drop)]
pub struct Unfit {
    /// The number of the file in its list, from 0.
    pub file: u32,
    /// The line, from 1.
    pub line: u64,
    /// Why: a word, and what it is about.
    pub kind: Vec<u8>,
    /// The name of the module or primitive; empty where there is none.
    pub part: Vec<u8>,
}

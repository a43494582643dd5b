// What the texts are read with, and what comes of them.
use fit_changes::{Changes, Unfit};

/// The name under which an included file was read, and its text.
#[derive(Drop)]
pub struct Found {
    pub path: Vec<u8>,
    pub text: Vec<u8>,
}

/// A file of some name that one of the files includes: in which (as it was named), and what was read. None: there is no
/// such file.
#[derive(Drop)]
pub struct Included {
    pub from: Vec<u8>,
    pub name: Vec<u8>,
    pub found: Option<Found>,
}

/// What the texts are read with: their names, the macros that stand before the first of them, as `NAME` or `NAME=TEXT`,
/// and the files that were included by now.
#[derive(Clone, Copy)]
pub struct Given<'g> {
    pub names: &'g [&'g str],
    pub defines: &'g [&'g str],
    pub included: &'g [Included],
}

/// What comes of the texts.
#[derive(Drop)]
pub enum Expansion<'a> {
    /// Each text with its changes.
    Expanded(Vec<Changes<'a>>),
    /// A file isn't known yet that is included: in which, and its name there.
    Wants { from: Vec<u8>, name: Vec<u8> },
    /// The places that can't be taken, in the order of files and lines.
    Unfit(Vec<Unfit>),
}

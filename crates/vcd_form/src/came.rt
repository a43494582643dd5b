// What came before a section.
/// Whether a timescale did, and how many scopes are open.
#[derive(Clone, Copy, Debug)]
pub struct Came {
    pub scaled: bool,
    pub depth: usize,
}

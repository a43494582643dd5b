// Nets of one bit, and what drives them.
use sg_text::Text;

/// The number of a net: its place in a circuit's list of nets.
pub type NetId = u32;

/// What drives a net (IEEE 1364-2005, 6.1, 7.1, 15.5).
#[derive(Clone, Copy, Debug, PartialEq, Eq)]
pub enum Driver {
    Nobody,
    Stimulus,
    /// The element of this number.
    Element(u32),
    /// The timing checks that name it as their notifier, if any do: it is a reg.
    Notifier,
}

/// A net, one bit wide (IEEE 1364-2005, 4.2).
#[derive(Debug, Drop)]
pub struct Net {
    /// The outermost scope that has the net.
    pub scope: u32,
    /// Its name there.
    pub name: Text,
    /// Which bit it is of a vector of that name.
    pub bit: Option<i64>,
    pub driver: Driver,
}

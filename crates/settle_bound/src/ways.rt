// The ways from net to net, over the hops' numbers: first those of the elements, then those of the timing checks.
use sg_circuit::{FanOut, Pin};

/// The net that a hop drives, and its weight: how many ticks it takes at the most.
#[derive(Clone, Copy, Drop)]
pub struct Link {
    pub driven: u32,
    pub weight: u64,
}

/// So many nets, and what leads from one to another.
#[derive(Drop)]
pub struct Ways {
    pub nets: u32,
    /// The link of each hop.
    pub links: Vec<Link>,
    /// Which hop reads which net.
    pub pins: Vec<Pin>,
    /// The hops that read each net.
    pub readers: FanOut,
}

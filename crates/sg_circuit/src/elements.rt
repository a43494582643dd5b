// Elements: what drives the nets of a circuit.
use crate::{NetId, Span};
use sg_delay::{Delays12, Limits12, PulseStyle};
use sg_logic::{GateKind, Value};
use smallvec::SmallVec;
use udp_rows::UdpRows;

/// What an element is. Delays stand in tables of the circuit, which share what instances of a module have in common.
#[derive(Clone, Copy, Debug, PartialEq, Eq)]
pub enum ElementKind {
    /// A gate (IEEE 1364-2005, 7.1). `delays` is a place in `Parts::gate_delays`.
    Gate { kind: GateKind, delays: u32 },
    /// A user-defined primitive (IEEE 1364-2005, clause 8). `udp` is a place in `Parts::udps`, `delays` one in
    /// `Parts::gate_delays`.
    Udp { udp: u32, delays: u32 },
    /// A continuous assignment of a constant, or else of its input (IEEE 1364-2005, 6.1).
    Pass { constant: Option<Value> },
    /// The way to an input port's bit of an instance (IEEE 1364-2005, 14.1; IEEE 1497-2001, interconnect delays). `timing` is a place in
    /// `Parts::leg_timings`.
    Leg { timing: u32 },
    /// The way to an output port's bit to which specify paths lead, from the net that is driven inside (IEEE 1364-2005, 14.2). `paths` are places in
    /// `Parts::paths`, and `style` says how an error pulse is shown.
    Path { paths: Span, style: PulseStyle },
    /// A copy of the input that comes so many ticks later: the signal that a timing check with a negative limit sees (IEEE 1364-2005, 15.8).
    Late { delay: u64 },
}

/// An element: the nets that it reads, and the one that it drives.
#[derive(Debug, Drop)]
pub struct Element {
    pub scope: u32,
    pub inputs: SmallVec<NetId, 4>,
    pub output: NetId,
    pub kind: ElementKind,
}

const _: () = prove!(size_of::<Element>() <= 64);

/// A user-defined primitive, and the state that its instances have before time 0 (IEEE 1364-2005, 8.5).
#[derive(Debug, Drop)]
pub struct UdpUse {
    pub rows: UdpRows,
    pub first: Value,
}

/// A delay and limits for each of the twelve transitions, in ticks.
#[derive(Clone, Copy, Debug, PartialEq, Eq)]
pub struct LegTiming {
    pub delays: Delays12,
    pub limits: Limits12,
}

//! SDF files (IEEE 1497-2001): what they are as trees, as they are written and as they are meant, and their grammar.
#![tactic(auto)]

mod constants;
mod keywords;
mod tree;
mod units;
mod words;
mod written;

pub use constants::constant_of;
pub use keywords::Keyword;
pub use tree::{
    Cell, CellCheck, DelayValue, Edge, Entry, EntryKind, Instance, LimitPair, PairCheck,
    PathCondition, Port, PortPair, Sdf, SingleCheck, Skipped, Terminal, WindowCheck,
};
pub use units::{joined_unit, scale_power, scaled, unit_of};
pub use words::{Divider, begins_number, is_instance_path, is_port_path};
pub use written::{
    WrittenBody, WrittenCell, WrittenCheck, WrittenCheckBody, WrittenDelay, WrittenEntry,
    WrittenFile, WrittenFilePart, WrittenGroup, WrittenHead, WrittenLimits, WrittenNumber,
    WrittenPart, WrittenValue,
};

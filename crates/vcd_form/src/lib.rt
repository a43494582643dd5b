//! The form of value change dumps (IEEE 1364-2005, 18.2): their words, and the grammar of their header and values.
#![tactic(auto)]

mod came;
mod cursor;
mod header;
mod items;
mod kinds;
mod laws;
mod ranges;
mod scales;
mod sections;
mod steps;
mod word;
mod words;
mod written;

pub use cursor::Words;
pub use header::read_header;
pub use items::next_item;
pub use laws::one_dump;
pub use ranges::is_range_text;
pub use written::{Declaration, Item, Section};

//! Reads a value change dump as the stimulus of a circuit (IEEE 1364-2005, 18.2).
#![tactic(auto)]

mod again;
mod bits;
mod clock;
mod faults;
mod index;
mod items;
mod names;
mod paths;
mod reading;
mod sections;
mod steps;
mod times;

pub use again::read_vcd;

//! The nets of a circuit in order, and the number of the net of each bit of each instance.
#![tactic(auto)]

mod bit_nets;
mod copies;
mod ends;
mod inputs;
mod limit;
mod member_bits;
mod members;
mod outside;
mod own;
mod parts;
mod rows;
mod terminals;
mod turns;
mod writing;

pub use elab_modules::{
    DelayedCopy, Library, PlacedCopy, Prepared, Ready, find_module, library_of, module_at,
    output_count,
};
pub use rows::{Rows, rows_of};

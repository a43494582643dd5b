//! The elements of a circuit, in order.
#![tactic(auto)]

mod children;
mod driven;
mod elements;
mod gates;
mod instances;
mod lates;
mod legs;
mod members;
mod own_legs;
mod passes;
mod paths;
mod placing;
mod ports;
mod primitives;
mod reading;
mod terminals;
mod turns;

pub use elab_nets::{Library, Prepared, Ready, Rows, library_of, module_at, rows_of};
pub use elements::elements_in;
pub use placing::Placing;

//! Whether no rule of `fit` concerns a netlist: it is taken as it stands, and no cell has an instance of a module.
#![tactic(auto)]

mod flat;
mod inside;

pub use inside::{end_of, is_inside};

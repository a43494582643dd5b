//! `print`: tokens that spell the syntax tree of a netlist.
#![tactic(auto)]

mod amounts;
mod checks;
mod expressions;
mod items;
mod lists;
mod modules;
mod paths;
mod primitives;
mod specify;
mod tokens;
mod words;

pub use modules::print;

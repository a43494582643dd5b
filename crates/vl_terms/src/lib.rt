//! Readers of the smaller parts of netlists, which those of modules and specify blocks are made of: names, expressions, delays,
//! user-defined primitives, and the terms, amounts, edges and conditions of specify blocks (IEEE 1364-2005, 14.2.4 and 15.6), by the
//! grammar of the crate `vl_tree`. Each reads a rule from a position among the tokens on, and gives the value and the position
//! behind it, or the failing token.
#![tactic(auto)]

mod bits;
pub mod conditions;
pub mod delays;
pub mod expressions;
pub mod lists;
pub mod names;
pub mod primitives;
mod rows;
pub mod specify;
pub mod tokens;
mod words;

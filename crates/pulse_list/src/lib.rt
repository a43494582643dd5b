//! The transitions that drivers have pending, and the two rules by which a value is placed among them.
#![tactic(auto)]

mod agenda;
mod placing;
mod plain;

pub use agenda::Agenda;
pub use placing::{end_value, place, place_inertial};
pub use plain::PlainAgenda;

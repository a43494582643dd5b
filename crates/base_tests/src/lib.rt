//! What no clause says of the base crates: that the calls that take memory succeed, and the texts of their errors.
#![tactic(auto)]

#[cfg(test)]
mod conditions;
#[cfg(test)]
mod texts;

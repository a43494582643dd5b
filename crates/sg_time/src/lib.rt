//! Decimal numbers as texts spell them, and the ticks that they count.
#![tactic(auto)]

mod decimal;
mod reading;
mod scaling;
mod units;

pub use decimal::{Decimal, TimeError};
pub use units::{Scale, Unit};

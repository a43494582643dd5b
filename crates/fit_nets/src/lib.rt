//! Rules for ports, nets, gates and instances: power pins, supplies, pulls, strengths, arrays and constants.
#![tactic(auto)]

mod arrays;
mod bits;
pub mod constants;
pub mod power_pins;
pub mod pulls;
mod removing;
mod strengths;
pub mod supplies;

pub use arrays::array_asks;
pub use pulls::Known;
pub use strengths::strength_asks;
pub use supplies::Supplies;

//! What elaboration is: from the syntax tree of a netlist to its nets and elements, as definitions, and why a netlist is refused; numbers of a corner in ticks.
#![tactic(auto)]

mod corners;
mod kinds;

pub use corners::ticks;
pub use kinds::ElabKind;

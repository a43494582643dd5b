//! The timing checks of a module: its specify blocks' checks in text order, in ticks and over the bits of its variables, and what is refused.
#![tactic(auto)]

mod checks;
mod copies;
mod events;
mod parts;
mod regs;

pub use checks::{CheckLimits, ModuleCheck, module_checks};
pub use events::ModuleEvent;
pub use specify_values::Measure;

//! The circuit that is simulated: nets, and the elements that drive them, in scopes.
#![tactic(auto)]

mod building;
mod checks;
mod circuits;
mod elements;
mod fan_out;
mod nets;
mod paths;
mod scopes;

pub use building::{Pin, add_pins};
pub use checks::{Check, CheckConditions, CheckKind, CheckTiming, Event, Terminal, Zero};
pub use circuits::{Circuit, Parts};
pub use elements::{Element, ElementKind, LegTiming, UdpUse};
pub use fan_out::FanOut;
pub use nets::{Driver, Net, NetId};
pub use paths::{Path, PathCondition, Span};
pub use scopes::{Port, Range, Scope, Variable};
pub use sg_delay::Corner;

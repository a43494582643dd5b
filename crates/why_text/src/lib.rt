//! The causes of changes as text: the lines of a chain, and what is told of a net and of a violation.
#![tactic(auto)]

mod chains;
mod finding;
mod lines;
mod parting;
mod pins;
mod toggles;
mod told;

pub use finding::{find_net, find_violation};
pub use parting::{check_nets, violation_causes};
pub use told::{Told, net_causes};

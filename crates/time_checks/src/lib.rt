//! What timing checks are made on, and what they find.
#![tactic(auto)]

mod adjusted;
mod change_sets;
mod changes;
mod checker;
mod events;
mod judging;
mod latest;
mod laws;
mod parts;
mod recent;
mod seeing;
mod touching;
mod violations;
mod watches;
mod windows;

pub use changes::Change;
pub use checker::Checker;
pub use latest::Latest;
pub use laws::{earlier_events_count_by_their_latest, same_nets_stay, untouched_checks_stay};
pub use violations::{Part, Violation};

//! The report of a run: unmatched entries of its SDF, limits that were taken as 0, violations, and how it ended.
#![tactic(auto)]

mod bits;
mod paths;
mod report;
mod unmatched;
mod violations;
mod zeroed;

pub use bits::push_bit;
pub use paths::{push_net, push_path};
pub use report::{ReportEnd, Spent, spent_text, write_report, write_stopped};
pub use unmatched::push_unmatched;
pub use violations::push_violation;

//! Changes of a text, and the report that tells each of them.
#![tactic(auto)]

mod changes;
mod lines;
mod report;
mod rules;
mod unfit;

pub use changes::{Change, Changes};
pub use lines::{Line, add_lines, sort_lines};
pub use report::{are_told, push_counts, push_lines, push_told};
pub use rules::Rule;
pub use unfit::Unfit;

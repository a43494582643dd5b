//! Entries of SDF files in a wider form than that which is taken: they are read from tokens, and written again.
#![tactic(auto)]

mod conditions;
mod drafts;
mod groups;
mod meanings;
mod numbers;
mod ports;
mod spelling;
mod terms;
mod writing;

pub use conditions::{Condition, condition_of};
pub use drafts::{Draft, When, keyword_of, read_draft};
pub use groups::{is_group, parts_of};
pub use meanings::none_of;
pub use numbers::{
    Corners, corners_of, has_long_exponent, has_typical, is_value, larger_of, push_corners,
    smaller_of,
};
pub use ports::{Bits, Port};
pub use spelling::{end_of, push_tokens};
pub use terms::Term;
pub use writing::{push_draft, push_front, push_term, push_word};

//! The bytes of tokens, tokens as they are spelled, and changes that are asked for.
#![tactic(auto)]

mod edits;
mod names;
mod spans;
mod spelled;

pub use edits::{Edit, add_edits, edit_of, joined_text};
pub use names::{is_plain_name, push_name};
pub use spans::{Span, joined, piece_of, span_of, span_of_all, text_of};
pub use spelled::push_token;

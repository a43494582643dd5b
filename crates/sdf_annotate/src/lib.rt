//! Annotation of a circuit from an SDF file.
#![tactic(auto)]

mod annotating;
mod entries;
mod limits;
mod notes;
mod scales;
mod search;
mod streamed;
mod tasks;
mod timings;
mod unmatched;
mod values;
mod words;

pub use annotating::annotate;
pub use streamed::annotate_text;
pub use unmatched::{AnnotError, Unmatched};

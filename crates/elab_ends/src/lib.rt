//! The output bits to which a module's specify paths lead, each once, in text order; the bits of terms, as places in the row of bits of its table.
#![tactic(auto)]

mod ends;
mod terms;

pub use ends::{PathEnds, path_ends};
pub use terms::{expression_of, terms_bits};

//! The source files of a design, as their readers share them: where a byte stands, the texts that are kept, why a file
//! is refused, plain names, and the reserved words.
#![tactic(auto)]

mod names;
mod places;
mod refusals;
mod texts;
mod words;

pub use names::{is_name_byte, is_name_start, is_simple_name};
pub use places::Place;
pub use refusals::{NoMemory, Refused};
pub use texts::Text;
pub use words::{Keyword, Reserved, is_reserved, use_of};

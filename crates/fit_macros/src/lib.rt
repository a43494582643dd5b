//! Directives, macros and branches of a netlist's text (IEEE 1364-2005, clause 19), and pieces that are put one behind another.
#![tactic(auto)]

mod arguments;
mod branches;
mod definitions;
mod directives;
mod joints;
mod macros;
mod parts;
mod pieces;

pub use arguments::{Values, is_blank_value, names_of, values_of};
pub use branches::{Branch, Form, Line, Test, Written, close, go_on, goes, is_taken, open};
pub use definitions::{Definition, definition_of};
pub use directives::{Directive, Extent, directive_of};
pub use joints::{Joint, is_base};
pub use macros::{DEEPEST, Macro, Macros};
pub use parts::Part;
pub use pieces::{behind, cut, feeds, front, gap_size, is_gap, line_size, name_at, words_size};

//! What programs share that read a design and what drives it: the phases up to a run, and how they tell why it didn't come.
#![tactic(auto)]

mod annotation;
mod given;
mod inputs;
mod phases;
mod status;
mod stop;
mod telling;

pub use annotation::{Annotated, apply_text};
pub use given::words_of;
pub use inputs::{input_of, stimulus_phase};
pub use phases::{annotated_of, file_within, netlist_phase};
pub use status::Status;
pub use stop::{Refusal, SdfFault, Stop};
pub use telling::{
    named_line, put_made, put_text, save_refusal, tell_no_memory, tell_put, tell_stop,
};

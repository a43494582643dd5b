//! Timing checks with conditions of their time stamp and their time check, and the checks with conditions on their terminals that
//! have the same violations.
#![tactic(auto)]

mod exact;
mod forms;
mod laws;
mod making;
mod reading;
mod tokens;
mod written;

pub use exact::is_exact;
pub use forms::{Form, form_of};
pub use laws::conditions_are_kept;
pub use making::{kinds_of, made};
pub use reading::written_of;
pub use tokens::is_minus;
pub use written::{Terminal, Written};

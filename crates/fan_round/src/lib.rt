//! One round of a circuit: the nets that change, and the elements that read them, each evaluated once.
#![tactic(auto)]

mod evaluation;
mod lists;
mod nets;
mod rounds;
mod stamps;
mod work;

pub use evaluation::{Elements, evaluate_all};
pub use nets::{Nets, change_nets};
pub use rounds::{first_round, make_round, round};
pub use stamps::Stamp;
pub use work::{WorkList, clear_work, list_work, mark_all};

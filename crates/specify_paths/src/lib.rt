//! The specify paths of a module: the output bits to which they lead, each with its paths and its pulse style, and what is refused.
#![tactic(auto)]

mod conditions;
mod ends;
mod grouping;
mod outputs;
mod pairs;
mod statements;
mod styles;
mod terms;

pub use conditions::condition_of;
pub use grouping::PathOutput;
pub use outputs::{PathOutputs, path_outputs};
pub use pairs::ModulePath;
pub use specify_values::Measure;
pub use statements::{ModuleCondition, Statement, option_edge};
pub use terms::check_operand;

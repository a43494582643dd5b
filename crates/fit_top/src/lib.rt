//! `top`: from the words of `fit`'s command line to status, report and files.
#![tactic(auto)]

mod annotating;
mod answer;
mod answers;
mod fitting;
mod folders;
mod including;
mod inputs;
mod lines;
mod making;
mod report;
mod status;
mod stop;
mod system;
mod texts;

pub use answer::top;
pub use folders::{FileFolders, Folders, MemoryFolders};
pub use status::Status;
pub use system::program;

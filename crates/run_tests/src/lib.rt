//! What no clause says: that the calls reach real files and real output, and how errors are written.
#![tactic(auto)]

#[cfg(test)]
mod files;
#[cfg(test)]
mod texts;

//! The command line of `cudf_check`: its grammar, what its words ask for, and what is reported of words that ask for nothing.
#![tactic(auto)]

pub mod command;
mod grammar;
mod usage;

pub use command::{FileName, Order};
pub use usage::{Refusal, Topic, UsageError};

//! What a run reads and writes: its inputs, read to their ends within limits; the paper on which its report is printed;
//! and what it answers.
#![tactic(auto)]

mod device;
mod input;
mod outcome;
mod paper;

pub use device::{Device, Named, Sink, Source, Trouble};
pub use input::{read_all, read_each};
pub use outcome::{Outcome, RunError};
pub use paper::{Paper, ReportBuffer};

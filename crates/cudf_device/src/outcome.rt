//! What a run answers, and the exit status of each answer.
ghost use Rattle.std.specs.Prelude.{◌≡◌};

use std::alloc::AllocError;
use thiserror::Error;

/// What the report of whole inputs says.
#[derive(Clone, Copy, PartialEq, Eq)]
pub enum Outcome {
    /// The proposed status is a solution, or the problem has no fault; of a ranking, at least one is a solution; of a
    /// CNF, it is written; of a proof, it shows that there is no solution, or no better one.
    Yes,
    /// The proposed status isn't a solution; of a ranking, none is, and not all say FAIL; of a proof, it has a fault.
    No,
    /// A document is faulty.
    Faulty,
    /// The solution says that there is none; of a ranking, each says so, or there is none to rank.
    Fail,
    /// The CNF would have more than 4294967295 clauses or 2147483647 variables. Nothing was written.
    TooLarge,
}

/// Why there is no whole report.
#[derive(Clone, Copy, Debug, PartialEq, Eq, Error)]
pub enum RunError {
    /// A read failed, or a reader didn't end within 536870912 calls. Nothing was written.
    #[error("an input could not be read to its end; check that it is a file that can be read, and run again")]
    Read,
    /// An input has more than 268435456 bytes. Nothing was written.
    #[error("an input is longer than 268435456 bytes; give a shorter one")]
    TooLong,
    /// A write failed, was interrupted, or took no byte. What was written before is a prefix of the report.
    #[error("the report could not be written to its end; make room for the output, and run again")]
    Write,
    /// Memory ran out: a growth was refused. Nothing was written.
    #[error("there is not enough memory for this input; free some, and run again")]
    Memory,
}

impl Outcome {
    ghost use Rattle.cudf_device.specs.Outcomes.{outcome_status};

    /// The exit status: 0 for `Yes`, 1 for `No`, 2 for `Faulty`, 3 for `Fail`, 5 for `TooLarge`.
    pub fn status(self) -> u8
        ensures { result ≡ outcome_status self }
    {
        match self {
            Outcome::Yes => 0,
            Outcome::No => 1,
            Outcome::Faulty => 2,
            Outcome::Fail => 3,
            Outcome::TooLarge => 5,
        }
    }
}

impl RunError {
    ghost use Rattle.cudf_device.specs.Outcomes.{error_status};

    /// The exit status: 5 for `Read`, `TooLong` and `Write`, 6 for `Memory`.
    pub fn status(self) -> u8
        ensures { result ≡ error_status self }
    {
        match self {
            RunError::Read | RunError::TooLong | RunError::Write => 5,
            RunError::Memory => 6,
        }
    }
}

impl From<AllocError> for RunError {
    ghost use Rattle.std.specs.Prelude.{◌≡◌};
    ghost use Rattle.cudf_device.specs.declared.outcome.RunError.TheVariants.{Memory};

    ghost from_gives = { λ _ error. error ≡ Memory };

    fn from(_error: AllocError) -> Self {
        RunError::Memory
    }
}

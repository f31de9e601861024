//! What the program says, and its exit status, where there is no whole report.

use crate::OpenedInput;
use crate::system::Reading;
use cudf_check::{Outcome, RunError};
use cudf_command_line::{FileName, UsageError};
use std::io::{self, ErrorKind, Write};

/// Why the program started no run.
#[derive(Drop)]
pub(crate) enum Failure<'w> {
    /// The words of the command line can't be had.
    Words(io::Error),
    /// The words start no run.
    Usage(UsageError<'w>),
    /// A file can't be opened.
    Open(FileName<'w>, io::Error),
    /// Memory ran out while files were opened.
    Memory,
}

impl Failure<'_> {
    ghost use Rattle.std.specs.Prelude.{◌≡◌};
    ghost use Rattle.cudf_program.specs.Failure.{failure_status};

    /// The exit status: 0 for help and the version, 4 for a usage fault, 5 for files, 6 where memory ran out.
    pub(crate) fn status(&self) -> u8
        ensures { result ≡ failure_status self.now }
    {
        match self {
            Failure::Words(_) => 4,
            Failure::Usage(usage) => usage.status(),
            Failure::Open(_, _) => 5,
            Failure::Memory => 6,
        }
    }

    /// Says why on standard error. Help and the version are no fault, and aren't reported there.
    pub(crate) fn tell<E: Write>(&self, errors: &mut E) -> io::Result<()> {
        match self {
            Failure::Words(error) => writeln!(
                errors,
                "cudf_check: the arguments can't be read: {error}; give them as UTF-8"
            ),
            Failure::Usage(usage) => usage.tell(errors),
            Failure::Open(name, error) => {
                let advice = advice(*error);
                writeln!(
                    errors,
                    "cudf_check: {name} can't be opened: {error}{advice}"
                )
            }
            Failure::Memory => writeln!(
                errors,
                "cudf_check: there is not enough memory for this input; free some, and run again"
            ),
        }
    }
}

/// What to do about a file that can't be opened.
fn advice(error: io::Error) -> &'static str {
    match error.kind() {
        ErrorKind::NotFound => "; check the name, and run again",
        _ => "",
    }
}

impl<'w> Failure<'w> {
    ghost use Rattle.std.specs.Prelude.{◌≡◌};
    ghost use Rattle.std.specs.IoError.{error_kind};
    ghost use Rattle.cudf_program.specs.Failure.{words_failure, open_failure};

    /// The words of the command line can't be had.
    pub(crate) fn from_words(error: io::Error) -> Failure<'w>
        ensures { result ≡ words_failure (error_kind error) error }
    {
        match error.kind() {
            ErrorKind::OutOfMemory => Failure::Usage(UsageError::Memory),
            _ => Failure::Words(error),
        }
    }

    /// The file `name` can't be opened.
    pub(crate) fn from_open(name: FileName<'w>, error: io::Error) -> Failure<'w>
        ensures { result ≡ open_failure (error_kind error) name.entry error }
    {
        match error.kind() {
            ErrorKind::OutOfMemory => Failure::Memory,
            _ => Failure::Open(name, error),
        }
    }
}

/// The input at which a run was broken off: the last one from which it read.
#[derive(Clone, Copy)]
pub(crate) struct LastInput<'w> {
    /// Its name.
    pub name: FileName<'w>,
    /// What its last read answered.
    pub reading: Reading,
}

impl<'w> LastInput<'w> {
    /// The last of these inputs that was read, or else the first of all.
    pub(crate) fn of<F: Drop, S: Drop>(
        problem: (FileName<'w>, OpenedInput<'_, F, S>),
        names: &[FileName<'w>],
        others: Vec<OpenedInput<'_, F, S>>,
    ) -> LastInput<'w> {
        let (name, reader) = problem;
        let mut last = LastInput {
            name,
            reading: reader.into_inner().into_inner().reading(),
        };
        for (name, reader) in names.iter().zip(others) {
            let reading = reader.into_inner().into_inner().reading();
            if !matches!(reading, Reading::Unread) {
                last = LastInput {
                    name: *name,
                    reading,
                };
            }
        }
        last
    }

    /// Says why the run was broken off.
    pub(crate) fn tell<E: Write>(self, error: RunError, errors: &mut E) -> io::Result<()> {
        match error {
            RunError::Read => self.tell_read(errors),
            RunError::TooLong => {
                let name = self.name;
                writeln!(
                    errors,
                    "cudf_check: {name} is longer than 268435456 bytes; give a shorter one"
                )
            }
            // told by the output, which has the reason
            RunError::Write => Ok(()),
            RunError::Memory => writeln!(
                errors,
                "cudf_check: there is not enough memory for this input; free some, and run again"
            ),
        }
    }

    fn tell_read<E: Write>(self, errors: &mut E) -> io::Result<()> {
        let name = self.name;
        write!(errors, "cudf_check: {name} could not be read to its end")?;
        if let Reading::Failed(error) = self.reading {
            write!(errors, ": {error}")?;
        }
        writeln!(
            errors,
            "; check that it is a file that can be read, and run again"
        )
    }
}

/// Says why nothing was printed of a problem whose CNF is too large.
pub(crate) fn tell_outcome<E: Write>(
    outcome: Outcome,
    problem: FileName<'_>,
    errors: &mut E,
) -> io::Result<()> {
    match outcome {
        Outcome::TooLarge => writeln!(
            errors,
            "cudf_check: the CNF of {problem} would have more than 4294967295 clauses or 2147483647 variables"
        ),
        Outcome::Yes | Outcome::No | Outcome::Faulty | Outcome::Fail => Ok(()),
    }
}

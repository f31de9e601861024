//! Judges answers to an upgrade problem by the libraries' public calls alone, as a solver's test or a competition would:
//! reads the documents, walks what is wrong with one answer, and ranks two others by a list.
mod error;
mod judging;

use cudf_document::{Mode, NameRoom, Problem, problem_of};
use cudf_referee::Key;
use cudf_text::{Room, Stanzas, stanzas};
use error::ExampleError;
use judging::{better, print_violations};
use std::alloc::Global;
use std::io::{self, Write};

/// An engine is installed, and a car is wanted, which needs a wheel above 2.
const PROBLEM: &[u8] = b"package: engine
version: 1
installed: true

package: engine
version: 2

package: wheel
version: 2

package: wheel
version: 3

package: car
version: 1
depends: engine, wheel > 2

request:
install: car
";

/// The car alone.
const BARE: &[u8] = b"package: car
version: 1
installed: true
";

/// The car with what it needs, and the engine as it was.
const CAREFUL: &[u8] = b"package: car
version: 1
installed: true

package: wheel
version: 3
installed: true

package: engine
version: 1
installed: true
";

/// The car with the newest of what it needs.
const FRESH: &[u8] = b"package: car
version: 1
installed: true

package: wheel
version: 3
installed: true

package: engine
version: 2
installed: true
";

/// Prints what the example finds, or why it can't go on.
pub(crate) fn print<W: Write>(alloc: Global, out: &mut W) -> io::Result<()> {
    writeln!(out, "== the example")?;
    match show(alloc, out) {
        Ok(()) => Ok(()),
        Err(error) => writeln!(out, "{error}"),
    }
}

/// Reads the problem, and judges its answers.
fn show<W: Write>(alloc: Global, out: &mut W) -> Result<(), ExampleError> {
    let mut room = Room::new(alloc);
    let stanzas = stanzas(alloc, PROBLEM, &mut room)?;
    show_problem(alloc, stanzas, out)
}

fn show_problem<W: Write>(
    alloc: Global,
    stanzas: Stanzas<'_>,
    out: &mut W,
) -> Result<(), ExampleError> {
    let mut names = NameRoom::new(alloc);
    let problem = problem_of(alloc, stanzas, &mut names, Mode::Lenient)?;
    judge(alloc, &problem, out)
}

/// Prints what is wrong with the bare answer, all of it and after its first line, and which of the others is better.
fn judge<W: Write>(alloc: Global, problem: &Problem<'_>, out: &mut W) -> Result<(), ExampleError> {
    print_violations(alloc, problem, BARE, None, out)?;
    print_violations(alloc, problem, BARE, Key::parse("p5.depends.1"), out)?;
    let best = better(alloc, problem, "-changed,-removed", CAREFUL, FRESH)?;
    writeln!(out, "the better one:")?;
    out.write_all(best)?;
    Ok(())
}

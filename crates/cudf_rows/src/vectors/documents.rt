//! Calls that read a problem. Where several calls promise the same, each of them is made.
use super::problems;
use super::shown::{agreed, shown_or};
use cudf_document::{Mode, Problem, ReadError, first_fault, read_problem};
use cudf_text::{Room, read, stanzas};
use std::alloc::{AllocError, Global};

/// What is told where there is no fault.
const NONE: &str = "no fault";

/// The first fault of a problem: where it is only judged, and where it is kept.
pub(crate) fn fault(alloc: Global, bytes: &[u8], mode: Mode) -> Result<String, AllocError> {
    let judged = judged_fault(alloc, bytes, mode)?;
    agreed(alloc, judged, read_fault(alloc, bytes, mode)?)
}

/// The first fault, with no problem made.
fn judged_fault(alloc: Global, bytes: &[u8], mode: Mode) -> Result<String, AllocError> {
    let mut room = Room::new(alloc);
    match stanzas(alloc, bytes, &mut room) {
        Ok(stanzas) => shown_or(alloc, first_fault(alloc, stanzas, mode)?, NONE),
        Err(fault) => fault.to_string(alloc),
    }
}

/// The first fault of a text that is held.
fn read_fault(alloc: Global, bytes: &[u8], mode: Mode) -> Result<String, AllocError> {
    match read(alloc, bytes) {
        Ok(text) => shown_fault(alloc, read_problem(alloc, &text, mode)),
        Err(error) => error.to_string(alloc),
    }
}

fn shown_fault(
    alloc: Global,
    problem: Result<Problem<'_>, ReadError>,
) -> Result<String, AllocError> {
    match problem {
        Ok(_problem) => String::from_str(alloc, NONE),
        Err(error) => error.to_string(alloc),
    }
}

/// A problem, or its first fault: read stanza by stanza, and of a text that is held.
pub(crate) fn problem(alloc: Global, bytes: &[u8]) -> Result<String, AllocError> {
    let walked = problems::answer(alloc, "problem", bytes, bytes)?;
    agreed(alloc, walked, held_problem(alloc, bytes)?)
}

fn held_problem(alloc: Global, bytes: &[u8]) -> Result<String, AllocError> {
    match read(alloc, bytes) {
        Ok(text) => {
            let problem = read_problem(alloc, &text, Mode::Lenient);
            problems::answer_in(alloc, "problem", bytes, problem)
        }
        Err(error) => error.to_string(alloc),
    }
}

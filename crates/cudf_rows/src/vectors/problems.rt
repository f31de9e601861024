//! Calls about a problem.
use super::{packages, solutions, statuses};
use cudf_document::{Mode, NameRoom, Problem, ReadError, problem_of};
use cudf_text::{Room, Stanzas, stanzas};
use std::alloc::{AllocError, Global};
use std::str;

/// The answer to a call about these bytes and the problem, or the problem's first fault.
pub(crate) fn answer(
    alloc: Global,
    call: &str,
    bytes: &[u8],
    problem: &[u8],
) -> Result<String, AllocError> {
    let mut room = Room::new(alloc);
    match stanzas(alloc, problem, &mut room) {
        Ok(stanzas) => answer_of(alloc, call, bytes, stanzas),
        Err(fault) => fault.to_string(alloc),
    }
}

fn answer_of(
    alloc: Global,
    call: &str,
    bytes: &[u8],
    stanzas: Stanzas<'_>,
) -> Result<String, AllocError> {
    let mut names = NameRoom::new(alloc);
    let problem = problem_of(alloc, stanzas, &mut names, Mode::Lenient);
    answer_in(alloc, call, bytes, problem)
}

/// The answer about the problem that was read.
pub(crate) fn answer_in(
    alloc: Global,
    call: &str,
    bytes: &[u8],
    problem: Result<Problem<'_>, ReadError>,
) -> Result<String, AllocError> {
    match problem {
        Ok(problem) => answer_about(alloc, call, bytes, &problem),
        Err(error) => error.to_string(alloc),
    }
}

fn answer_about(
    alloc: Global,
    call: &str,
    bytes: &[u8],
    problem: &Problem<'_>,
) -> Result<String, AllocError> {
    match call {
        "problem" => packages::shown(alloc, problem),
        "solution" => solutions::solution(alloc, bytes, problem, Mode::Lenient),
        "strict_solution" => solutions::solution(alloc, bytes, problem, Mode::Strict),
        _ => match str::from_utf8(bytes) {
            Ok(text) => statuses::answer(alloc, call, text, problem),
            Err(_) => String::from_str(alloc, "not UTF-8"),
        },
    }
}

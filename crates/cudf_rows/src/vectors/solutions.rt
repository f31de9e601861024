//! Calls that read a solution of a problem.
use super::shown::{agreed, push_list};
use cudf_document::{
    InstalledPair, Mode, Problem, Proposed, ReadError, Solution, Status, proposed_of,
    read_solution, solution_of,
};
use cudf_text::{Room, is_fail, read, stanzas};
use std::alloc::{AllocError, Global};

/// What a solution installs, or its first fault: read stanza by stanza, and of a text that is held.
pub(crate) fn solution(
    alloc: Global,
    bytes: &[u8],
    problem: &Problem<'_>,
    mode: Mode,
) -> Result<String, AllocError> {
    let walked = walked_solution(alloc, bytes, problem, mode)?;
    agreed(alloc, walked, held_solution(alloc, bytes, problem, mode)?)
}

fn walked_solution(
    alloc: Global,
    bytes: &[u8],
    problem: &Problem<'_>,
    mode: Mode,
) -> Result<String, AllocError> {
    let mut room = Room::new(alloc);
    match stanzas(alloc, bytes, &mut room) {
        Ok(stanzas) => {
            let proposed = proposed_of(alloc, stanzas, mode, problem);
            shown_proposed(alloc, problem, proposed)
        }
        Err(fault) => fault.to_string(alloc),
    }
}

fn shown_proposed(
    alloc: Global,
    problem: &Problem<'_>,
    proposed: Result<Proposed<'_>, ReadError>,
) -> Result<String, AllocError> {
    match proposed {
        Ok(proposed) => shown(alloc, problem, &solution_of(alloc, proposed, problem)?),
        Err(error) => error.to_string(alloc),
    }
}

fn held_solution(
    alloc: Global,
    bytes: &[u8],
    problem: &Problem<'_>,
    mode: Mode,
) -> Result<String, AllocError> {
    match read(alloc, bytes) {
        Ok(text) if is_fail(text.source) => String::from_str(alloc, "FAIL"),
        Ok(text) => shown_read(alloc, problem, read_solution(alloc, &text, problem, mode)),
        Err(error) => error.to_string(alloc),
    }
}

fn shown_read(
    alloc: Global,
    problem: &Problem<'_>,
    solution: Result<Solution<'_>, ReadError>,
) -> Result<String, AllocError> {
    match solution {
        Ok(solution) => shown(alloc, problem, &solution),
        Err(error) => error.to_string(alloc),
    }
}

/// What a solution of the problem installs, and its unknown stanzas.
fn shown(
    alloc: Global,
    problem: &Problem<'_>,
    solution: &Solution<'_>,
) -> Result<String, AllocError> {
    let mut shown = String::from_str(alloc, "installs ")?;
    push_list(&mut shown, &places(alloc, problem, &solution.status)?)?;
    shown.push_str(", unknown [")?;
    for (before, unknown) in solution.unknown.iter().enumerate() {
        shown.push_str(if before == 0 { "" } else { ", " })?;
        push_unknown(&mut shown, unknown)?;
    }
    shown.push_str("]")?;
    Ok(shown)
}

/// Adds an unknown stanza as `NUMBER line LINE: NAME VERSION`.
fn push_unknown(out: &mut String, unknown: &InstalledPair<'_>) -> Result<(), AllocError> {
    write!(out, "{} line {}: ", unknown.stanza, unknown.line)?;
    write!(out, "{} {}", unknown.name, unknown.version)?;
    Ok(())
}

/// The places of a status of the problem.
pub(crate) fn places(
    alloc: Global,
    problem: &Problem<'_>,
    status: &Status,
) -> Result<Vec<u64>, AllocError> {
    let mut places = Vec::new(alloc);
    for before in 0..problem.packages().len() as u64 {
        let place = before.saturating_add(1);
        if status.holds(place) {
            places.push(place)?;
        }
    }
    Ok(places)
}

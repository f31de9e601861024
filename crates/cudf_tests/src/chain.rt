//! Documents that are read for a test: each value is held by a function of its own, which lends it to the next one.
use crate::table::Answer;
use cudf_document::{
    Mode, NameRoom, Problem, Proposed, Solution, first_fault, problem_of, proposed_of,
    read_problem, read_solution, solution_of,
};
use cudf_referee::{Explainer, Referee};
use cudf_text::{Room, Text, is_fail, read, stanzas};
use std::alloc::Global;

/// What a test asks of what is read.
pub(crate) trait Asks {
    fn of_problem(&self, _alloc: Global, _problem: &Problem<'_>) -> Answer {
        Ok(true)
    }

    fn of_solution(
        &self,
        _alloc: Global,
        _problem: &Problem<'_>,
        _solution: &Solution<'_>,
    ) -> Answer {
        Ok(true)
    }

    fn of_explainer(&self, _explainer: &Explainer<'_, '_, '_>) -> Answer {
        Ok(true)
    }
}

/// Reads both documents whole, judges the solution, and asks.
pub(crate) fn judge<A: Asks>(alloc: Global, problem: &[u8], solution: &[u8], asks: &A) -> Answer {
    let text = read(alloc, problem)?;
    judge_text(alloc, &text, solution, asks)
}

fn judge_text<A: Asks>(alloc: Global, text: &Text<'_>, solution: &[u8], asks: &A) -> Answer {
    let problem = read_problem(alloc, text, Mode::Lenient)?;
    Ok(asks.of_problem(alloc, &problem)? && judge_answer(alloc, &problem, solution, asks)?)
}

fn judge_answer<A: Asks>(
    alloc: Global,
    problem: &Problem<'_>,
    solution: &[u8],
    asks: &A,
) -> Answer {
    let text = read(alloc, solution)?;
    judge_answer_text(alloc, problem, &text, asks)
}

fn judge_answer_text<A: Asks>(
    alloc: Global,
    problem: &Problem<'_>,
    text: &Text<'_>,
    asks: &A,
) -> Answer {
    if is_fail(text.source) {
        return Ok(false);
    }
    let solution = read_solution(alloc, text, problem, Mode::Lenient)?;
    let referee = Referee::new(alloc, problem, &solution)?;
    Ok(asks.of_solution(alloc, problem, &solution)? && explain(alloc, &referee, asks)?)
}

fn explain<A: Asks>(alloc: Global, referee: &Referee<'_, '_>, asks: &A) -> Answer {
    let explainer = Explainer::new(alloc, referee)?;
    asks.of_explainer(&explainer)
}

/// Reads both documents stanza by stanza, the solution in this mode, and asks.
pub(crate) fn walk<A: Asks>(
    alloc: Global,
    problem: &[u8],
    solution: &[u8],
    mode: Mode,
    asks: &A,
) -> Answer {
    Ok(is_sound(alloc, problem)? && walk_problem(alloc, problem, solution, mode, asks)?)
}

fn is_sound(alloc: Global, problem: &[u8]) -> Answer {
    let mut room = Room::new(alloc);
    let fault = first_fault(alloc, stanzas(alloc, problem, &mut room)?, Mode::Lenient)?;
    Ok(fault.is_none())
}

fn walk_problem<A: Asks>(
    alloc: Global,
    problem: &[u8],
    solution: &[u8],
    mode: Mode,
    asks: &A,
) -> Answer {
    let mut room = Room::new(alloc);
    let mut names = NameRoom::new(alloc);
    let stanzas = stanzas(alloc, problem, &mut room)?;
    let problem = problem_of(alloc, stanzas, &mut names, Mode::Lenient)?;
    Ok(asks.of_problem(alloc, &problem)? && walk_solution(alloc, &problem, solution, mode, asks)?)
}

fn walk_solution<A: Asks>(
    alloc: Global,
    problem: &Problem<'_>,
    solution: &[u8],
    mode: Mode,
    asks: &A,
) -> Answer {
    let mut room = Room::new(alloc);
    let stanzas = stanzas(alloc, solution, &mut room)?;
    let proposed = proposed_of(alloc, stanzas, mode, problem)?;
    place(alloc, proposed, problem, asks)
}

fn place<A: Asks>(
    alloc: Global,
    proposed: Proposed<'_>,
    problem: &Problem<'_>,
    asks: &A,
) -> Answer {
    let solution = solution_of(alloc, proposed, problem)?;
    asks.of_solution(alloc, problem, &solution)
}

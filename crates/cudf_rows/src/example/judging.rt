//! What is found of one answer, and of two.
ghost use Rattle.std.specs.Prelude.{IfOk, IsTrue, map};
ghost use Rattle.cudf_problem.specs.Promises.Views.{unknown_view};
ghost use Rattle.cudf_problem.specs.Statuses.{ascend_above};

use super::error::ExampleError;
use cudf_document::{Mode, Problem, Solution, proposed_of, solution_of};
use cudf_referee::{
    Aim, Criteria, Instance, Instances, Key, Referee, Requirement, compare, read_criterion,
};
use cudf_text::{Room, stanzas};
use std::alloc::Global;
use std::io::{self, Write};

/// What an answer installs. Its unknown stanzas ascend, which a referee needs.
fn read_answer<'t>(
    alloc: Global,
    problem: &Problem<'_>,
    answer: &'t [u8],
    room: &'t mut Room,
) -> Result<Solution<'t>, ExampleError>
    ensures { IfOk result (λ s. IsTrue (ascend_above 0 (map unknown_view s.unknown.items))) }
{
    let stanzas = stanzas(alloc, answer, room)?;
    let proposed = proposed_of(alloc, stanzas, Mode::Lenient, problem)?;
    Ok(solution_of(alloc, proposed, problem)?)
}

/// Prints what is wrong with an answer, after the key `after` where it is given, and the verdict.
pub(crate) fn print_violations<W: Write>(
    alloc: Global,
    problem: &Problem<'_>,
    answer: &[u8],
    after: Option<Key>,
    out: &mut W,
) -> Result<(), ExampleError> {
    let mut room = Room::new(alloc);
    let solution = read_answer(alloc, problem, answer, &mut room)?;
    print_judged(alloc, problem, &solution, after, out)
}

/// Prints what is wrong with what an answer installs.
fn print_judged<W: Write>(
    alloc: Global,
    problem: &Problem<'_>,
    solution: &Solution<'_>,
    after: Option<Key>,
    out: &mut W,
) -> Result<(), ExampleError>
    requires { IsTrue (ascend_above 0 (map unknown_view solution.now.unknown.items)) }
{
    let referee = Referee::new(alloc, problem, solution)?;
    print_listing(&referee, after, out)
}

/// Prints the listing and the verdict.
fn print_listing<W: Write>(
    referee: &Referee<'_, '_>,
    after: Option<Key>,
    out: &mut W,
) -> Result<(), ExampleError> {
    for instance in walk(referee, after) {
        print_instance(&instance, out)?;
    }
    let verdict = if referee.is_solution() { "yes" } else { "no" };
    writeln!(out, "a solution: {verdict}")?;
    Ok(())
}

/// The walk over what is wrong, after a key where it is given.
fn walk<'r, 'p, 't>(referee: &'r Referee<'p, 't>, after: Option<Key>) -> Instances<'r, 'p, 't> {
    match after {
        Some(key) => referee.after(key),
        None => referee.instances(),
    }
}

/// Prints the key of an instance, the package that it is about, and what is wrong.
fn print_instance<W: Write>(instance: &Instance<'_>, out: &mut W) -> io::Result<()> {
    let key = instance.key;
    write!(out, "{key}")?;
    if let Some((name, version)) = instance.subject {
        write!(out, " {name} {version}")?;
    }
    print_what(instance, out)
}

/// Prints what an instance says is wrong.
fn print_what<W: Write>(instance: &Instance<'_>, out: &mut W) -> io::Result<()> {
    match instance.what {
        Requirement::Needs(clause) => writeln!(out, " lacks {clause}"),
        Requirement::ConflictsWith(entry) => writeln!(out, " excludes {entry}"),
        Requirement::KeepVersion | Requirement::KeepPackage => writeln!(out, " is gone"),
        Requirement::KeepFeature(entry) => writeln!(out, " gave {entry}, which is gone"),
        Requirement::Install(entry) => writeln!(out, " wants {entry}"),
        Requirement::Remove(entry) => writeln!(out, " wants no {entry}"),
        Requirement::Upgrade(entry) => writeln!(out, " wants a newer {entry}"),
        Requirement::Unknown => writeln!(out, " isn't there"),
    }
}

/// The answer that is better by this list of aims: the first of two solutions where they tie.
pub(crate) fn better<'a>(
    alloc: Global,
    problem: &Problem<'_>,
    list: &str,
    first: &'a [u8],
    second: &'a [u8],
) -> Result<&'a [u8], ExampleError> {
    let first_counts = counts(alloc, problem, first)?;
    let second_counts = counts(alloc, problem, second)?;
    let aims = aims_of(alloc, list)?;
    if compare(&aims, &second_counts, &first_counts).is_lt() {
        Ok(second)
    } else {
        Ok(first)
    }
}

fn aims_of(alloc: Global, list: &str) -> Result<Vec<Aim>, ExampleError> {
    match read_criterion(alloc, list)? {
        Some(aims) => Ok(aims),
        None => Err(ExampleError::NoList),
    }
}

/// What a solution changes and lacks.
fn counts(alloc: Global, problem: &Problem<'_>, answer: &[u8]) -> Result<Criteria, ExampleError> {
    let mut room = Room::new(alloc);
    let solution = read_answer(alloc, problem, answer, &mut room)?;
    counts_of(alloc, problem, &solution)
}

/// What it changes and lacks, if it is a solution.
fn counts_of(
    alloc: Global,
    problem: &Problem<'_>,
    solution: &Solution<'_>,
) -> Result<Criteria, ExampleError>
    requires { IsTrue (ascend_above 0 (map unknown_view solution.now.unknown.items)) }
{
    let referee = Referee::new(alloc, problem, solution)?;
    if referee.is_solution() {
        Ok(referee.criteria())
    } else {
        Err(ExampleError::NoSolution)
    }
}

//! Each call that takes memory, and a test of calls that take none. The tests pass with ample memory;
//! `crosscheck/memory.py` runs each of them with each growth refused in turn: then a call says so, or all is right.
use crate::chain::{Asks, judge, walk};
use crate::reports::report;
use crate::table::{Answer, expect};
use cudf_check::{Job, Outcome};
use cudf_document::{Mode, Problem, Solution, initial};
use cudf_index::Index;
use cudf_referee::{Explainer, Key, Referee, read_criterion};
use cudf_text::cut_joined;
use cudf_value::{ValueType, fits, read_declarations, read_posint, read_vpkg};
use std::alloc::Global;

const ENTRIES: &str = "a, b, c, d, e, f, g, h, i, j, k = 2";

const DECLARATIONS: &str = "a: int, b: vpkglist = [x, y], c: enum[red, green] = [red]";

const AIMS: &str = "-removed,-notuptodate,-unsat_recommends,-new,+touched,-changed,+new,-new,+new";

/// Whether the value was read, and has so many parts.
fn has<T: Drop>(value: Option<Vec<T>>, count: usize) -> bool {
    match value {
        Some(parts) => parts.len() == count,
        None => false,
    }
}

fn reads_values(alloc: Global) -> Answer {
    Ok(
        has(read_declarations(alloc, DECLARATIONS)?, 3)
            && has(read_criterion(alloc, AIMS)?, 9)
            && fits(alloc, &ValueType::List, ENTRIES)?,
    )
}

/// Two packages that conflict by their names and by what they give, and a value on several lines.
const PROBLEM: &[u8] =
    b"preamble:\nproperty: colour: enum[red, green] = [red], size: nat\n\npackage: g\nversion: 1\nprovides: e,\n# c\n g = 1\nconflicts: e, g\ncolour: green\n\npackage: g\nversion: 2\nprovides: e, g = 1\nconflicts: e, g\ninstalled: true\n\nrequest: r\n";

/// Both of them, and one that the problem doesn't have.
const SOLUTION: &[u8] =
    b"package: g\nversion: 1\ninstalled: true\n\npackage: g\nversion: 2\ninstalled: true\n\npackage: ghost\nversion: 9\ninstalled: true\n";

/// Asks the solution for its unknown stanzas, and an index and an explainer, which take no memory more.
struct Memory;

impl Asks for Memory {
    fn of_problem(&self, alloc: Global, problem: &Problem<'_>) -> Answer {
        let status = initial(alloc, problem)?;
        let index = Index::build(alloc, problem, &status)?;
        Ok(is_met(&index) && (index.least("g"), index.greatest("g")) == (Some(1), Some(2)))
    }

    fn of_solution(&self, _: Global, _: &Problem<'_>, solution: &Solution<'_>) -> Answer {
        Ok(solution.unknown.len() == 1)
    }

    fn of_explainer(&self, explainer: &Explainer<'_, '_, '_>) -> Answer {
        Ok(is_explained(explainer) && answers(explainer.referee()))
    }
}

fn is_met(index: &Index<'_, '_>) -> bool {
    match read_vpkg("e = 7") {
        Some(vpkg) => index.satisfies(&vpkg),
        None => false,
    }
}

/// Whether what is reported beside its instances is right.
fn is_explained(explainer: &Explainer<'_, '_, '_>) -> bool {
    explainer.remedies().first_named("g") == Some(1)
        && explainer.least("g") == Some(1)
        && explainer.greatest_before("g") == Some(2)
}

/// Whether its listing from the start and after a key, and its counts are right.
fn answers(referee: &Referee<'_, '_>) -> bool {
    let behind = match Key::parse("p1.conflicts.2") {
        Some(key) => referee.after(key).take(9).count(),
        None => 0,
    };
    let criteria = referee.criteria();
    !referee.is_solution()
        && (referee.instances().take(9).count(), behind) == (5, 3)
        && criteria.paranoid() == [0, 1]
        && criteria.trendy() == [0, 0, 0, 0]
}

/// The fault of a problem, with what the problem says beside it.
const FAULTS: [(&[u8], &[u8]); 3] = [
    (
        b"package: g\nversion: 1\n\npackage: g\nversion: 1\n\nrequest: r\n",
        b"problem line 5: E11 package repeated; g 1 stands on line 1\n",
    ),
    (
        b"preamble:\nproperty: a: nat,\n a: nat\n\nrequest: r\n",
        b"problem line 2: E10 bad declaration; declaration 2\n",
    ),
    (
        b"package: g\nversion: 1\ndepends: a,\n b,\n <\n\nrequest: r\n",
        b"problem line 3: E9 value is not of its type; depends is no vpkgformula, entry 3: <\n",
    ),
];

/// Whether a run that explains its lines tells this of the problem.
fn tells(alloc: Global, problem: &[u8], want: &[u8]) -> Answer {
    let job = Job::Lint { explain: true };
    let (outcome, report) = report(alloc, &job, problem)?;
    Ok(outcome == Outcome::Faulty && report.as_slice() == want)
}

fn tells_faults(alloc: Global) -> Answer {
    for (problem, report) in FAULTS {
        if !tells(alloc, problem, report)? {
            return Ok(false);
        }
    }
    Ok(true)
}

#[test]
fn explained_faults(rt: HostRuntime) {
    expect(&rt, tells_faults(rt.alloc()));
}

#[test]
fn values(rt: HostRuntime) {
    expect(&rt, reads_values(rt.alloc()));
}

#[test]
fn documents(rt: HostRuntime) {
    expect(
        &rt,
        walk(rt.alloc(), PROBLEM, SOLUTION, Mode::Strict, &Memory),
    );
}

#[test]
fn referees(rt: HostRuntime) {
    expect(&rt, judge(rt.alloc(), PROBLEM, SOLUTION, &Memory));
}

/// Takes no memory, and holds none.
#[test]
fn none(rt: HostRuntime) {
    let (problem, solution) = cut_joined(b"request: r\r\n\t\nFAIL");
    assert!(rt; problem == b"request: r\r\n\t\n".as_slice() && solution == b"FAIL".as_slice());
    assert_eq!(rt; read_posint("+007"), Some(7));
}

//! What a status gives, and what the packages of a universe give that it doesn't hold.
use crate::chain::{Asks, judge};
use crate::table::{Answer, expect};
use cudf_document::{Problem, Solution, Status, initial};
use cudf_index::{Counts, Index, Providers, laws};
use cudf_value::{Relop, Vpkg};
use std::alloc::Global;

/// Three versions of one name.
const DOORS: &[u8] =
    b"package: door\nversion: 1\n\npackage: door\nversion: 2\n\npackage: door\nversion: 3\ninstalled: true\n\nrequest: r\nupgrade: door\n";

/// The first two of them.
const TWO_DOORS: &[u8] =
    b"package: door\nversion: 1\ninstalled: true\n\npackage: door\nversion: 2\ninstalled: true\n";

/// Asks for the numbers that are proposed.
struct Doors;

impl Asks for Doors {
    fn of_solution(&self, alloc: Global, problem: &Problem<'_>, solution: &Solution<'_>) -> Answer {
        let index = Index::build(alloc, problem, &solution.status)?;
        Ok(index.least("door") == Some(1) && index.greatest("door") == Some(2))
    }
}

#[test]
fn proposed(rt: HostRuntime) {
    expect(&rt, judge(rt.alloc(), DOORS, TWO_DOORS, &Doors));
    laws::member();
}

/// Two packages give `f` before the first package of that name, which comes before another one.
const MAKERS: &[u8] =
    b"package: maker\nversion: 1\nprovides: f = 5\n\npackage: maker\nversion: 2\nprovides: g, f = 7\ninstalled: true\n\npackage: f\nversion: 3\n\npackage: f\nversion: 1\n\nrequest: r\n";

/// A name, a bound of it, and the places of the first package that alone meets it and of the first one of that name.
type Row = (&'static str, Option<(Relop, u64)>, Option<u64>, Option<u64>);

/// Without a status: all packages.
const ALL: [Row; 9] = [
    ("maker", None, Some(1), Some(1)),
    ("maker", Some((Relop::Gt, 1)), Some(2), Some(1)),
    ("f", None, Some(1), Some(3)),
    ("f", Some((Relop::Eq, 7)), Some(2), Some(3)),
    ("f", Some((Relop::Lt, 5)), Some(3), Some(3)),
    ("f", Some((Relop::Lt, 3)), Some(4), Some(3)),
    ("f", Some((Relop::Gt, 7)), None, Some(3)),
    ("g", Some((Relop::Eq, 100)), Some(2), None),
    ("user", None, None, None),
];

/// Those that aren't installed.
const OTHERS: [Row; 5] = [
    ("maker", None, Some(1), Some(1)),
    ("maker", Some((Relop::Gt, 1)), None, Some(1)),
    ("f", None, Some(1), Some(3)),
    ("f", Some((Relop::Eq, 7)), None, Some(3)),
    ("g", None, None, None),
];

fn is_found(providers: &Providers<'_, '_>, row: &Row) -> bool {
    let vpkg = Vpkg {
        name: row.0,
        bound: row.1,
    };
    providers.first_meeting(&vpkg) == row.2 && providers.first_named(row.0) == row.3
}

fn are_found(alloc: Global, problem: &Problem<'_>, without: Status, rows: &[Row]) -> Answer {
    let providers = Providers::build(alloc, problem, without)?;
    Ok(rows.iter().all(|row| is_found(&providers, row)))
}

/// Asks for what all packages give, and what those give that aren't installed.
struct Makers;

impl Asks for Makers {
    fn of_problem(&self, alloc: Global, problem: &Problem<'_>) -> Answer {
        let none = Status::from_flags(Vec::new(alloc));
        Ok(
            are_found(alloc, problem, none, &ALL)?
                && are_found(alloc, problem, initial(alloc, problem)?, &OTHERS)?,
        )
    }
}

#[test]
fn providers(rt: HostRuntime) {
    expect(&rt, judge(rt.alloc(), MAKERS, b"", &Makers));
}

/// Of `f` the first package gives two numbers, the second all versions, the third one number twice.
const GIVERS: &[u8] =
    b"package: a\nversion: 1\nprovides: f = 1, f = 3\ninstalled: true\n\npackage: a\nversion: 2\nprovides: f\ninstalled: true\n\npackage: a\nversion: 3\nprovides: f = 3, f = 3\ninstalled: true\n\npackage: f\nversion: 2\ninstalled: true\n\nrequest: r\n";

/// A name, a bound of it, and how many packages alone meet it.
type Count = (&'static str, Option<(Relop, u64)>, u128);

const MEETING: [Count; 10] = [
    ("a", None, 3),
    ("f", None, 4),
    ("f", Some((Relop::Eq, 3)), 3),
    ("f", Some((Relop::Neq, 3)), 3),
    ("f", Some((Relop::Geq, 3)), 3),
    ("f", Some((Relop::Gt, 3)), 1),
    ("f", Some((Relop::Leq, 1)), 2),
    ("f", Some((Relop::Lt, 2)), 2),
    ("f", Some((Relop::Lt, 1)), 0),
    ("g", None, 0),
];

fn is_counted(counts: &Counts<'_, '_, '_>, row: &Count) -> bool {
    let vpkg = Vpkg {
        name: row.0,
        bound: row.1,
    };
    counts.meeting(&vpkg) == row.2
}

/// Asks how many packages of the initial status answer.
struct Givers;

impl Asks for Givers {
    fn of_problem(&self, alloc: Global, problem: &Problem<'_>) -> Answer {
        let status = initial(alloc, problem)?;
        let index = Index::build(alloc, problem, &status)?;
        let counts = index.counts(alloc)?;
        Ok(
            MEETING.iter().all(|row| is_counted(&counts, row))
                && counts.giving("f", Some((Relop::Lt, 3))) == 2
                && status.holds(4)
                && !status.holds(5)
                && !status.holds(u64::MAX)
                && (counts.differing("a"), counts.differing("f")) == (3, 4),
        )
    }
}

#[test]
fn counted(rt: HostRuntime) {
    expect(&rt, judge(rt.alloc(), GIVERS, b"", &Givers));
}

//! The beginnings of an input that holds a problem and its solution, of each length: how a run ends on a file that was
//! cut off, answered by hand from the rules of the format.
use crate::reports::{CHECK, JOINED, report};
use crate::table::Answer;
use cudf_check::Outcome;
use std::alloc::Global;

/// Inputs of alike report: the length of the longest of them, the report, and the outcome. They begin where those before
/// end.
type Range = (usize, &'static [u8], Outcome);

const RANGES: [Range; 36] = [
    // `package: car`: nothing, a name of a property without its colon, with no value, and with one.
    (0, b"problem line 1: E13 no request\n", Outcome::Faulty),
    (
        7,
        b"problem line 1: E2 not a property, continuation, comment or blank line\n",
        Outcome::Faulty,
    ),
    (
        9,
        b"problem line 1: E9 value is not of its type\n",
        Outcome::Faulty,
    ),
    (13, b"problem line 1: E12 no version\n", Outcome::Faulty),
    // `version: 1`
    (
        20,
        b"problem line 2: E2 not a property, continuation, comment or blank line\n",
        Outcome::Faulty,
    ),
    (
        22,
        b"problem line 2: E9 value is not of its type\n",
        Outcome::Faulty,
    ),
    (24, b"problem line 2: E13 no request\n", Outcome::Faulty),
    // `depends: wheel > 2`, which may be empty, and may end after `wheel`, but not after `>`
    (
        31,
        b"problem line 3: E2 not a property, continuation, comment or blank line\n",
        Outcome::Faulty,
    ),
    (39, b"problem line 3: E13 no request\n", Outcome::Faulty),
    (
        41,
        b"problem line 3: E9 value is not of its type\n",
        Outcome::Faulty,
    ),
    (43, b"problem line 3: E13 no request\n", Outcome::Faulty),
    // `installed: true`, and the blank line
    (
        52,
        b"problem line 4: E2 not a property, continuation, comment or blank line\n",
        Outcome::Faulty,
    ),
    (
        57,
        b"problem line 4: E9 value is not of its type\n",
        Outcome::Faulty,
    ),
    (59, b"problem line 4: E13 no request\n", Outcome::Faulty),
    (60, b"problem line 5: E13 no request\n", Outcome::Faulty),
    // `package: wheel`
    (
        67,
        b"problem line 6: E2 not a property, continuation, comment or blank line\n",
        Outcome::Faulty,
    ),
    (
        69,
        b"problem line 6: E9 value is not of its type\n",
        Outcome::Faulty,
    ),
    (75, b"problem line 6: E12 no version\n", Outcome::Faulty),
    // `version: 2`
    (
        82,
        b"problem line 7: E2 not a property, continuation, comment or blank line\n",
        Outcome::Faulty,
    ),
    (
        84,
        b"problem line 7: E9 value is not of its type\n",
        Outcome::Faulty,
    ),
    (86, b"problem line 7: E13 no request\n", Outcome::Faulty),
    // `installed: true`, and the blank line
    (
        95,
        b"problem line 8: E2 not a property, continuation, comment or blank line\n",
        Outcome::Faulty,
    ),
    (
        100,
        b"problem line 8: E9 value is not of its type\n",
        Outcome::Faulty,
    ),
    (102, b"problem line 8: E13 no request\n", Outcome::Faulty),
    (103, b"problem line 9: E13 no request\n", Outcome::Faulty),
    // `request: r`, whose value may be empty, and the blank line: nothing is installed, and nothing has to be
    (
        110,
        b"problem line 10: E2 not a property, continuation, comment or blank line\n",
        Outcome::Faulty,
    ),
    (115, b"solution yes\n", Outcome::Yes),
    // the solution's `package: car`
    (
        122,
        b"solution line 1: E2 not a property, continuation, comment or blank line\n",
        Outcome::Faulty,
    ),
    (
        124,
        b"solution line 1: E9 value is not of its type\n",
        Outcome::Faulty,
    ),
    (128, b"solution line 1: E12 no version\n", Outcome::Faulty),
    // `version: 1`: a package that isn't installed
    (
        135,
        b"solution line 2: E2 not a property, continuation, comment or blank line\n",
        Outcome::Faulty,
    ),
    (
        137,
        b"solution line 2: E9 value is not of its type\n",
        Outcome::Faulty,
    ),
    (139, b"solution yes\n", Outcome::Yes),
    // `installed: true`
    (
        148,
        b"solution line 3: E2 not a property, continuation, comment or blank line\n",
        Outcome::Faulty,
    ),
    (
        153,
        b"solution line 3: E9 value is not of its type\n",
        Outcome::Faulty,
    ),
    (
        155,
        b"p1.depends.1 car 1 line 1: needs wheel > 2\nsolution no\n",
        Outcome::No,
    ),
];

fn is_reported(alloc: Global, front: &[u8], range: &Range) -> Answer {
    let (outcome, report) = report(alloc, &CHECK, front)?;
    Ok(outcome == range.2 && report.as_slice() == range.1)
}

/// Whether the front of this length has the report of its range.
fn is_answered(alloc: Global, length: usize) -> Answer {
    match (
        JOINED.get(..length),
        RANGES.iter().find(|range| length <= range.0),
    ) {
        (Some(front), Some(range)) => is_reported(alloc, front, range),
        _ => Ok(false),
    }
}

#[test]
fn fronts(rt: HostRuntime) {
    assert_eq!(rt; JOINED.len(), 155);
    for length in 0..=155 {
        assert!(rt;
            matches!(is_answered(rt.alloc(), length), Ok(true)),
            "{length} bytes"
        );
    }
}

//! Statuses of few and of many packages, provisions and numbers.
use crate::chain::{Asks, judge};
use crate::table::{Answer, assert_rows};
use cudf_document::{Problem, Status, initial};
use cudf_index::{Index, Providers};
use cudf_referee::Explainer;
use cudf_value::{Relop, Vpkg};
use std::alloc::{AllocError, Global};

/// How many versions of `p` there are, from 1 on; how many of `f`, from 1 on, each of them provides; whether they are
/// installed; and the greatest number that the status gives of `p`, and of `f`.
struct Row(u64, u64, bool, Option<u64>, Option<u64>);

const STATUSES: [Row; 17] = [
    Row(0, 0, true, None, None),
    Row(1, 0, false, None, None),
    Row(1, 0, true, Some(1), None),
    Row(2, 0, true, Some(2), None),
    Row(3, 0, false, None, None),
    Row(3, 0, true, Some(3), None),
    Row(4, 0, true, Some(4), None),
    Row(100, 0, false, None, None),
    Row(100, 0, true, Some(100), None),
    Row(1000, 1, true, Some(1000), Some(1)),
    Row(1, 1, true, Some(1), Some(1)),
    Row(1, 63, true, Some(1), Some(63)),
    Row(1, 64, true, Some(1), Some(64)),
    Row(1, 65, true, Some(1), Some(65)),
    Row(1, 1000, true, Some(1), Some(1000)),
    Row(2, 1000, true, Some(2), Some(1000)),
    Row(3, 100, true, Some(3), Some(100)),
];

fn provided(alloc: Global, count: u64) -> Result<String, AllocError> {
    let mut text = String::from_str(alloc, "provides: e")?;
    for before in 0..count {
        let number = before.saturating_add(1);
        write!(text, ", f = {number}")?;
    }
    Ok(text)
}

fn source(alloc: Global, row: &Row, provides: &str) -> Result<String, AllocError> {
    let installed = row.2;
    let mut text = String::new(alloc);
    for before in 0..row.0 {
        let version = before.saturating_add(1);
        write!(
            text,
            "package: p\nversion: {version}\n{provides}\ninstalled: {installed}\n\n"
        )?;
    }
    text.push_str("request:\n")?;
    Ok(text)
}

fn is_kept(alloc: Global, row: &Row) -> Answer {
    let provides = provided(alloc, row.1)?;
    is_kept_of(alloc, row, provides.as_str())
}

/// Whether the problem's own text, as a solution, is one, and its numbers are those of before.
fn is_kept_of(alloc: Global, row: &Row, provides: &str) -> Answer {
    let source = source(alloc, row, provides)?;
    judge(alloc, source.as_bytes(), source.as_bytes(), row)
}

impl Asks for Row {
    fn of_problem(&self, alloc: Global, problem: &Problem<'_>) -> Answer {
        Ok(is_indexed(alloc, problem, self)? && is_provided(alloc, problem, self)?)
    }

    fn of_explainer(&self, explainer: &Explainer<'_, '_, '_>) -> Answer {
        Ok(
            explainer.referee().is_solution()
                && has_numbers(explainer, "p", self.3)
                && has_numbers(explainer, "f", self.4),
        )
    }
}

/// Whether the name's greatest number is this one, and was.
fn has_numbers(explainer: &Explainer<'_, '_, '_>, name: &str, greatest: Option<u64>) -> bool {
    explainer.greatest(name) == greatest && explainer.greatest_before(name) == greatest
}

fn is_indexed(alloc: Global, problem: &Problem<'_>, row: &Row) -> Answer {
    let status = initial(alloc, problem)?;
    let index = Index::build(alloc, problem, &status)?;
    Ok((index.greatest("p"), index.greatest("f")) == (row.3, row.4))
}

/// Whether the first package is found that has the name `p`, and the first that gives the last `f`, installed or not.
fn is_provided(alloc: Global, problem: &Problem<'_>, row: &Row) -> Answer {
    let first = if row.0 > 0 { Some(1) } else { None };
    let first_given = if row.1 > 0 { first } else { None };
    let last = Vpkg {
        name: "f",
        bound: Some((Relop::Eq, row.1)),
    };
    let providers = Providers::build(alloc, problem, Status::from_flags(Vec::new(alloc)))?;
    Ok((providers.first_named("p"), providers.first_meeting(&last)) == (first, first_given))
}

#[test]
fn large_statuses(rt: HostRuntime) {
    assert_rows(&rt, rt.alloc(), &STATUSES, is_kept);
}

//! Documents of many packages.
use crate::chain::{Asks, judge, walk};
use crate::table::{Answer, assert_rows};
use cudf_document::{Mode, Problem, Solution};
use std::alloc::{AllocError, Global};

/// How many packages a problem has, and what is in each after its name and version.
struct Packages(u64, &'static str);

/// The last of them have more than 5,000 lines.
const PACKAGES: [Packages; 12] = [
    Packages(0, ""),
    Packages(1, ""),
    Packages(2, ""),
    Packages(3, ""),
    Packages(4, ""),
    Packages(100, ""),
    Packages(1, "depends: a,\n b | c\nconflicts: d,\n e\n"),
    Packages(3, "conflicts: a,\n b\nprovides: c,\n d = 2\n"),
    Packages(
        100,
        "depends: a-name-of-so-many-bytes-that-the-first-of-the-two-lines-of-this-value-has-more-than-eighty,\n b\n",
    ),
    Packages(1700, ""),
    Packages(1700, "depends: a, b | c\nprovides: d = 2\n"),
    Packages(1700, "depends: a,\n b | c\n"),
];

/// Packages of so many names, each with these lines, and then `tail`.
fn source(alloc: Global, count: u64, lines: &str, tail: &str) -> Result<String, AllocError> {
    let mut text = String::new(alloc);
    for number in 0..count {
        write!(text, "package: p{number}\nversion: 1\n{lines}\n")?;
    }
    text.push_str(tail)?;
    Ok(text)
}

impl Asks for Packages {
    /// Whether the problem has so many packages, and the last of them is installed.
    fn of_solution(&self, _: Global, problem: &Problem<'_>, solution: &Solution<'_>) -> Answer {
        let (count, status) = (self.0, &solution.status);
        Ok(
            problem.packages().len() as u64 == count
                && status.holds(count) == (count > 0)
                && !status.holds(u64::MAX),
        )
    }
}

/// Whether the problem is read, and a solution that installs all of it, as texts and stanza by stanza.
fn is_read(alloc: Global, row: &Packages) -> Answer {
    let problem = source(alloc, row.0, row.1, "request:\n")?;
    is_installed(alloc, problem.as_bytes(), row)
}

fn is_installed(alloc: Global, problem: &[u8], row: &Packages) -> Answer {
    let solution = source(alloc, row.0, "installed: true\n", "")?;
    Ok(
        judge(alloc, problem, solution.as_bytes(), row)?
            && walk(alloc, problem, solution.as_bytes(), Mode::Lenient, row)?,
    )
}

#[test]
fn documents(rt: HostRuntime) {
    assert_rows(&rt, rt.alloc(), &PACKAGES, is_read);
}

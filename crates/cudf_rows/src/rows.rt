//! Rows, each a job with its documents: what each of them writes, and how it ends.
mod answer;
mod asked;
mod document;
mod pages;

use answer::{Answer, answers};
use document::Documents;
use std::alloc::Global;
use std::io::{self, Write};

/// Prints the answers to the rows, with `== ` between each two.
pub(crate) fn print<W: Write>(alloc: Global, rows: &str, out: &mut W) -> io::Result<()> {
    let mut problem = Vec::new(alloc);
    for row in rows.split("\n== ") {
        problem = print_row(alloc, row, &problem, out)?;
    }
    Ok(())
}

/// Prints the answer to the row that comes after `== `, and gives its problem. `before` is that of the row before.
fn print_row<W: Write>(
    alloc: Global,
    row: &str,
    before: &[u8],
    out: &mut W,
) -> io::Result<Vec<u8>> {
    let (head, lines) = row.split_once("\n").unwrap_or((row, ""));
    let (name, job) = head.rsplit_once(": ").unwrap_or((head, ""));
    let documents = Documents::of(alloc, lines, before)?;
    match asked::read(alloc, job)? {
        Some(asked) => {
            let Answer { status, report } = answers(alloc, &asked, &documents)?;
            writeln!(out, "== {name}: {status}")?;
            out.write_all(&report)?;
        }
        None => writeln!(out, "== {name}: no job")?,
    }
    Ok(documents.problem)
}

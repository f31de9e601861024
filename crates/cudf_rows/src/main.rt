//! Answers vectors, then rows, and then prints what the example finds.
//!
//! A vector is a line: the word of a call, a space and the text that it is asked about, in which `¶` is a line end. It is
//! answered by a line. A line that is empty or begins with `#` is its own answer.
//!
//! A row begins with a line `== NAME: JOB`. The lines after it are the problem, or one input that holds both documents;
//! after each line `--` is a solution. What is printed is `== NAME: STATUS`, and the report. In a document a line `..` is
//! the problem of the row before, and `<car 1>` the three lines of an installed package; `{}` at the end of any other line
//! leaves out the line's end. One blank line before the next row belongs to no document.
//!
//! In vectors and documents `{0d}` is that byte.
#![tactic(auto)]

mod example;
mod notation;
mod rows;
mod vectors;

use std::io::{self, BufWriter, Write};

fn main(rt: HostRuntime) -> io::Result<()> {
    let data = io::read_to_string(rt.alloc(), rt.stdin())?;
    let mut out = BufWriter::new(rt.alloc(), rt.stdout())?;
    let (vectors, rows) = data.split_once("\n== ").unwrap_or((data.as_str(), ""));
    vectors::print(rt.alloc(), vectors, &mut out)?;
    rows::print(rt.alloc(), rows, &mut out)?;
    example::print(rt.alloc(), &mut out)?;
    out.flush()
}

//! Vectors, each a single call of the libraries about a text.
mod documents;
mod packages;
mod problems;
mod shown;
mod solutions;
mod statuses;
mod texts;
mod values;

use crate::notation::push_bytes;
use cudf_document::Mode;
use std::alloc::{AllocError, Global};
use std::io::{self, Write};
use std::str;

/// Prints the answers to these lines.
pub(crate) fn print<W: Write>(alloc: Global, lines: &str, out: &mut W) -> io::Result<()> {
    let mut problem = Vec::new(alloc);
    for line in lines.lines() {
        let answer = answer_line(alloc, line, &mut problem)?;
        writeln!(out, "{answer}")?;
    }
    Ok(())
}

/// The answer to a line. A problem in it is the one that later lines are about.
fn answer_line(alloc: Global, line: &str, problem: &mut Vec<u8>) -> Result<String, AllocError> {
    if line.is_empty() || line.starts_with('#') {
        return String::from_str(alloc, line);
    }
    let (call, text) = line.split_once(' ').unwrap_or((line, ""));
    let bytes = bytes_of(alloc, text)?;
    if call == "problem" {
        *problem = bytes.clone()?;
    }
    answer(alloc, call, &bytes, problem)
}

/// The bytes that a text stands for, in which `¶` is a line end.
fn bytes_of(alloc: Global, text: &str) -> Result<Vec<u8>, AllocError> {
    let mut bytes = Vec::new(alloc);
    push_bytes(&mut bytes, &text.replace(alloc, '¶', "\n")?)?;
    Ok(bytes)
}

/// The answer to a call about these bytes, and about the last problem.
fn answer(alloc: Global, call: &str, bytes: &[u8], problem: &[u8]) -> Result<String, AllocError> {
    match call {
        "joined" => texts::joined(alloc, bytes),
        "text" => texts::text(alloc, bytes),
        "fault" => documents::fault(alloc, bytes, Mode::Lenient),
        "strict_fault" => documents::fault(alloc, bytes, Mode::Strict),
        "problem" => documents::problem(alloc, bytes),
        "solution" | "strict_solution" | "initial" | "satisfied" | "clause" | "numbers" => {
            problems::answer(alloc, call, bytes, problem)
        }
        _ => match str::from_utf8(bytes) {
            Ok(text) => values::answer(alloc, call, text),
            Err(_) => String::from_str(alloc, "not UTF-8"),
        },
    }
}

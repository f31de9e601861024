//! The documents of a row, from its lines to their bytes.
use crate::notation::push_bytes;
use std::alloc::{AllocError, Global};

/// The line between two documents.
const BETWEEN: &str = "--";

/// The line that is in a problem for that of the row before.
const SAME: &str = "..";

/// The documents of a row: its problem, or one input that holds both, and its solutions.
#[derive(Drop)]
pub(crate) struct Documents {
    pub(crate) problem: Vec<u8>,
    pub(crate) solutions: Vec<Vec<u8>>,
}

impl Documents {
    /// The documents of these lines. `before` is the problem of the row before.
    pub(crate) fn of(alloc: Global, lines: &str, before: &[u8]) -> Result<Documents, AllocError> {
        let mut documents = Documents {
            problem: Vec::new(alloc),
            solutions: Vec::new(alloc),
        };
        for line in lines.lines() {
            documents.add(alloc, line, before)?;
        }
        Ok(documents)
    }

    /// Adds a line to the last document, or begins the next one.
    fn add(&mut self, alloc: Global, line: &str, before: &[u8]) -> Result<(), AllocError> {
        if line == BETWEEN {
            self.solutions.push(Vec::new(alloc))?;
            return Ok(());
        }
        if line == SAME {
            return self.problem.extend_from_slice(before);
        }
        match self.solutions.last_mut() {
            Some(solution) => push_line(solution, line),
            None => push_line(&mut self.problem, line),
        }
    }
}

/// Adds a line, or those of an installed package.
fn push_line(document: &mut Vec<u8>, line: &str) -> Result<(), AllocError> {
    match installed(line) {
        Some((name, version)) => push_installed(document, name, version),
        None => push_whole(document, line),
    }
}

/// The name and the version of an installed package, where the line stands for one.
fn installed(line: &str) -> Option<(&str, &str)> {
    line.strip_prefix("<")?.strip_suffix(">")?.split_once(" ")
}

/// Adds the lines of an installed package.
fn push_installed(document: &mut Vec<u8>, name: &str, version: &str) -> Result<(), AllocError> {
    document.extend_from_slice(b"package: ")?;
    push_whole(document, name)?;
    document.extend_from_slice(b"version: ")?;
    push_whole(document, version)?;
    push_whole(document, "installed: true")
}

/// Adds the bytes of a line, and its end.
fn push_whole(document: &mut Vec<u8>, line: &str) -> Result<(), AllocError> {
    match line.strip_suffix("{}") {
        Some(open) => push_bytes(document, open),
        None => {
            push_bytes(document, line)?;
            document.push(b'\n')?;
            Ok(())
        }
    }
}

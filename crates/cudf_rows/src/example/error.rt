//! Why the example can't go on.
use cudf_document::ReadError;
use cudf_text::Fault;
use std::alloc::AllocError;
use std::io;
use thiserror::Error;

/// Why the example can't go on.
#[derive(Debug, Drop, Error)]
pub(crate) enum ExampleError {
    /// A document has a fault, or memory ran out.
    #[error("{0}")]
    Document(ReadError),
    /// The list of criteria isn't one.
    #[error("the list of criteria isn't one")]
    NoList,
    /// An answer is no solution.
    #[error("an answer is no solution")]
    NoSolution,
    /// What is found can't be printed.
    #[error("{0}")]
    Print(io::Error),
}

impl From<Fault> for ExampleError {
    fn from(fault: Fault) -> Self {
        ExampleError::Document(ReadError::Fault(fault))
    }
}

impl From<ReadError> for ExampleError {
    fn from(error: ReadError) -> Self {
        ExampleError::Document(error)
    }
}

impl From<AllocError> for ExampleError {
    fn from(error: AllocError) -> Self {
        ExampleError::Document(ReadError::Memory(error))
    }
}

impl From<io::Error> for ExampleError {
    fn from(error: io::Error) -> Self {
        ExampleError::Print(error)
    }
}

//! What tests answer, tables of rows, and what values are printed as.
use cudf_document::ReadError;
use cudf_text::{Fault, TextError};
use std::alloc::{AllocError, Global};
use std::fmt::{Debug, Display};
use std::process::Abort;

/// Why a call gave no value.
#[derive(Clone, Copy)]
pub(crate) enum Ended {
    Refused,
    Faulty,
}

impl From<AllocError> for Ended {
    fn from(_error: AllocError) -> Ended {
        Ended::Refused
    }
}

impl From<Fault> for Ended {
    fn from(_fault: Fault) -> Ended {
        Ended::Faulty
    }
}

impl From<TextError> for Ended {
    fn from(error: TextError) -> Ended {
        match error {
            TextError::Memory(_) => Ended::Refused,
            TextError::Fault(_) => Ended::Faulty,
        }
    }
}

impl From<ReadError> for Ended {
    fn from(error: ReadError) -> Ended {
        match error {
            ReadError::Memory(_) => Ended::Refused,
            ReadError::Fault(_) => Ended::Faulty,
        }
    }
}

/// Whether the calls of a test gave the right answers.
pub(crate) type Answer = Result<bool, Ended>;

/// Asserts that the answer is right, and says where a growth was refused.
pub(crate) fn expect(rt: &impl Abort, answer: Answer) {
    match answer {
        Ok(is_right) => assert!(rt; is_right, "wrong"),
        Err(Ended::Faulty) => assert!(rt; false, "faulty"),
        Err(Ended::Refused) => assert!(rt; false, "refused in the call"),
    }
}

/// Asserts that each row is right, and names the first one that isn't by its number, from 1.
pub(crate) fn assert_rows<R, F: Fn(Global, &R) -> Answer + Drop>(
    rt: &impl Abort,
    alloc: Global,
    rows: &[R],
    is_right: F,
)
    requires { F.IsAlwaysCallable is_right }
{
    for (before, row) in rows.iter().enumerate() {
        assert!(rt;
            matches!(is_right(alloc, row), Ok(true)),
            "row {}",
            before as u128 + 1
        );
    }
}

/// Whether the value is printed as this text.
pub(crate) fn prints<T: Display>(alloc: Global, value: &T, want: &str) -> Answer {
    let text = value.to_string(alloc)?;
    Ok(text.as_str() == want)
}

/// Whether the value is shown to programmers as this text.
pub(crate) fn shows<T: Debug>(alloc: Global, value: &T, want: &str) -> Answer {
    let text = format!(in alloc; "{value:?}")?;
    Ok(text.as_str() == want)
}

//! What the library for C calls: the program's command line, on documents that are held in memory.
//!
//! A call answers the exit status that the program has for the same words and documents. What the program prints on standard
//! output, or with status 4 on standard error, goes to the front of the caller's buffer as far as there is room, and the rest
//! is only counted: no more of a report is held in memory. The length of the whole text is given: where that is more than the
//! buffer has, a second call with a larger one gives all of it. With status 5 and 6 nothing is written, and the length is 0.
//!
//! Status 4, of words that ask for nothing, comes before 5, and a document that is too long is known by its length alone.
//! Nothing is kept between calls, so any number of threads may call at once. Own.
#![tactic(auto)]

ghost use Rattle.std.specs.Prelude.{map};
ghost use Rattle.cudf_calls.specs.Calls.{Runs, left};

mod carried;
mod document;
mod front;

use carried::{Stop, obey, refuse, show};
use document::command_line;
use std::alloc::Global;

/// A word of a caller's.
#[repr(C)]
#[derive(Clone, Copy)]
pub struct Word<'t> {
    /// Its bytes: a pointer, which isn't null, and how many there are.
    pub bytes: &'t [u8],
}

/// A document of a caller's.
#[repr(C)]
#[derive(Clone, Copy)]
pub struct NamedBytes<'t> {
    /// Its bytes.
    pub text: &'t [u8],
    /// Its name, as of a file, which may be empty.
    pub name: &'t [u8],
}

/// Does what the words ask the program for, on the documents in place of the files that it would name behind them. The last
/// document stands for the file of `--better-than=NAME`, where that is one of the words.
pub fn run(
    alloc: Global,
    words: &[Word<'_>],
    documents: &[NamedBytes<'_>],
    room: &mut [u8],
    length: &mut usize,
) -> u8
    ensures { Runs (map (λ word. word.bytes.now) words.now) documents.now (left room.old room.new length.new result) }
{
    match command_line(alloc, words, documents) {
        Ok(line) => obey(alloc, &line, documents, room, length),
        Err(Stop::Refused) => {
            let message =
                b"cudf_check: the arguments can't be read: invalid data; give them as UTF-8\n";
            show(4, message, room, length)
        }
        Err(Stop::Memory) => refuse(6, length),
    }
}

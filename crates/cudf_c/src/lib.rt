//! The library for C, and for each language that calls C: the call of `cudf_calls`, under the name that C knows.
#![tactic(auto)]

ghost use Rattle.std.specs.Prelude.{map};
ghost use Rattle.cudf_calls.specs.Calls.{Runs, left};

use cudf_calls::{NamedBytes, Word};
use std::alloc::Global;

/// [`cudf_calls::run`] for C. The last document stands for the file of `--better-than=NAME`, where that is one of the words.
#[unsafe(no_mangle)]
pub extern "C" fn cudf_check_run(
    alloc: Global,
    words: &[Word<'_>],
    documents: &[NamedBytes<'_>],
    room: &mut [u8],
    length: &mut usize,
) -> u8
    ensures { Runs (map (λ word. word.bytes.now) words.now) documents.now (left room.old room.new length.new result) }
{
    cudf_calls::run(alloc, words, documents, room, length)
}

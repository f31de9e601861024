//! What the words ask for, on documents in memory; and what a caller is told where there is no report.
ghost use Rattle.std.specs.Prelude.{◌≡◌, [], ◌∷◌, IfOk, MatchResult, map, option_map, string_bytes};
ghost use Rattle.std.specs.List.{All, AllZip};
ghost use Rattle.std.specs.Str.{IsUtf8};
ghost use Rattle.cudf_check.specs.JobReport.{report};
ghost use Rattle.cudf_command_line.specs.Orders.{IsAskedFor, IsUnasked};
ghost use Rattle.cudf_command_line.specs.declared.command.Order.{Order};
ghost use Rattle.cudf_command_line.specs.declared.usage.UsageError.{UsageError};
ghost use Rattle.cudf_calls.specs.Calls.{Does, Follows, Reports, label, labels, left, names_of, texts_of, BreaksOff, Says, Shows};
ghost use Rattle.cudf_calls.specs.Working.Documents.{IsNew};
ghost use Rattle.cudf_calls.specs.Working.Fronts.{IsUnwritten, IsWritten};

use crate::NamedBytes;
use crate::document::{MemorySource, are_short};
use crate::front::{CallerBuffer, GhostFront, copy_front};
use cudf_check::{Outcome, RunError, run};
use cudf_command_line::command::parse_command_line;
use cudf_command_line::{Order, UsageError};
use std::alloc::{AllocError, Global};

/// Does what these words of a command line ask for.
pub(crate) fn obey(
    alloc: Global,
    line: &[String],
    documents: &[NamedBytes<'_>],
    room: &mut [u8],
    length: &mut usize,
) -> u8
    requires { All IsUtf8 (names_of documents.now) }

    ensures { Follows (map (λ word. string_bytes word) line.now) documents.now (left room.old room.new length.new result) }
{
    match parse_command_line(alloc, line) {
        Ok(order) => carry_out(alloc, &order, documents, room, length),
        Err(usage) => answer_usage(alloc, &usage, room, length),
    }
}

/// Carries an order out, if there are as many documents as files.
fn carry_out(
    alloc: Global,
    order: &Order<'_>,
    documents: &[NamedBytes<'_>],
    room: &mut [u8],
    length: &mut usize,
) -> u8
    requires { All IsUtf8 (names_of documents.now) }

    ensures { Does order.now documents.now (left room.old room.new length.new result) }
{
    let message = b"error: a word names a file, in place of which a document is given\n";
    let Some((first, others)) = documents.split_first() else {
        return show(4, message, room, length);
    };
    if others.len() != order.others.len() {
        return show(4, message, room, length);
    }
    if !are_short(documents) {
        return refuse(5, length);
    }
    write_report(alloc, order, first, others, room, length)
}

/// The report of an order on documents that aren't too long.
fn write_report<'t>(
    alloc: Global,
    order: &Order<'_>,
    first: &NamedBytes<'t>,
    others: &[NamedBytes<'t>],
    room: &mut [u8],
    length: &mut usize,
) -> u8
    requires { All IsUtf8 (names_of (first.now ∷ others.now)) }

    ensures { Reports (report order.now.job order.now.mode (labels order.now.names_files first.now others.now) first.now.text.now (texts_of others.now)) (left room.old room.new length.new result) }
{
    let mut seen = GhostFront::of(room);
    let mut out = CallerBuffer::new(room, &mut seen);
    match write(alloc, order, first, others, &mut out) {
        Ok(outcome) => {
            *length = out.length();
            outcome.status()
        }
        Err(_) => refuse(6, length),
    }
}

/// Writes the report of an order on these documents to `out`, and gives its outcome. `Stop::Memory` where memory is
/// refused.
fn write<'t>(
    alloc: Global,
    order: &Order<'_>,
    first: &NamedBytes<'t>,
    others: &[NamedBytes<'t>],
    out: &mut CallerBuffer<'_>,
) -> Result<Outcome, Stop>
    requires report { out.old.seen.now.report ≡ [] }
    requires names { All IsUtf8 (names_of (first.now ∷ others.now)) }

    ensures same_reference { out.new.room.ghost_name ≡ out.old.room.ghost_name }
    ensures written { MatchResult result
        (IsWritten (report order.now.job order.now.mode (labels order.now.names_files first.now others.now) first.now.text.now (texts_of others.now)) out.old out.new)
        (IsUnwritten out.old out.new) }
{
    let names_files = order.names_files;
    let mut problem = document(names_files, first);
    let mut others = documents(alloc, names_files, others)?;
    let outcome = run(
        alloc,
        &order.job,
        order.mode,
        &mut problem,
        &mut others,
        out,
    )?;
    Ok(outcome)
}

/// A document for each input.
fn documents<'t>(
    alloc: Global,
    names_files: bool,
    inputs: &[NamedBytes<'t>],
) -> Result<Vec<MemorySource<'t>>, AllocError>
    ensures { IfOk result (λ documents. All IsUtf8 (names_of inputs.now) → AllZip (IsNew names_files) inputs.now documents.items) }
{
    let mut documents = Vec::new(alloc);
    for input in inputs {
        documents.push(document(names_files, input))?;
    }
    Ok(documents)
}

/// The document of an input, of which nothing was read.
fn document<'t>(names_files: bool, input: &NamedBytes<'t>) -> MemorySource<'t>
    ensures { IsUtf8 input.now.name.now → IsNew names_files input.now result }
{
    MemorySource::new(input.text, label(names_files, input.name))
}

/// How lines name a document, where they name files. A name that isn't UTF-8 was refused before.
fn label(names_files: bool, name: &[u8]) -> Option<&str>
    ensures { IsUtf8 name.entry.now → option_map (λ n. n.now) result ≡ label names_files name.entry.now }
{
    if names_files && !name.is_empty() {
        match str::from_utf8(name) {
            Ok(name) => Some(name),
            Err(_) => None,
        }
    } else {
        None
    }
}

/// Shows a text: its front is in the caller's buffer, as far as there is room, and its length is told. Answers the status.
pub(crate) fn show(status: u8, text: &[u8], room: &mut [u8], length: &mut usize) -> u8
    ensures status { result ≡ status }
    ensures shows { Shows text.now (left room.old room.new length.new result) }
{
    *length = text.len();
    copy_front(text, room);
    status
}

/// Tells a caller that there is no text, and answers the status.
pub(crate) fn refuse(status: u8, length: &mut usize) -> u8
    ensures length { length.new ≡ 0 }
    ensures status { result ≡ status }
{
    *length = 0;
    status
}

/// Tells what is told of words that ask for no order.
pub(crate) fn answer_usage(
    alloc: Global,
    usage: &UsageError<'_>,
    room: &mut [u8],
    length: &mut usize,
) -> u8
    ensures { Says usage.now (left room.old room.new length.new result) }
{
    if let UsageError::Told(text) = usage {
        return show(0, text.as_bytes(), room, length);
    }
    if usage.status() != 4 {
        return refuse(6, length);
    }
    let mut message = Vec::new(alloc);
    match usage.tell(&mut message) {
        Ok(()) => show(4, &message, room, length),
        Err(_) => refuse(6, length),
    }
}

/// Why a call breaks off.
#[derive(Clone, Copy)]
pub(crate) enum Stop {
    /// A word isn't UTF-8.
    Refused,
    /// Memory ran out.
    Memory,
}

impl From<AllocError> for Stop {
    ghost use Rattle.std.specs.Prelude.{◌≡◌};
    ghost use Rattle.cudf_calls.specs.declared.carried.Stop.TheVariants.{Memory};

    ghost from_gives = { λ _ stop. stop ≡ Memory };

    fn from(_error: AllocError) -> Self {
        Stop::Memory
    }
}

// No read of a document in memory fails, and no write to a front; and that no document is too long is known before it is read.
impl From<RunError> for Stop {
    ghost use Rattle.std.specs.Prelude.{◌≡◌};
    ghost use Rattle.cudf_calls.specs.declared.carried.Stop.TheVariants.{Memory};

    ghost from_gives = { λ _ stop. stop ≡ Memory };

    fn from(_error: RunError) -> Self {
        Stop::Memory
    }
}

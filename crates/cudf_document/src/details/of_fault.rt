//! The detail of a fault, by its kind.
ghost use Rattle.std.specs.Prelude.{◌≡◌, option_map, IfOk, IsUtf8};
ghost use Rattle.cudf_text.specs.Stanzas.{plain_text};
ghost use Rattle.cudf_document.specs.Details.{byte_detail, fault_detail, source_detail, text_detail};
ghost use Rattle.cudf_document.specs.Promises.Views.{detail_view};
ghost use Rattle.cudf_document.specs.Working.Details.{is_of_pair, is_of_stanza};

use crate::details::invalid::{earlier_package, empty, invalid_bytes_detail, invalid_line_detail};
use crate::details::{Detail, find_stanza, stanza_fault_detail};
use cudf_text::{Fault, Kind, Room, Stanzas, source_of};
use std::alloc::{AllocError, Global};

/// What a document, be it a problem or a solution, says beside this fault of it (own). It may be asked of any
/// fault, whether or not the document has it.
///
/// `None` is answered of the kinds E3, E5 and E12, for which nothing is read; of E2 on a line after the first that begins
/// with a byte order mark; of E10 where quotes or brackets are wrong; of E13 where the document has a byte; of E1 where
/// the document is UTF-8, and of other kinds where it isn't; and where the document has nothing of what the kind tells.
/// The document is read as far as the fault's line, and twice for E11 and E15.
///
/// # Errors
///
/// `AllocError` where memory is refused.
pub fn detail<'t>(
    alloc: Global,
    bytes: &'t [u8],
    room: &'t mut Room,
    fault: Fault,
) -> Result<Option<Detail<'t>>, AllocError>
    ensures { IfOk result (λ d. option_map detail_view d ≡ fault_detail bytes.now fault) }
{
    match source_of(bytes) {
        Ok(source) => source_detail(alloc, source, room, fault),
        Err(_) => Ok(byte_detail(bytes, fault.kind)),
    }
}

/// The detail of a fault of bytes that are no text.
fn byte_detail<'t>(bytes: &[u8], kind: Kind) -> Option<Detail<'t>>
    ensures { ¬ (IsUtf8 bytes.now) → option_map detail_view result ≡ byte_detail kind bytes.now }
{
    match kind {
        Kind::E1 => invalid_bytes_detail(bytes),
        _ => None,
    }
}

/// The detail of a fault of a text.
fn source_detail<'t>(
    alloc: Global,
    source: &'t str,
    room: &'t mut Room,
    fault: Fault,
) -> Result<Option<Detail<'t>>, AllocError>
    ensures { IfOk result (λ d. option_map detail_view d ≡ source_detail fault.kind source.now fault) }
{
    match fault.kind {
        Kind::E2 => Ok(invalid_line_detail(source, fault.line)),
        Kind::E13 => Ok(empty(source)),
        _ => text_detail(alloc, source, room, fault),
    }
}

/// The detail of a fault in a stanza.
fn text_detail<'t>(
    alloc: Global,
    source: &'t str,
    room: &'t mut Room,
    fault: Fault,
) -> Result<Option<Detail<'t>>, AllocError>
    ensures { IfOk result (λ d. option_map detail_view d ≡ text_detail (plain_text source.now) fault) }
{
    if is_of_pair(fault.kind) {
        return earlier_package(alloc, source, room, fault.line);
    }
    if !is_of_stanza(fault.kind) {
        return Ok(None);
    }
    match find_stanza(alloc, Stanzas::new(alloc, source, room), fault.line)? {
        Some(found) => stanza_fault_detail(alloc, &found, fault),
        None => Ok(None),
    }
}

/// Whether the kind speaks of an earlier package with the same name and version.
fn is_of_pair(kind: Kind) -> bool
    ensures { result ≡ is_of_pair kind }
{
    matches!(kind, Kind::E11 | Kind::E15)
}

/// Whether the detail of this kind is found in a stanza and those before it: E4, E6 to E10, E14 and E16.
fn is_of_stanza(kind: Kind) -> bool
    ensures { result ≡ is_of_stanza kind }
{
    matches!(
        kind,
        Kind::E4 | Kind::E6 | Kind::E7 | Kind::E8 | Kind::E9 | Kind::E10 | Kind::E14 | Kind::E16
    )
}

//! What is reported of bytes that are no text, of a line that can't be read, of a text without a byte, and of a pair
//! that occurs again.
ghost use Rattle.std.specs.Prelude.{◌≡◌, ◌≤◌, ◌-◌, length, slice_get, Some, option_map, IsUtf8, nat_le, [], ◌∷◌, find, None, option_and_then, IfOk, if◌then◌else◌};
ghost use Rattle.cudf_text.specs.Lines.{lines};
ghost use Rattle.cudf_text.specs.Stanzas.{plain_text};
ghost use Rattle.cudf_text.specs.Promises.Views.{stanza_view};
ghost use Rattle.cudf_problem.specs.Ids.{id_of, is_known};
ghost use Rattle.cudf_document.specs.Details.{empty_detail, format_of, first_invalid, invalid_detail, last_line_len, line_detail, marked_detail, shown_detail, unread_detail, package_on};
ghost use Rattle.cudf_document.specs.Promises.Views.{detail_view};
ghost use Rattle.cudf_document.specs.Working.Details.{pair_line};

use crate::details::{Detail, Format, find_stanza};
use crate::package::id_of;
use cudf_text::{Next, Room, StanzaRef, Stanzas, first_line, trim};
use std::alloc::{AllocError, Global};
use std::str;

/// The format of a file whose first bytes these are, if it isn't one of UTF-8 (own).
pub fn format_of(bytes: &[u8]) -> Option<Format>
    ensures { result ≡ format_of bytes.now }
{
    match bytes {
        [0x1F, 0x8B, ..] => Some(Format::Gzip),
        [b'B', b'Z', b'h', ..] => Some(Format::Bzip2),
        [0xFD, b'7', b'z', b'X', b'Z', 0, ..] => Some(Format::Xz),
        [0x28, 0xB5, 0x2F, 0xFD, ..] => Some(Format::Zstandard),
        [0xFF, 0xFE, ..] | [0xFE, 0xFF, ..] => Some(Format::Utf16),
        _ => None,
    }
}

/// How many bytes come after the last end of a line.
fn last_line_len(bytes: &[u8]) -> usize
    ensures value { result ≡ last_line_len bytes.now }
    ensures inside { result ≤ length bytes.now }
{
    let mut start = bytes.len();
    while 0 < start && bytes[start - 1] != b'\n' {
        start -= 1;
    }
    bytes.len() - start
}

/// The first byte that isn't UTF-8, by its place in its line; `None` where the bytes are UTF-8.
fn invalid_byte<'t>(bytes: &[u8]) -> Option<Detail<'t>>
    ensures { ¬ (IsUtf8 bytes.now) → option_map detail_view result ≡ Some (first_invalid bytes.now) }
{
    let Err(error) = str::from_utf8(bytes) else {
        return None;
    };
    let len = error.valid_up_to();
    Some(Detail::InvalidByte {
        place: last_line_len(&bytes[..len]) as u64 + 1,
        byte: bytes[len],
    })
}

/// What is reported of bytes that are no text: their format, or else the first byte that isn't UTF-8.
pub(crate) fn invalid_bytes_detail<'t>(bytes: &[u8]) -> Option<Detail<'t>>
    ensures { ¬ (IsUtf8 bytes.now) → option_map detail_view result ≡ Some (invalid_detail bytes.now) }
{
    match format_of(bytes) {
        Some(format) => Some(Detail::OfFormat(format)),
        None => invalid_byte(bytes),
    }
}

/// The line of this number, from 1, without its end.
fn line_at(text: &str, number: u64) -> Option<&str>
    ensures { option_map (λ line. line.now) result ≡ slice_get (lines text.now) (number - 1) }
{
    let mut rest = text;
    let mut before = number.saturating_sub(1);
    while let Some((line, after)) = first_line(rest) {
        if before == 0 {
            return Some(line);
        }
        before -= 1;
        rest = after;
    }
    None
}

/// What is reported of the line of this number where it begins with a byte order mark: the mark, on line 1.
fn byte_order_mark_detail<'t>(number: u64) -> Option<Detail<'t>>
    ensures { option_map detail_view result ≡ marked_detail number }
{
    if number == 1 {
        Some(Detail::ByteOrderMark)
    } else {
        None
    }
}

/// What is reported of another line: its text, unless that is empty.
fn line_text_detail(text: &str) -> Option<Detail<'_>>
    ensures { option_map detail_view result ≡ shown_detail text.now }
{
    if text.is_empty() {
        None
    } else {
        Some(Detail::LineText { text })
    }
}

/// What is reported of the line of this number.
fn line_detail(number: u64, line: &str) -> Option<Detail<'_>>
    ensures { option_map detail_view result ≡ line_detail number line.now }
{
    if line.as_bytes().starts_with(b"\xEF\xBB\xBF") {
        byte_order_mark_detail(number)
    } else {
        line_text_detail(trim(line))
    }
}

/// What is reported of the line of this number of a text, which can't be read.
pub(crate) fn invalid_line_detail(text: &str, number: u64) -> Option<Detail<'_>>
    ensures { option_map detail_view result ≡ unread_detail text.now number }
{
    match line_at(text, number) {
        Some(line) => line_detail(number, line),
        None => None,
    }
}

/// What is reported of a text without a request: that it has no byte.
pub(crate) fn empty<'t>(text: &str) -> Option<Detail<'t>>
    ensures { option_map detail_view result ≡ empty_detail text.now }
{
    if text.is_empty() {
        Some(Detail::NoBytes)
    } else {
        None
    }
}

/// The first package before the stanza of a line that has its name and version.
pub(crate) fn earlier_package<'t>(
    alloc: Global,
    source: &'t str,
    room: &'t mut Room,
    line: u64,
) -> Result<Option<Detail<'t>>, AllocError>
    ensures { IfOk result (λ d.
        option_map detail_view d
        ≡ option_and_then (λ id. option_map (λ n. package_on id.0 id.1 n) (pair_line id line (plain_text source.now).stanzas)) (option_and_then id_of (find (λ s. nat_le line s.last) (plain_text source.now).stanzas))) }
{
    let mut spare = Room::new(alloc);
    match pair_of(alloc, source, &mut spare, line)? {
        Some((name, version)) => {
            find_package(
                alloc,
                Stanzas::new(alloc, source, room),
                line,
                name,
                version,
            )
        }
        None => Ok(None),
    }
}

/// The name and version of the stanza of a line.
fn pair_of<'r>(
    alloc: Global,
    source: &'r str,
    room: &'r mut Room,
    line: u64,
) -> Result<Option<(&'r str, u64)>, AllocError>
    ensures { IfOk result (λ id.
        option_map (λ i. (i.0.now, i.1)) id
        ≡ option_and_then id_of (find (λ s. nat_le line s.last) (plain_text source.now).stanzas)) }
{
    match find_stanza(alloc, Stanzas::new(alloc, source, room), line)? {
        Some(found) => Ok(id_of(&found.stanza)),
        None => Ok(None),
    }
}

/// The first package of this name and version before the stanza of a line.
fn find_package<'t>(
    alloc: Global,
    stanzas: Stanzas<'t>,
    line: u64,
    name: &str,
    version: u64,
) -> Result<Option<Detail<'t>>, AllocError>
    ensures { IfOk result (λ d.
        option_map detail_view d
        ≡ option_map (λ n. package_on name.now version n) (pair_line (name.now, version) line stanzas.entry.stanzas)) }
{
    let mut stanzas = stanzas;
    let mut stanza = StanzaRef {
        line: 0,
        last: 0,
        properties: Vec::new(alloc),
    };
    'stanzas: loop { // for the prover
        match stanzas.next(alloc, &mut stanza.properties)? {
            Next::Stanza { line: first, last } => {
                stanza.line = first;
                stanza.last = last;
                if line <= last {
                    return Ok(None);
                }
                if let Some(package) = matching_package_detail(&stanza, name, version) {
                    return Ok(Some(package));
                }
            }
            Next::End { .. } => return Ok(None),
        }
    }
}

/// The stanza, if it is a package of this name and version.
fn matching_package_detail<'t>(
    stanza: &StanzaRef<'t>,
    name: &str,
    version: u64,
) -> Option<Detail<'t>>
    ensures { option_map detail_view result
        ≡ (if is_known ((name.now, version) ∷ []) (id_of (stanza_view stanza.now)) then Some (package_on name.now version (stanza_view stanza.now).line) else None) }
{
    match id_of(stanza) {
        Some((its_name, its_version)) if its_name == name && its_version == version => {
            Some(Detail::PackageOn {
                name: its_name,
                version,
                line: stanza.line,
            })
        }
        _ => None,
    }
}

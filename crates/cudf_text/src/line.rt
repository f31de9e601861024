//! Lines: where each ends and what it is, and how a value of several lines is joined.
ghost use Rattle.std.specs.Prelude.{◌≡◌, ◌-◌, ◌<◌, ◌≤◌, ◌==◌, [], ◌∷◌, length, take, drop, position, slice_index, if◌then◌else◌, MatchOption, map, string_bytes, IfOk};
ghost use Rattle.std.specs.List.{position_or_len};
ghost use Rattle.std.specs.Str.Lines.{strip_carriage_return};
ghost use Rattle.cudf_text.specs.Lines.{blank, class, class_by_colon, continuation, is_lf, line_text, lines, raw_lines};
ghost use Rattle.cudf_text.specs.Working.LineView.{is_colon, line_view, ends_name};
ghost use Rattle.cudf_text.specs.Working.Steps.{extend_last, value_onto};
ghost use Rattle.cudf_text.specs.Working.Tracked.{tracked_part, tracked_properties, tracked_property, tracked_value};

use crate::scan::{Class, after, before, run_len, trim};
use crate::text::{Property, PropertyRef};
use memchr::memchr;
use std::alloc::{AllocError, Global};
use std::borrow::CowStr;

/// Where the first line of some bytes ends.
#[derive(Clone, Copy)]
pub(crate) struct LineEnd {
    /// How many bytes it has without its LF and one CR.
    pub text: usize,
    /// How many it has with them, where the next line begins.
    pub next: usize,
}

/// The end of the first line.
#[inline(always)]
pub(crate) fn line_end(bytes: &[u8]) -> LineEnd
    requires { 0 < length bytes.now }
    ensures inside { (result.text ≤ result.next) × (0 < result.next) × (result.next ≤ length bytes.now) }
    ensures raw { raw_lines bytes.now ≡ take result.next bytes.now ∷ raw_lines (drop result.next bytes.now) }
    ensures line { take result.text bytes.now ≡ line_text (take result.next bytes.now) }
    ensures ascii_text { result.text < length bytes.now → slice_index bytes.now result.text < 128 }
    ensures ascii_next { result.next < length bytes.now → slice_index bytes.now (result.next - 1) < 128 }
{
    let end = lf_place(bytes);
    LineEnd {
        text: len_without_return(&bytes[..end]),
        next: (end + 1).min(bytes.len()),
    }
}

/// The first line of a text, without its LF and one CR before it, and what follows it. A text without a byte has none.
pub fn first_line(text: &str) -> Option<(&str, &str)>
    ensures parts { MatchOption result (lines text.now ≡ []) (λ p. lines text.now ≡ p.0.now ∷ lines p.1.now) }
    ensures shorter { MatchOption result (text.now ≡ []) (λ p. length p.1.now < length text.now) }
{
    if text.is_empty() {
        return None;
    }
    let end = line_end(text.as_bytes());
    Some((before(text, end.text), after(text, end.next)))
}

/// The place of the first LF, or the length where there is none.
fn lf_place(bytes: &[u8]) -> usize
    ensures inside { result ≤ length bytes.now }
    ensures value { result ≡ position_or_len is_lf bytes.now }
    ensures here { result < length bytes.now → slice_index bytes.now result ≡ 10 }
{
    memchr(b'\n', bytes).unwrap_or(bytes.len())
}

/// The length without one CR at the end.
fn len_without_return(line: &[u8]) -> usize
    ensures inside { result ≤ length line.now }
    ensures value { take result line.now ≡ strip_carriage_return line.now }
    ensures here { result < length line.now → slice_index line.now result ≡ 13 }
{
    match line.last() {
        Some(b'\r') => line.len() - 1,
        _ => line.len(),
    }
}

/// What a line is, with its texts trimmed.
pub(crate) enum Line<'a> {
    Comment,
    Blank,
    Continuation(&'a str),
    /// A name, and the text after its colon.
    Named(&'a str, &'a str),
    Faulty,
}

/// What a line without its end is.
pub(crate) fn classify(line: &str) -> Line<'_>
    ensures { line_view result ≡ class line.now }
{
    // An empty line is as one of blanks.
    let first = line.as_bytes().first().copied().unwrap_or(b' ');
    if first == b'#' {
        Line::Comment
    } else if Class::Blank.has(first) {
        classify_indented(trim(line))
    } else {
        name_line(line)
    }
}

/// A line that begins with a blank, or is empty, by its trimmed text.
fn classify_indented(text: &str) -> Line<'_>
    ensures { line_view result ≡ (if length text.now == 0 then blank else continuation text.now) }
{
    if text.is_empty() {
        Line::Blank
    } else {
        Line::Continuation(text)
    }
}

/// A line that is neither a comment nor blank and begins with no blank.
fn name_line(line: &str) -> Line<'_>
    ensures { line_view result ≡ class_by_colon line.now (position is_colon line.now) }
{
    let bytes = line.as_bytes();
    let n = run_len(bytes, Class::Ident);
    if ends_name(bytes, n) {
        Line::Named(before(line, n), trim(after(line, n + 1)))
    } else {
        Line::Faulty
    }
}

/// Whether the line begins with a letter, and the first `n` bytes with a colon after them.
fn ends_name(line: &[u8], n: usize) -> bool
    ensures { result ≡ ends_name line.now n }
{
    line.get(n).copied() == Some(b':') && line[0].is_ascii_alphabetic()
}

/// The same property, with a value that can be joined with others.
pub(crate) fn owned(part: PropertyRef<'_>) -> Property<'_>
    ensures { tracked_property result ≡ tracked_part part.entry }
{
    Property {
        line: part.line,
        name: part.name,
        value: CowStr::Borrowed(part.value),
    }
}

/// Adds one more text to the value of the last property.
pub(crate) fn continue_last<'a>(
    alloc: Global,
    parts: &mut Vec<PropertyRef<'a>>,
    others: &mut Vec<Property<'a>>,
    text: &'a str,
) -> Result<(), AllocError>
    ensures { IfOk result (λ _.
        tracked_properties parts.new.items others.new.items
        ≡ extend_last (tracked_properties parts.old.items others.old.items) text.now) }
{
    move_last(parts, others)?;
    continue_property(alloc, others, text)
}

/// Moves the last property of `parts` into `others`, where its value can grow, unless `others` has properties already.
fn move_last<'a>(
    parts: &mut Vec<PropertyRef<'a>>,
    others: &mut Vec<Property<'a>>,
) -> Result<(), AllocError>
    ensures same { IfOk result (λ _.
        tracked_properties parts.new.items others.new.items ≡ tracked_properties parts.old.items others.old.items) }
    ensures last { IfOk result (λ _. others.new.items ≡ [] → parts.new.items ≡ []) }
{
    if !others.is_empty() {
        return Ok(());
    }
    let Some(part) = parts.pop() else {
        return Ok(());
    };
    others.push(owned(part))?;
    Ok(())
}

/// Appends a text to the value of the last property of the list; does nothing if the list is empty.
fn continue_property<'a>(
    alloc: Global,
    properties: &mut Vec<Property<'a>>,
    text: &'a str,
) -> Result<(), AllocError>
    ensures { IfOk result (λ _.
        map tracked_property properties.new.items
        ≡ extend_last (map tracked_property properties.old.items) text.now) }
{
    let Some(Property { line, name, value }) = properties.pop() else {
        return Ok(());
    };
    let value = with_text(alloc, value, text)?;
    properties.push(Property { line, name, value })?;
    Ok(())
}

/// The value with one more text, after a space where both have bytes. Only a value of two texts
/// is a text of its own.
fn with_text<'a>(alloc: Global, value: CowStr<'a>, text: &'a str) -> Result<CowStr<'a>, AllocError>
    ensures { IfOk result (λ joined. tracked_value joined ≡ value_onto (tracked_value value.entry) text.now) }
{
    if text.is_empty() {
        return Ok(value);
    }
    if value.is_empty() {
        return Ok(CowStr::Borrowed(text));
    }
    let mut joined = match value {
        CowStr::Owned(joined) => joined,
        CowStr::Borrowed(first) => with_room(alloc, first, text.len())?,
    };
    joined.push(' ')?;
    joined.push_str(text)?;
    Ok(CowStr::Owned(joined))
}

/// The text as one of its own, with room for a space and so many bytes more. There is as much room
/// as if it had grown for each of them, but it grows only once.
fn with_room(alloc: Global, text: &str, more: usize) -> Result<String, AllocError>
    ensures { IfOk result (λ owned. string_bytes owned ≡ text.now) }
{
    let whole = text.len().saturating_add(1).saturating_add(more);
    let twice = text.len().saturating_mul(2);
    let room = if whole <= twice {
        twice
    } else {
        whole.max(twice.saturating_mul(2))
    };
    let mut owned = String::with_capacity(alloc, room)?;
    owned.push_str(text)?;
    Ok(owned)
}

//! Documents as a whole: how one is read, where a joined input is cut, and whether it says FAIL.
ghost use Rattle.std.specs.Prelude.{◌≡◌, IfErr, IfOk, IsUtf8, alloc_error, map, ◌++◌, ◌-◌, ◌≤◌, length, drop};
ghost use Rattle.std.specs.List.{starts_with};
ghost use Rattle.cudf_text.specs.declared.text.TextError.TheVariants.{Memory};
ghost use Rattle.cudf_text.specs.Stanzas.{plain_text};
ghost use Rattle.cudf_text.specs.Promises.Borrows.{joined_values};
ghost use Rattle.cudf_text.specs.Promises.Views.{IsText, owned_values, text_view};
ghost use Rattle.cudf_text.specs.LineFaults.{utf8_fault};
ghost use Rattle.cudf_text.specs.Working.Tracked.{tracked_properties, tracked_property};
ghost use Rattle.cudf_text.specs.Joined.{behind, problem_part, solution_part, is_fail, says_something};
ghost use Rattle.cudf_text.specs.Lines.{raw_lines};
ghost use Rattle.cudf_text.specs.Working.Marks.{marks};

use crate::cursor::{Next, ReadPosition, read_stanza};
use crate::fault::Fault;
use crate::line::{first_line, line_end, owned};
use crate::scan::{Class, are_all, first_byte, trim};
use crate::source::source_of;
use std::alloc::{AllocError, Global};
use std::borrow::CowStr;
use std::error::Error;
use std::fmt;

/// A document as its stanzas (CUDF 2.0, syntax of stanzas and properties), each part with its
/// line. Reading ends at the first line that is faulty; only `lines` counts those after it.
#[derive(Drop)]
pub struct Text<'a> {
    /// The bytes that were read.
    pub source: &'a str,
    /// The stanzas, in order.
    pub stanzas: Vec<Stanza<'a>>,
    /// The first line of kind E2 or E3, if there is one.
    pub fault: Option<Fault>,
    /// The number of all lines, comments and those after the fault too.
    pub lines: u64,
}

/// Properties without a blank line between them, one at least.
#[derive(Drop)]
pub struct Stanza<'a> {
    /// The line of the first property, from 1.
    pub line: u64,
    /// The line of the last property or continuation, or of the E2 that ends the stanza.
    pub last: u64,
    /// The properties, in order.
    pub properties: Vec<Property<'a>>,
}

/// A name and its value.
#[derive(Drop)]
pub struct Property<'a> {
    /// The line of the name, from 1.
    pub line: u64,
    /// The text before the colon: an ASCII letter, then letters, digits, `-` and `_`.
    pub name: &'a str,
    /// The text after the colon and the texts of the continuations, trimmed of spaces and tabs;
    /// those that aren't empty are joined by one space. A part of the source, unless two
    /// texts are joined.
    pub value: CowStr<'a>,
}

/// A stanza that is read as it is asked for.
#[derive(Drop)]
pub struct StanzaRef<'t> {
    /// The line of the first property, from 1.
    pub line: u64,
    /// The line of the last property or continuation, or of the E2 that ends the stanza.
    pub last: u64,
    /// The properties, in order.
    pub properties: Vec<PropertyRef<'t>>,
}

/// A property whose value is borrowed.
#[derive(Clone, Copy)]
pub struct PropertyRef<'t> {
    /// The line of the name, from 1.
    pub line: u64,
    /// The text before the colon: an ASCII letter, then letters, digits, `-` and `_`.
    pub name: &'t str,
    /// The text after the colon and the texts of the continuations, trimmed of spaces and tabs;
    /// those that aren't empty are joined by one space.
    pub value: &'t str,
}

/// Why bytes have no `Text`.
#[derive(Clone, Copy, Debug)]
pub enum TextError {
    /// Always of kind E1: the bytes aren't UTF-8.
    Fault(Fault),
    /// A growth was refused.
    Memory(AllocError),
}

/// As `line 2: E1 not UTF-8`, or `out of memory`.
impl fmt::Display for TextError {
    ghost use Rattle.std.specs.Prelude.{Some};
    ghost use Rattle.cudf_text.specs.Promises.Errors.{error_text};

    ghost output = { λ error. Some (error_text error) };

    fn fmt<W: fmt::Write>(&self, f: &mut fmt::Formatter<W>) -> fmt::Result {
        match self {
            TextError::Fault(fault) => write!(f, "{fault}"),
            TextError::Memory(_) => write!(f, "out of memory"),
        }
    }
}

impl Error for TextError {}

impl From<AllocError> for TextError {
    ghost from_gives = { λ error result. result ≡ Memory error };

    fn from(error: AllocError) -> TextError {
        TextError::Memory(error)
    }
}

/// Reads the stanzas of a document (CUDF 2.0, syntax of stanzas and properties), up to its first
/// faulty line, which is no error: `Text::fault` has it.
///
/// # Errors
///
/// `Fault` exactly where the bytes aren't UTF-8: E1, on the line at which their longest UTF-8 prefix
/// ends; that takes no memory. `Memory` where a growth is refused.
pub fn read<'a>(alloc: Global, bytes: &'a [u8]) -> Result<Text<'a>, TextError>
    ensures utf8 { IfOk result (λ t. IsUtf8 bytes.now × (t.source.now ≡ bytes.now)) }
    ensures text { IfOk result IsText }

    // A value is a part of the source, unless it is joined of two texts or more.
    ensures borrowed { IfOk result (λ t. owned_values t ≡ joined_values bytes.now) }

    // A text that is UTF-8 is read, unless memory runs out.
    ensures memory { IsUtf8 bytes.now → IfErr result (λ e. e ≡ TextError.Memory alloc_error) }

    // One that isn't takes no memory.
    ensures not_utf8 { ¬ (IsUtf8 bytes.now) → result ≡ Err (TextError.Fault (utf8_fault bytes.now)) }
{
    match source_of(bytes) {
        Ok(source) => read_text(alloc, source).map_err(TextError::Memory),
        Err(fault) => Err(TextError::Fault(fault)),
    }
}

/// Reads the stanzas of a source.
fn read_text<'a>(alloc: Global, source: &'a str) -> Result<Text<'a>, AllocError>
    ensures source { IfOk result (λ t. t.source.now ≡ source.now) }
    ensures text { IfOk result (λ t. text_view t ≡ plain_text source.now) }
    ensures borrowed { IfOk result (λ t. owned_values t ≡ joined_values source.now) }
{
    let mut place = ReadPosition::start(source);
    let mut stanzas = Vec::new(alloc);
    let mut parts = Vec::new(alloc);
    let mut others = Vec::new(alloc);
    'stanzas: loop { // for the prover
        let (next, behind) = read_stanza(alloc, place, &mut parts, &mut others)?;
        match next {
            Next::Stanza { line, last } => {
                let properties = take_all(alloc, &parts, &mut others)?;
                stanzas.push(Stanza {
                    line,
                    last,
                    properties,
                })?;
            }
            Next::End { fault, lines } => {
                return Ok(Text {
                    source,
                    stanzas,
                    fault,
                    lines,
                });
            }
        }
        place = behind;
    }
}

/// All properties of a stanza, in no more room than they need.
fn take_all<'a>(
    alloc: Global,
    parts: &[PropertyRef<'a>],
    others: &mut Vec<Property<'a>>,
) -> Result<Vec<Property<'a>>, AllocError>
    ensures { IfOk result (λ taken. map tracked_property taken.items ≡ tracked_properties parts.now others.old.items) }
{
    let mut taken = Vec::with_capacity(alloc, parts.len().saturating_add(others.len()))?;
    for part in parts {
        taken.push(owned(*part))?;
    }
    taken.append(others)?;
    Ok(taken)
}

/// Cuts one input into the problem and the solution (own). The problem goes through the first
/// blank line after the first line that begins with the bytes `request:`. Where there is no
/// such line, or no blank line after it, all is the problem. Takes no memory.
pub fn cut_joined(bytes: &[u8]) -> (&[u8], &[u8])
    ensures problem { result.0.now ≡ problem_part bytes.now }
    ensures solution { result.1.now ≡ solution_part bytes.now }
    ensures joined { result.0.now ++ result.1.now ≡ bytes.now }
{
    let rest = after_mark(after_mark(bytes, Mark::Request), Mark::Blank);
    bytes.split_at(bytes.len() - rest.len())
}

/// What is looked for in a line.
#[derive(Clone, Copy)]
enum Mark {
    /// It begins with `request:`.
    Request,
    /// It is blank.
    Blank,
}

impl Mark {
    fn is_on(self, line: &[u8]) -> bool
        ensures { result ≡ marks self line.now }
    {
        match self {
            Mark::Request => line.starts_with(b"request:"),
            Mark::Blank => are_all(line, Class::Blank),
        }
    }
}

/// What follows the first line with the mark.
fn after_mark(bytes: &[u8], mark: Mark) -> &[u8]
    ensures inside { length result.now ≤ length bytes.now }
    ensures end { drop (length bytes.now - length result.now) bytes.now ≡ result.now }
    ensures lines { raw_lines result.now ≡ behind (marks mark) (raw_lines bytes.now) }
{
    let mut rest = bytes;
    while !rest.is_empty() {
        let end = line_end(rest);
        let line = &rest[..end.text];
        rest = rest.split_at(end.next).1;
        if mark.is_on(line) {
            return rest;
        }
    }
    rest
}

/// Whether a solution says `FAIL` (own): its first line that is neither blank nor a comment is
/// that word, between blanks. What follows doesn't matter. Takes no memory.
#[tactic(auto, unfolding(crate::specs::Joined::is_fail))]
pub fn is_fail(text: &str) -> bool
    ensures { result ≡ is_fail text.now }
{
    let mut rest = text;
    while let Some((line, after)) = first_line(rest) {
        if is_significant(line) {
            return trim(line) == "FAIL";
        }
        rest = after;
    }
    false
}

fn is_significant(line: &str) -> bool
    ensures { result ≡ says_something line.now }
{
    !(are_all(line.as_bytes(), Class::Blank) || first_byte(line) == b'#')
}

//! What a document says beside its first fault, and the stanza that the fault is in.
ghost use Rattle.std.specs.Prelude.{◌≡◌, ◌==◌, find, option_map, option_and_then, IfOk, Some, None, if◌then◌else◌};
ghost use Rattle.cudf_text.specs.Promises.Views.{property_view, stanza_view};
ghost use Rattle.cudf_problem.specs.Documents.{has_name, is_request};
ghost use Rattle.cudf_document.specs.Details.{request_on, name_on, undeclared, misplaced, first_detail, repeated_detail};
ghost use Rattle.cudf_document.specs.Promises.Views.{detail_view};
ghost use Rattle.cudf_document.specs.Working.Details.{property_at, found_detail, found_view, nothing_passed, found_in};

pub(crate) mod invalid;
pub(crate) mod mistyped;
pub(crate) mod of_fault;

use crate::declarations::{Declarations, declare_first};
use crate::details::mistyped::{misdeclared, missing_name_detail, type_error_detail};
use crate::names::{first_property_named, postmark_of};
use cudf_problem::Postmark;
use cudf_text::{Fault, Kind, Next, PropertyRef, StanzaRef, Stanzas};
use std::alloc::{AllocError, Global};

/// What a document says beside its first fault (own). Lines count from 1 in the text that the fault is of.
#[derive(Clone, Copy, Debug)]
pub enum Detail<'t> {
    /// Of E1: the first byte that isn't UTF-8, by its place in its line. It counts from 1.
    InvalidByte {
        place: u64,
        byte: u8,
    },
    /// Of E1, in place of the byte: the format of which a file begins so.
    OfFormat(Format),
    /// Of E2 on line 1: it begins with a byte order mark, U+FEFF.
    ByteOrderMark,
    /// Of E2: the text of the line, unless it begins with a byte order mark. It has no blanks round it, and isn't empty.
    LineText {
        text: &'t str,
    },
    /// Of E13: the document has no byte.
    NoBytes,
    /// Of E4: the name of the stanza's first property.
    BeginsWith {
        name: &'t str,
    },
    /// Of E6: the line of the request.
    RequestOn {
        line: u64,
    },
    /// Of E7: the name and the line of the first property of the stanza that has it.
    NameOn {
        name: &'t str,
        line: u64,
    },
    /// Of E8: the name that nothing declares.
    Undeclared {
        name: &'t str,
    },
    /// Of E9: the property's name, the word of its type and its value. Where a value is a list: the number of the
    /// first entry between commas that is none of the type, and the text of this entry. It counts from 1. The text
    /// has no blanks round it, and may be empty.
    Mistyped {
        name: &'t str,
        word: &'static str,
        entry: Option<u64>,
        text: &'t str,
    },
    /// Of E10: the number of the first declaration of the value that is none or that isn't allowed there. It
    /// counts from 1.
    Misdeclared {
        declaration: u64,
    },
    /// Of E11 and E15: the pair and the postmark's line of the first package that has it.
    PackageOn {
        name: &'t str,
        version: u64,
        line: u64,
    },
    /// Of E14: the first name that is declared without a default and that the package lacks.
    Lacking {
        name: &'t str,
    },
    /// Of E16: the name that has no meaning in its stanza.
    Misplaced {
        name: &'t str,
    },
}

/// A format of files that aren't UTF-8 (own), by the bytes with which they begin.
#[derive(Clone, Copy, Debug)]
pub enum Format {
    /// 1F 8B.
    Gzip,
    /// 42 5A 68, `BZh`.
    Bzip2,
    /// FD 37 7A 58 5A 00.
    Xz,
    /// 28 B5 2F FD.
    Zstandard,
    /// FF FE or FE FF, a byte order mark.
    Utf16,
}

/// What is reported of a fault in this stanza.
pub(crate) fn stanza_fault_detail<'t>(
    alloc: Global,
    found: &FoundStanza<'t>,
    fault: Fault,
) -> Result<Option<Detail<'t>>, AllocError>
    ensures { IfOk result (λ d.
        option_map detail_view d ≡ found_detail fault.kind fault.line (found_view found.now)) }
{
    let stanza = &found.stanza;
    match fault.kind {
        Kind::E4 => Ok(first(stanza)),
        Kind::E6 => Ok(request(found.passed.request)),
        Kind::E7 => Ok(repeated_name_detail(stanza, fault.line)),
        Kind::E8 => Ok(undeclared_detail(stanza, fault.line)),
        Kind::E9 => Ok(type_error_detail(alloc, &found.passed.declarations, stanza, fault.line)),
        Kind::E10 => misdeclared(alloc, stanza, fault.line),
        Kind::E14 => missing_name_detail(alloc, &found.passed.declarations, stanza),
        Kind::E16 => Ok(misplaced_detail(stanza, fault.line)),
        _ => Ok(None),
    }
}

/// The detail of E4: the name of the first property.
fn first<'t>(stanza: &StanzaRef<'t>) -> Option<Detail<'t>>
    ensures { option_map detail_view result ≡ first_detail (stanza_view stanza.now) }
{
    match stanza.properties.as_slice() {
        [first, ..] => Some(Detail::BeginsWith { name: first.name }),
        [] => None,
    }
}

/// The detail of E6: the line of the request, if there is one.
fn request<'t>(line: Option<u64>) -> Option<Detail<'t>>
    ensures { option_map detail_view result ≡ option_map request_on line }
{
    line.map(|line| Detail::RequestOn { line })
}

/// The detail of E7 on this line: the first property of that name.
fn repeated_name_detail<'t>(stanza: &StanzaRef<'t>, line: u64) -> Option<Detail<'t>>
    ensures { option_map detail_view result
        ≡ option_and_then (repeated_detail (stanza_view stanza.now)) (property_at line (stanza_view stanza.now)) }
{
    match property_on(stanza, line) {
        Some(property) => earlier_property_detail(stanza, property.name),
        None => None,
    }
}

/// The first property of this name.
fn earlier_property_detail<'t>(stanza: &StanzaRef<'t>, name: &'t str) -> Option<Detail<'t>>
    ensures { option_map detail_view result
        ≡ option_map (λ first. name_on name.now first.line) (find (has_name name.now) (stanza_view stanza.now).properties) }
{
    match first_property_named(stanza, name) {
        Some(first) => Some(Detail::NameOn {
            name,
            line: first.line,
        }),
        None => None,
    }
}

/// The name of the property on a line.
fn undeclared_detail<'t>(stanza: &StanzaRef<'t>, line: u64) -> Option<Detail<'t>>
    ensures { option_map detail_view result
        ≡ option_map (λ q. undeclared q.name) (property_at line (stanza_view stanza.now)) }
{
    match property_on(stanza, line) {
        Some(property) => Some(Detail::Undeclared {
            name: property.name,
        }),
        None => None,
    }
}

/// The detail of E16 on this line: the name of the property.
fn misplaced_detail<'t>(stanza: &StanzaRef<'t>, line: u64) -> Option<Detail<'t>>
    ensures { option_map detail_view result
        ≡ option_map (λ q. misplaced q.name) (property_at line (stanza_view stanza.now)) }
{
    match property_on(stanza, line) {
        Some(property) => Some(Detail::Misplaced {
            name: property.name,
        }),
        None => None,
    }
}

/// The property on a line.
pub(crate) fn property_on<'s, 't>(
    stanza: &'s StanzaRef<'t>,
    line: u64,
) -> Option<&'s PropertyRef<'t>>
    ensures { option_map (λ p. property_view p.now) result ≡ property_at line (stanza_view stanza.now) }
{
    find_line(&stanza.properties, line)
}

fn find_line<'s, 't>(properties: &'s [PropertyRef<'t>], line: u64) -> Option<&'s PropertyRef<'t>>
    ensures { option_map (λ p. p.now) result ≡ find (λ p. p.line == line) properties.now }
{
    properties.iter().find(|p| p.line == line)
}

/// What was passed on the way to a stanza.
#[derive(Drop)]
pub(crate) struct StanzasBefore<'t> {
    /// Whether nothing was: the next stanza is the first.
    pub(crate) is_first: bool,
    /// The line of the first request.
    pub(crate) request: Option<u64>,
    /// What the first stanza declares.
    pub(crate) declarations: Declarations<'t>,
}

impl<'t> StanzasBefore<'t> {
    ghost use Rattle.std.specs.Prelude.{◌≡◌, OnOk};
    ghost use Rattle.cudf_text.specs.Promises.Views.{stanza_view};
    ghost use Rattle.cudf_document.specs.Working.Details.{nothing_passed, passed_with};

    fn new(alloc: Global) -> Self
        ensures { result ≡ nothing_passed }
    {
        StanzasBefore {
            is_first: true,
            request: None,
            declarations: Declarations::new(alloc),
        }
    }

    /// Passes one stanza more.
    fn take(&mut self, alloc: Global, stanza: &StanzaRef<'t>) -> Result<(), AllocError>
        ensures { OnOk result (self.new ≡ passed_with self.old (stanza_view stanza.now)) }
    {
        if self.is_first {
            declare_first(alloc, &mut self.declarations, stanza)?;
        }
        self.is_first = false;
        self.request = self.request.or(request_line(stanza));
        Ok(())
    }
}

/// The line of a request.
fn request_line(stanza: &StanzaRef<'_>) -> Option<u64>
    ensures { result
        ≡ (if is_request (stanza_view stanza.now) then Some (stanza_view stanza.now).line else None) }
{
    match postmark_of(stanza) {
        Some(Postmark::Request) => Some(stanza.line),
        _ => None,
    }
}

/// A stanza, after what was passed before it.
#[derive(Drop)]
pub(crate) struct FoundStanza<'t> {
    pub(crate) passed: StanzasBefore<'t>,
    pub(crate) stanza: StanzaRef<'t>,
}

/// The stanza of a line: the first that doesn't end before it.
pub(crate) fn find_stanza<'t>(
    alloc: Global,
    stanzas: Stanzas<'t>,
    line: u64,
) -> Result<Option<FoundStanza<'t>>, AllocError>
    ensures { IfOk result (λ found.
        option_map found_view found ≡ found_in nothing_passed line stanzas.entry.stanzas) }
{
    let mut stanzas = stanzas;
    let mut passed = StanzasBefore::new(alloc);
    let mut stanza = StanzaRef {
        line: 0,
        last: 0,
        properties: Vec::new(alloc),
    };
    'stanzas: loop { // for the prover
        match stanzas.next(alloc, &mut stanza.properties)? {
            Next::Stanza { line: first, last } => {
                stanza.line = first;
                stanza.last = last;
                if line <= last {
                    return Ok(Some(FoundStanza { passed, stanza }));
                }
                passed.take(alloc, &stanza)?;
            }
            Next::End { .. } => return Ok(None),
        }
    }
}

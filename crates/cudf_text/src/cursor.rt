//! The cursor over a text's stanzas.
ghost use Rattle.std.specs.Prelude.{◌≡◌, ◌++◌, [], ◌∷◌, None, IfOk, IsTrue};
ghost use Rattle.cudf_text.specs.Promises.Cursor.{is_end};
ghost use Rattle.cudf_text.specs.Lines.{class};
ghost use Rattle.cudf_text.specs.Working.Left.{text_left, with_tracked, IsCounted};
ghost use Rattle.cudf_text.specs.Working.Steps.{open_state, line_of, continued, with_property, step, stepped};
ghost use Rattle.cudf_text.specs.Working.Tracked.{tracked_part, tracked_properties};

use crate::fault::{Fault, Kind};
use crate::line::{Line, classify, continue_last, first_line, owned};
use crate::source::{Room, Texts, keep_properties};
use crate::text::{Property, PropertyRef};
use std::alloc::{AllocError, Global};
use std::fmt;
use std::marker::Model;

/// What `Stanzas::next` returns: the next stanza, or the end of the text.
#[derive(Clone, Copy)]
pub enum Next {
    /// A stanza, by the line of its first property and its last line.
    Stanza { line: u64, last: u64 },
    /// There are no more stanzas: the first faulty line, and the number of all lines.
    End { fault: Option<Fault>, lines: u64 },
}

/// A text's stanzas, each of which is read as it is asked for. A value that is joined of two texts is put
/// into the room; each other one is a part of the source.
#[derive(Drop)]
pub struct Stanzas<'t> {
    place: ReadPosition<'t>,
    /// The properties of the last stanza that was read, from the first that was continued on.
    others: Vec<Property<'t>>,
    texts: Texts<'t>,
}

impl<'t> Model for Stanzas<'t> {
    ghost use Rattle.cudf_text.specs.Stanzas.{PlainText};
    ghost use Rattle.cudf_text.specs.Working.Left.{text_left, IsCounted};
    ghost use Rattle.cudf_text.specs.Working.Tracked.{plain_of};

    ghost Value = { PlainText };

    ghost view = { λ s. plain_of (text_left s.place) };

    ghost invariant = { λ s. IsCounted s.place };
}

impl<'t> Stanzas<'t> {
    ghost use Rattle.std.specs.Prelude.{◌≡◌, ◌<◌, ◌^◌, [], length, IfOk, IfErr, IsTrue};
    ghost use Rattle.cudf_text.specs.Stanzas.{plain_text};
    ghost use Rattle.cudf_text.specs.Promises.Cursor.{with_next, is_end};

    /// All stanzas of a text. Takes no memory.
    pub fn new(alloc: Global, source: &'t str, room: &'t mut Room) -> Self
        ensures { result ≡ plain_text source.now }
    {
        Stanzas {
            place: ReadPosition::start(source),
            others: Vec::new(alloc),
            texts: Texts::new(room),
        }
    }

    /// Reads the next stanza (CUDF 2.0, syntax of stanzas and properties) into the list, in place of
    /// what was there. Once it has said `End` it says so again, with the list empty.
    ///
    /// # Errors
    ///
    /// `AllocError` where memory for the list or for a joined value is refused. Then the list is
    /// empty and nothing is passed over: the next call reads the same stanza.
    pub fn next(
        &mut self,
        alloc: Global,
        properties: &mut Vec<PropertyRef<'t>>,
    ) -> Result<Next, AllocError>
        // What was left is what was read, then what is left now.
        ensures read { IfOk result (λ next.
            self.old ≡ with_next next properties.new.items self.new) }
        // At the end the cursor stays where it is, with the fault and the number of lines,
        ensures end { IfOk result (λ next. IsTrue (is_end next) → self.new ≡ self.old) }
        // and the list is empty.
        ensures nothing { IfOk result (λ next. IsTrue (is_end next) → properties.new.items ≡ []) }
        // Without memory nothing is passed over,
        ensures kept { IfErr result (λ _. self.new ≡ self.old) }
        // and the list is empty.
        ensures emptied { IfErr result (λ _. properties.new.items ≡ []) }
    {
        match self.read(alloc, properties) {
            Ok(next) => Ok(next),
            Err(error) => {
                properties.clear();
                Err(error)
            }
        }
    }

    /// That a `u64` counts the stanzas that are left: a law, and no effect.
    pub fn are_countable(&self)
        ensures { length self.now.stanzas < 2 ^ 64 }
    {
        let _ = &self.place; // for the prover
    }

    /// Reads the next stanza.
    fn read(
        &mut self,
        alloc: Global,
        properties: &mut Vec<PropertyRef<'t>>,
    ) -> Result<Next, AllocError>
        ensures read { IfOk result (λ next.
            self.old ≡ with_next next properties.new.items self.new) }
        ensures end { IfOk result (λ next. IsTrue (is_end next) → self.new ≡ self.old) }
        ensures nothing { IfOk result (λ next. IsTrue (is_end next) → properties.new.items ≡ []) }
        ensures kept { IfErr result (λ _. self.new ≡ self.old) }
    {
        let (next, place) = read_stanza(alloc, self.place, properties, &mut self.others)?;
        keep_properties(alloc, &mut self.others, &mut self.texts, properties)?;
        self.place = place;
        Ok(next)
    }
}

/// How far the text was read: how many lines, and the first fault in them.
impl fmt::Debug for Stanzas<'_> {
    fn fmt<W: fmt::Write>(&self, f: &mut fmt::Formatter<W>) -> fmt::Result {
        f.debug_struct("Stanzas")
            .field("lines", &self.place.lines)
            .field("fault", &self.place.fault)
            .finish_non_exhaustive()
    }
}

/// How far a text was read.
#[derive(Clone, Copy)]
pub(crate) struct ReadPosition<'a> {
    /// The lines that are left.
    rest: &'a str,
    /// How many lines were read.
    lines: u64,
    /// The first faulty one.
    fault: Option<Fault>,
}

impl<'a> ReadPosition<'a> {
    ghost use Rattle.std.specs.Prelude.{◌≡◌};
    ghost use Rattle.cudf_text.specs.Working.Left.{text_left, IsCounted};
    ghost use Rattle.cudf_text.specs.Working.Tracked.{whole};

    /// Before the first line.
    pub(crate) fn start(source: &'a str) -> Self
        ensures left { text_left result ≡ whole source.now }
        ensures counted { IsCounted result }
    {
        ReadPosition {
            rest: source,
            lines: 0,
            fault: None,
        }
    }
}

/// Reads the next stanza, and returns it or the end with the position behind it. Replaces the contents of both lists:
/// `parts` gets the properties before the first that has a continuation, `others` that one and those after it.
pub(crate) fn read_stanza<'a>(
    alloc: Global,
    place: ReadPosition<'a>,
    parts: &mut Vec<PropertyRef<'a>>,
    others: &mut Vec<Property<'a>>,
) -> Result<(Next, ReadPosition<'a>), AllocError>
    requires { IsCounted place }
    ensures read { IfOk result (λ r.
        text_left place.entry ≡ with_tracked r.0 (tracked_properties parts.new.items others.new.items) (text_left r.1)) }
    ensures end { IfOk result (λ r. IsTrue (is_end r.0) → text_left r.1 ≡ text_left place.entry) }
    ensures nothing { IfOk result (λ r. IsTrue (is_end r.0) → tracked_properties parts.new.items others.new.items ≡ []) }
    ensures counted { IfOk result (λ r. IsCounted r.1) }
{
    let mut place = place;
    let mut last = 0;
    parts.clear();
    others.clear();
    while let Some((line, rest)) = first_line(place.rest) {
        place.rest = rest;
        place.lines += 1;
        if place.fault.is_none() {
            match take(alloc, parts, others, &mut last, place.lines, line)? {
                StanzaState::On => {}
                StanzaState::Fault(kind) => {
                    place.fault = Some(Fault {
                        line: place.lines,
                        kind,
                    });
                }
                StanzaState::End(line) => return Ok((Next::Stanza { line, last }, place)),
            }
        }
    }
    match first_line_of(parts.as_slice(), others.as_slice()) {
        Some(line) => Ok((Next::Stanza { line, last }, place)),
        None => {
            let next = Next::End {
                fault: place.fault,
                lines: place.lines,
            };
            Ok((next, place))
        }
    }
}

/// What a line did to the open stanza.
#[derive(Clone, Copy)]
pub(crate) enum StanzaState {
    /// It goes on.
    On,
    /// It has ended; its first property is on this line.
    End(u64),
    /// The line is faulty.
    Fault(Kind),
}

/// Takes the next line into the open stanza.
fn take<'a>(
    alloc: Global,
    parts: &mut Vec<PropertyRef<'a>>,
    others: &mut Vec<Property<'a>>,
    last: &mut u64,
    number: u64,
    line: &'a str,
) -> Result<StanzaState, AllocError>
    ensures { IfOk result (λ taken.
        step (open_state (tracked_properties parts.old.items others.old.items) last.old) number (class line.now)
        ≡ stepped taken number (open_state (tracked_properties parts.new.items others.new.items) last.new)) }
{
    match classify(line) {
        Line::Comment => Ok(StanzaState::On),
        Line::Blank => match first_line_of(parts.as_slice(), others.as_slice()) {
            Some(first) => Ok(StanzaState::End(first)),
            None => Ok(StanzaState::On),
        },
        Line::Continuation(text) => add_continuation(alloc, parts, others, last, number, text),
        Line::Named(name, text) => {
            let part = PropertyRef {
                line: number,
                name,
                value: text,
            };
            add_property(parts, others, last, part)
        }
        Line::Faulty => {
            *last = number;
            Ok(StanzaState::Fault(Kind::E2))
        }
    }
}

/// Takes a continuation of this text.
fn add_continuation<'a>(
    alloc: Global,
    parts: &mut Vec<PropertyRef<'a>>,
    others: &mut Vec<Property<'a>>,
    last: &mut u64,
    number: u64,
    text: &'a str,
) -> Result<StanzaState, AllocError>
    ensures { IfOk result (λ taken.
        continued (open_state (tracked_properties parts.old.items others.old.items) last.old) number text.now
        ≡ stepped taken number (open_state (tracked_properties parts.new.items others.new.items) last.new)) }
{
    if first_line_of(parts.as_slice(), others.as_slice()).is_none() {
        return Ok(StanzaState::Fault(Kind::E3));
    }
    continue_last(alloc, parts, others, text)?;
    *last = number;
    Ok(StanzaState::On)
}

/// Takes a line with a property's name.
fn add_property<'a>(
    parts: &mut Vec<PropertyRef<'a>>,
    others: &mut Vec<Property<'a>>,
    last: &mut u64,
    part: PropertyRef<'a>,
) -> Result<StanzaState, AllocError>
    ensures { IfOk result (λ taken.
        (with_property (open_state (tracked_properties parts.old.items others.old.items) last.old) part.entry.line part.entry.name.now part.entry.value.now, None)
        ≡ stepped taken part.entry.line (open_state (tracked_properties parts.new.items others.new.items) last.new)) }
{
    *last = part.line;
    add(parts, others, part)?;
    Ok(StanzaState::On)
}

/// The line of the first property.
fn first_line_of(parts: &[PropertyRef<'_>], others: &[Property<'_>]) -> Option<u64>
    ensures { result ≡ line_of (tracked_properties parts.now others.now) }
{
    match parts.first() {
        Some(first) => Some(first.line),
        None => Some(others.first()?.line),
    }
}

/// Adds a property of one text.
fn add<'a>(
    parts: &mut Vec<PropertyRef<'a>>,
    others: &mut Vec<Property<'a>>,
    part: PropertyRef<'a>,
) -> Result<(), AllocError>
    ensures { IfOk result (λ _.
        tracked_properties parts.new.items others.new.items
        ≡ tracked_properties parts.old.items others.old.items ++ tracked_part part.entry ∷ []) }
{
    if others.is_empty() {
        parts.push(part)?;
        return Ok(());
    }
    others.push(owned(part))?;
    Ok(())
}

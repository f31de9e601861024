//! The bytes of a document as a source, of which texts are parts; stanzas that are held; and room for texts that are no
//! part of a source.
ghost use Rattle.std.specs.Prelude.{◌≡◌, ◌+◌, IfErr, IfOk, IsUtf8, count_by, ◌<◌, length, is_some, IsTrue, OnOk, string_bytes, ◌++◌, map};
ghost use Rattle.std.specs.Cow.{cow_str_bytes};
ghost use Rattle.cudf_text.specs.LineFaults.{utf8_fault};
ghost use Rattle.cudf_text.specs.Lines.{is_lf};
ghost use Rattle.cudf_text.specs.Stanzas.{plain_text};
ghost use Rattle.cudf_text.specs.Promises.Views.{own_property_view, own_stanza_view, property_view, stanza_view};

use crate::cursor::Stanzas;
use crate::fault::{Fault, Kind};
use crate::text::{Property, PropertyRef, Stanza, StanzaRef};
use std::alloc::{AllocError, Global};
use std::borrow::CowStr;
use std::{fmt, mem, str};

/// The bytes as a text. Takes no memory.
///
/// # Errors
///
/// E1 exactly where the bytes aren't UTF-8, on the line at which their longest UTF-8 prefix ends.
pub fn source_of(bytes: &[u8]) -> Result<&str, Fault>
    ensures utf8 { IfOk result (λ source. IsUtf8 bytes.now × (source.now ≡ bytes.now)) }
    ensures fault { IfErr result (λ f. (¬ (IsUtf8 bytes.now)) × (f ≡ utf8_fault bytes.now)) }
{
    match str::from_utf8(bytes) {
        Ok(source) => Ok(source),
        Err(error) => {
            let line = 1 + lf_count(&bytes[..error.valid_up_to()]);
            Err(Fault {
                line,
                kind: Kind::E1,
            })
        }
    }
}

fn lf_count(bytes: &[u8]) -> u64
    ensures { result ≡ count_by is_lf bytes.now }
{
    bytes.iter().filter(|byte| **byte == b'\n').count() as u64
}

/// The stanzas of a document, each of which is read as it is asked for. Values that are joined are
/// put into the room. Takes no memory.
///
/// # Errors
///
/// E1 exactly where the bytes aren't UTF-8, on the line at which their longest UTF-8 prefix ends.
pub fn stanzas<'t>(alloc: Global, bytes: &'t [u8], room: &'t mut Room) -> Result<Stanzas<'t>, Fault>
    ensures utf8 { IfOk result (λ s. IsUtf8 bytes.now × (s ≡ plain_text bytes.now)) }
    ensures fault { IfErr result (λ f. (¬ (IsUtf8 bytes.now)) × (f ≡ utf8_fault bytes.now)) }
{
    match source_of(bytes) {
        Ok(source) => Ok(Stanzas::new(alloc, source, room)),
        Err(fault) => Err(fault),
    }
}

/// Room for texts: some of them, and more room.
#[derive(Drop)]
pub struct Room {
    texts: Vec<String>,
    more: Option<Box<Room>>,
}

impl Room {
    ghost use Rattle.std.specs.Prelude.{◌≡◌, []};
    ghost use Rattle.cudf_text.specs.Promises.Rooms.{held};

    /// Without texts (own). Takes no memory.
    pub fn new(alloc: Global) -> Self
        ensures { held result ≡ [] }
    {
        Room {
            texts: Vec::new(alloc),
            more: None,
        }
    }
}

/// Its name alone: what it holds is seen by none but those who read its texts.
impl fmt::Debug for Room {
    fn fmt<W: fmt::Write>(&self, f: &mut fmt::Formatter<W>) -> fmt::Result {
        f.debug_struct("Room").finish_non_exhaustive()
    }
}

/// Puts texts into a room, where they stay as long as it is lent. A list is never moved: each is twice
/// as long as the one before it.
#[derive(Drop)]
pub(crate) struct Texts<'t> {
    /// What is after the last list.
    room: Option<&'t mut Room>,
    /// The places of that list that are empty.
    places: &'t mut [String],
    /// How many these are.
    left: usize,
    /// How many there were.
    count: usize,
    ghost more: { IsTrue (is_some room) },
    ghost counted: { left ≡ length places.now },
}

impl<'t> Texts<'t> {
    /// What the room holds is dropped when the first text is put into it.
    pub(crate) fn new(room: &'t mut Room) -> Self {
        Texts {
            room: Some(room),
            places: &mut [],
            left: 0,
            count: 0,
        }
    }

    /// The value, which is put into the room if it is a text of its own.
    #[inline(always)]
    pub(crate) fn keep(&mut self, alloc: Global, value: CowStr<'t>) -> Result<&'t str, AllocError>
        ensures { IfOk result (λ kept. kept.now ≡ cow_str_bytes value.entry) }
    {
        match value {
            CowStr::Borrowed(text) => Ok(text),
            CowStr::Owned(text) => self.put(alloc, text),
        }
    }

    fn put(&mut self, alloc: Global, text: String) -> Result<&'t str, AllocError>
        ensures { IfOk result (λ kept. kept.now ≡ string_bytes text) }
    {
        self.make_place(alloc)?;
        let places = mem::take(&mut self.places);
        let (place, places) = places.split_first_mut().unwrap();
        self.places = places;
        self.left -= 1;
        *place = text;
        Ok(place.as_str())
    }

    /// Makes an empty place where there is none.
    fn make_place(&mut self, alloc: Global) -> Result<(), AllocError>
        ensures { OnOk result (0 < self.new.left) }
    {
        if self.left == 0 {
            self.grow(alloc)?;
        }
        Ok(())
    }

    fn grow(&mut self, alloc: Global) -> Result<(), AllocError>
        ensures { OnOk result (0 < self.new.left) }
    {
        let count = self.count.saturating_mul(2).max(1);
        let texts = empty_texts(alloc, count)?;
        let more = Box::new(alloc, Room::new(alloc))?;
        let room = self.room.take().unwrap();
        room.texts = texts;
        room.more = Some(more);
        let Room { texts, more } = room;
        self.places = texts.as_mut_slice();
        self.room = more.as_deref_mut();
        self.left = count;
        self.count = count;
        Ok(())
    }
}

fn empty_texts(alloc: Global, count: usize) -> Result<Vec<String>, AllocError>
    ensures { IfOk result (λ texts. length texts.items ≡ count) }
{
    let mut texts = Vec::with_capacity(alloc, count)?;
    for _ in 0..count {
        texts.push(String::new(alloc))?;
    }
    Ok(texts)
}

/// Makes `lent` a copy of `stanza` whose values borrow from it.
///
/// # Errors
///
/// `AllocError` where memory for the list of properties is refused; what is lent is then unspecified.
pub fn lend<'t, 'a>(stanza: &'t Stanza<'a>, lent: &mut StanzaRef<'t>) -> Result<(), AllocError>
    ensures { OnOk result (stanza_view lent.new ≡ own_stanza_view stanza.now) }
{
    lent.line = stanza.line;
    lent.last = stanza.last;
    lend_properties(&stanza.properties, &mut lent.properties)
}

/// Replaces the contents of `lent` by these properties, with borrowed values.
fn lend_properties<'t, 'a>(
    properties: &'t [Property<'a>],
    lent: &mut Vec<PropertyRef<'t>>,
) -> Result<(), AllocError>
    ensures { OnOk result (map property_view lent.new.items
        ≡ map own_property_view properties.now) }
{
    lent.clear();
    for property in properties {
        lent.push(PropertyRef {
            line: property.line,
            name: property.name,
            value: property.value.as_str(),
        })?;
    }
    Ok(())
}

/// Moves all properties behind those of `kept`; a value that owns its text is stored in the room.
pub(crate) fn keep_properties<'t>(
    alloc: Global,
    properties: &mut Vec<Property<'t>>,
    texts: &mut Texts<'t>,
    kept: &mut Vec<PropertyRef<'t>>,
) -> Result<(), AllocError>
    ensures { OnOk result (map property_view kept.new.items
        ≡ map property_view kept.old.items ++ map own_property_view properties.old.items) }
{
    for Property { line, name, value } in properties.drain(..) {
        kept.push(PropertyRef {
            line,
            name,
            value: texts.keep(alloc, value)?,
        })?;
    }
    Ok(())
}

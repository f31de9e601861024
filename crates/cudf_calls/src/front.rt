//! The front of a report, which goes to a caller's buffer as far as there is room.
ghost use Rattle.std.specs.Prelude.{◌≡◌, ◌++◌, ◌≤◌, drop, length, take, []};
ghost use Rattle.cudf_calls.specs.Working.Rooms.{IsFilled, over};

use cudf_check::{Sink, Trouble};
use std::marker::Model;
use std::snapshot::Snapshot;

/// What contracts see of a front beside its buffer. It takes no bytes at run time.
#[derive(Drop)]
pub(crate) struct GhostFront {
    /// What the buffer held before the report.
    pub before: GhostBytes,
    /// What was taken of the report.
    pub report: GhostBytes,
}

impl GhostFront {
    ghost use Rattle.std.specs.Prelude.{◌≡◌, []};

    /// A buffer that has nothing of a report.
    pub fn of(room: &[u8]) -> GhostFront
        ensures before { result.before ≡ room.now }
        ensures report { result.report ≡ [] }
    {
        let mut before = GhostBytes::new();
        before.append(room);
        GhostFront {
            before,
            report: GhostBytes::new(),
        }
    }
}

/// A report on its way to a caller's buffer: what fits is written there, and the rest is only counted. No call fails.
#[derive(Drop)]
pub(crate) struct CallerBuffer<'r> {
    pub(crate) room: &'r mut [u8],
    /// How long the report is so far, or 18446744073709551615 where it is longer.
    pub(crate) length: usize,
    /// How many bytes the last call took.
    pub(crate) last: usize,
    pub(crate) seen: &'r mut GhostFront,
    ghost filled: { IsFilled room.now length seen.now.before seen.now.report },
}

impl<'r> CallerBuffer<'r> {
    ghost use Rattle.std.specs.Prelude.{◌≡◌, []};

    /// The front of a report of which nothing was written.
    pub fn new(room: &'r mut [u8], seen: &'r mut GhostFront) -> CallerBuffer<'r>
        requires before { seen.old.before ≡ room.old }
        requires report { seen.old.report ≡ [] }

        ensures same_reference { result.room.ghost_name ≡ room.entry.ghost_name }
        ensures before { result.room.now ≡ room.old }
        ensures report { result.seen.now.report ≡ [] }
    {
        CallerBuffer {
            room,
            length: 0,
            last: 0,
            seen,
        }
    }

    /// How long the report is, or 18446744073709551615 where it is longer.
    pub fn length(&self) -> usize
        ensures { result ≡ self.now.length }
    {
        self.length
    }
}

impl Sink for CallerBuffer<'_> {
    ghost use Rattle.cudf_calls.specs.Working.Fronts.{front_state};

    ghost state = { front_state };

    fn write(&mut self, bytes: &[u8]) -> Result<usize, Trouble> {
        put(self.room, self.length, bytes);
        self.length = self.length.saturating_add(bytes.len());
        self.seen.report.append(bytes);
        self.last = bytes.len();
        Ok(bytes.len())
    }
}

/// Copies a text to the room from the place `at` on, as far as it fits. What lies before and after it stays.
fn put(room: &mut [u8], at: usize, text: &[u8])
    ensures written { room.new ≡ take at room.old ++ over (drop at room.old) text.now }
    ensures few { length room.old ≤ usize.MAX }
{
    if at < room.len() {
        copy_front(text, &mut room[at..]);
    }
}

/// Copies a text to the front of the room, as far as it fits. What follows it stays.
pub(crate) fn copy_front(text: &[u8], room: &mut [u8])
    ensures { room.new ≡ take (length room.old) text.now ++ drop (length text.now) room.old }
{
    let shown = text.len().min(room.len());
    room[..shown].copy_from_slice(&text[..shown]);
}

/// Bytes of which nothing is kept: contracts see them as a list, which only grows and may have any length.
pub(crate) struct GhostBytes {
    bytes: Bytes,
}

impl Model for GhostBytes {
    ghost use Rattle.std.specs.Prelude.{List, ℕ};

    ghost Value = { List ℕ };

    ghost use Rattle.cudf_calls.specs.Working.Bytes.{listed};

    ghost view = { λ t. listed t.bytes };
}

impl Drop for GhostBytes {
    fn drop(self) {
        let GhostBytes { bytes: _ } = self;
    }
}

impl GhostBytes {
    /// No byte yet.
    pub fn new() -> GhostBytes
        ensures { result ≡ [] }
    {
        GhostBytes {
            bytes: Bytes::Empty,
        }
    }

    /// These bytes more.
    pub fn append(&mut self, bytes: &[u8])
        ensures { self.new ≡ self.old ++ bytes.now }
    {
        self.bytes.append(bytes);
    }
}

/// Bytes as contracts see them, each after those before it. A snapshot has no bytes at run time.
#[derive(Drop)]
enum Bytes {
    /// No byte.
    Empty,
    /// These bytes, and one more.
    More(Snapshot<Bytes>, Snapshot<u8>),
}

impl Bytes {
    ghost use Rattle.std.specs.Prelude.{◌≡◌, [], ◌++◌, ◌∷◌};
    ghost use Rattle.cudf_calls.specs.Working.Bytes.{listed};

    fn push(&mut self, byte: u8)
        ensures { listed self.new ≡ listed self.old ++ byte ∷ [] }
    {
        *self = Bytes::More(Snapshot::of(self), Snapshot::of(&byte));
    }

    // The loop changes nothing at run time, and no compiled code is left of it.
    fn append(&mut self, bytes: &[u8])
        ensures { listed self.new ≡ listed self.old ++ bytes.now }
    {
        for byte in bytes {
            self.push(*byte);
        }
    }
}

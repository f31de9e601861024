//! A source and a sink that fail as they are asked to. They tell no bytes, as a device of the
//! system.
ghost use Rattle.std.specs.Prelude.{None};

use cudf_check::{Sink, Source, Trouble};
use cudf_index::Steps;

/// An interruption that never ends.
pub(crate) const FOREVER: u32 = u32::MAX;

/// Gives `length` bytes: those of `bytes`, the last one repeated, at most `per_call` a call.
#[derive(Drop)]
pub(crate) struct Giver<'a> {
    pub(crate) bytes: &'a [u8],
    pub(crate) length: usize,
    pub(crate) per_call: usize,
    /// So many of the first calls are interrupted.
    pub(crate) interruptions: u32,
    /// Each call that is neither interrupted nor fails has had an interrupted one before it.
    pub(crate) is_restless: bool,
    /// The call that fails, from 1, and 0 where none does.
    pub(crate) failing_call: u32,
    /// The bytes and the calls so far.
    pub(crate) position: usize,
    pub(crate) turn: u32,
    calls: Steps,
    failures: Steps,
    ends: Steps,
    given: Steps,
    last: Option<Result<usize, Trouble>>,
}

impl<'a> Giver<'a> {
    pub(crate) fn new(bytes: &'a [u8]) -> Giver<'a> {
        Giver {
            bytes,
            length: bytes.len(),
            per_call: usize::MAX,
            interruptions: 0,
            is_restless: false,
            failing_call: 0,
            position: 0,
            turn: 0,
            calls: Steps::new(),
            failures: Steps::new(),
            ends: Steps::new(),
            given: Steps::new(),
            last: None,
        }
    }
}

/// The byte at `place` where the last one is repeated, and 0 where there is none.
fn repeated(bytes: &[u8], place: usize) -> u8 {
    match bytes.get(place) {
        Some(byte) => *byte,
        None => bytes.last().copied().unwrap_or(0),
    }
}

fn fill(buffer: &mut [u8], bytes: &[u8], position: usize) {
    for (k, byte) in buffer.iter_mut().enumerate() {
        *byte = repeated(bytes, position.saturating_add(k));
    }
}

impl Source for Giver<'_> {
    ghost state = { λ g. record {
      name = None;
      remaining = None;
      calls = g.calls;
      failures = g.failures;
      ends = g.ends;
      given = g.given;
      last = g.last;
    } };

    fn name(&self) -> Option<&str> {
        None
    }

    fn read(&mut self, buffer: &mut [u8]) -> Result<usize, Trouble> {
        self.calls.tick();
        self.turn = self.turn.saturating_add(1);
        if self.failing_call == self.turn {
            self.failures.tick();
            self.last = Some(Err(Trouble::Failed));
            return Err(Trouble::Failed);
        }
        if self.turn <= self.interruptions || self.is_restless && self.turn % 2 == 1 {
            self.last = Some(Err(Trouble::Interrupted));
            return Err(Trouble::Interrupted);
        }
        let left = self.length.saturating_sub(self.position);
        let count = buffer.len().min(self.per_call).min(left);
        fill(&mut buffer[..count], self.bytes, self.position);
        self.position = self.position.saturating_add(count);
        if count == 0 {
            self.ends.tick();
        }
        self.given.grow_by(count);
        self.last = Some(Ok(count));
        Ok(count)
    }
}

/// How a `Taker` refuses a byte.
#[derive(Clone, Copy)]
pub(crate) enum Refusal {
    Failed,
    Interrupted,
    NoByte,
}

/// Takes at most `per_call` bytes a call and `room` in all, and then refuses.
#[derive(Drop)]
pub(crate) struct Taker {
    pub(crate) taken: Vec<u8>,
    pub(crate) per_call: usize,
    pub(crate) room: usize,
    pub(crate) refusal: Refusal,
    failures: Steps,
    last: Option<Result<usize, Trouble>>,
}

impl Taker {
    /// A sink whose bytes go into `taken`.
    pub(crate) fn new(taken: Vec<u8>, per_call: usize, room: usize, refusal: Refusal) -> Taker {
        Taker {
            taken,
            per_call,
            room,
            refusal,
            failures: Steps::new(),
            last: None,
        }
    }
}

impl Sink for Taker {
    ghost state = { λ t. record { contents = None; failures = t.failures; last = t.last } };

    fn write(&mut self, bytes: &[u8]) -> Result<usize, Trouble> {
        let left = self.room.saturating_sub(self.taken.len());
        let count = bytes.len().min(self.per_call).min(left);
        if count > 0 && self.taken.extend_from_slice(&bytes[..count]).is_ok() {
            self.last = Some(Ok(count));
            return Ok(count);
        }
        self.failures.tick();
        let answer = match self.refusal {
            Refusal::Failed => Err(Trouble::Failed),
            Refusal::Interrupted => Err(Trouble::Interrupted),
            Refusal::NoByte => Ok(0),
        };
        self.last = Some(answer);
        answer
    }
}

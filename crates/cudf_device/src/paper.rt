//! The paper on which a report is printed, and its buffer. A failed write doesn't end the printing: it is reported at the
//! end.
ghost use Rattle.std.specs.Prelude.{◌≡◌, [], decimal, ◌++◌, if◌then◌else◌, IfOk, IsOkUnless};
ghost use Rattle.cudf_device.specs.Device.{SinkState};
ghost use Rattle.cudf_device.specs.Outcomes.{Report};
ghost use Rattle.cudf_device.specs.Promises.Answering.{Answers};
ghost use Rattle.cudf_device.specs.Working.Writing.{Writes};

use crate::device::Sink;
use crate::outcome::{Outcome, RunError};
use itoa::Buffer;
use std::alloc::{AllocError, Global};
use std::marker::Model;

/// A sink with a buffer, on which texts are printed. After a failed write it takes text and writes no more.
#[derive(Drop)]
pub struct Paper<'w, W> {
    out: &'w mut W,
    waiting: &'w mut ReportBuffer,
    has_failed: bool,
}

impl<'w, W: Sink> Paper<'w, W> {
    ghost use Rattle.cudf_device.specs.Promises.PaperInside.{IsBlank, Prints, Says, WritesTo, has_failed};

    /// A paper on which nothing was printed, over a sink and an empty buffer.
    pub fn new(out: &'w mut W, waiting: &'w mut ReportBuffer) -> Paper<'w, W>
        requires { waiting.old ≡ [] }

        ensures same { WritesTo result out.entry }
        ensures blank { IsBlank W.state (W.state out.old) result }
    {
        Paper {
            out,
            waiting,
            has_failed: false,
        }
    }

    /// Prints a text. It is in each caller, so that a short one is put into the buffer without a call.
    #[inline(always)]
    pub fn text(&mut self, text: &str)
        ensures { Says W.state self.old self.new text.now }
    {
        if self.has_failed {
            return;
        }
        let bytes = text.as_bytes();
        if self.waiting.add(bytes) {
            return;
        }
        if write_all(self.out, self.waiting.bytes()).is_err() {
            self.has_failed = true;
            return;
        }
        self.waiting.clear();
        self.has_failed = write_all(self.out, bytes).is_err();
    }

    /// Prints a number in decimal.
    pub fn number(&mut self, number: u64)
        ensures { Says W.state self.old self.new (decimal number) }
    {
        let mut digits = Buffer::new();
        self.text(digits.format(number));
    }

    /// Whether a write has failed, so that nothing more is written.
    pub fn has_failed(&self) -> bool
        ensures { result ≡ has_failed self.now }
    {
        self.has_failed
    }

    /// Writes all that waits of the report that was printed on the blank paper, and gives back the answer of its
    /// printing.
    ///
    /// # Errors
    ///
    /// - `Memory`: the answer is `AllocError`. Then nothing was printed, and nothing is written.
    /// - `Write`: a write failed, now or before. What was taken before is a prefix of the report.
    pub fn finish(self, answer: Result<Outcome, AllocError>) -> Result<Outcome, RunError>
        ensures { (start : SinkState) → (blank : Paper W) → (report : Report)
            → IsBlank W.state start blank → Prints W.state blank self.entry report answer
            → Answers start (W.state self.exit.0.now) report result }
    {
        let Paper {
            out,
            waiting,
            has_failed,
        } = self;
        let outcome = answer?;
        if has_failed {
            return Err(RunError::Write);
        }
        write_all(out, waiting.bytes())?;
        Ok(outcome)
    }
}

/// The bytes that may wait.
const SIZE: usize = 65536;

/// The bytes that wait to be written, at most 65536. Contracts see them as their list. All its memory is taken by `new`,
/// so printing takes none.
#[derive(Drop)]
pub struct ReportBuffer {
    waiting: Vec<u8>,
}

impl Model for ReportBuffer {
    ghost use Rattle.std.specs.Prelude.{ℕ, List, ◌≤◌, vec_len, vec_capacity};

    ghost Value = { List ℕ };

    ghost view = { λ b. b.waiting.items };

    ghost invariant = { λ b. (vec_len b.waiting ≤ 65536) × (65536 ≤ vec_capacity b.waiting) };
}

impl ReportBuffer {
    /// An empty buffer.
    ///
    /// # Errors
    ///
    /// `Memory` where memory for 65536 bytes is refused.
    pub fn new(alloc: Global) -> Result<ReportBuffer, RunError>
        ensures empty { IfOk result (λ b. b ≡ []) }
        ensures only { IsOkUnless result RunError.Memory }
    {
        let waiting = Vec::with_capacity(alloc, SIZE)?;
        Ok(ReportBuffer { waiting })
    }

    /// Appends `text` and returns `true` if there is room for it; otherwise returns `false`.
    #[inline(always)]
    pub(crate) fn add(&mut self, text: &[u8]) -> bool
        ensures { self.new ≡ (if result then self.old ++ text.now else self.old) }
    {
        if text.len() > SIZE - self.waiting.len() {
            return false;
        }
        self.waiting.extend_from_slice(text).unwrap();
        true
    }

    /// All that waits.
    pub(crate) fn bytes(&self) -> &[u8]
        ensures { result.now ≡ self.now }
    {
        &self.waiting
    }

    /// Empties the buffer.
    pub(crate) fn clear(&mut self)
        ensures { self.new ≡ [] }
    {
        self.waiting.clear();
    }
}

/// Hands all of `bytes` to the sink. A call that takes no byte is a failed write, and no write is
/// tried again.
pub(crate) fn write_all<W: Sink>(sink: &mut W, bytes: &[u8]) -> Result<(), RunError>
    ensures { Writes (W.state sink.old) (W.state sink.new) result bytes.now }
{
    let mut rest = bytes;
    while !rest.is_empty() {
        match sink.write(rest) {
            Ok(n) if n > 0 => rest = &rest[n..],
            _ => return Err(RunError::Write),
        }
    }
    Ok(())
}

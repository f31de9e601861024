//! What a run reads from and writes to. Contracts see of each device one state: its bytes, where it tells them, and
//! always the counts of its calls.
ghost use Rattle.std.specs.Prelude.{◌≡◌, ℕ, List, Option, Some, Result, option_map, ◌+◌, ◌<◌, ◌≤◌, length, IfOk};
ghost use Rattle.std.specs.Io.{ReadsAtMost, WritesAtMost};
ghost use Rattle.std.specs.Io.KnownBytes.{ReadConsumes, WriteAppends};
ghost use Rattle.std.specs.declared.io.Error.{Error};
ghost use Rattle.cudf_device.specs.Device.{SourceState, SinkState, failed_reads, ended_reads, bytes_given, failed_writes};
ghost use Rattle.cudf_device.specs.Promises.DeviceInside.{device_answer};

use cudf_index::Steps;
use std::io::{self, ErrorKind, Read, Write};

/// Why a call of a device gave or took no byte.
#[derive(Clone, Copy, PartialEq, Eq)]
pub enum Trouble {
    /// The call was interrupted, and a read may be tried again.
    Interrupted,
    /// The call failed.
    Failed,
}

/// Something that gives bytes.
pub trait Source {
    /// Its name, where it has one, the bytes that it will still give, where it tells them, the counts of its calls and
    /// bytes, and what its last call answered.
    ghost state: { Self → SourceState };

    /// The name of the file that it reads, where lines of reports name it.
    fn name(&self) -> Option<&str>
        ensures { option_map (λ n. n.now) result ≡ (state self.now).name };

    /// Writes the next bytes to the front of `buffer`, which has room for one at least, and answers how many: at most
    /// as many as the buffer has room for. 0 bytes are the end of the input. After a `Trouble` no byte was given.
    fn read(&mut self, buffer: &mut [u8]) -> Result<usize, Trouble>
        requires { 0 < length buffer.old }

        ensures bound { IfOk result (λ n. n ≤ length buffer.new) }
        ensures bytes { ReadConsumes (state self.old).remaining (state self.new).remaining result buffer.new }

        // The name stays, and each count grows by what the answer says.
        ensures named { (state self.new).name ≡ (state self.old).name }
        ensures called { (state self.new).calls ≡ (state self.old).calls + 1 }
        ensures failed { (state self.new).failures ≡ (state self.old).failures + failed_reads result }
        ensures ended { (state self.new).ends ≡ (state self.old).ends + ended_reads result }
        ensures gave { (state self.new).given ≡ (state self.old).given + bytes_given result }
        ensures last { (state self.new).last ≡ Some result };
}

/// Something that takes bytes.
pub trait Sink {
    /// The bytes that it has taken, where it tells them, the count of its failed calls, and what its last call answered.
    ghost state: { Self → SinkState };

    /// Takes bytes from the front of `bytes`, which are one at least, and answers how many: at most as many as there
    /// are. A run takes an answer of 0 for a failed call. After a `Trouble` none was taken.
    fn write(&mut self, bytes: &[u8]) -> Result<usize, Trouble>
        requires { 0 < length bytes.now }

        ensures bound { IfOk result (λ n. n ≤ length bytes.now) }
        ensures bytes { WriteAppends (state self.old).contents (state self.new).contents result bytes.now }
        ensures failed { (state self.new).failures ≡ (state self.old).failures + failed_writes result }
        ensures last { (state self.new).last ≡ Some result };
}

/// A reader or a writer of std, as a `Source` or a `Sink`. It tells its bytes where the reader or
/// writer does, as one over memory, and a file doesn't.
#[derive(Drop)]
pub struct Device<T> {
    inner: T,
    calls: Steps,
    failures: Steps,
    ends: Steps,
    given: Steps,
    last: Option<Result<usize, Trouble>>,
}

impl<T> Device<T> {
    ghost use Rattle.cudf_device.specs.Promises.DeviceInside.{device_inner, IsUnused};

    /// A device over `inner` that has had no call.
    pub fn new(inner: T) -> Device<T>
        ensures inner { device_inner result ≡ inner }
        ensures unused { IsUnused result }
    {
        Device {
            inner,
            calls: Steps::new(),
            failures: Steps::new(),
            ends: Steps::new(),
            given: Steps::new(),
            last: None,
        }
    }

    /// The reader or writer itself.
    pub fn into_inner(self) -> T
        ensures { result ≡ device_inner self }
    {
        let Device {
            inner,
            calls: _,
            failures: _,
            ends: _,
            given: _,
            last: _,
        } = self;
        inner
    }
}

/// What a std reader or writer answered, as a source or sink answers it.
fn answer_of(answer: io::Result<usize>) -> Result<usize, Trouble>
    ensures { result ≡ device_answer answer }
{
    match answer {
        Ok(n) => Ok(n),
        Err(error) => match error.kind() {
            ErrorKind::Interrupted => Err(Trouble::Interrupted),
            _ => Err(Trouble::Failed),
        },
    }
}

/// A reader of std, as a device calls it. Contracts see which answers a call may have given, so that
/// a device can't answer in the reader's place.
///
/// That `read_once` itself hands on what std's `read` answered is read off its line: the contract of
/// std says nothing of an error.
pub trait Reader {
    /// The bytes that it will still give, where it tells them.
    ghost remaining: { Self → Option (List ℕ) };

    /// A call that finds the reader so may answer this, leave this in the buffer, and leave the reader so.
    ghost gives: { Self → Result ℕ Error → List ℕ → Self → Type 0 };

    /// One call of the reader's `read`.
    fn read_once(&mut self, buffer: &mut [u8]) -> io::Result<usize>
        ensures bound { ReadsAtMost result buffer.new }
        ensures bytes { ReadConsumes (remaining self.old) (remaining self.new) result buffer.new }
        ensures gives { gives self.old result buffer.new self.new };
}

impl<R: Read> Reader for R {
    ghost remaining = { R.remaining };

    ghost gives = { λ before answer bytes after. ReadConsumes (R.remaining before) (R.remaining after) answer bytes };

    fn read_once(&mut self, buffer: &mut [u8]) -> io::Result<usize> {
        self.read(buffer)
    }
}

impl<R: Reader> Source for Device<R> {
    ghost use Rattle.cudf_device.specs.Promises.DeviceInside.{device_inner, source_state, IsTold};

    ghost state = { source_state R.remaining };

    fn name(&self) -> Option<&str> {
        None
    }

    fn read(&mut self, buffer: &mut [u8]) -> Result<usize, Trouble>
        // What the reader answered is reported, and nothing else.
        ensures told { IsTold R.gives (device_inner self.old) result buffer.new (device_inner self.new) }

        ensures bound { IfOk result (λ n. n ≤ length buffer.new) }
        ensures bytes { ReadConsumes (source_state R.remaining self.old).remaining (source_state R.remaining self.new).remaining
            result buffer.new }
        ensures called { (source_state R.remaining self.new).calls ≡ (source_state R.remaining self.old).calls + 1 }
        ensures failed { (source_state R.remaining self.new).failures
            ≡ (source_state R.remaining self.old).failures + failed_reads result }
        ensures ended { (source_state R.remaining self.new).ends
            ≡ (source_state R.remaining self.old).ends + ended_reads result }
        ensures gave { (source_state R.remaining self.new).given
            ≡ (source_state R.remaining self.old).given + bytes_given result }
        ensures last { (source_state R.remaining self.new).last ≡ Some result }
    {
        self.calls.tick();
        let answer = answer_of(self.inner.read_once(buffer));
        match answer {
            Ok(0) => self.ends.tick(),
            Ok(n) => self.given.grow_by(n),
            Err(Trouble::Failed) => self.failures.tick(),
            Err(Trouble::Interrupted) => {}
        }
        self.last = Some(answer);
        answer
    }
}

/// A writer of std, as a device calls it. Contracts see which bytes a call was given and which answers it may have
/// given, so that a device hands all of its bytes down in one call, and tells that call's answer.
pub trait Writer {
    /// The bytes that it has taken, where it tells them.
    ghost contents: { Self → Option (List ℕ) };

    /// A call that finds the writer so and is given these bytes may answer this, and leave the writer so.
    ghost takes: { Self → List ℕ → Result ℕ Error → Self → Type 0 };

    /// One call of the writer's `write`.
    fn write_once(&mut self, bytes: &[u8]) -> io::Result<usize>
        ensures bound { WritesAtMost result bytes.now }
        ensures bytes { WriteAppends (contents self.old) (contents self.new) result bytes.now }
        ensures takes { takes self.old bytes.now result self.new };
}

impl<W: Write> Writer for W {
    ghost contents = { W.contents };

    ghost takes = { λ before bytes answer after. WriteAppends (W.contents before) (W.contents after) answer bytes };

    fn write_once(&mut self, bytes: &[u8]) -> io::Result<usize> {
        self.write(bytes)
    }
}

impl<W: Writer> Sink for Device<W> {
    ghost use Rattle.cudf_device.specs.Promises.DeviceInside.{device_inner, sink_state, IsHandedDown};

    ghost state = { sink_state W.contents };

    fn write(&mut self, bytes: &[u8]) -> Result<usize, Trouble>
        // One call of the writer was given all of the bytes, and what it answered is reported.
        ensures told { IsHandedDown W.takes (device_inner self.old) bytes.now result (device_inner self.new) }

        ensures bound { IfOk result (λ n. n ≤ length bytes.now) }
        ensures bytes { WriteAppends (sink_state W.contents self.old).contents (sink_state W.contents self.new).contents
            result bytes.now }
        ensures failed { (sink_state W.contents self.new).failures
            ≡ (sink_state W.contents self.old).failures + failed_writes result }
        ensures last { (sink_state W.contents self.new).last ≡ Some result }
    {
        let answer = answer_of(self.inner.write_once(bytes));
        match answer {
            Ok(n) if n > 0 => {}
            _ => self.failures.tick(),
        }
        self.last = Some(answer);
        answer
    }
}

/// A source with a name, as of the file that it reads: lines of reports begin with it. Own.
#[derive(Drop)]
pub struct Named<'n, S> {
    source: S,
    name: Option<&'n str>,
}

impl<'n, S> Named<'n, S> {
    ghost use Rattle.std.specs.Prelude.{◌≡◌, option_map};
    ghost use Rattle.cudf_device.specs.Promises.NamedInside.{named_source, name_of};

    /// The source with this name, or without one.
    pub fn new(source: S, name: Option<&'n str>) -> Named<'n, S>
        ensures source { named_source result ≡ source }
        ensures name { name_of result ≡ option_map (λ n. n.now) name.entry }
    {
        Named { source, name }
    }

    /// The source itself.
    pub fn into_inner(self) -> S
        ensures { result ≡ named_source self.entry }
    {
        self.source
    }
}

impl<'n, S: Source> Source for Named<'n, S> {
    ghost use Rattle.cudf_device.specs.Promises.NamedInside.{named_state};

    ghost state = { named_state S.state };

    fn name(&self) -> Option<&str> {
        self.name
    }

    fn read(&mut self, buffer: &mut [u8]) -> Result<usize, Trouble> {
        self.source.read(buffer)
    }
}

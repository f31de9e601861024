//! What the program asks of the system: the words of the command line, files by their paths, and standard output.
ghost use Rattle.std.specs.Prelude.{ℕ, ⊤, List, Option, Result, Ok, Err, MatchResult, map, string_bytes, ◌≡◌, option_map, ◌<◌, IfErr, OnOk};
ghost use Rattle.std.specs.Vec.Iter.{into_iter_items};
ghost use Rattle.std.specs.declared.io.Error.{Error};
ghost use Rattle.std.specs.Io.KnownBytes.{Appends};
ghost use Rattle.cudf_device.specs.Writers.{AppendsPrefix};
ghost use Rattle.cudf_program.specs.Inputs.{IsHeldBy, IsRefusedBy, IsThere, bytes_left, left_behind};

use cudf_check::{Sink, Trouble};
use cudf_command_line::FileName;
use std::env;
use std::fs::{self, File};
use std::io::{self, ErrorKind, Read, Write};

/// Who gives the words and the files. What is proved of the program holds for each implementation, so also for one
/// that tells contracts which words it gave and which bytes its files hold.
pub(crate) trait System {
    /// An open file.
    type File: Read + Drop;

    /// Asked for the words of the command line it may answer this: the program's name and the words, or an error.
    ghost says: { Self → Result (List (List ℕ)) Error → Type 0 };

    /// Asked to open the file at a path it may answer this: what is known of the bytes that the file holds, or an error.
    ghost opens: { Self → List ℕ → Result (Option (List ℕ)) Error → Type 0 };

    /// The program's own name, and then the words of the command line.
    fn args(&self) -> io::Result<env::Args>
        ensures { MatchResult result
            (λ args. says self.now (Ok (map (λ word. string_bytes word) (into_iter_items args))))
            (λ error. says self.now (Err error)) };

    /// Opens the file at `path` for reading, from its first byte on.
    fn open_path(&self, path: &str) -> io::Result<Self::File>
        ensures { MatchResult result
            (λ file. opens self.now path.now (Ok (Self.File.remaining file)))
            (λ error. opens self.now path.now (Err error)) };
}

/// The system that the program runs on. The contracts of std tell neither its words nor what its files hold, so these
/// two functions are read and tested, and not proved: that `env::args` gives the words of the command line, that
/// `fs::open` opens the file at that path, and that reads of this file give the bytes that it holds.
impl System for HostRuntime {
    type File = File;

    ghost says = { λ _ _. ⊤ };

    ghost opens = { λ _ _ _. ⊤ };

    fn args(&self) -> io::Result<env::Args> {
        env::args(self)
    }

    fn open_path(&self, path: &str) -> io::Result<File> {
        fs::open(self, path)
    }
}

/// An input of the program.
#[derive(Drop)]
pub(crate) struct Input<F, S> {
    origin: Stream<F, S>,
    reading: Reading,
}

/// Where an input comes from.
#[derive(Drop)]
pub(crate) enum Stream<F, S> {
    /// An opened file.
    File(F),
    /// Standard input.
    Standard(S),
}

/// What the last read of an input answered.
#[derive(Clone, Copy)]
pub(crate) enum Reading {
    /// There was none.
    Unread,
    /// Bytes, or the end.
    Begun,
    /// An error.
    Failed(io::Error),
}

/// Opens the file, or takes standard input, which is no one else's from then on.
pub(crate) fn open<R: System, S: Read>(
    rt: &R,
    name: FileName<'_>,
    standard: &mut Option<S>,
) -> io::Result<Input<R::File, S>>
    requires { IsThere name standard.old }
    ensures held { MatchResult result
        (λ input. IsHeldBy (R.opens rt.now) (option_map S.remaining standard.old) name.entry (bytes_left R.File.remaining S.remaining input))
        (IsRefusedBy (R.opens rt.now) name.entry) }
    ensures left { standard.new ≡ left_behind name.entry standard.old }
{
    let origin = match name {
        FileName::Path(path) => Stream::File(rt.open_path(path)?),
        FileName::Standard => Stream::Standard(standard.take().unwrap()),
    };
    Ok(Input {
        origin,
        reading: Reading::Unread,
    })
}

impl<F, S> Input<F, S> {
    /// What the last read answered.
    pub(crate) fn reading(&self) -> Reading {
        self.reading
    }
}

impl<F: Read, S: Read> Read for Input<F, S> {
    ghost use Rattle.cudf_program.specs.Inputs.{bytes_left};

    ghost remaining = { λ input. bytes_left F.remaining S.remaining input };

    fn read(&mut self, buffer: &mut [u8]) -> io::Result<usize> {
        let answer = self.origin.read(buffer);
        self.reading = match answer {
            Ok(_given) => Reading::Begun,
            Err(error) => Reading::Failed(error),
        };
        answer
    }
}

impl<F: Read, S: Read> Read for Stream<F, S> {
    ghost use Rattle.cudf_program.specs.Inputs.{origin_left};

    ghost remaining = { λ origin. origin_left F.remaining S.remaining origin };

    fn read(&mut self, buffer: &mut [u8]) -> io::Result<usize> {
        match self {
            Stream::File(file) => file.read(buffer),
            Stream::Standard(standard) => standard.read(buffer),
        }
    }
}

/// A writer that keeps what its last write answered.
#[derive(Drop)]
pub(crate) struct Output<W> {
    inner: W,
    last: Option<io::Result<usize>>,
}

impl<W> Output<W> {
    /// A writer that has had no call.
    pub(crate) fn new(inner: W) -> Output<W> {
        Output { inner, last: None }
    }

    /// Says that the last write failed, if it did. A write that takes no byte is a failed one.
    pub(crate) fn tell<E: Write>(&self, errors: &mut E) -> io::Result<()> {
        match &self.last {
            Some(Ok(0)) => writeln!(
                errors,
                "cudf_check: the output could not be written to its end"
            ),
            Some(Err(error)) => {
                let advice = advice(*error);
                writeln!(
                    errors,
                    "cudf_check: the output could not be written to its end: {error}{advice}"
                )
            }
            _ => Ok(()),
        }
    }
}

/// What to do where the output can't be written.
fn advice(error: io::Error) -> &'static str {
    match error.kind() {
        ErrorKind::BrokenPipe =>
            "; what reads it ended, as head does: check --limit gives a shorter report",
        _ => "",
    }
}

impl<W: Write> Write for Output<W> {
    ghost contents = { λ output. W.contents output.inner };

    fn write(&mut self, bytes: &[u8]) -> io::Result<usize> {
        let answer = self.inner.write(bytes);
        self.last = Some(answer);
        answer
    }

    fn flush(&mut self) -> io::Result<()> {
        self.inner.flush()
    }
}

/// Hands all of `bytes` to the sink. A call that takes no byte is a failed write, and no write is tried again.
pub(crate) fn write_all<W: Sink>(sink: &mut W, bytes: &[u8]) -> Result<(), Trouble>
    ensures whole { OnOk result (Appends (W.state sink.old).contents (W.state sink.new).contents bytes.now) }
    ensures prefix { AppendsPrefix (W.state sink.old).contents (W.state sink.new).contents bytes.now }
    ensures calm { OnOk result ((W.state sink.new).failures ≡ (W.state sink.old).failures) }
    ensures failed { IfErr result (λ _. (W.state sink.old).failures < (W.state sink.new).failures) }
{
    let mut rest = bytes;
    while !rest.is_empty() {
        match sink.write(rest) {
            Ok(n) if n > 0 => rest = &rest[n..],
            _ => return Err(Trouble::Failed),
        }
    }
    Ok(())
}

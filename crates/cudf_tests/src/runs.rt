//! Runs on devices that fail, and on inputs at the limits.
use crate::devices::{FOREVER, Giver, Refusal, Taker};
use crate::reports::{CHECK, JOINED, LINT};
use cudf_check::{Mode, Outcome, RunError, run};
use std::alloc::Global;

/// The last turn of a reader, and the most bytes that it may give.
const TURNS: u32 = 536870912;

const BYTES: usize = 268435456;

const REPORT: &[u8] = b"p1.depends.1 car 1 line 1: needs wheel > 2\nsolution no\n";

/// How a check on these devices ends.
fn ended(alloc: Global, input: &mut Giver<'_>, out: &mut Taker) -> Result<Outcome, RunError> {
    let mut others: [Giver<'_>; 0] = [];
    run(alloc, &CHECK, Mode::Lenient, input, &mut others, out)
}

/// A sink that takes everything.
fn endless(alloc: Global) -> Taker {
    Taker::new(Vec::new(alloc), usize::MAX, usize::MAX, Refusal::Failed)
}

/// Checks the joined input, and answers whether the run ends and writes so.
fn answers(
    alloc: Global,
    input: &mut Giver<'_>,
    want: Result<Outcome, RunError>,
    report: &[u8],
) -> bool {
    let mut out = endless(alloc);
    ended(alloc, input, &mut out) == want && out.taken.as_slice() == report
}

/// The most bytes of a read, whether each is given after an interrupted call, and the call that reaches the end.
const READS: [(usize, bool, u32); 4] = [
    (1, false, 156),
    (6, false, 27),
    (usize::MAX, false, 2),
    (1, true, 312),
];

/// Whether the run is broken off where this call fails, and not where it is the first one after the end.
fn fails_at(alloc: Global, row: &(usize, bool, u32), call: u32) -> bool {
    let mut input = Giver::new(JOINED);
    input.per_call = row.0;
    input.is_restless = row.1;
    input.failing_call = call;
    if call > row.2 {
        return answers(alloc, &mut input, Ok(Outcome::No), REPORT) && input.turn == row.2;
    }
    answers(alloc, &mut input, Err(RunError::Read), b"") && input.turn == call
}

#[test]
fn reads(rt: HostRuntime) {
    for row in &READS {
        for call in 1..row.2.saturating_add(2) {
            assert!(rt;
                fails_at(rt.alloc(), row, call),
                "call {call} of {} bytes",
                row.0
            );
        }
    }
}

/// What a job doesn't need is read all the same.
#[test]
fn lints_beside_a_solution(rt: HostRuntime) {
    let mut input = Giver::new(b"request: r\n");
    let mut others = [Giver::new(JOINED)];
    let mut out = endless(rt.alloc());
    let answer = run(
        rt.alloc(),
        &LINT,
        Mode::Lenient,
        &mut input,
        &mut others,
        &mut out,
    );
    assert!(rt; answer == Ok(Outcome::Yes), "lint");
    assert!(rt; others[0].turn == 2, "{} turns", others[0].turn);
}

/// An input that begins so and repeats its last byte, its length, how many calls are interrupted first, how the run ends,
/// what is written, and how many bytes and calls were taken of it.
type Limit = (
    &'static [u8],
    usize,
    u32,
    Result<Outcome, RunError>,
    &'static [u8],
    (usize, u32),
);

/// No more calls than this are made for the bytes of a long input.
const FEW: u32 = 10000;

const NO_REQUEST: &[u8] = b"problem line 1: E13 no request\n";

const LIMITS: [Limit; 4] = [
    (b"", 0, FOREVER, Err(RunError::Read), b"", (0, TURNS)),
    (
        b"",
        0,
        TURNS - 1,
        Ok(Outcome::Faulty),
        NO_REQUEST,
        (0, TURNS),
    ),
    (
        b"#",
        BYTES + 1,
        0,
        Err(RunError::TooLong),
        b"",
        (BYTES + 1, FEW),
    ),
    (
        b"request:\n#",
        BYTES,
        0,
        Ok(Outcome::Yes),
        b"solution yes\n",
        (BYTES, FEW),
    ),
];

fn ends_so(alloc: Global, row: &Limit) -> bool {
    let mut input = Giver::new(row.0);
    input.length = row.1;
    input.interruptions = row.2;
    answers(alloc, &mut input, row.3, row.4) && input.position == row.5.0 && input.turn <= row.5.1
}

#[test]
fn limits(rt: HostRuntime) {
    for row in &LIMITS {
        assert!(rt; ends_so(rt.alloc(), row), "{} bytes", row.1);
    }
}

/// The most bytes of a write, and how the one after the last is refused.
const WRITES: [(usize, Refusal); 5] = [
    (usize::MAX, Refusal::Failed),
    (5, Refusal::Interrupted),
    (5, Refusal::NoByte),
    (1, Refusal::Failed),
    (1, Refusal::Interrupted),
];

/// Whether the sink is left with as much of the report as it takes.
fn leaves_prefix(alloc: Global, row: &(usize, Refusal), room: usize) -> bool {
    let mut out = Taker::new(Vec::new(alloc), row.0, room, row.1);
    let want = if room < REPORT.len() {
        Err(RunError::Write)
    } else {
        Ok(Outcome::No)
    };
    writes_to(alloc, &mut out) == want && out.taken.len() == room && REPORT.starts_with(&out.taken)
}

fn writes_to(alloc: Global, out: &mut Taker) -> Result<Outcome, RunError> {
    ended(alloc, &mut Giver::new(JOINED), out)
}

#[test]
fn writes(rt: HostRuntime) {
    for row in &WRITES {
        for room in 0..=REPORT.len() {
            assert!(rt;
                leaves_prefix(rt.alloc(), row, room),
                "room for {room} bytes"
            );
        }
    }
}

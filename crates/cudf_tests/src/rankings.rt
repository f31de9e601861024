//! A ranking of many solutions, longer than what waits before it is written.
use crate::table::{Answer, expect};
use cudf_check::{Device, Job, Mode, Outcome, run};
use cudf_referee::read_criterion;
use std::alloc::{AllocError, Global};
use std::ops::Range;

/// How many solutions are ranked, and how many of them install car 1: every third one, from the first. One fewer says
/// FAIL, every third one from the second; as many as these install nothing.
const SOLUTIONS: u64 = 1000;

const CAR1S: u64 = 334;

const FLEET: &[u8] =
    b"package: car\nversion: 1\ninstalled: true\n\npackage: car\nversion: 2\n\npackage: bus\nversion: 1\n\nrequest: r\n";

const AIMS: &str = "-changed,-touched,-removed,-new,-notuptodate,-unsat_recommends";

fn solution(place: u64) -> &'static [u8] {
    match place % 3 {
        1 => b"package: car\nversion: 1\ninstalled: true\n",
        2 => b"FAIL",
        _ => b"",
    }
}

/// Readers of all solutions.
fn solutions(alloc: Global) -> Result<Vec<Device<&'static [u8]>>, AllocError> {
    let mut devices = Vec::new(alloc);
    for place in 1..=SOLUTIONS {
        devices.push(Device::new(solution(place)))?;
    }
    Ok(devices)
}

/// The lines of every third solution from this place, ranked from this rank.
fn push_third(
    text: &mut String,
    place: u64,
    ranks: Range<u64>,
    found: &str,
) -> Result<(), AllocError> {
    let mut place = place;
    for rank in ranks {
        write!(text, "{rank} solution {place} {found}\n")?;
        place = place.saturating_add(3);
    }
    Ok(())
}

/// The solutions that install car 1, those that install nothing, and those that say FAIL.
fn ranking(alloc: Global) -> Result<String, AllocError> {
    let car1 = "yes -changed 0 -touched 0 -removed 0 -new 0 -notuptodate 1 -unsat_recommends 0";
    let nothing = "yes -changed 1 -touched 1 -removed 1 -new 0 -notuptodate 0 -unsat_recommends 0";
    let mut text = String::new(alloc);
    push_third(&mut text, 1, 1..CAR1S + 1, car1)?;
    push_third(&mut text, 3, CAR1S + 1..2 * CAR1S, nothing)?;
    push_third(&mut text, 2, 2 * CAR1S..SOLUTIONS + 1, "FAIL")?;
    Ok(text)
}

fn is_ranked(alloc: Global) -> Answer {
    let report = ranking(alloc)?;
    is_ranked_so(alloc, report.as_bytes())
}

fn is_ranked_so(alloc: Global, report: &[u8]) -> Answer {
    match read_criterion(alloc, AIMS)? {
        Some(aims) => is_ranked_by(alloc, &Job::Rank { aims }, report),
        None => Ok(false),
    }
}

fn is_ranked_by(alloc: Global, job: &Job, report: &[u8]) -> Answer {
    let mut solutions = solutions(alloc)?;
    ranks(alloc, job, &mut solutions, report)
}

fn ranks(alloc: Global, job: &Job, solutions: &mut [Device<&[u8]>], report: &[u8]) -> Answer {
    let mut problem = Device::new(FLEET);
    let mut out = Device::new(Vec::new(alloc));
    let outcome = run(alloc, job, Mode::Lenient, &mut problem, solutions, &mut out)?;
    Ok(outcome == Outcome::Yes && out.into_inner().as_slice() == report)
}

#[test]
fn thousand_solutions(rt: HostRuntime) {
    expect(&rt, is_ranked(rt.alloc()));
}

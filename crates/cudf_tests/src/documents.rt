//! Errors of documents, the order of faults, and what programmers are shown: no clause says it.
use crate::chain::{Asks, judge};
use crate::table::{Answer, expect, prints, shows};
use cudf_document::{Problem, ReadError};
use cudf_text::{Fault, Kind, Room, TextError, read, stanzas};
use std::alloc::{AllocError, Global};

#[test]
fn errors(rt: HostRuntime) {
    let fault = Fault {
        line: 12,
        kind: Kind::E13,
    };
    let said = "line 12: E13 no request";
    expect(&rt, prints(rt.alloc(), &TextError::Fault(fault), said));
    expect(
        &rt,
        prints(rt.alloc(), &TextError::Memory(AllocError), "out of memory"),
    );
    expect(&rt, prints(rt.alloc(), &ReadError::Fault(fault), said));
    expect(
        &rt,
        prints(rt.alloc(), &ReadError::Memory(AllocError), "out of memory"),
    );
}

/// Faults are ordered by line, and on one line by kind.
#[test]
fn order_of_faults(rt: HostRuntime) {
    let first = Fault {
        line: 1,
        kind: Kind::E2,
    };
    let beside = Fault {
        line: 1,
        kind: Kind::E10,
    };
    let below = Fault {
        line: 2,
        kind: Kind::E1,
    };
    assert!(rt; first < beside && beside < below);
}

/// Whether a text with a faulty line keeps its source.
fn is_source_kept(alloc: Global) -> Answer {
    let text = read(alloc, b"request: r\njunk\n")?;
    Ok(text.source == "request: r\njunk\n" && text.fault.is_some())
}

/// A room, and a cursor before the first stanza.
fn are_cursors_shown(alloc: Global) -> Answer {
    let mut room = Room::new(alloc);
    let is_room_shown = shows(alloc, &room, "Room { .. }")?;
    let left = stanzas(alloc, b"request: r\n", &mut room)?;
    Ok(is_room_shown && shows(alloc, &left, "Stanzas { lines: 0, fault: None, .. }")?)
}

/// A problem without packages.
struct Debugged;

impl Asks for Debugged {
    fn of_problem(&self, alloc: Global, problem: &Problem<'_>) -> Answer {
        shows(
            alloc,
            problem,
            "Problem { packages: [], request: Request { line: 1, install: VpkgList { text: \"a\" }, remove: VpkgList { text: \"\" }, upgrade: VpkgList { text: \"\" } }, recommends: None, extra_names: [], .. }",
        )
    }
}

#[test]
fn shown(rt: HostRuntime) {
    expect(&rt, is_source_kept(rt.alloc()));
    expect(&rt, are_cursors_shown(rt.alloc()));
    expect(
        &rt,
        judge(rt.alloc(), b"request: r\ninstall: a\n", b"", &Debugged),
    );
}

//! Reads documents: each call gives what the document says, or why it isn't judged.
ghost use Rattle.std.specs.Prelude.{◌≡◌, false, true, map, None, IfOk, IfErr, OnOk};
ghost use Rattle.std.specs.Str.{IsUtf8};
ghost use Rattle.cudf_text.specs.Joined as joined;
ghost use Rattle.cudf_text.specs.Stanzas.{plain_text};
ghost use Rattle.cudf_problem.specs.Promises.Statuses.{installed_stanzas};
ghost use Rattle.cudf_problem.specs.Universe.{plain_problem};
ghost use Rattle.cudf_document.specs.Details.{stanza_line};
ghost use Rattle.cudf_check.specs.Report.{problem_fault, solution_fault};
ghost use Rattle.cudf_check.specs.Working.Unjudged.{IsFaultOf, IsUnjudged};

use crate::report::Setting;
use cudf_document::{
    NameRoom, Problem, Proposed, ReadError, first_fault, problem_of, proposed_of, stanza_lines,
};
use cudf_text::{Room, Stanzas, is_fail, source_of, stanzas};
use std::alloc::{AllocError, Global};

/// Why what a solution puts forward isn't judged.
#[derive(Drop)]
pub(crate) enum Unjudged {
    /// It says that there is none.
    SaysFail,
    /// It has a fault, or memory was wanting.
    Unread(ReadError),
}

/// Whether a problem has no fault; else its first.
pub(crate) fn check_problem(setting: Setting, bytes: &[u8]) -> Result<(), ReadError>
    ensures sound { OnOk result (problem_fault setting.mode bytes.now ≡ None) }
    ensures fault { IfErr result (IsFaultOf (problem_fault setting.mode bytes.now)) }
{
    let Setting { alloc, mode } = setting;
    let mut room = Room::new(alloc);
    let stanzas = match stanzas(alloc, bytes, &mut room) {
        Ok(stanzas) => stanzas,
        Err(fault) => return Err(ReadError::Fault(fault)),
    };
    match first_fault(alloc, stanzas, mode)? {
        None => Ok(()),
        Some(fault) => Err(ReadError::Fault(fault)),
    }
}

/// The problem. All of it is kept, and the names of its packages are copied.
pub(crate) fn parse_problem<'t>(
    setting: Setting,
    bytes: &'t [u8],
    room: &'t mut Room,
    names: &'t mut NameRoom,
) -> Result<Problem<'t>, ReadError>
    ensures sound { IfOk result (λ _. problem_fault setting.mode bytes.now ≡ None) }
    ensures problem { IfOk result (λ p. p ≡ plain_problem (plain_text bytes.now)) }
    ensures fault { IfErr result (IsFaultOf (problem_fault setting.mode bytes.now)) }
{
    let Setting { alloc, mode } = setting;
    match stanzas(alloc, bytes, room) {
        Ok(stanzas) => problem_of(alloc, stanzas, names, mode),
        Err(fault) => Err(ReadError::Fault(fault)),
    }
}

/// What a solution of the problem proposes.
pub(crate) fn parse_proposed<'t>(
    setting: Setting,
    bytes: &'t [u8],
    room: &'t mut Room,
    problem: &Problem<'_>,
) -> Result<Proposed<'t>, Unjudged>
    ensures utf8 { IfOk result (λ _. IsUtf8 bytes.now) }
    ensures sound { IfOk result (λ _. solution_fault setting.mode problem.now.extra_names bytes.now ≡ None) }
    ensures goes_on { IfOk result (λ _. joined.is_fail bytes.now ≡ false) }
    ensures proposed { IfOk result (λ p. p ≡ installed_stanzas (plain_text bytes.now).stanzas) }
    ensures unjudged { IfErr result (IsUnjudged setting.mode problem.now.extra_names bytes.now) }
{
    let Setting { alloc, mode } = setting;
    match source_of(bytes) {
        Ok(source) => {
            if is_fail(source) {
                return Err(Unjudged::SaysFail);
            }
            match proposed_of(alloc, Stanzas::new(alloc, source, room), mode, problem) {
                Ok(proposed) => Ok(proposed),
                Err(error) => Err(Unjudged::Unread(error)),
            }
        }
        Err(fault) => Err(Unjudged::Unread(ReadError::Fault(fault))),
    }
}

/// Where a solution has the packages of the problem, if that is told: see `stanza_lines`.
pub(crate) fn parse_stanza_lines(
    alloc: Global,
    is_told: bool,
    bytes: &[u8],
    problem: &Problem<'_>,
) -> Result<Vec<Option<u64>>, AllocError>
    ensures { IsUtf8 bytes.now → is_told ≡ true →
        IfOk result (λ lines. lines.items ≡ map (stanza_line (plain_text bytes.now).stanzas) problem.now.packages) }
{
    if !is_told {
        return Ok(Vec::new(alloc));
    }
    let mut room = Room::new(alloc);
    match stanzas(alloc, bytes, &mut room) {
        Ok(stanzas) => stanza_lines(alloc, stanzas, problem),
        Err(_) => Ok(Vec::new(alloc)),
    }
}

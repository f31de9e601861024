//! How a solution is read, and what it proposes, placed in the universe of a problem.
ghost use Rattle.std.specs.Prelude.{◌≡◌, ℕ, false, List, map, replicate, IsTrue, IfOk, [], IfErr, true, ◌∷◌, ◌++◌, length, position, Some, None, option_and_then};
ghost use Rattle.std.specs.FinSet as set;
ghost use Rattle.std.specs.Option.{option_or};
ghost use Rattle.cudf_text.specs.Stanzas.{PlainStanza};
ghost use Rattle.cudf_text.specs.Promises.Views.{text_view, stanza_view};
ghost use Rattle.cudf_text.specs.Joined.{is_fail};
ghost use Rattle.cudf_problem.specs.Promises.Statuses.{IsStatusOf, are_outside, installed_stanzas};
ghost use Rattle.cudf_problem.specs.Promises.Views.{unknown_view};
ghost use Rattle.cudf_problem.specs.Statuses.{is_proposed, unknown_stanzas, ascend_above};
ghost use Rattle.cudf_problem.specs.Ids.{id_of, is_id};
ghost use Rattle.cudf_problem.specs.Promises.Packages.{are_distinct};
ghost use Rattle.cudf_problem.specs.Universe.{package_id};
ghost use Rattle.cudf_document.specs.Promises.Faults.{IsFirstFault};
ghost use Rattle.cudf_document.specs.SolutionFaults.{solution_faults};
ghost use Rattle.cudf_document.specs.Details.{stanza_line};

use crate::fault::ReadError;
use crate::package::id_of;
use crate::proposed::{Proposed, proposed_in};
use cudf_problem::{InstalledPair, Mode, Problem, Solution, Status};
use cudf_text::{Next, StanzaRef, Stanzas, Text};
use std::alloc::{AllocError, Global};

/// Places what a solution proposes in the universe of a problem (CUDF 2.0, installations).
///
/// # Errors
///
/// `AllocError` where memory for it is refused.
pub fn solution_of<'t>(
    alloc: Global,
    proposed: Proposed<'t>,
    problem: &Problem<'_>,
) -> Result<Solution<'t>, AllocError>
    // This is the status that the stanzas propose,
    ensures status { (stanzas : List PlainStanza) →
        proposed.entry ≡ installed_stanzas stanzas →
        IfOk result (λ s. (place : ℕ) → set.contains s.status place ≡ is_proposed problem.now stanzas place) }
    ensures within { (stanzas : List PlainStanza) →
        proposed.entry ≡ installed_stanzas stanzas →
        IfOk result (λ s. IsStatusOf problem.now s.status) }
    // and what they install besides.
    ensures unknown { (stanzas : List PlainStanza) →
        proposed.entry ≡ installed_stanzas stanzas →
        IfOk result (λ s. map unknown_view s.unknown.items ≡ unknown_stanzas problem.now stanzas) }
    ensures ascending { (stanzas : List PlainStanza) →
        proposed.entry ≡ installed_stanzas stanzas →
        IfOk result (λ s. IsTrue (ascend_above 0 (map unknown_view s.unknown.items))) }
    ensures outside { (stanzas : List PlainStanza) →
        proposed.entry ≡ installed_stanzas stanzas →
        IfOk result (λ s. IsTrue (are_outside problem.now (map unknown_view s.unknown.items))) }
{
    let mut placed = InstalledFlags::new(alloc, problem)?;
    for stanza in proposed.installed() {
        placed.add(problem, *stanza)?;
    }
    let InstalledFlags { flags, unknown } = placed;
    Ok(Solution {
        status: Status::from_flags(flags),
        unknown,
    })
}

/// A flag for each package of the universe, and the stanzas that install something else.
#[derive(Drop)]
pub(crate) struct InstalledFlags<'t> {
    pub(crate) flags: Vec<bool>,
    pub(crate) unknown: Vec<InstalledPair<'t>>,
}

impl<'t> InstalledFlags<'t> {
    ghost use Rattle.std.specs.Prelude.{◌≡◌, List, [], ◌∷◌, ◌++◌, length, IfOk, OnOk};
    ghost use Rattle.cudf_problem.specs.Promises.Views.{unknown_view};
    ghost use Rattle.cudf_problem.specs.Statuses.{PlainUnknown};
    ghost use Rattle.cudf_document.specs.Working.InstalledFlags.{IsPlaced};

    /// Before the first stanza.
    fn new(alloc: Global, problem: &Problem<'_>) -> Result<Self, AllocError>
        ensures { IfOk result (IsPlaced problem.now []) }
    {
        Ok(InstalledFlags {
            flags: unset_flags(alloc, problem.packages().len())?,
            unknown: Vec::new(alloc),
        })
    }

    /// Places the pair that a stanza installs.
    fn add(&mut self, problem: &Problem<'_>, installed: InstalledPair<'t>) -> Result<(), AllocError>
        requires { length self.old.flags.items ≡ length problem.now.packages }
        ensures { (before : List PlainUnknown) →
            IsPlaced problem.now before self.old →
            OnOk result (IsPlaced problem.now (before ++ unknown_view installed.entry ∷ []) self.new) }
    {
        match problem.index_of(installed.name, installed.version) {
            Some(index) => {
                self.flags[index] = true;
                Ok(())
            }
            None => Ok(self.unknown.push(installed)?),
        }
    }
}

/// `n` flags, none of them set.
fn unset_flags(alloc: Global, n: usize) -> Result<Vec<bool>, AllocError>
    ensures { IfOk result (λ flags. flags.items ≡ replicate n false) }
{
    vec![in alloc; false; n]
}

/// Reads a solution of the problem (CUDF 2.0, installations). Of its packages `package`, `version` and
/// `installed` count, other stanzas are skipped, and a stanza with `installed: false` takes nothing back
/// (own). Leniently repeated pairs mean the same pair; strictly a property of a package has to be declared,
/// by the problem or by the solution itself (own).
///
/// The caller sees to it that the text doesn't say `FAIL` (`cudf_text::is_fail`): that proposes no status.
///
/// # Errors
///
/// The solution's first fault, of kind E2, E3, E4, E7, E9 or E12, or strictly E8, E15 or E16, or `Memory`
/// where a growth is refused.
pub fn read_solution<'t, 'a, 'p>(
    alloc: Global,
    text: &'t Text<'a>,
    problem: &Problem<'p>,
    mode: Mode,
) -> Result<Solution<'t>, ReadError>
    requires { is_fail text.now.source.now ≡ false }
    // The solution has no fault,
    ensures sound { IfOk result (λ _. solution_faults (text_view text.now) mode problem.now.extra_names ≡ []) }
    // and this is the status that it proposes,
    ensures status { IfOk result (λ s.
        (place : ℕ) → set.contains s.status place
        ≡ is_proposed problem.now (text_view text.now).stanzas place) }
    ensures within { IfOk result (λ s. IsStatusOf problem.now s.status) }
    // and what it installs besides.
    ensures unknown { IfOk result (λ s.
        map unknown_view s.unknown.items ≡ unknown_stanzas problem.now (text_view text.now).stanzas) }
    ensures ascending { IfOk result (λ s. IsTrue (ascend_above 0 (map unknown_view s.unknown.items))) }
    ensures outside { IfOk result (λ s.
        IsTrue (are_outside problem.now (map unknown_view s.unknown.items))) }
    // The fault is the first of its faults.
    ensures fault { IfErr result (IsFirstFault (solution_faults (text_view text.now) mode problem.now.extra_names)) }
{
    let proposed = proposed_in(alloc, text, mode, problem)?;
    Ok(solution_of(alloc, proposed, problem)?)
}

/// For each package of the problem, in its order, the line of the solution's first package stanza of its name and
/// version, installed or not, if there is one.
///
/// # Errors
///
/// `AllocError` where memory is refused.
pub fn stanza_lines(
    alloc: Global,
    stanzas: Stanzas<'_>,
    problem: &Problem<'_>,
) -> Result<Vec<Option<u64>>, AllocError>
    ensures { IfOk result (λ lines. lines.items ≡ map (stanza_line stanzas.entry.stanzas) problem.now.packages) }
{
    let mut stanzas = stanzas;
    let mut lines = unset_lines(alloc, problem.packages().len())?;
    let mut stanza = StanzaRef {
        line: 0,
        last: 0,
        properties: Vec::new(alloc),
    };
    'stanzas: loop { // for the prover
        match stanzas.next(alloc, &mut stanza.properties)? {
            Next::Stanza { line, last } => {
                stanza.line = line;
                stanza.last = last;
                keep_line(&mut lines, problem, &stanza);
            }
            Next::End { .. } => return Ok(lines),
        }
    }
}

/// Keeps the line of the next stanza, where it is the first of a package of the problem.
fn keep_line(lines: &mut Vec<Option<u64>>, problem: &Problem<'_>, stanza: &StanzaRef<'_>)
    requires len { length lines.old.items ≡ length problem.now.packages }
    requires distinct { are_distinct (map package_id problem.now.packages) ≡ true }
    ensures { (before : List PlainStanza) →
        lines.old.items ≡ map (stanza_line before) problem.now.packages →
        lines.new.items ≡ map (stanza_line (before ++ stanza_view stanza.now ∷ [])) problem.now.packages }
{
    if let Some(index) = index_of(problem, stanza) {
        lines[index] = earlier_line(lines[index], stanza.line);
    }
}

/// The index of the package that has the name and version of a stanza.
fn index_of(problem: &Problem<'_>, stanza: &StanzaRef<'_>) -> Option<usize>
    ensures { result ≡ option_and_then (λ id. position (is_id id) (map package_id problem.now.packages)) (id_of (stanza_view stanza.now)) }
{
    match id_of(stanza) {
        Some((name, version)) => problem.index_of(name, version),
        None => None,
    }
}

/// The earlier line, or `line` if there is none.
fn earlier_line(earlier: Option<u64>, line: u64) -> Option<u64>
    ensures { result ≡ option_or earlier (Some line) }
{
    earlier.or(Some(line))
}

/// `n` times no line.
fn unset_lines(alloc: Global, n: usize) -> Result<Vec<Option<u64>>, AllocError>
    ensures { IfOk result (λ lines. lines.items ≡ replicate n None) }
{
    vec![in alloc; None; n]
}

//! What a solution proposes, before it is known of which problem: CUDF 2.0, installations. Its stanzas are read one after
//! the other.
ghost use Rattle.std.specs.Prelude.{◌≡◌, [], ◌++◌, map, option_map, option_to_list, IfOk, IfErr, OnOk, ℕ, List};
ghost use Rattle.cudf_text.specs.Promises.Views.{text_view, stanza_view};
ghost use Rattle.cudf_text.specs.Stanzas.{PlainStanza};
ghost use Rattle.cudf_text.specs.declared.fault.Kind.TheVariants.{E15};
ghost use Rattle.cudf_problem.specs.Promises.Statuses.{installed_with, installed_stanzas};
ghost use Rattle.cudf_problem.specs.Promises.Views.{unknown_view};
ghost use Rattle.cudf_problem.specs.Ids.{id_of};
ghost use Rattle.cudf_problem.specs.declared.problem.Mode.{Mode};
ghost use Rattle.cudf_problem.specs.Statuses.{installed_id};
ghost use Rattle.cudf_document.specs.Promises.Faults.{IsFirstFault};
ghost use Rattle.cudf_document.specs.SolutionFaults.{solution_faults, solution_stanza_faults};
ghost use Rattle.cudf_document.specs.Faults.{least, fault_if};
ghost use Rattle.cudf_document.specs.Working.DeclaredNames.{AreExtras, names_with};
ghost use Rattle.cudf_document.specs.Working.Judging.{line_of, version_property};

pub(crate) mod package;

use crate::fault::{ReadError, fault_if, keep_lesser, lesser};
use crate::names::{DocumentKind, first_property_named, misplaced_fault, postmark_of};
use crate::proposed::package::{DeclaredNames, read_solution_package};
use cudf_problem::{InstalledPair, Mode, PackageIds, Postmark, Problem};
use cudf_text::{Fault, Kind, Next, StanzaRef, Stanzas, Text, lend};
use std::alloc::{AllocError, Global};
use std::marker::Model;

/// What a well-formed solution proposes, whatever the problem is.
#[derive(Drop)]
pub struct Proposed<'t> {
    pub(crate) installed: Vec<InstalledPair<'t>>,
}

impl<'t> Model for Proposed<'t> {
    ghost use Rattle.std.specs.Prelude.{List, map};
    ghost use Rattle.cudf_problem.specs.Promises.Views.{unknown_view};
    ghost use Rattle.cudf_problem.specs.Statuses.{PlainUnknown};

    ghost Value = { List PlainUnknown };

    ghost view = { λ p. map unknown_view p.installed.items };
}

impl<'t> Proposed<'t> {
    ghost use Rattle.std.specs.Prelude.{◌≡◌, map};
    ghost use Rattle.cudf_problem.specs.Promises.Views.{unknown_view};

    /// The stanzas that install a pair, in order. As long as there is no problem none of the pairs is known.
    pub fn installed(&self) -> &[InstalledPair<'t>]
        ensures { map unknown_view result.now ≡ self.now }
    {
        self.installed.as_slice()
    }
}

/// Reads what a solution proposes (CUDF 2.0, installations), each stanza as it is asked for: of the text no
/// more than one stanza is held. Of its packages `package`, `version` and `installed` count, other stanzas
/// are skipped, and a stanza with `installed: false` takes nothing back (own). Leniently repeated pairs mean
/// the same pair, and of the problem nothing counts; strictly a property of a package has to be declared, by
/// the problem or by the solution itself (own).
///
/// It asks nothing of its caller. A text that says `FAIL` is read as any other and has a fault on that
/// line, E2, or E3 where a blank comes before the word; whoever takes `FAIL` for an answer asks
/// `cudf_text::is_fail` first.
///
/// # Errors
///
/// The solution's first fault, of kind E2, E3, E4, E7, E9 or E12, or strictly E8, E15 or E16, or `Memory`
/// where a growth is refused.
pub fn proposed_of<'t>(
    alloc: Global,
    stanzas: Stanzas<'t>,
    mode: Mode,
    problem: &Problem<'_>,
) -> Result<Proposed<'t>, ReadError>
    // The solution has no fault,
    ensures sound { IfOk result (λ _. solution_faults stanzas.entry mode problem.now.extra_names ≡ []) }
    // and these are its stanzas that install a pair.
    ensures installed { IfOk result (λ p. p ≡ installed_stanzas stanzas.entry.stanzas) }
    // The fault is the first of its faults.
    ensures fault { IfErr result (IsFirstFault (solution_faults stanzas.entry mode problem.now.extra_names)) }
{
    let mut stanzas = stanzas;
    stanzas.are_countable();
    let mut reader = SolutionState::new(alloc, mode, problem)?;
    let mut stanza = StanzaRef {
        line: 0,
        last: 0,
        properties: Vec::new(alloc),
    };
    'stanzas: loop { // for the prover
        match stanzas.next(alloc, &mut stanza.properties)? {
            Next::Stanza { line, last } => {
                stanza.line = line;
                stanza.last = last;
                reader.take(alloc, &stanza)?;
            }
            Next::End { fault, .. } => return reader.finish(fault),
        }
    }
}

/// The same of a solution whose stanzas are held.
pub(crate) fn proposed_in<'t, 'a>(
    alloc: Global,
    text: &'t Text<'a>,
    mode: Mode,
    problem: &Problem<'_>,
) -> Result<Proposed<'t>, ReadError>
    ensures sound { IfOk result (λ _. solution_faults (text_view text.now) mode problem.now.extra_names ≡ []) }
    ensures installed { IfOk result (λ p. p ≡ installed_stanzas (text_view text.now).stanzas) }
    ensures fault { IfErr result (IsFirstFault (solution_faults (text_view text.now) mode problem.now.extra_names)) }
{
    let mut reader = SolutionState::new(alloc, mode, problem)?;
    let mut lent = StanzaRef {
        line: 0,
        last: 0,
        properties: Vec::new(alloc),
    };
    for stanza in &text.stanzas {
        lend(stanza, &mut lent)?;
        reader.take(alloc, &lent)?;
    }
    reader.finish(text.fault)
}

/// What is known after some stanzas.
#[derive(Drop)]
pub(crate) struct SolutionState<'p, 'a> {
    /// What they and the problem declare.
    pub(crate) extras: DeclaredNames<'p, 'a>,
    /// Their first fault, each for itself.
    pub(crate) first: Option<Fault>,
    /// Their pairs, and the first that strictly is repeated.
    pub(crate) pairs: Pairs<'a>,
    /// How many there were.
    pub(crate) number: u64,
    /// Those that install a pair.
    pub(crate) installed: Vec<InstalledPair<'a>>,
}

impl<'p, 'a> SolutionState<'p, 'a> {
    ghost use Rattle.std.specs.Prelude.{◌≡◌, ◌+◌, ◌<◌, ◌^◌, ℕ, List, [], ◌∷◌, ◌++◌, IfOk, IfErr, OnOk};
    ghost use Rattle.cudf_text.specs.Stanzas.{PlainStanza, PlainText};
    ghost use Rattle.cudf_text.specs.Promises.Views.{stanza_view};
    ghost use Rattle.cudf_document.specs.Promises.Faults.{IsFirstFault};
    ghost use Rattle.cudf_document.specs.SolutionFaults.{solution_faults};
    ghost use Rattle.cudf_problem.specs.declared.problem.Mode.{Mode};
    ghost use Rattle.cudf_document.specs.Working.Proposed.{IsRead, IsProposedOf};

    /// Before the first stanza.
    fn new(alloc: Global, mode: Mode, problem: &Problem<'p>) -> Result<Self, AllocError>
        ensures { IfOk result (IsRead mode problem.now.extra_names []) }
    {
        Ok(SolutionState {
            extras: DeclaredNames::new(alloc, mode, problem)?,
            first: None,
            pairs: Pairs::new(alloc, mode),
            number: 0,
            installed: Vec::new(alloc),
        })
    }

    /// Takes the next stanza.
    fn take(&mut self, alloc: Global, stanza: &StanzaRef<'a>) -> Result<(), AllocError>
        requires countable { self.old.number + 1 < 2 ^ 64 }
        ensures { (mode : Mode) →
            (names : List (List ℕ)) →
            (seen : List PlainStanza) →
            IsRead mode names seen self.old →
            OnOk result (IsRead mode names (seen ++ stanza_view stanza.now ∷ []) self.new) }
    {
        self.extras.take(alloc, self.number == 0, stanza)?;
        let said = read_stanza(stanza, &self.extras);
        self.first = lesser(self.first, said.fault);
        self.pairs.take(said.id, stanza)?;
        self.number += 1;
        push_installed(
            &mut self.installed,
            self.number,
            stanza.line,
            said.installed,
        )?;
        Ok(())
    }

    /// What they propose, unless a line, a stanza or a pair has a fault.
    fn finish(self, line_fault: Option<Fault>) -> Result<Proposed<'a>, ReadError>
        ensures proposed { (mode : Mode) →
            (names : List (List ℕ)) →
            (text : PlainText) →
            line_fault ≡ text.fault →
            IsRead mode names text.stanzas self.entry →
            IfOk result (IsProposedOf mode names text) }
        ensures fault { (mode : Mode) →
            (names : List (List ℕ)) →
            (text : PlainText) →
            line_fault ≡ text.fault →
            IsRead mode names text.stanzas self.entry →
            IfErr result (IsFirstFault (solution_faults text mode names)) }
    {
        let SolutionState {
            first,
            pairs,
            installed,
            ..
        } = self;
        if let Some(fault) = lesser(pairs.first, lesser(line_fault, first)) {
            return Err(ReadError::Fault(fault));
        }
        Ok(Proposed { installed })
    }
}

/// Adds the stanza with this number and line, if it installs a pair.
fn push_installed<'a>(
    installed: &mut Vec<InstalledPair<'a>>,
    stanza: u64,
    line: u64,
    id: Option<(&'a str, u64)>,
) -> Result<(), AllocError>
    ensures { OnOk result (map unknown_view installed.new.items
        ≡ map unknown_view installed.old.items
        ++ option_to_list (option_map (installed_with stanza line) (option_map (λ id. (id.0.now, id.1)) id.entry))) }
{
    match id {
        Some((name, version)) => Ok(installed.push(InstalledPair {
            stanza,
            line,
            name,
            version,
        })?),
        None => Ok(()),
    }
}

/// What a stanza says.
#[derive(Clone, Copy)]
pub(crate) struct SaidOfStanza<'a> {
    /// Its first fault, whatever is before it.
    pub(crate) fault: Option<Fault>,
    /// The name and the version of a package, where both are of their types.
    pub(crate) id: Option<(&'a str, u64)>,
    /// The same of a package that it installs.
    pub(crate) installed: Option<(&'a str, u64)>,
}

/// Reads a stanza for itself, where these extra properties are declared.
pub(crate) fn read_stanza<'a>(
    stanza: &StanzaRef<'a>,
    extras: &DeclaredNames<'_, '_>,
) -> SaidOfStanza<'a>
    ensures fault { (mode : Mode) →
        (names : List (List ℕ)) →
        (seen : List PlainStanza) →
        AreExtras mode names seen extras.now →
        result.fault ≡ least (solution_stanza_faults mode (names_with names seen) (stanza_view stanza.now)) }
    ensures id { option_map (λ id. (id.0.now, id.1)) result.id ≡ id_of (stanza_view stanza.now) }
    ensures installed { option_map (λ id. (id.0.now, id.1)) result.installed
        ≡ installed_id (stanza_view stanza.now) }
{
    let mark = postmark_of(stanza);
    match mark {
        Some(Postmark::Package) => {
            let (fault, entry) = read_solution_package(stanza);
            let unversioned = fault_if(!entry.has_version, stanza.last, Kind::E12);
            let undeclared = extras.undeclared_fault(stanza);
            SaidOfStanza {
                fault: lesser(lesser(fault, unversioned), undeclared),
                id: entry.said.id(),
                installed: entry.said.installed_id(),
            }
        }
        Some(Postmark::Preamble | Postmark::Request) => SaidOfStanza {
            fault: misplaced_fault(DocumentKind::Solution, extras.mode, mark, stanza),
            id: None,
            installed: None,
        },
        None => SaidOfStanza {
            fault: fault_if(true, stanza.line, Kind::E4),
            id: None,
            installed: None,
        },
    }
}

/// What is known of the pairs after some stanzas: strictly all of them, leniently none.
#[derive(Drop)]
pub(crate) struct Pairs<'a> {
    pub(crate) mode: Mode,
    ids: PackageIds<'a>,
    /// The first fault of a stanza whose pair came before it.
    pub(crate) first: Option<Fault>,
}

impl<'a> Pairs<'a> {
    ghost use Rattle.std.specs.Prelude.{◌≡◌, List, [], ◌∷◌, ◌++◌, option_map, OnOk};
    ghost use Rattle.cudf_text.specs.Stanzas.{PlainStanza};
    ghost use Rattle.cudf_text.specs.Promises.Views.{stanza_view};
    ghost use Rattle.cudf_problem.specs.declared.problem.Mode.{Mode};
    ghost use Rattle.cudf_problem.specs.Ids.{id_of};
    ghost use Rattle.cudf_document.specs.Working.Pairs.{ArePairs};

    /// Before the first stanza.
    pub(crate) fn new(alloc: Global, mode: Mode) -> Self
        ensures { ArePairs mode [] result }
    {
        Pairs {
            mode,
            ids: PackageIds::new(alloc),
            first: None,
        }
    }

    /// Takes the name and the version of the next stanza, where it is a package with both. Leniently
    /// nothing is kept of them.
    pub(crate) fn take(
        &mut self,
        id: Option<(&'a str, u64)>,
        stanza: &StanzaRef<'a>,
    ) -> Result<(), AllocError>
        ensures { (mode : Mode) →
            (seen : List PlainStanza) →
            option_map (λ i. (i.0.now, i.1)) id.entry ≡ id_of (stanza_view stanza.now) →
            ArePairs mode seen self.old →
            OnOk result (ArePairs mode (seen ++ stanza_view stanza.now ∷ []) self.new) }
    {
        match self.mode {
            Mode::Lenient => Ok(()),
            Mode::Strict => {
                let is_repeated = self.ids.insert_repeated(id)?;
                let fault = pair_fault(is_repeated, stanza);
                keep_lesser(&mut self.first, fault);
                Ok(())
            }
        }
    }
}

/// The fault of a stanza whose pair is repeated, on the line of its first `version`.
fn pair_fault(is_repeated: bool, stanza: &StanzaRef<'_>) -> Option<Fault>
    ensures { result
        ≡ least (fault_if is_repeated (line_of (version_property (stanza_view stanza.now))) E15) }
{
    match first_property_named(stanza, "version") {
        Some(version) => fault_if(is_repeated, version.line, Kind::E15),
        None => fault_if(is_repeated, 0, Kind::E15),
    }
}

//! The walk over a problem's stanzas, one at a time: their first fault, and what is kept of them.
ghost use Rattle.std.specs.Prelude.{◌≡◌, Bool, not, ◌||◌, ◌&&◌, List, [], ◌∷◌, ◌++◌, Some, None, false, max, is_none, unwrap_or, IfOk, OnOk};
ghost use Rattle.cudf_text.specs.Stanzas.{PlainStanza};
ghost use Rattle.cudf_text.specs.Promises.Views.{stanza_view};
ghost use Rattle.cudf_text.specs.declared.fault.Kind.TheVariants.{E11, E12};
ghost use Rattle.cudf_problem.specs.Preamble.{declared};
ghost use Rattle.cudf_problem.specs.Documents.{postmark, marks};
ghost use Rattle.cudf_problem.specs.declared.problem.Postmark.TheVariants.{Preamble as PreambleMark, Package as PackageMark, Request as RequestMark};
ghost use Rattle.cudf_document.specs.Faults.{least, fault_if};
ghost use Rattle.cudf_document.specs.Working.Judging.{properties_faults, placed_faults};
ghost use Rattle.cudf_document.specs.Working.Identities.{IsIdentity};
ghost use Rattle.cudf_document.specs.Working.SeenNames.{AreNames};
ghost use Rattle.cudf_document.specs.Working.Kept.{AreParts};
ghost use Rattle.cudf_document.specs.Working.Walks.{texts, IsSoFar, IsWhole};

use crate::declarations::{Declarations, lacks_one, read_preamble, require};
use crate::fault::{fault_if, keep_lesser, lesser};
use crate::names::{DocumentKind, SeenNames, is_preamble, misplaced_fault, postmark_of};
use crate::package::Identity;
use crate::problem::keeping::{Names, ProblemBuilder};
use cudf_problem::{Mode, PackageIds, Postmark};
use cudf_text::{Fault, Kind, Next, StanzaRef, Stanzas};
use std::alloc::{AllocError, Global};

/// Walks over all stanzas, and keeps the packages if it is asked to, with copies of their names where there is room.
pub(crate) fn walk_all<'t>(
    alloc: Global,
    stanzas: Stanzas<'t>,
    keeps: bool,
    names: Option<Names<'t>>,
    mode: Mode,
) -> Result<(ProblemState<'t>, ProblemBuilder<'t>), AllocError>
    ensures { IfOk result (λ w. IsWhole mode (λ ss. AreParts keeps ss w.1) w.0 stanzas.entry) }
{
    let mut kept = ProblemBuilder::new(alloc, keeps, names);
    let mut walk: ProblemState<'t> = ProblemState::new(alloc);
    take_stanzas(alloc, stanzas, &mut walk, &mut kept, mode)?;
    Ok((walk, kept))
}

/// Takes all stanzas, and the end of the text.
fn take_stanzas<'t>(
    alloc: Global,
    stanzas: Stanzas<'t>,
    walk: &mut ProblemState<'t>,
    kept: &mut ProblemBuilder<'t>,
    mode: Mode,
) -> Result<(), AllocError>
    ensures { (keeps : Bool) →
        IsSoFar mode (λ ss. AreParts keeps ss kept.old) walk.old [] →
        OnOk result (IsWhole mode (λ ss. AreParts keeps ss kept.new) walk.new stanzas.entry) }
{
    let mut stanzas = stanzas;
    let mut required: Vec<&'t str> = Vec::new(alloc);
    let mut is_first = true;
    let mut stanza = StanzaRef {
        line: 0,
        last: 0,
        properties: Vec::new(alloc),
    };
    'stanzas: loop { // for the prover
        match stanzas.next(alloc, &mut stanza.properties)? {
            Next::Stanza { line, last } => {
                stanza.line = line;
                stanza.last = last;
                let ahead = Ahead {
                    is_first,
                    required: &required,
                    mode,
                };
                walk.take(alloc, kept, &stanza, ahead)?;
                require(alloc, &mut required, is_first, &walk.declarations, mode)?;
                is_first = false;
            }
            Next::End { fault, lines } => {
                walk.end(fault, lines);
                return Ok(());
            }
        }
    }
}

/// What is known of a stanza before it is read.
#[derive(Clone, Copy)]
pub(crate) struct Ahead<'r, 't> {
    /// Whether it is the first one.
    pub(crate) is_first: bool,
    /// The properties that it needs if it is a package.
    pub(crate) required: &'r [&'t str],
    pub(crate) mode: Mode,
}

/// The first fault of the stanzas so far, and what the faults of later ones rest on.
#[derive(Drop)]
pub(crate) struct ProblemState<'a> {
    pub(crate) first: Option<Fault>,
    /// What the first stanza declares.
    pub(crate) declarations: Declarations<'a>,
    pub(crate) ids: PackageIds<'a>,
    /// Whether there was a request.
    pub(crate) requested: bool,
    pub(crate) names: SeenNames<'a>,
}

impl<'a> ProblemState<'a> {
    ghost use Rattle.std.specs.Prelude.{◌≡◌, Bool, false, List, [], ◌∷◌, ◌++◌, None, not, max, IfOk, OnOk};
    ghost use Rattle.cudf_text.specs.Stanzas.{PlainStanza};
    ghost use Rattle.cudf_text.specs.Promises.Views.{stanza_view};
    ghost use Rattle.cudf_text.specs.declared.fault.Kind.TheVariants.{E13};
    ghost use Rattle.cudf_document.specs.Faults.{least, lesser, fault_if};
    ghost use Rattle.cudf_problem.specs.Ids.{Id};
    ghost use Rattle.cudf_document.specs.Working.Judging.{id_under};
    ghost use Rattle.cudf_problem.specs.Promises.Packages.{with_id};
    ghost use Rattle.cudf_document.specs.Working.ProblemBuilders.{package_faults};
    ghost use Rattle.cudf_document.specs.Working.Kept.{AreParts};
    ghost use Rattle.cudf_document.specs.Working.Walks.{texts, IsKnown, IsSoFar, judged_faults, judged_ids};
    ghost use Rattle.cudf_problem.specs.Documents.{is_empty, postmark};
    ghost use Rattle.cudf_problem.specs.Preamble.{declared, declared_after};
    ghost use Rattle.cudf_document.specs.ProblemFaults.{required_names, problem_misplaces, misplaced_faults};
    ghost use Rattle.cudf_document.specs.Working.Judging.{properties_faults};
    ghost use Rattle.cudf_problem.specs.declared.problem.Postmark.TheVariants.{Preamble as PreambleMark, Package as PackageMark};

    /// No stanza.
    pub(crate) fn new(alloc: Global) -> Self
        ensures known { (mode : Mode) → IsKnown mode result [] }
        ensures declared { result.declarations ≡ [] }
        ensures first { result.first ≡ None }
    {
        ProblemState {
            first: None,
            declarations: Declarations::new(alloc),
            ids: PackageIds::new(alloc),
            requested: false,
            names: SeenNames::new(alloc),
        }
    }

    /// Takes the next stanza.
    pub(crate) fn take(
        &mut self,
        alloc: Global,
        kept: &mut ProblemBuilder<'a>,
        stanza: &StanzaRef<'a>,
        ahead: Ahead<'_, '_>,
    ) -> Result<(), AllocError>
        ensures { (keeps : Bool) →
            (before : List PlainStanza) →
            ahead.entry.is_first ≡ is_empty before →
            texts ahead.entry.required.now ≡ required_names ahead.entry.mode (declared before) →
            IsSoFar ahead.entry.mode (λ ss. AreParts keeps ss kept.old) self.old before →
            OnOk result (IsSoFar ahead.entry.mode (λ ss. AreParts keeps ss kept.new) self.new (before ++ stanza_view stanza.now ∷ [])) }
    {
        if ahead.is_first {
            return self.take_first(alloc, kept, stanza, ahead.mode);
        }
        self.take_other(alloc, kept, stanza, ahead)
    }

    /// Takes the first stanza, with what it declares.
    fn take_first(
        &mut self,
        alloc: Global,
        kept: &mut ProblemBuilder<'a>,
        stanza: &StanzaRef<'a>,
        mode: Mode,
    ) -> Result<(), AllocError>
        ensures known { self.old.declarations ≡ [] →
            IsKnown mode self.old [] →
            OnOk result (IsKnown mode self.new (stanza_view stanza.now ∷ [])) }
        ensures declared { self.old.declarations ≡ [] →
            OnOk result (self.new.declarations ≡ declared (stanza_view stanza.now ∷ [])) }
        ensures first { OnOk result (self.new.first ≡ None → self.old.first ≡ None) }
        ensures kept { (keeps : Bool) →
            self.old.declarations ≡ [] →
            self.old.first ≡ None →
            AreParts keeps [] kept.old →
            OnOk result (AreParts keeps (stanza_view stanza.now ∷ []) kept.new) }
    {
        if is_preamble(stanza) {
            kept.pass(stanza);
            self.take_preamble(alloc, stanza, mode)
        } else {
            let ahead = Ahead {
                is_first: true,
                required: &[],
                mode,
            };
            self.take_other(alloc, kept, stanza, ahead)
        }
    }

    /// Takes a preamble that is first, with what it declares.
    fn take_preamble(
        &mut self,
        alloc: Global,
        head: &StanzaRef<'a>,
        mode: Mode,
    ) -> Result<(), AllocError>
        ensures first { OnOk result (self.new.first
            ≡ lesser self.old.first (lesser (least (properties_faults [] (Some PreambleMark) (stanza_view head.now).properties)) (least (misplaced_faults mode (problem_misplaces (Some PreambleMark)) (stanza_view head.now).properties)))) }
        ensures declarations { OnOk result (self.new.declarations
            ≡ declared_after [] (stanza_view head.now).properties) }
        ensures ids { OnOk result (self.new.ids ≡ self.old.ids) }
        ensures requested { OnOk result (self.new.requested ≡ self.old.requested) }
    {
        let mut names = SeenNames::new(alloc);
        let fault = read_preamble(alloc, &mut names, &mut self.declarations, head)?;
        let mark = Some(Postmark::Preamble);
        let misplaced = misplaced_fault(DocumentKind::Problem, mode, mark, head);
        keep_lesser(&mut self.first, lesser(fault, misplaced));
        Ok(())
    }

    /// Takes the next stanza; what it declares is left out.
    fn take_other(
        &mut self,
        alloc: Global,
        kept: &mut ProblemBuilder<'a>,
        stanza: &StanzaRef<'a>,
        ahead: Ahead<'_, '_>,
    ) -> Result<(), AllocError>
        ensures known { (before : List PlainStanza) →
            ahead.entry.is_first ≡ is_empty before →
            self.old.declarations ≡ declared before →
            texts ahead.entry.required.now ≡ required_names ahead.entry.mode (declared before) →
            IsKnown ahead.entry.mode self.old before →
            OnOk result (IsKnown ahead.entry.mode self.new (before ++ stanza_view stanza.now ∷ [])) }
        ensures declarations { OnOk result (self.new.declarations ≡ self.old.declarations) }
        ensures first { OnOk result (self.new.first ≡ None → self.old.first ≡ None) }
        ensures kept { (keeps : Bool) →
            (before : List PlainStanza) →
            self.old.declarations ≡ declared before →
            self.old.first ≡ None →
            AreParts keeps before kept.old →
            OnOk result (AreParts keeps (before ++ stanza_view stanza.now ∷ []) kept.new) }
    {
        let mark = postmark_of(stanza);
        let place = place_fault(ahead.is_first, self.requested, mark, stanza.line);
        let inside = self.judge(alloc, kept, mark, stanza, ahead.required)?;
        let misplaced = misplaced_fault(DocumentKind::Problem, ahead.mode, mark, stanza);
        keep_lesser(&mut self.first, place.or(lesser(inside, misplaced)));
        self.requested = either(is_request(mark), self.requested);
        Ok(())
    }

    /// The first fault inside a stanza; a package's name and version are added.
    fn judge(
        &mut self,
        alloc: Global,
        kept: &mut ProblemBuilder<'a>,
        mark: Option<Postmark>,
        stanza: &StanzaRef<'a>,
        required: &[&str],
    ) -> Result<Option<Fault>, AllocError>
        ensures fault { IfOk result (λ fault.
            fault ≡ least (judged_faults mark (texts required.now) self.old.declarations self.old.ids (stanza_view stanza.now))) }
        ensures ids { OnOk result (self.new.ids ≡ judged_ids mark self.old.ids (stanza_view stanza.now)) }
        ensures declarations { OnOk result (self.new.declarations ≡ self.old.declarations) }
        ensures requested { OnOk result (self.new.requested ≡ self.old.requested) }
        ensures first { OnOk result (self.new.first ≡ self.old.first) }
        ensures kept { (keeps : Bool) →
            (before : List PlainStanza) →
            postmark (stanza_view stanza.now) ≡ mark →
            self.old.declarations ≡ declared before →
            self.old.first ≡ None →
            AreParts keeps before kept.old →
            OnOk result (AreParts keeps (before ++ stanza_view stanza.now ∷ []) kept.new) }
    {
        match mark {
            Some(Postmark::Preamble) => {
                kept.pass(stanza);
                judge_preamble(alloc, stanza)
            }
            Some(Postmark::Package) => self.take_package(alloc, kept, stanza, required),
            Some(Postmark::Request) => kept.take_request(alloc, &mut self.names, stanza),
            None => {
                kept.pass(stanza);
                Ok(None)
            }
        }
    }

    /// Adds the name and version of a package, and answers the first fault inside it.
    fn take_package(
        &mut self,
        alloc: Global,
        kept: &mut ProblemBuilder<'a>,
        stanza: &StanzaRef<'a>,
        required: &[&str],
    ) -> Result<Option<Fault>, AllocError>
        ensures fault { IfOk result (λ fault.
            fault ≡ least (package_faults (texts required.now) self.old.declarations self.old.ids (stanza_view stanza.now))) }
        ensures ids { OnOk result (self.new.ids
            ≡ with_id self.old.ids (id_under (Some PackageMark) (stanza_view stanza.now).properties)) }
        ensures declarations { OnOk result (self.new.declarations ≡ self.old.declarations) }
        ensures requested { OnOk result (self.new.requested ≡ self.old.requested) }
        ensures first { OnOk result (self.new.first ≡ self.old.first) }
        ensures kept { (keeps : Bool) →
            (before : List PlainStanza) →
            postmark (stanza_view stanza.now) ≡ Some PackageMark →
            self.old.declarations ≡ declared before →
            self.old.first ≡ None →
            AreParts keeps before kept.old →
            OnOk result (AreParts keeps (before ++ stanza_view stanza.now ∷ []) kept.new) }
    {
        let identity = kept.named(alloc, Identity::of(stanza))?;
        let fault = kept.take_package(
            alloc,
            &mut self.names,
            &self.declarations,
            identity,
            stanza,
        )?;
        let is_repeated = self.ids.insert_repeated(identity.id())?;
        let missing = fault_if(lacks_one(required, &self.names), stanza.last, Kind::E14);
        let fault = lesser(
            fault,
            package_fault(is_repeated, identity.version_line, stanza.last),
        );
        Ok(lesser(missing, fault))
    }

    /// Takes the end of the text, with its first faulty line and the number of its lines.
    pub(crate) fn end(&mut self, fault: Option<Fault>, lines: u64)
        ensures first { self.new.first
            ≡ lesser (lesser fault self.old.first) (least (fault_if (not self.old.requested) (max 1 lines) E13)) }
        ensures declarations { self.new.declarations ≡ self.old.declarations }
        ensures ids { self.new.ids ≡ self.old.ids }
    {
        let requestless = fault_if(!self.requested, at_least_one(lines), Kind::E13);
        self.first = lesser(lesser(fault, self.first), requestless);
    }
}

/// The first fault of a package's name and version: it is repeated, or has no version.
fn package_fault(is_repeated: bool, version_line: Option<u64>, last: u64) -> Option<Fault>
    ensures { result
        ≡ least (fault_if is_repeated (unwrap_or version_line 0) E11 ++ fault_if (is_none version_line) last E12) }
{
    let repeated = fault_if(is_repeated, version_line.unwrap_or(0), Kind::E11);
    lesser(repeated, fault_if(version_line.is_none(), last, Kind::E12))
}

/// The first fault of where a stanza is.
fn place_fault(is_first: bool, is_late: bool, mark: Option<Postmark>, line: u64) -> Option<Fault>
    ensures { result ≡ least (placed_faults is_first is_late mark line) }
{
    let unmarked = fault_if(mark.is_none(), line, Kind::E4);
    let late_preamble = fault_if(is_late_preamble(is_first, mark), line, Kind::E5);
    let late = fault_if(is_late, line, Kind::E6);
    lesser(lesser(unmarked, late_preamble), late)
}

fn is_late_preamble(is_first: bool, mark: Option<Postmark>) -> bool
    ensures { result ≡ (marks PreambleMark mark && not is_first) }
{
    matches!(mark, Some(Postmark::Preamble)) && !is_first
}

/// The first fault of the properties of a preamble.
fn judge_preamble(alloc: Global, stanza: &StanzaRef<'_>) -> Result<Option<Fault>, AllocError>
    ensures { IfOk result (λ fault.
        fault ≡ least (properties_faults [] (Some PreambleMark) (stanza_view stanza.now).properties)) }
{
    let mut names = SeenNames::new(alloc);
    let mut spare = Declarations::new(alloc);
    read_preamble(alloc, &mut names, &mut spare, stanza)
}

fn is_request(mark: Option<Postmark>) -> bool
    ensures { result ≡ marks RequestMark mark }
{
    matches!(mark, Some(Postmark::Request))
}

// for the prover, as the next one: a branch in the caller would double its goals
/// A function for the prover: a branch in the caller would double its goals.
fn either(one: bool, other: bool) -> bool
    ensures { result ≡ (one || other) }
{
    one || other
}

/// A function for the prover: a branch in the caller would double its goals.
fn at_least_one(lines: u64) -> u64
    ensures { result ≡ max 1 lines }
{
    lines.max(1)
}

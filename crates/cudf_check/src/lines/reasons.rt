//! Prints what comes of a proof: the line of its first fault, or the instances of which no status keeps all.
ghost use Rattle.std.specs.Prelude.{◌≡◌, ◌≤◌, ◌<◌, ◌++◌, All, IfOk, IsTrue, Some, codes, length, map, option_map, decimal};
ghost use Rattle.std.specs.List.{flat_map};
ghost use Rattle.cudf_problem.specs.Promises.Views.{package_view};
ghost use Rattle.cudf_problem.specs.Universe.{package_at};
ghost use Rattle.cudf_device.specs.declared.outcome.Outcome.TheVariants.{Yes};
ghost use Rattle.cudf_device.specs.Promises.PaperInside.{Prints, Says};
ghost use Rattle.cudf_lrat.specs.Kinds.{kind_text};
ghost use Rattle.cudf_lrat.specs.Details.{detail_view};
ghost use Rattle.cudf_job.specs.Keys.{never_descend};
ghost use Rattle.cudf_cnf.specs.Cnf.{cnf};
ghost use Rattle.cudf_cnf.specs.Encodings.{IsEncoded};
ghost use Rattle.cudf_reasons.specs.Laws.{keys_of};
ghost use Rattle.cudf_reasons.specs.Reasons.{reasons_of};
ghost use Rattle.cudf_reasons.specs.Views.{needed_view, told_as};
ghost use Rattle.cudf_check.specs.Report.{also_text, core_text, line, met_texts, needed, refute_answer, told_line};
ghost use Rattle.cudf_check.specs.Working.Named.{proof_style, reason_style};
ghost use Rattle.cudf_check.specs.ProofDetails.{detail_text, proof_added, text_added};
ghost use Rattle.cudf_check.specs.Working.ProofNote.{said_text};

use crate::lines::detail::{format_text, print_line_text};
use crate::lines::explanation::print_help_alone;
use crate::lines::instance::{package_at, print_instance, print_meeting};
use cudf_cnf::laws::ordered;
use cudf_cnf::{KeyedClauses, encode_rules};
use cudf_device::{Outcome, Paper, Sink};
use cudf_document::{Format, Package, Problem, format_of};
use cudf_lrat::laws::refuted;
use cudf_lrat::{Answer, Cnf, ProofDetail, ProofFault, check, fault_detail};
use cudf_reasons::{NeededClause, Reasons, order_reasons};
use cudf_referee::{Instance, InstanceFinder, Key, Remedies};
use std::alloc::{AllocError, Global};
use std::marker::Model;

/// Prints another package that meets an entry, if there is one.
fn print_also<W: Sink>(paper: &mut Paper<'_, W>, met: Option<&Package<'_>>)
    ensures { Says W.state paper.old paper.new (also_text (option_map (λ p. package_view p.now) met.entry)) }
{
    if let Some(package) = met {
        paper.text(", ");
        paper.text(package.name);
        paper.text(" ");
        paper.number(package.version);
    }
}

/// Prints the packages at these places, after the first one.
fn print_others<W: Sink>(paper: &mut Paper<'_, W>, problem: &Problem<'_>, places: &[u32])
    ensures { Says W.state paper.old paper.new (flat_map (λ place. also_text (package_at problem.now place)) places.now) }
{
    let packages = problem.packages();
    for place in places {
        print_also(paper, package_at(packages, Some(u64::from(*place))));
    }
}

/// Prints the packages at these places, by which an instance is met.
fn print_met<W: Sink>(paper: &mut Paper<'_, W>, problem: &Problem<'_>, places: &[u32])
    ensures { Says W.state paper.old paper.new (met_texts problem.now places.now) }
{
    if let Some((first, others)) = places.split_first() {
        print_meeting(
            paper,
            package_at(problem.packages(), Some(u64::from(*first))),
        );
        print_others(paper, problem, others);
    }
}

/// The problem whose instances are printed, with its remedies, where lines are explained. Contracts see the problem, and
/// whether they are.
#[derive(Drop)]
struct ReasonScribe<'p, 't> {
    problem: &'p Problem<'t>,
    remedies: Option<Remedies<'p, 't>>,
}

impl<'p, 't> Model for ReasonScribe<'p, 't> {
    ghost use Rattle.std.specs.Prelude.{◌≡◌, is_some, IfSome};
    ghost use Rattle.cudf_check.specs.Working.Scribes.{ReasonWording};

    ghost Value = { ReasonWording };

    ghost view = { λ s. record { problem = s.problem.now; explain = is_some s.remedies } };

    ghost invariant = { λ s. IfSome s.remedies (λ r. r ≡ s.problem.now) };
}

impl<'p, 't> ReasonScribe<'p, 't> {
    ghost use Rattle.std.specs.Prelude.{◌≡◌, ◌++◌, None, IfOk, codes};
    ghost use Rattle.std.specs.List.{flat_map};
    ghost use Rattle.cudf_job.specs.KeyViews.{key_view};
    ghost use Rattle.cudf_referee.specs.Promises.Views.{instance_view};
    ghost use Rattle.cudf_check.specs.Explanations.{reason_added};
    ghost use Rattle.cudf_check.specs.Report.{line, reason_line, told_line};
    ghost use Rattle.cudf_check.specs.Working.Named.{reason_style};
    ghost use Rattle.cudf_device.specs.Promises.PaperInside.{Says};

    /// The scribe of a problem. Memory for what is added to lines is taken here.
    fn new(alloc: Global, problem: &'p Problem<'t>, explain: bool) -> Result<Self, AllocError>
        ensures { IfOk result (λ s. s ≡ record { problem = problem.entry.now; explain = explain }) }
    {
        if !explain {
            return Ok(ReasonScribe {
                problem,
                remedies: None,
            });
        }
        let remedies = Remedies::new(alloc, problem)?;
        Ok(ReasonScribe {
            problem,
            remedies: Some(remedies),
        })
    }

    /// Prints the lines of the needed instances, and that there is no solution.
    fn print_core<W: Sink>(&self, paper: &mut Paper<'_, W>, reasons: &Reasons)
        ensures { Says W.state paper.old paper.new (flat_map (told_line (reason_style self.now.explain) self.now.problem) reasons.now ++ line (codes "no solution exists")) }
    {
        self.print_reasons(paper, reasons);
        paper.text("no solution exists\n");
    }

    /// Prints the lines of the needed instances.
    fn print_reasons<W: Sink>(&self, paper: &mut Paper<'_, W>, reasons: &Reasons)
        ensures { Says W.state paper.old paper.new (flat_map (told_line (reason_style self.now.explain) self.now.problem) reasons.now) }
    {
        let mut finder = InstanceFinder::new(self.problem);
        for index in 0..reasons.len() {
            self.print_reason(paper, &mut finder, reasons.key(index), reasons.met(index));
        }
    }

    /// Prints the line of a needed instance.
    fn print_reason<W: Sink>(
        &self,
        paper: &mut Paper<'_, W>,
        finder: &mut InstanceFinder<'_, '_>,
        key: Key,
        met: &[u32],
    )
        requires { finder.old ≡ self.now.problem }
        ensures told { Says W.state paper.old paper.new (told_line (reason_style self.now.explain) self.now.problem (key_view key, met.now)) }
        ensures finder { finder.new ≡ finder.old }
    {
        match finder.find(key) {
            Some(instance) => self.print_line(paper, &instance, met),
            None => {}
        }
    }

    /// Prints the line of an instance that is met by the packages at these places.
    fn print_line<W: Sink>(&self, paper: &mut Paper<'_, W>, instance: &Instance<'_>, met: &[u32])
        ensures { Says W.state paper.old paper.new (reason_line (reason_style self.now.explain) self.now.problem (instance_view instance.now, met.now)) }
    {
        print_instance(paper, None, instance, None);
        print_met(paper, self.problem, met);
        self.print_added(paper, instance);
        paper.text("\n");
    }

    /// Prints what the problem says beside an instance, where lines are explained.
    fn print_added<W: Sink>(&self, paper: &mut Paper<'_, W>, instance: &Instance<'_>)
        ensures { Says W.state paper.old paper.new (reason_added self.now.explain self.now.problem (instance_view instance.now)) }
    {
        if let Some(remedies) = &self.remedies {
            print_help_alone(paper, remedies, instance);
        }
    }
}

/// The clauses of these numbers, from 1.
fn needed_of<'c>(
    alloc: Global,
    clauses: &'c KeyedClauses,
    numbers: &[u32],
) -> Result<Vec<NeededClause<'c>>, AllocError>
    requires { All (λ n. (0 < n) × (n ≤ length clauses.now.clauses)) numbers.now }
    ensures { IfOk result (λ found. map needed_view found.items ≡ needed clauses.now.clauses numbers.now) }
{
    let mut found = Vec::new(alloc);
    for number in numbers {
        let index = *number as usize - 1;
        found.push(NeededClause {
            key: clauses.key(index),
            literals: clauses.clause(index),
        })?;
    }
    Ok(found)
}

/// The instances whose clauses have these numbers, in the order in which they are printed.
fn reasons_of(alloc: Global, clauses: &KeyedClauses, numbers: &[u32]) -> Result<Reasons, AllocError>
    requires within { All (λ n. (0 < n) × (n ≤ length clauses.now.clauses)) numbers.now }
    requires ordered { IsTrue (never_descend (keys_of (needed clauses.now.clauses numbers.now))) }
    ensures { IfOk result (λ reasons. reasons ≡ map told_as (reasons_of (needed clauses.now.clauses numbers.now))) }
{
    let needed = needed_of(alloc, clauses, numbers)?;
    order_reasons(alloc, &needed)
}

/// Prints the instances whose clauses have these numbers, of which no status keeps all.
fn print_core<W: Sink>(
    paper: &mut Paper<'_, W>,
    alloc: Global,
    problem: &Problem<'_>,
    clauses: &KeyedClauses,
    numbers: &[u32],
    explain: bool,
) -> Result<Outcome, AllocError>
    requires clauses { clauses.now.clauses ≡ cnf problem.now }
    requires within { All (λ n. (0 < n) × (n ≤ length clauses.now.clauses)) numbers.now }
    requires ordered { IsTrue (never_descend (keys_of (needed clauses.now.clauses numbers.now))) }
    ensures { Prints W.state paper.old paper.new (record { text = core_text (reason_style explain) problem.now numbers.now; outcome = Yes }) result }
{
    let reasons = reasons_of(alloc, clauses, numbers)?;
    print_reasons(paper, alloc, problem, &reasons, explain)
}

/// Prints these instances, of which no status keeps all.
fn print_reasons<W: Sink>(
    paper: &mut Paper<'_, W>,
    alloc: Global,
    problem: &Problem<'_>,
    reasons: &Reasons,
    explain: bool,
) -> Result<Outcome, AllocError>
    ensures { Prints W.state paper.old paper.new (record { text = flat_map (told_line (reason_style explain) problem.now) reasons.now ++ line (codes "no solution exists"); outcome = Yes }) result }
{
    let scribe = ReasonScribe::new(alloc, problem, explain)?;
    scribe.print_core(paper, reasons);
    Ok(Outcome::Yes)
}

/// Checks a proof that a problem has no solution, and prints what comes of it.
pub(crate) fn report_refutation<W: Sink>(
    paper: &mut Paper<'_, W>,
    alloc: Global,
    problem: &Problem<'_>,
    proof: &[u8],
    explain: bool,
) -> Result<Outcome, AllocError>
    ensures { Prints W.state paper.old paper.new (refute_answer (proof_style explain proof.now) proof.now problem.now) result }
{
    match encode_rules(alloc, problem) {
        Ok(Some(clauses)) => check_refutation(paper, alloc, problem, &clauses, proof, explain),
        Ok(None) => Ok(Outcome::TooLarge),
        Err(error) => Err(error),
    }
}

/// Checks a proof against these clauses, those of the problem's CNF, and prints its first error, or the instances of its
/// core.
fn check_refutation<W: Sink>(
    paper: &mut Paper<'_, W>,
    alloc: Global,
    problem: &Problem<'_>,
    clauses: &KeyedClauses,
    proof: &[u8],
    explain: bool,
) -> Result<Outcome, AllocError>
    requires { IsEncoded problem.now (Some clauses.now) }
    ensures { Prints W.state paper.old paper.new (refute_answer (proof_style explain proof.now) proof.now problem.now) result }
{
    refuted();
    ordered();
    let cnf = clauses.cnf();
    match check(alloc, cnf, proof) {
        Ok(Answer::Faulty { line, kind }) => {
            let said = proof_note(alloc, cnf, proof, line, kind, explain)?;
            print_step_fault(paper, line, kind, said);
            Ok(Outcome::No)
        }
        Ok(Answer::Refuted(numbers)) => print_core(
            paper, alloc, problem, clauses, &numbers, explain,
        ),
        Err(error) => Err(error),
    }
}

/// What is said beside a proof's first fault.
#[derive(Clone, Copy)]
pub(crate) enum ProofNote<'p> {
    /// The format of which a file begins as the proof does.
    OfFormat(Format),
    OfLine(ProofDetail<'p>),
}

/// What is said beside the fault of this kind on a line of a proof, where lines are explained.
#[tactic(auto, unfolding(crate::specs::ProofDetails::proof_explained))]
pub(crate) fn proof_note<'p>(
    alloc: Global,
    cnf: &Cnf,
    proof: &'p [u8],
    number: u64,
    kind: ProofFault,
    explain: bool,
) -> Result<Option<ProofNote<'p>>, AllocError>
    ensures { IfOk result (λ said. text_added (option_map said_text said) ≡ proof_added explain proof.now (length cnf.now.clauses) number kind) }
{
    if !explain {
        return Ok(None);
    }
    match format_of(proof) {
        Some(format) => Ok(Some(ProofNote::OfFormat(format))),
        None => match fault_detail(alloc, cnf, proof, number, kind)? {
            Some(detail) => Ok(Some(ProofNote::OfLine(detail))),
            None => Ok(None),
        },
    }
}

/// Prints how many clauses a CNF has.
fn print_clause_count<W: Sink>(paper: &mut Paper<'_, W>, clauses: u32)
    ensures { Says W.state paper.old paper.new (codes "the CNF has " ++ decimal clauses ++ codes " clauses") }
{
    paper.text("the CNF has ");
    paper.number(u64::from(clauses));
    paper.text(" clauses");
}

/// Prints what the proof's lines say.
fn print_detail<W: Sink>(paper: &mut Paper<'_, W>, detail: ProofDetail<'_>)
    ensures { Says W.state paper.old paper.new (detail_text (detail_view detail.entry)) }
{
    match detail {
        ProofDetail::Binary => paper.text("it is a binary proof"),
        ProofDetail::NoHints => paper.text("a step has a number and hints"),
        ProofDetail::LineText { text } => print_line_text(paper, text),
        ProofDetail::ClauseCount { clauses } => print_clause_count(paper, clauses),
    }
}

/// Prints what is said beside a fault.
fn print_said<W: Sink>(paper: &mut Paper<'_, W>, said: ProofNote<'_>)
    ensures { Says W.state paper.old paper.new (said_text said.entry) }
{
    match said {
        ProofNote::OfFormat(format) => paper.text(format_text(format)),
        ProofNote::OfLine(detail) => print_detail(paper, detail),
    }
}

/// Prints what is added to the line of a fault.
fn print_added<W: Sink>(paper: &mut Paper<'_, W>, said: Option<ProofNote<'_>>)
    ensures { Says W.state paper.old paper.new (text_added (option_map said_text said.entry)) }
{
    if let Some(said) = said {
        paper.text("; ");
        print_said(paper, said);
    }
}

/// Prints the line of a proof's first fault, with what is said beside it.
pub(crate) fn print_step_fault<W: Sink>(
    paper: &mut Paper<'_, W>,
    number: u64,
    kind: ProofFault,
    said: Option<ProofNote<'_>>,
)
    ensures { Says W.state paper.old paper.new (line (codes "proof line " ++ decimal number ++ codes ": " ++ kind_text kind ++ text_added (option_map said_text said.entry))) }
{
    paper.text("proof line ");
    paper.number(number);
    paper.text(": ");
    paper.text(kind.text());
    print_added(paper, said);
    paper.text("\n");
}

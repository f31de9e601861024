//! Decides which report the inputs have.
ghost use Rattle.std.specs.Prelude.{◌≡◌, ℕ, Bool, false, IfOk, List, None, Option, codes, map, option_map, if◌then◌else◌};
ghost use Rattle.cudf_text.specs.Joined.{is_fail, problem_part, solution_part};
ghost use Rattle.cudf_text.specs.declared.fault.Fault.{Fault};
ghost use Rattle.cudf_problem.specs.declared.problem.Mode.{Mode};
ghost use Rattle.cudf_document.specs.Promises.Views.{detail_view};
ghost use Rattle.cudf_device.specs.declared.outcome.Outcome.TheVariants.{Fail, Yes};
ghost use Rattle.cudf_device.specs.Outcomes.{Report};
ghost use Rattle.cudf_device.specs.Promises.Answering.{Answers};
ghost use Rattle.cudf_device.specs.Promises.PaperInside.{Prints};
ghost use Rattle.cudf_referee.specs.Proposals.{Proposal};
ghost use Rattle.cudf_check.specs.JobStyles.{detail_if, document_style, explains, inputs_style, pair_style, refutation_style};
ghost use Rattle.cudf_check.specs.Naming.{one_file, own_file};
ghost use Rattle.cudf_check.specs.Report.{alone, cnf_answer, problem_fault, problem_report, refute_answer, solution_fault, solution_report};
ghost use Rattle.cudf_check.specs.JobReport.{inputs_report, report};
ghost use Rattle.cudf_check.specs.Styles.{Style, of_problem, of_solution};
ghost use Rattle.cudf_check.specs.Working.Found.{found_text, pair_report};
ghost use Rattle.cudf_check.specs.Working.Named.{given_names, names_given, origin_view, origins_view, style_for};
ghost use Rattle.cudf_check.specs.Working.Unjudged.{IsFaultOf, IsUnjudged, faulty_or};

use crate::judging::{Question, print_better_report, print_rank_report};
use crate::lines::{judge_solution, print_cnf, print_faulty, report_refutation};
use crate::naming::{NamedInput, Origin, Origins, OtherInputs, file_behind, own_file};
use crate::readings::{Unjudged, check_problem, parse_problem, parse_proposed};
use cudf_device::{Outcome, Paper, ReportBuffer, RunError, Sink, Source};
use cudf_document::{Detail, Mode, NameRoom, Problem, ReadError, detail, solution_of};
use cudf_job::Job;
use cudf_text::{Fault, Room, cut_joined};
use std::alloc::{AllocError, Global};

/// A document whose faults are reported.
#[derive(Clone, Copy)]
pub(crate) struct Document<'t, 'n> {
    /// Whose a fault of it is, in reports.
    pub(crate) whose: &'static str,
    /// Its file, where lines name it.
    pub(crate) origin: Option<Origin<'n>>,
    pub(crate) bytes: &'t [u8],
    /// Whether it is reported what the document says beside the fault.
    pub(crate) explain: bool,
}

/// What a document says beside its fault, where that is reported.
fn document_detail<'t>(
    alloc: Global,
    document: Document<'t, '_>,
    room: &'t mut Room,
    fault: Fault,
) -> Result<Option<Detail<'t>>, AllocError>
    ensures { IfOk result (λ detail. option_map detail_view detail ≡ detail_if document.entry.explain document.entry.bytes.now fault) }
{
    if !document.explain {
        return Ok(None);
    }
    detail(alloc, document.bytes, room, fault)
}

/// Prints which fault a document has that isn't judged.
pub(crate) fn print_unread<W: Sink>(
    paper: &mut Paper<'_, W>,
    alloc: Global,
    document: Document<'_, '_>,
    error: ReadError,
) -> Result<Outcome, AllocError>
    ensures { (fault : Option Fault) → (report : Report) → IsFaultOf fault error
        → Prints W.state paper.old paper.new (faulty_or (style_for document.entry) of_problem document.entry.whose.now fault report) result }
{
    match error {
        ReadError::Fault(fault) => {
            let mut room = Room::new(alloc);
            match document_detail(alloc, document, &mut room, fault) {
                Ok(detail) => {
                    print_faulty(paper, document, fault, detail);
                    Ok(Outcome::Faulty)
                }
                Err(error) => Err(error),
            }
        }
        ReadError::Memory(error) => Err(error),
    }
}

/// Prints which fault a problem has.
pub(crate) fn print_unsound<W: Sink>(
    paper: &mut Paper<'_, W>,
    setting: Setting,
    origin: Option<Origin<'_>>,
    bytes: &[u8],
    explain: bool,
    error: ReadError,
) -> Result<Outcome, AllocError>
    requires { IsFaultOf (problem_fault setting.mode bytes.now) error }
    ensures { (report : Report) → Prints W.state paper.old paper.new
        (faulty_or (document_style explain (option_map origin_view origin.entry) bytes.now) of_problem (codes "problem") (problem_fault setting.mode bytes.now) report) result }
{
    let problem = Document {
        whose: "problem",
        origin,
        bytes,
        explain,
    };
    print_unread(paper, setting.alloc, problem, error)
}

/// Prints why a solution isn't judged.
fn print_unjudged<W: Sink>(
    paper: &mut Paper<'_, W>,
    setting: Setting,
    solution: Document<'_, '_>,
    reason: Unjudged,
) -> Result<Outcome, AllocError>
    ensures { (names : List (List ℕ)) → (report : Report) → IsUnjudged setting.mode names solution.entry.bytes.now reason
        → Prints W.state paper.old paper.new (faulty_or (style_for solution.entry) of_solution solution.entry.whose.now (solution_fault setting.mode names solution.entry.bytes.now)
        (if is_fail solution.entry.bytes.now then alone (codes "solution FAIL") Fail else report)) result }
{
    match reason {
        Unjudged::SaysFail => {
            paper.text("solution FAIL\n");
            Ok(Outcome::Fail)
        }
        Unjudged::Unread(error) => print_unread(paper, setting.alloc, solution, error),
    }
}

/// Judges a solution of a problem.
fn judge_pair<W: Sink>(
    paper: &mut Paper<'_, W>,
    setting: Setting,
    job: &Job,
    inputs: Inputs<'_>,
) -> Result<Outcome, AllocError>
    ensures { let style = pair_style (explains job.now) (origins_view inputs.entry.origins) inputs.entry.problem.now inputs.entry.solution.now in
        Prints W.state paper.old paper.new (pair_report style setting.mode (found_text job.now style) inputs.entry.problem.now inputs.entry.solution.now) result }
{
    let mut room = Room::new(setting.alloc);
    let mut names = NameRoom::new(setting.alloc);
    match parse_problem(setting, inputs.problem, &mut room, &mut names) {
        Ok(problem) => judge_proposed(paper, setting, job, inputs, &problem),
        Err(error) => {
            let origin = inputs.origins.problem;
            print_unsound(paper, setting, origin, inputs.problem, explains(job), error)
        }
    }
}

/// Judges a solution of a problem that has no fault, and prints its report, that it says FAIL, or its first fault.
fn judge_proposed<W: Sink>(
    paper: &mut Paper<'_, W>,
    setting: Setting,
    job: &Job,
    inputs: Inputs<'_>,
    problem: &Problem<'_>,
) -> Result<Outcome, AllocError>
    ensures { let style = pair_style (explains job.now) (origins_view inputs.entry.origins) inputs.entry.problem.now inputs.entry.solution.now in
        Prints W.state paper.old paper.new (solution_report style setting.mode (found_text job.now style) problem.now inputs.entry.solution.now) result }
{
    let alloc = setting.alloc;
    let document = Document {
        whose: "solution",
        origin: inputs.origins.solution,
        bytes: inputs.solution,
        explain: explains(job),
    };
    let mut room = Room::new(alloc);
    match parse_proposed(setting, document.bytes, &mut room, problem) {
        Ok(proposed) => {
            let solution = solution_of(alloc, proposed, problem)?;
            judge_solution(paper, alloc, job, inputs, problem, &solution)
        }
        Err(reason) => print_unjudged(paper, setting, document, reason),
    }
}

/// Says that a problem has no fault, or which one is its first.
fn lint_problem<W: Sink>(
    paper: &mut Paper<'_, W>,
    setting: Setting,
    problem: NamedInput<'_, '_>,
    explain: bool,
) -> Result<Outcome, AllocError>
    ensures { Prints W.state paper.old paper.new (faulty_or (document_style explain (own_file (option_map (λ n. n.now) problem.entry.name)) problem.entry.bytes.now) of_problem (codes "problem")
        (problem_fault setting.mode problem.entry.bytes.now) (alone (codes "problem ok") Yes)) result }
{
    match check_problem(setting, problem.bytes) {
        Ok(()) => {
            paper.text("problem ok\n");
            Ok(Outcome::Yes)
        }
        Err(error) => {
            let origin = own_file(problem.name);
            print_unsound(paper, setting, origin, problem.bytes, explain, error)
        }
    }
}

/// Prints the CNF of a problem, or says which fault of it is the first.
fn print_encoded<W: Sink>(
    paper: &mut Paper<'_, W>,
    setting: Setting,
    bytes: &[u8],
) -> Result<Outcome, AllocError>
    ensures { Prints W.state paper.old paper.new (problem_report (document_style false None bytes.now) setting.mode bytes.now cnf_answer) result }
{
    let mut room = Room::new(setting.alloc);
    let mut names = NameRoom::new(setting.alloc);
    match parse_problem(setting, bytes, &mut room, &mut names) {
        Ok(problem) => print_cnf(paper, setting.alloc, &problem),
        Err(error) => print_unsound(paper, setting, None, bytes, false, error),
    }
}

/// Checks a proof that a problem has no solution, or says which fault of the problem is the first.
fn refute_problem<W: Sink>(
    paper: &mut Paper<'_, W>,
    setting: Setting,
    bytes: &[u8],
    proof: &[u8],
    explain: bool,
) -> Result<Outcome, AllocError>
    ensures { let style = refutation_style explain bytes.now proof.now in
        Prints W.state paper.old paper.new (problem_report style setting.mode bytes.now (refute_answer style proof.now)) result }
{
    let mut room = Room::new(setting.alloc);
    let mut names = NameRoom::new(setting.alloc);
    match parse_problem(setting, bytes, &mut room, &mut names) {
        Ok(problem) => report_refutation(paper, setting.alloc, &problem, proof, explain),
        Err(error) => print_unsound(paper, setting, None, bytes, explain, error),
    }
}

/// A problem and a solution, with their files.
#[derive(Clone, Copy)]
pub(crate) struct Inputs<'t> {
    pub(crate) problem: &'t [u8],
    pub(crate) solution: &'t [u8],
    pub(crate) origins: Origins<'t>,
}

/// The problem and its solution: the second input is the solution; where there is none, the first is cut.
fn split_inputs<'t>(first: NamedInput<'t, 't>, second: Option<NamedInput<'t, 't>>) -> Inputs<'t>
    ensures { (explain : Bool) → (mode : Mode) → (found : Style → Proposal → List ℕ)
        → (let style = pair_style explain (origins_view result.origins) result.problem.now result.solution.now in
        pair_report style mode (found style) result.problem.now result.solution.now)
        ≡ (let bytes = option_map (λ g. g.bytes.now) second.entry in let style = inputs_style explain (given_names first.entry second.entry) first.entry.bytes.now bytes in
        inputs_report style mode (found style) first.entry.bytes.now bytes) }
{
    match second {
        Some(second) => Inputs {
            problem: first.bytes,
            solution: second.bytes,
            origins: Origins {
                problem: own_file(first.name),
                solution: own_file(second.name),
            },
        },
        None => cut(first),
    }
}

/// The problem and the solution of one input.
fn cut<'t>(input: NamedInput<'t, 't>) -> Inputs<'t>
    ensures problem { result.problem.now ≡ problem_part input.entry.bytes.now }
    ensures solution { result.solution.now ≡ solution_part input.entry.bytes.now }
    ensures origins { origins_view result.origins ≡ one_file (problem_part input.entry.bytes.now) (given_names input.entry None) }
{
    let (problem, solution) = cut_joined(input.bytes);
    Inputs {
        problem,
        solution,
        origins: Origins {
            problem: own_file(input.name),
            solution: file_behind(problem, input.name),
        },
    }
}

/// Prints the report of a job on its inputs.
#[tactic(auto, unfolding(crate::specs::JobReport::report))]
fn print_report<S: Source, W: Sink>(
    paper: &mut Paper<'_, W>,
    setting: Setting,
    job: &Job,
    first: NamedInput<'_, '_>,
    others: OtherInputs<'_, S>,
) -> Result<Outcome, AllocError>
    ensures { Prints W.state paper.old paper.new
        (report job.now setting.mode (names_given S.state first.entry others.entry.sources.now) first.entry.bytes.now (map (λ b. b.items) others.entry.texts.now)) result }
{
    match job {
        Job::Lint { explain } => lint_problem(paper, setting, first, *explain),
        Job::Check { .. } | Job::Score { .. } => {
            judge_pair(paper, setting, job, split_inputs(first, others.first()))
        }
        Job::Rank { aims } => print_rank_report(paper, setting, aims, first, others),
        Job::Cnf => print_encoded(paper, setting, first.bytes),
        Job::CnfBetter { aims } => {
            let question = Question { aims, proof: None };
            print_better_report(paper, setting, question, first.bytes, others.text(0))
        }
        Job::Refute { explain } => {
            refute_problem(paper, setting, first.bytes, others.text(0), *explain)
        }
        Job::RefuteBetter { aims } => {
            let proof = Some(others.text(0));
            let question = Question { aims, proof };
            print_better_report(paper, setting, question, first.bytes, others.text(1))
        }
    }
}

/// Answers a job on its inputs. All memory is taken before the first byte is written.
pub(crate) fn answer_job<S: Source, W: Sink>(
    setting: Setting,
    job: &Job,
    first: NamedInput<'_, '_>,
    others: OtherInputs<'_, S>,
    out: &mut W,
) -> Result<Outcome, RunError>
    ensures { Answers (W.state out.old) (W.state out.new)
        (report job.now setting.mode (names_given S.state first.entry others.entry.sources.now) first.entry.bytes.now (map (λ b. b.items) others.entry.texts.now)) result }
{
    let mut waiting = ReportBuffer::new(setting.alloc)?;
    let mut paper = Paper::new(out, &mut waiting);
    let answer = print_report(&mut paper, setting, job, first, others);
    paper.finish(answer)
}

/// Where a run's memory comes from, and how strictly it reads documents.
#[derive(Clone, Copy)]
pub(crate) struct Setting {
    pub(crate) alloc: Global,
    pub(crate) mode: Mode,
}

/// Whether the job asks for lines that are explained.
pub(crate) fn explains(job: &Job) -> bool
    ensures { result ≡ explains job.now }
{
    match job {
        Job::Lint { explain } | Job::Check { explain, .. } | Job::Refute { explain } => *explain,
        Job::Score { .. }
        | Job::Rank { .. }
        | Job::Cnf
        | Job::CnfBetter { .. }
        | Job::RefuteBetter { .. } => false,
    }
}

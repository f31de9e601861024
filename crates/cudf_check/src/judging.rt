//! Judges the solutions of a problem that are ranked, and the one that is to be bettered.
ghost use Rattle.std.specs.Prelude.{◌≡◌, ℕ, List, map, IfOk, IfErr, Option, slice_get};
ghost use Rattle.std.specs.List.{list_any};
ghost use Rattle.cudf_problem.specs.Universe.{PlainProblem};
ghost use Rattle.cudf_problem.specs.declared.problem.Mode.{Mode};
ghost use Rattle.cudf_device.specs.Outcomes.{Report};
ghost use Rattle.cudf_device.specs.Promises.PaperInside.{Prints};
ghost use Rattle.cudf_device.specs.Readers.{names_in};
ghost use Rattle.cudf_check.specs.RankReport.{best_outcome, judgement_of, placed_faults, solutions_report};
ghost use Rattle.cudf_check.specs.Report.{solution_fault, problem_report};
ghost use Rattle.cudf_check.specs.Working.Judged.{IsJudged, AreJudged, IsUnranked, is_a_solution, is_no_solution, first_faulty_or};
ghost use Rattle.cudf_check.specs.Working.Unjudged.{IsFaultOf, IsUnjudged};
ghost use Rattle.cudf_check.specs.JobStyles.{ranking_style};
ghost use Rattle.cudf_check.specs.Working.Named.{names_given};
ghost use Rattle.cudf_check.specs.BetterReport.{better_report, judged_as};
ghost use Rattle.cudf_check.specs.Styles.{plainly};
ghost use Rattle.cudf_check.specs.Working.Bettered.{question_answer, question_view};

use crate::lines::{print_better, print_faulty_solution, print_ranking, refute_better};
use crate::naming::{NamedInput, OtherInputs, name_at, own_file};
use crate::readings::{Unjudged, parse_problem, parse_proposed};
use crate::report::{Document, Setting, print_unread, print_unsound};
use cudf_device::{Outcome, Paper, Sink, Source};
use cudf_document::{NameRoom, Problem, ReadError, solution_of};
use cudf_job::{Entrant, Judgement, rank_entrants as in_order};
use cudf_referee::{Aim, Criteria, Referee};
use cudf_text::Room;
use std::alloc::{AllocError, Global};

/// Why the solutions aren't ranked.
#[derive(Drop)]
pub(crate) struct RankingError {
    /// The place of the solution, from 1.
    pub(crate) place: u64,
    pub(crate) error: ReadError,
}

/// What the referee says.
fn judgement_by(referee: &Referee<'_, '_>) -> Judgement
    ensures { result ≡ judgement_of referee.entry.now }
{
    if referee.is_solution() {
        Judgement::Solution(referee.criteria())
    } else {
        Judgement::NoSolution
    }
}

/// A solution that isn't judged, where it says FAIL.
fn fail_or_error(reason: Unjudged) -> Result<Judgement, ReadError>
    ensures judged { (mode : Mode) → (problem : PlainProblem) → (bytes : List ℕ) → IsUnjudged mode problem.extra_names bytes reason → IfOk result (IsJudged mode problem bytes) }
    ensures fault { (mode : Mode) → (names : List (List ℕ)) → (bytes : List ℕ) → IsUnjudged mode names bytes reason → IfErr result (IsFaultOf (solution_fault mode names bytes)) }
{
    match reason {
        Unjudged::SaysFail => Ok(Judgement::SaysFail),
        Unjudged::Unread(error) => Err(error),
    }
}

/// Judges a solution.
pub(crate) fn judge(
    setting: Setting,
    problem: &Problem<'_>,
    bytes: &[u8],
) -> Result<Judgement, ReadError>
    ensures judged { IfOk result (IsJudged setting.mode problem.now bytes.now) }
    ensures fault { IfErr result (IsFaultOf (solution_fault setting.mode problem.now.extra_names bytes.now)) }
{
    let alloc = setting.alloc;
    let mut room = Room::new(alloc);
    match parse_proposed(setting, bytes, &mut room, problem) {
        Ok(proposed) => {
            let solution = solution_of(alloc, proposed, problem)?;
            let referee = Referee::new(alloc, problem, &solution)?;
            Ok(judgement_by(&referee))
        }
        Err(reason) => fail_or_error(reason),
    }
}

/// Judges the solutions, up to the first that has a fault.
pub(crate) fn judge_each(
    setting: Setting,
    problem: &Problem<'_>,
    solutions: &[Vec<u8>],
) -> Result<Vec<Entrant>, RankingError>
    ensures judged { IfOk result (λ ss. AreJudged setting.mode problem.now (map (λ b. b.items) solutions.now) ss.items) }
    ensures unranked { IfErr result (IsUnranked setting.mode problem.now (map (λ b. b.items) solutions.now)) }
{
    let mut entrants = Vec::new(setting.alloc);
    for (index, bytes) in solutions.iter().enumerate() {
        let place = index as u64 + 1;
        match judge(setting, problem, bytes) {
            Ok(judgement) => {
                if entrants.push(Entrant { place, judgement }).is_err() {
                    let error = ReadError::Memory(AllocError);
                    return Err(RankingError { place, error });
                }
            }
            Err(error) => return Err(RankingError { place, error }),
        }
    }
    Ok(entrants)
}

/// Whether it is a solution.
fn is_a_solution(entrant: &Entrant) -> bool
    ensures { result ≡ is_a_solution entrant.now }
{
    match entrant.judgement {
        Judgement::Solution(_) => true,
        Judgement::NoSolution | Judgement::SaysFail => false,
    }
}

/// Whether it was judged to be none.
fn is_no_solution(entrant: &Entrant) -> bool
    ensures { result ≡ is_no_solution entrant.now }
{
    match entrant.judgement {
        Judgement::NoSolution => true,
        Judgement::Solution(_) | Judgement::SaysFail => false,
    }
}

/// Whether one is a solution.
fn any_solution(entrants: &[Entrant]) -> bool
    ensures { result ≡ list_any is_a_solution entrants.now }
{
    entrants.iter().any(|entrant| is_a_solution(entrant))
}

/// Whether one was judged to be none.
fn any_no_solution(entrants: &[Entrant]) -> bool
    ensures { result ≡ list_any is_no_solution entrants.now }
{
    entrants.iter().any(|entrant| is_no_solution(entrant))
}

/// `Yes` where one is a solution, or else `No` where one was judged to be none, or else `Fail`.
pub(crate) fn best_outcome(entrants: &[Entrant]) -> Outcome
    ensures { result ≡ best_outcome entrants.now }
{
    if any_solution(entrants) {
        Outcome::Yes
    } else if any_no_solution(entrants) {
        Outcome::No
    } else {
        Outcome::Fail
    }
}

/// Prints which fault a solution has that isn't judged.
fn print_unranked<S: Source, W: Sink>(
    paper: &mut Paper<'_, W>,
    sources: &[S],
    unranked: RankingError,
) -> Result<Outcome, AllocError>
    ensures { (first : Option (List ℕ)) → (mode : Mode) → (problem : PlainProblem) → (solutions : _) → (report : Report) → IsUnranked mode problem solutions unranked
        → Prints W.state paper.old paper.new
        (first_faulty_or (ranking_style (record { first = first; others = names_in S.state sources.now })) (slice_get (placed_faults mode problem solutions) 0) report) result }
{
    let place = unranked.place;
    match unranked.error {
        ReadError::Fault(fault) => {
            print_faulty_solution(paper, name_at(sources, place), place, fault);
            Ok(Outcome::Faulty)
        }
        ReadError::Memory(error) => Err(error),
    }
}

/// Ranks the solutions of a problem.
pub(crate) fn print_rank_report<S: Source, W: Sink>(
    paper: &mut Paper<'_, W>,
    setting: Setting,
    aims: &[Aim],
    problem: NamedInput<'_, '_>,
    solutions: OtherInputs<'_, S>,
) -> Result<Outcome, AllocError>
    ensures { let style = ranking_style (names_given S.state problem.entry solutions.entry.sources.now) in
        Prints W.state paper.old paper.new (problem_report style setting.mode problem.entry.bytes.now
        (λ p. solutions_report style aims.now setting.mode p (map (λ b. b.items) solutions.entry.texts.now))) result }
{
    let mut room = Room::new(setting.alloc);
    let mut names = NameRoom::new(setting.alloc);
    match parse_problem(setting, problem.bytes, &mut room, &mut names) {
        Ok(problem) => rank_solutions(paper, setting, aims, &problem, solutions),
        Err(error) => {
            let origin = own_file(problem.name);
            print_unsound(paper, setting, origin, problem.bytes, false, error)
        }
    }
}

/// Judges the solutions of a problem that has no fault, and prints their ranking, or the first fault of one.
fn rank_solutions<S: Source, W: Sink>(
    paper: &mut Paper<'_, W>,
    setting: Setting,
    aims: &[Aim],
    problem: &Problem<'_>,
    solutions: OtherInputs<'_, S>,
) -> Result<Outcome, AllocError>
    ensures { (first : Option (List ℕ)) → let style = ranking_style (record { first = first; others = names_in S.state solutions.entry.sources.now }) in
        Prints W.state paper.old paper.new (solutions_report style aims.now setting.mode problem.now (map (λ b. b.items) solutions.entry.texts.now)) result }
{
    let OtherInputs { texts, sources } = solutions;
    match judge_each(setting, problem, texts) {
        Ok(entrants) => {
            let outcome = best_outcome(&entrants);
            let ranked = in_order(aims, entrants)?;
            print_ranking(paper, aims, sources, &ranked);
            Ok(outcome)
        }
        Err(unranked) => print_unranked(paper, sources, unranked),
    }
}

/// What is asked about a solution.
#[derive(Clone, Copy)]
pub(crate) struct Question<'q> {
    /// By which aims others compare with it.
    pub(crate) aims: &'q [Aim],
    /// A proof that none is better; without one the CNF is asked for.
    pub(crate) proof: Option<&'q [u8]>,
}

/// Answers whether a solution of a problem can be bettered.
pub(crate) fn print_better_report<W: Sink>(
    paper: &mut Paper<'_, W>,
    setting: Setting,
    question: Question<'_>,
    problem: &[u8],
    solution: &[u8],
) -> Result<Outcome, AllocError>
    ensures { Prints W.state paper.old paper.new
        (problem_report plainly setting.mode problem.now (better_report plainly setting.mode (question_answer (question_view question.entry)) solution.now)) result }
{
    let mut room = Room::new(setting.alloc);
    let mut names = NameRoom::new(setting.alloc);
    match parse_problem(setting, problem, &mut room, &mut names) {
        Ok(problem) => judge_for_better(paper, setting, question, &problem, solution),
        Err(error) => print_unsound(paper, setting, None, problem, false, error),
    }
}

/// Judges a solution of a problem that has no fault, and answers whether it can be bettered, or prints its first fault.
fn judge_for_better<W: Sink>(
    paper: &mut Paper<'_, W>,
    setting: Setting,
    question: Question<'_>,
    problem: &Problem<'_>,
    solution: &[u8],
) -> Result<Outcome, AllocError>
    ensures { Prints W.state paper.old paper.new (better_report plainly setting.mode (question_answer (question_view question.entry)) solution.now problem.now) result }
{
    match judge(setting, problem, solution) {
        Ok(judgement) => print_judgement(paper, setting.alloc, question, problem, judgement),
        Err(error) => {
            let document = Document {
                whose: "solution",
                origin: None,
                bytes: solution,
                explain: false,
            };
            print_unread(paper, setting.alloc, document, error)
        }
    }
}

/// Answers whether a solution with this judgement can be bettered, or prints that it is none or says FAIL.
fn print_judgement<W: Sink>(
    paper: &mut Paper<'_, W>,
    alloc: Global,
    question: Question<'_>,
    problem: &Problem<'_>,
    judgement: Judgement,
) -> Result<Outcome, AllocError>
    ensures { Prints W.state paper.old paper.new (judged_as (question_answer (question_view question.entry) problem.now) judgement) result }
{
    match judgement {
        Judgement::Solution(counts) => print_answer(paper, alloc, question, problem, &counts),
        Judgement::NoSolution => {
            paper.text("solution no\n");
            Ok(Outcome::No)
        }
        Judgement::SaysFail => {
            paper.text("solution FAIL\n");
            Ok(Outcome::Fail)
        }
    }
}

/// Answers whether a solution with these counts can be bettered: checks the proof, or prints the CNF where there is none.
fn print_answer<W: Sink>(
    paper: &mut Paper<'_, W>,
    alloc: Global,
    question: Question<'_>,
    problem: &Problem<'_>,
    counts: &Criteria,
) -> Result<Outcome, AllocError>
    ensures { Prints W.state paper.old paper.new (question_answer (question_view question.entry) problem.now counts.now) result }
{
    match question.proof {
        Some(proof) => refute_better(paper, alloc, problem, counts, question.aims, proof),
        None => print_better(paper, alloc, problem, counts, question.aims),
    }
}

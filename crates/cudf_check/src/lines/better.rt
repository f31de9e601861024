//! Prints whether a solution can be bettered: the CNF, or what comes of a proof.
ghost use Rattle.cudf_device.specs.Promises.PaperInside.{Prints};
ghost use Rattle.cudf_check.specs.BetterReport.{best_text, cnf_better, refute_better};
ghost use Rattle.cudf_check.specs.Report.{checked_report};
ghost use Rattle.cudf_check.specs.Styles.{plainly};

use crate::lines::dimacs::print_dimacs;
use crate::lines::judged::print_aim_lines;
use crate::lines::reasons::print_step_fault;
use cudf_better::encode_better;
use cudf_device::{Outcome, Paper, Sink};
use cudf_document::Problem;
use cudf_lrat::{Answer, Cnf, check};
use cudf_referee::{Aim, Criteria};
use std::alloc::{AllocError, Global};

/// Prints the CNF that a better solution satisfies, unless it is too large.
pub(crate) fn print_better<W: Sink>(
    paper: &mut Paper<'_, W>,
    alloc: Global,
    problem: &Problem<'_>,
    counts: &Criteria,
    aims: &[Aim],
) -> Result<Outcome, AllocError>
    ensures { Prints W.state paper.old paper.new (cnf_better aims.now problem.now counts.now) result }
{
    match encode_better(alloc, problem, counts, aims) {
        Ok(Some(cnf)) => {
            print_dimacs(paper, problem.packages(), &cnf);
            Ok(Outcome::Yes)
        }
        Ok(None) => Ok(Outcome::TooLarge),
        Err(error) => Err(error),
    }
}

/// Checks a proof that no solution compares better, and prints what comes of it.
pub(crate) fn refute_better<W: Sink>(
    paper: &mut Paper<'_, W>,
    alloc: Global,
    problem: &Problem<'_>,
    counts: &Criteria,
    aims: &[Aim],
    proof: &[u8],
) -> Result<Outcome, AllocError>
    ensures { Prints W.state paper.old paper.new (refute_better plainly aims.now proof.now problem.now counts.now) result }
{
    match encode_better(alloc, problem, counts, aims) {
        Ok(Some(cnf)) => check_better_proof(paper, alloc, &cnf, counts, aims, proof),
        Ok(None) => Ok(Outcome::TooLarge),
        Err(error) => Err(error),
    }
}

/// Checks a proof against this CNF, and prints its first error, or the counts of the aims and that no better solution
/// exists.
fn check_better_proof<W: Sink>(
    paper: &mut Paper<'_, W>,
    alloc: Global,
    cnf: &Cnf,
    counts: &Criteria,
    aims: &[Aim],
    proof: &[u8],
) -> Result<Outcome, AllocError>
    ensures { Prints W.state paper.old paper.new (checked_report plainly cnf.now (λ core. best_text aims.now counts.now) proof.now) result }
{
    match check(alloc, cnf, proof) {
        Ok(Answer::Faulty { line, kind }) => {
            print_step_fault(paper, line, kind, None);
            Ok(Outcome::No)
        }
        Ok(Answer::Refuted(_)) => {
            print_aim_lines(paper, counts, aims);
            paper.text("no better solution exists\n");
            Ok(Outcome::Yes)
        }
        Err(error) => Err(error),
    }
}

//! The packages of a problem, all of which are to be installed.
ghost use Rattle.cudf_referee.specs.Working.ProblemLeft.{IsCandidateAt};

use crate::left::Candidate;
use cudf_problem::Problem;

/// The package after this many others, as one that is to be installed.
#[inline(always)]
pub(crate) fn candidate_at<'p, 't>(
    problem: &'p Problem<'t>,
    index: usize,
) -> Option<Candidate<'p, 't>>
    ensures { IsCandidateAt problem.now index result }
{
    let packages = problem.packages();
    if index < packages.len() {
        Some(Candidate {
            place: index as u64 + 1,
            package: &packages[index],
            is_installed: true,
        })
    } else {
        None
    }
}

//! The report of a judged solution: what was found or counted, and the verdict.
ghost use Rattle.std.specs.Prelude.{◌≡◌, ◌&&◌, not, IsTrue, false, map, option_map};
ghost use Rattle.std.specs.FinSet as set;
ghost use Rattle.std.specs.Str.{IsUtf8};
ghost use Rattle.std.specs.List.{flat_map};
ghost use Rattle.cudf_problem.specs.Statuses.{is_initial, ascend_above};
ghost use Rattle.cudf_problem.specs.Promises.Views.{unknown_view};
ghost use Rattle.cudf_device.specs.Promises.PaperInside.{Prints, Says};
ghost use Rattle.cudf_job.specs.Aims.{count_row};
ghost use Rattle.cudf_referee.specs.Proposals.{proposal};
ghost use Rattle.cudf_referee.specs.Solutions.{is_solution};
ghost use Rattle.cudf_check.specs.Report.{verdict, judged_report, scored_text, criteria_text, count_line, vector_line, aim_line};
ghost use Rattle.cudf_check.specs.JobStyles.{explains, pair_style};
ghost use Rattle.cudf_check.specs.Working.Found.{found_text};
ghost use Rattle.cudf_check.specs.Working.Named.{instance_style, origins_view};
ghost use Rattle.cudf_check.specs.Working.Pages.{Ascends};

use crate::lines::scribe::{Scribe, print_page};
use crate::readings::parse_stanza_lines;
use crate::report::{Inputs, explains};
use cudf_device::{Outcome, Paper, Sink};
use cudf_document::{Problem, Solution};
use cudf_job::Job;
use cudf_referee::laws::ascending;
use cudf_referee::{Aim, Count, Criteria, Referee};
use std::alloc::{AllocError, Global};

/// Prints the verdict, and answers its outcome.
fn print_verdict<W: Sink>(paper: &mut Paper<'_, W>, is_solution: bool) -> Outcome
    ensures text { Says W.state paper.old paper.new (verdict is_solution).text }
    ensures outcome { result ≡ (verdict is_solution).outcome }
{
    if is_solution {
        paper.text("solution yes\n");
        Outcome::Yes
    } else {
        paper.text("solution no\n");
        Outcome::No
    }
}

/// Prints the counts that the aims name, or else those of the competition.
fn print_counted<W: Sink>(
    paper: &mut Paper<'_, W>,
    referee: &Referee<'_, '_>,
    aims: &Option<Vec<Aim>>,
)
    ensures { Says W.state paper.old paper.new (scored_text (option_map (λ aims. aims.items) aims.now) referee.entry.now) }
{
    match aims {
        Some(aims) => print_aim_lines(paper, &referee.criteria(), aims),
        None => print_score(paper, referee.criteria()),
    }
}

/// Prints what is found for the job.
fn print_found<W: Sink>(paper: &mut Paper<'_, W>, scribe: &Scribe<'_, '_, '_>, job: &Job)
    requires ascending { Ascends scribe.now.judged }
    requires explained { is_solution scribe.now.judged ≡ false → scribe.now.explain ≡ explains job.now }
    ensures { Says W.state paper.old paper.new (found_text job.now (instance_style (explains job.now) scribe.entry.now.origins scribe.entry.now.lines) scribe.entry.now.judged) }
{
    let referee = scribe.referee();
    match job {
        // A solution's listing is empty, so no place is judged again for a page of it.
        Job::Check { .. } if referee.is_solution() => {}
        Job::Check { after, limit, .. } => {
            let _walk = print_page(paper, scribe, *after, *limit);
        }
        Job::Score { aims } => print_counted(paper, referee, aims),
        _ => {}
    }
}

/// Prints what is found for the job, and the verdict, and answers its outcome.
fn print_judged<W: Sink>(
    paper: &mut Paper<'_, W>,
    scribe: &Scribe<'_, '_, '_>,
    job: &Job,
) -> Outcome
    requires ascending { Ascends scribe.now.judged }
    requires explained { is_solution scribe.now.judged ≡ false → scribe.now.explain ≡ explains job.now }
    ensures text { Says W.state paper.old paper.new (judged_report (found_text job.now (instance_style (explains job.now) scribe.entry.now.origins scribe.entry.now.lines)) scribe.entry.now.judged).text }
    ensures outcome { result ≡ (judged_report (found_text job.now (instance_style (explains job.now) scribe.entry.now.origins scribe.entry.now.lines)) scribe.entry.now.judged).outcome }
{
    print_found(paper, scribe, job);
    print_verdict(paper, scribe.referee().is_solution())
}

/// Judges what a solution proposes, and prints the report: what is found for the job, and the verdict.
pub(crate) fn judge_solution<W: Sink>(
    paper: &mut Paper<'_, W>,
    alloc: Global,
    job: &Job,
    inputs: Inputs<'_>,
    problem: &Problem<'_>,
    solution: &Solution<'_>,
) -> Result<Outcome, AllocError>
    requires utf8 { IsUtf8 inputs.solution.now }
    requires ascending { IsTrue (ascend_above 0 (map unknown_view solution.now.unknown.items)) }
    ensures { let style = pair_style (explains job.now) (origins_view inputs.entry.origins) inputs.entry.problem.now inputs.entry.solution.now in
        Prints W.state paper.old paper.new (judged_report (found_text job.now style) (proposal problem.now (is_initial problem.now) (set.contains solution.now.status)
        (map unknown_view solution.now.unknown.items))) result }
{
    ascending();
    let referee = Referee::new(alloc, problem, solution)?;
    report_with_referee(paper, alloc, job, inputs, problem, &referee)
}

/// Whether lines are explained. Where the status is a solution, there is none.
fn is_explained(job: &Job, is_solution: bool) -> bool
    ensures { result ≡ (explains job.now && not is_solution) }
{
    explains(job) && !is_solution
}

/// Prints the report of the status that this referee judged: what is found for the job, and the verdict.
fn report_with_referee<W: Sink>(
    paper: &mut Paper<'_, W>,
    alloc: Global,
    job: &Job,
    inputs: Inputs<'_>,
    problem: &Problem<'_>,
    referee: &Referee<'_, '_>,
) -> Result<Outcome, AllocError>
    requires utf8 { IsUtf8 inputs.solution.now }
    requires same { referee.now.problem ≡ problem.now }
    requires ascending { Ascends referee.now }
    ensures { let style = pair_style (explains job.now) (origins_view inputs.entry.origins) inputs.entry.problem.now inputs.entry.solution.now in
        Prints W.state paper.old paper.new (judged_report (found_text job.now style) referee.entry.now) result }
{
    let explain = is_explained(job, referee.is_solution());
    let lines = parse_stanza_lines(alloc, explain, inputs.solution, problem)?;
    let scribe = Scribe::new(alloc, referee, explain, inputs.origins, &lines)?;
    Ok(print_judged(paper, &scribe, job))
}

/// Prints the line of a count.
pub(crate) fn print_count<W: Sink>(paper: &mut Paper<'_, W>, name: &str, count: u64)
    ensures { Says W.state paper.old paper.new (count_line name.now count) }
{
    paper.text(name);
    paper.text(" ");
    paper.number(count);
    paper.text("\n");
}

/// Prints a line for each count.
fn print_counts<W: Sink>(paper: &mut Paper<'_, W>, criteria: &Criteria, counts: &[Count])
    ensures { Says W.state paper.old paper.new (flat_map (λ count. count_line (count_row count).0 ((count_row count).1 criteria.now)) counts.now) }
{
    for count in counts {
        print_count(paper, count.text(), criteria.count(*count));
    }
}

/// Prints the line of a vector.
fn print_vector<W: Sink>(paper: &mut Paper<'_, W>, name: &str, counts: &[u64])
    ensures { Says W.state paper.old paper.new (vector_line name.now counts.now) }
{
    paper.text(name);
    for count in counts {
        paper.text(" ");
        paper.number(*count);
    }
    paper.text("\n");
}

/// Prints the lines of the counts, and those of the two vectors.
pub(crate) fn print_score<W: Sink>(paper: &mut Paper<'_, W>, criteria: Criteria)
    ensures { Says W.state paper.old paper.new (criteria_text criteria) }
{
    let counts = [
        Count::Removed,
        Count::New,
        Count::Changed,
        Count::NotUpToDate,
        Count::UnsatRecommends,
    ];
    print_counts(paper, &criteria, &counts);
    print_vector(paper, "paranoid", &criteria.paranoid());
    print_vector(paper, "trendy", &criteria.trendy());
}

/// Prints the line of an aim.
fn print_aim_line<W: Sink>(paper: &mut Paper<'_, W>, criteria: &Criteria, aim: Aim)
    ensures { Says W.state paper.old paper.new (aim_line criteria.now aim) }
{
    paper.text(aim.sign.text());
    print_count(paper, aim.count.text(), criteria.count(aim.count));
}

/// Prints a line for each aim.
pub(crate) fn print_aim_lines<W: Sink>(paper: &mut Paper<'_, W>, criteria: &Criteria, aims: &[Aim])
    ensures { Says W.state paper.old paper.new (flat_map (aim_line criteria.now) aims.now) }
{
    for aim in aims {
        print_aim_line(paper, criteria, *aim);
    }
}

//! The report of a ranking: a line for each solution, the best first; or the fault of one.
ghost use Rattle.std.specs.Prelude.{◌++◌, None, codes, decimal, option_map};
ghost use Rattle.std.specs.List.{enumerate_from, flat_map};
ghost use Rattle.cudf_device.specs.Readers.{names_in};
ghost use Rattle.cudf_device.specs.Promises.PaperInside.{Says};
ghost use Rattle.cudf_check.specs.JobStyles.{named_style};
ghost use Rattle.cudf_check.specs.Naming.{entrant_name, entrant_word, own_file};
ghost use Rattle.cudf_check.specs.RankReport.{aim_count, judgement_text, rank_line};
ghost use Rattle.cudf_check.specs.Report.{faulty};
ghost use Rattle.cudf_check.specs.Styles.{of_solution};
ghost use Rattle.cudf_check.specs.Working.Named.{entrants_style};

use crate::lines::naming::{print_fault, print_file_prefix, print_shown};
use crate::naming::{name_at, own_file};
use cudf_device::{Paper, Sink, Source};
use cudf_job::{Entrant, Judgement};
use cudf_referee::{Aim, Criteria};
use cudf_text::Fault;

/// Prints an aim with its count, after a blank.
fn print_aim<W: Sink>(paper: &mut Paper<'_, W>, criteria: &Criteria, aim: Aim)
    ensures { Says W.state paper.old paper.new (aim_count criteria.now aim) }
{
    paper.text(" ");
    paper.text(aim.sign.text());
    paper.text(aim.count.text());
    paper.text(" ");
    paper.number(criteria.count(aim.count));
}

/// Prints the aims with their counts.
fn print_aims<W: Sink>(paper: &mut Paper<'_, W>, criteria: &Criteria, aims: &[Aim])
    ensures { Says W.state paper.old paper.new (flat_map (aim_count criteria.now) aims.now) }
{
    for aim in aims {
        print_aim(paper, criteria, *aim);
    }
}

/// Prints what was found of a solution's text.
fn print_judgement<W: Sink>(paper: &mut Paper<'_, W>, aims: &[Aim], judgement: Judgement)
    ensures { Says W.state paper.old paper.new (judgement_text aims.now judgement) }
{
    match judgement {
        Judgement::Solution(criteria) => {
            paper.text("yes");
            print_aims(paper, &criteria, aims);
        }
        Judgement::NoSolution => paper.text("no"),
        Judgement::SaysFail => paper.text("FAIL"),
    }
}

/// Prints the name of a solution's file, or else its place.
fn print_name<W: Sink>(paper: &mut Paper<'_, W>, name: Option<&str>, place: u64)
    ensures { Says W.state paper.old paper.new (entrant_name (option_map (λ n. n.now) name.entry) place) }
{
    match name {
        Some(file) => print_shown(paper, file),
        None => paper.number(place),
    }
}

/// Prints the rank, and which solution it is.
fn print_rank<W: Sink>(paper: &mut Paper<'_, W>, rank: u64, name: Option<&str>, place: u64)
    ensures { Says W.state paper.old paper.new (decimal rank ++ codes " solution " ++ entrant_name (option_map (λ n. n.now) name.entry) place ++ codes " ") }
{
    paper.number(rank);
    paper.text(" solution ");
    print_name(paper, name, place);
    paper.text(" ");
}

/// Prints the line of a solution.
fn print_entrant<S: Source, W: Sink>(
    paper: &mut Paper<'_, W>,
    aims: &[Aim],
    sources: &[S],
    rank: u64,
    entrant: &Entrant,
)
    ensures { Says W.state paper.old paper.new (rank_line (entrants_style (names_in S.state sources.now)) aims.now (rank, entrant.now)) }
{
    print_rank(paper, rank, name_at(sources, entrant.place), entrant.place);
    print_judgement(paper, aims, entrant.judgement);
    paper.text("\n");
}

/// Prints the lines of the ranked solutions.
pub(crate) fn print_ranking<S: Source, W: Sink>(
    paper: &mut Paper<'_, W>,
    aims: &[Aim],
    sources: &[S],
    ranked: &[Entrant],
)
    ensures { Says W.state paper.old paper.new (flat_map (rank_line (entrants_style (names_in S.state sources.now)) aims.now) (enumerate_from 1 ranked.now)) }
{
    for (index, entrant) in ranked.iter().enumerate() {
        print_entrant(paper, aims, sources, index as u64 + 1, entrant);
    }
}

/// Prints whose a fault of a solution is: with its place, where no file is named.
fn print_whose<W: Sink>(paper: &mut Paper<'_, W>, name: Option<&str>, place: u64)
    ensures { Says W.state paper.old paper.new (entrant_word (option_map (λ n. n.now) name.entry) place) }
{
    match name {
        Some(_) => paper.text("solution"),
        None => {
            paper.text("solution ");
            paper.number(place);
        }
    }
}

/// Prints the line of a faulty solution, the one at this place.
pub(crate) fn print_faulty_solution<W: Sink>(
    paper: &mut Paper<'_, W>,
    name: Option<&str>,
    place: u64,
    fault: Fault,
)
    ensures { let plain = option_map (λ n. n.now) name.entry in
        Says W.state paper.old paper.new (faulty (named_style (own_file plain)) of_solution (entrant_word plain place) fault).text }
{
    let origin = own_file(name);
    print_file_prefix(paper, origin, fault.line);
    print_whose(paper, name, place);
    print_fault(paper, origin, fault, None);
    paper.text("\n");
}

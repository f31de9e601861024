//! Counting what a proposed status changes and lacks.
ghost use Rattle.std.specs.Prelude.{◌≡◌, [], IfOk, ℕ, Bool, length, not, option_map, unwrap_or, ◌&&◌, nat_lt};
ghost use Rattle.std.specs.FinSet as set;
ghost use Rattle.std.specs.List.{count_by, enumerate_from};
ghost use Rattle.cudf_value.specs.Promises.Views.{formula_view};
ghost use Rattle.cudf_index.specs.Satisfaction.{members, satisfies_clause};
ghost use Rattle.cudf_referee.specs.Criteria.{criteria, at_most_max, unsatisfied_recommends, is_touched, universe};
ghost use Rattle.cudf_referee.specs.Proposals.{proposal};
ghost use Rattle.cudf_referee.specs.Working.Standings.{without_recommends, no_standing, standing_with, standings_of, differ};

use cudf_index::Index;
use cudf_job::Criteria;
use cudf_problem::{Problem, Status};
use cudf_value::Formula;
use std::alloc::{AllocError, Global};

/// The counts of a proposed status beside the one before, with 0 for recommends: `count_unsatisfied` counts these.
pub(crate) fn count_changes(
    alloc: Global,
    problem: &Problem<'_>,
    before: &Status,
    proposed: &Status,
) -> Result<Criteria, AllocError>
    ensures { IfOk result (λ c. c ≡ without_recommends (criteria (proposal problem.now (set.contains before.now) (set.contains proposed.now) []))) }
{
    let standings = standings_of(alloc, problem, before, proposed)?;
    Ok(Criteria {
        removed: count_removed(&standings),
        new: count_new(&standings),
        changed: count_changed(&standings),
        notuptodate: count_not_up_to_date(&standings),
        unsat_recommends: 0,
        touched: count_touched(problem, before, proposed),
    })
}

/// How many clauses of what the packages of the status recommend aren't satisfied.
pub(crate) fn count_unsatisfied(
    problem: &Problem<'_>,
    proposed: &Status,
    index: &Index<'_, '_>,
) -> u64
    requires { index.now ≡ members (set.contains proposed.now) problem.now.packages }
    ensures { (before : ℕ → Bool) → result ≡ at_most_max (length (unsatisfied_recommends
        (proposal problem.now before (set.contains proposed.now) []))) }
{
    let mut count = 0u64;
    for number in 0..problem.packages().len() {
        let place = number as u64 + 1;
        if proposed.holds(place) {
            count = count.saturating_add(unsatisfied(index, problem.recommends(place)));
        }
    }
    count
}

/// How many clauses of the formula aren't satisfied.
fn unsatisfied_of(index: &Index<'_, '_>, formula: Formula<'_>) -> u64
    ensures { result ≡ count_by (λ clause. not (satisfies_clause index.now clause)) (formula_view formula.entry) }
{
    let mut count = 0u64;
    for clause in formula.clauses() {
        if !index.satisfies_clause(&clause) {
            count += 1;
        }
    }
    count
}

/// How many clauses of the formula aren't satisfied; 0 where there is no formula.
fn unsatisfied(index: &Index<'_, '_>, formula: Option<Formula<'_>>) -> u64
    ensures { result ≡ count_by (λ clause. not (satisfies_clause index.now clause)) (unwrap_or (option_map formula_view formula.entry) []) }
{
    match formula {
        Some(formula) => unsatisfied_of(index, formula),
        None => 0,
    }
}

/// What the initial and the proposed status hold of a name, and its greatest versions.
#[derive(Clone, Copy)]
pub(crate) struct Standing {
    pub(crate) was_installed: bool,
    pub(crate) is_installed: bool,
    /// A version of the name is in one status alone.
    pub(crate) is_changed: bool,
    /// In the universe, 0 where there is none.
    pub(crate) greatest: u64,
    /// In the proposed status, 0 where there is none.
    pub(crate) greatest_installed: u64,
}

impl Standing {
    /// The standing of a name without packages.
    pub(crate) fn new() -> Self
        ensures { result ≡ no_standing }
    {
        Standing {
            was_installed: false,
            is_installed: false,
            is_changed: false,
            greatest: 0,
            greatest_installed: 0,
        }
    }

    /// The standing with one more package of the name.
    pub(crate) fn with(self, version: u64, was_installed: bool, is_installed: bool) -> Self
        ensures { result ≡ standing_with self version was_installed is_installed }
    {
        let installed = if is_installed { version } else { 0 };
        Standing {
            was_installed: self.was_installed || was_installed,
            is_installed: self.is_installed || is_installed,
            is_changed: self.is_changed || was_installed != is_installed,
            greatest: self.greatest.max(version),
            greatest_installed: self.greatest_installed.max(installed),
        }
    }
}

/// How many names were installed and aren't to be.
pub(crate) fn count_removed(standings: &[Standing]) -> u64
    ensures { result ≡ count_by (λ s. s.was_installed && not s.is_installed) standings.now }
{
    standings
        .iter()
        .filter(|s| s.was_installed && !s.is_installed)
        .count() as u64
}

/// How many names are to be installed and weren't.
pub(crate) fn count_new(standings: &[Standing]) -> u64
    ensures { result ≡ count_by (λ s. s.is_installed && not s.was_installed) standings.now }
{
    standings
        .iter()
        .filter(|s| s.is_installed && !s.was_installed)
        .count() as u64
}

/// How many names have a version in one status alone.
pub(crate) fn count_changed(standings: &[Standing]) -> u64
    ensures { result ≡ count_by (λ s. s.is_changed) standings.now }
{
    standings.iter().filter(|s| s.is_changed).count() as u64
}

/// How many names are to be installed, but not at their greatest version.
pub(crate) fn count_not_up_to_date(standings: &[Standing]) -> u64
    ensures { result ≡ count_by (λ s. s.is_installed && nat_lt s.greatest_installed s.greatest) standings.now }
{
    standings
        .iter()
        .filter(|s| s.is_installed && s.greatest_installed < s.greatest)
        .count() as u64
}

/// The standings of all names, by their numbers.
pub(crate) fn standings_of(
    alloc: Global,
    problem: &Problem<'_>,
    before: &Status,
    proposed: &Status,
) -> Result<Vec<Standing>, AllocError>
    ensures { IfOk result (λ standings. standings.items ≡ standings_of (set.contains before.now) (set.contains proposed.now)
        (enumerate_from 1 problem.now.packages)) }
{
    let mut standings = vec![in alloc; Standing::new(); problem.name_count()]?;
    for (index, package) in problem.packages().iter().enumerate() {
        let place = index as u64 + 1;
        let number = problem.number_at(index);
        let standing = standings[number];
        standings[number] = standing.with(
            package.version,
            before.holds(place),
            proposed.holds(place),
        );
    }
    Ok(standings)
}

/// How many packages one of the two statuses has and the other hasn't.
pub(crate) fn count_touched(problem: &Problem<'_>, before: &Status, proposed: &Status) -> u64
    ensures { let s = proposal problem.now (set.contains before.now) (set.contains proposed.now) [] in
        result ≡ at_most_max (count_by (is_touched s) (universe s)) }
{
    let mut count = 0u64;
    for number in 0..problem.packages().len() {
        if is_touched(before, proposed, number as u64 + 1) {
            count = count.saturating_add(1);
        }
    }
    count
}

/// Whether one of the two statuses has the package at this place and the other hasn't.
fn is_touched(before: &Status, proposed: &Status, place: u64) -> bool
    ensures { result ≡ differ (set.contains before.now place) (set.contains proposed.now place) }
{
    before.holds(place) != proposed.holds(place)
}

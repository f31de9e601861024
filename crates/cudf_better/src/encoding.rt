//! The clauses that a status compares better than some counts, and what is known of a problem to make them.
ghost use Rattle.std.specs.Prelude.{◌≡◌, ◌≤◌, ◌++◌, IfOk, IfSome, OnOk, length, map, true, ◌<◌, ◌^◌, ℕ, All};
ghost use Rattle.std.specs.List.{enumerate_from};
ghost use Rattle.std.specs.FinSet as set;
ghost use Rattle.cudf_problem.specs.Promises.Packages.{are_distinct};
ghost use Rattle.cudf_problem.specs.Universe.{package_id};
ghost use Rattle.cudf_problem.specs.Statuses.{is_initial};
ghost use Rattle.cudf_index.specs.Satisfaction.{members};
ghost use Rattle.cudf_cnf.specs.Cnf.{clauses_of, cnf};
ghost use Rattle.cudf_better.specs.Better.{counts_true, items};
ghost use Rattle.cudf_better.specs.Encodings.{IsEncoded};
ghost use Rattle.cudf_better.specs.Working.Constraints.{AreConstraints, IsConstraint};
ghost use Rattle.cudf_better.specs.Working.Definitions.{at_most, formulas_of};
ghost use Rattle.cudf_better.specs.Working.Sources.{change_at, version_at};

use crate::constraint::{Constraint, Definitions, Formulas, MOST_VARIABLES, put_constraints};
use crate::items::{Items, add_names, add_recommended, add_touched};
use cudf_cnf::{all_of, negative_literal, positive_literal};
use cudf_index::Index;
use cudf_job::{Aim, Count, Criteria, Sign};
use cudf_lrat::{Cnf, Literal};
use cudf_problem::{Problem, Status, initial};
use std::alloc::{AllocError, Global};

/// Adds the items of a count.
fn add_items(
    alloc: Global,
    source: &ProblemIndexes<'_, '_>,
    count: Count,
    made: &mut Items,
) -> Result<(), AllocError>
    ensures { OnOk result (made.new ≡ made.old ++ items source.now.problem.now count) }
{
    match count {
        Count::Removed => add_names(alloc, source, Count::Removed, made),
        Count::New => add_names(alloc, source, Count::New, made),
        Count::Changed => add_names(alloc, source, Count::Changed, made),
        Count::NotUpToDate => add_names(alloc, source, Count::NotUpToDate, made),
        Count::UnsatRecommends => add_recommended(alloc, source, made),
        Count::Touched => add_touched(source, made),
    }
}

/// The items of a count.
fn items_of(
    alloc: Global,
    source: &ProblemIndexes<'_, '_>,
    count: Count,
) -> Result<Items, AllocError>
    ensures { IfOk result (λ made. made ≡ items source.now.problem.now count) }
{
    let mut made = Items::new(alloc);
    add_items(alloc, source, count, &mut made)?;
    Ok(made)
}

/// Whether a count is of the items that are true.
fn counts_true(count: Count) -> bool
    ensures { result ≡ counts_true count }
{
    match count {
        Count::Removed => false,
        _ => true,
    }
}

/// That at most so many items are true, or at most so many aren't.
fn constraint(items: Items, is_true: bool, bound: usize) -> Constraint
    ensures { at_most result.bound result.formulas ≡ at_most bound (formulas_of is_true items) }
{
    Constraint {
        formulas: Formulas::of(items, is_true),
        bound,
    }
}

/// That the count of an aim is no worse than this.
fn constraint_of(
    alloc: Global,
    source: &ProblemIndexes<'_, '_>,
    aim: Aim,
    count: u64,
) -> Result<Constraint, AllocError>
    ensures { IfOk result (IsConstraint source.now.problem.now aim count) }
{
    let items = items_of(alloc, source, aim.count)?;
    let is_true = counts_true(aim.count);
    let total = items.len();
    match aim.sign {
        Sign::Least => Ok(constraint(items, is_true, count as usize)),
        Sign::Most => {
            let bound = total.saturating_sub(count as usize);
            Ok(constraint(items, !is_true, bound))
        }
    }
}

/// For each aim, in their order, the constraint that its count is no worse than in `counts`.
fn constraints_of(
    alloc: Global,
    source: &ProblemIndexes<'_, '_>,
    counts: &Criteria,
    aims: &[Aim],
) -> Result<Vec<Constraint>, AllocError>
    ensures { IfOk result (λ made. AreConstraints source.now.problem.now counts.now aims.now made.items) }
{
    let mut constraints = Vec::new(alloc);
    for aim in aims {
        let constraint = constraint_of(alloc, source, *aim, counts.count(aim.count))?;
        constraints.push(constraint)?;
    }
    Ok(constraints)
}

/// The clauses, those of the problem first.
fn build_cnf(
    alloc: Global,
    problem: &Problem<'_>,
    rules: &Cnf,
    counts: &Criteria,
    aims: &[Aim],
) -> Result<Option<Cnf>, AllocError>
    requires small { length problem.now.packages ≤ 2147483647 }
    requires rules { rules.now.clauses ≡ clauses_of (cnf problem.now) }
    ensures { IfOk result (IsEncoded problem.now counts.now aims.now) }
{
    let source = ProblemIndexes::new(alloc, problem)?;
    let constraints = constraints_of(alloc, &source, counts, aims)?;
    let next = problem.packages().len() as u32 + 1;
    let mut definitions = Definitions::new(alloc, next);
    definitions.put_all(rules)?;
    put_constraints(&mut definitions, &constraints)?;
    definitions.into_cnf()
}

/// The clauses of a problem, as [`cudf_cnf::encode_rules`] gives them, and behind them those that a status compares better than some
/// counts by the aims: the first variables are the packages, the others are auxiliary. Where some solution compares better
/// they can be satisfied together (the law `better`, whose premises hold where there are clauses); without aims none does. `None` where there would be more
/// than 2147483647 variables or 4294967295 clauses (own).
///
/// # Errors
///
/// `AllocError` where memory for them is refused.
pub fn encode_better(
    alloc: Global,
    problem: &Problem<'_>,
    counts: &Criteria,
    aims: &[Aim],
) -> Result<Option<Cnf>, AllocError>
    ensures encoded { IfOk result (IsEncoded problem.now counts.now aims.now) }
    ensures distinct { IfOk result (λ made. IfSome made (λ cnf. are_distinct (map package_id problem.now.packages) ≡ true)) }
{
    let Some(rules) = cudf_cnf::encode_rules(alloc, problem)? else {
        return Ok(None);
    };
    if problem.packages().len() > MOST_VARIABLES as usize {
        return Ok(None);
    }
    build_cnf(alloc, problem, rules.cnf(), counts, aims)
}

/// A problem, and what is looked up in it.
#[derive(Drop)]
pub(crate) struct ProblemIndexes<'p, 't> {
    pub(crate) problem: &'p Problem<'t>,
    /// All packages, installed or not.
    pub(crate) all: Index<'p, 't>,
    /// Those that were installed.
    pub(crate) before: Index<'p, 't>,
    was: Status,
    ghost every: { all ≡ enumerate_from 1 problem.now.packages },
    ghost initial: { (place : ℕ) → set.contains was place ≡ is_initial problem.now place },
    ghost installed: { before ≡ members (is_initial problem.now) problem.now.packages },
    ghost few: { length problem.now.packages < 2 ^ 32 },
}

impl<'p, 't> ProblemIndexes<'p, 't> {
    /// Of a problem.
    ///
    /// # Errors
    ///
    /// `AllocError` where memory for what is looked up is refused.
    pub(crate) fn new(alloc: Global, problem: &'p Problem<'t>) -> Result<Self, AllocError>
        requires { length problem.now.packages < 2 ^ 32 }
        ensures { IfOk result (λ source. source.problem.now ≡ problem.now) }
    {
        let was = initial(alloc, problem)?;
        let before = Index::build(alloc, problem, &was)?;
        Ok(ProblemIndexes {
            problem,
            all: all_of(alloc, problem)?,
            before,
            was,
        })
    }

    /// That the package at a place isn't as it was.
    pub(crate) fn change_literal(&self, place: u64) -> Literal
        requires { place < 2 ^ 32 }
        ensures { result ≡ change_at self.now.problem.now place }
    {
        if self.was.holds(place) {
            return negative_literal(place);
        }
        positive_literal(place)
    }

    /// Adds, for each of the places, the literal that its package isn't as it was.
    pub(crate) fn add_changes(
        &self,
        literals: &mut Vec<Literal>,
        places: &[u64],
    ) -> Result<(), AllocError>
        requires { All (λ n. n < 2 ^ 32) places.now }
        ensures { OnOk result (literals.new.items ≡ literals.old.items ++ map (change_at self.now.problem.now) places.now) }
    {
        for place in places {
            literals.push(self.change_literal(*place))?;
        }
        Ok(())
    }

    /// The version of the package at a place, 0 where there is none.
    pub(crate) fn version(&self, place: u64) -> u64
        ensures { result ≡ version_at self.now.problem.now place }
    {
        if place == 0 {
            return 0;
        }
        match self.problem.packages().get(place as usize - 1) {
            Some(package) => package.version,
            None => 0,
        }
    }
}

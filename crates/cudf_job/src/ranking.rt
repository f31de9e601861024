//! The ranking of solutions.
ghost use Rattle.std.specs.Prelude.{◌≡◌, IsTrue, IfOk};
ghost use Rattle.cudf_job.specs.Ranking.{class, compare_counts, compare_entrants, have_own_places, ranking};

use crate::criteria::{Aim, Criteria, compare};
use std::alloc::AllocError;
use std::cmp::Ordering;

/// What was found of a solution's text that has no fault. Own.
#[derive(Clone, Copy)]
pub enum Judgement {
    /// What it proposes is a solution, with these counts.
    Solution(Criteria),
    /// What it proposes is none.
    NoSolution,
    /// It says that there is none.
    SaysFail,
}

/// A solution's text that was judged. Own.
#[derive(Clone, Copy)]
pub struct Entrant {
    /// Its place among the solutions, from 1.
    pub place: u64,
    pub judgement: Judgement,
}

impl Judgement {
    /// The lesser class is ranked before the greater one.
    fn class(self) -> u8
        ensures { result ≡ class self }
    {
        match self {
            Judgement::Solution(_) => 0,
            Judgement::NoSolution => 1,
            Judgement::SaysFail => 2,
        }
    }
}

/// Compares two solutions by the aims. Others tie.
fn compare_counts(aims: &[Aim], left: Judgement, right: Judgement) -> Ordering
    ensures { result ≡ compare_counts aims.now left right }
{
    match (left, right) {
        (Judgement::Solution(left), Judgement::Solution(right)) => compare(aims, &left, &right),
        _ => Ordering::Equal,
    }
}

/// Compares two entrants by class, then by the aims, then by place: the lesser one is ranked before the other.
fn compare_entrants(aims: &[Aim], left: &Entrant, right: &Entrant) -> Ordering
    ensures { result ≡ compare_entrants aims.now left.now right.now }
{
    let class = left.judgement.class().cmp(&right.judgement.class());
    let counts = compare_counts(aims, left.judgement, right.judgement);
    let place = left.place.cmp(&right.place);
    class.then(counts).then(place)
}

/// The entrants in the order of their rank, the best first: solutions, then those that are none, then those that say
/// FAIL; solutions by the aims; then by place. No two have the same place. Own.
///
/// # Errors
///
/// `AllocError` where a growth was refused.
pub fn rank_entrants(aims: &[Aim], entrants: Vec<Entrant>) -> Result<Vec<Entrant>, AllocError>
    requires { IsTrue (have_own_places entrants.items) }
    ensures { IfOk result (λ ranked. ranked.items ≡ ranking aims.now entrants.items) }
{
    let mut ranked = entrants;
    ranked.sort_by(|left, right| compare_entrants(aims, left, right))?;
    Ok(ranked)
}

//! What a report is asked for, and the keys and counts in which it speaks: jobs, keys of violated instances, the counts of
//! a proposed status, aims, by which statuses are compared, and the ranking of solutions.
#![tactic(auto)]

ghost use Rattle.cudf_job.specs.Ranking.{RankingPermutes, RankingAscends, RankingIsAlone};

mod criteria;
mod job;
mod key;
mod ranking;

pub use criteria::{Aim, Count, Criteria, Sign, compare, read_criterion};
pub use job::Job;
pub use key::{Aspect, Key, Part, Rule};
pub use ranking::{Entrant, Judgement, rank_entrants};

/// What follows from the definitions alone.
pub mod laws {
    /// The ranking of solutions is their list in another order. Where no place occurs twice, each precedes all that are
    /// ranked after it: by class, then by the counts, then by place. No other order of the list has each precede all
    /// after it.
    pub fn ranking()
        ensures permutes { RankingPermutes }
        ensures ascends { RankingAscends }
        ensures alone { RankingIsAlone }
    {}
}

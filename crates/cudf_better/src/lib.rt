//! Whether a problem has a better solution, as a CNF: its rules, and that the counts of a status compare better than given ones;
//! the laws that tie it to solutions.
#![tactic(auto)]

ghost use Rattle.cudf_better.specs.Laws.{BetterSatisfies, LessSatisfies, RefutedIsBest};

mod constraint;
mod encoding;
mod items;
mod network;

pub use encoding::encode_better;

/// What follows from the definitions alone.
pub mod laws {
    /// Where some constraint is strict and all before it are satisfied, the clauses of constraints can be satisfied.
    pub fn less()
        ensures { LessSatisfies }
    {}

    /// A solution that compares better than some counts satisfies the clauses; where some of them are refuted, there is none.
    pub fn better()
        ensures satisfies { BetterSatisfies }
        ensures best { RefutedIsBest }
    {}
}

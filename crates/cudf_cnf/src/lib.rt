//! The rules of a problem as a CNF, each clause with the key of the instance that it rules out; the laws that tie it to
//! solutions.
#![tactic(auto)]

ghost use Rattle.cudf_cnf.specs.Laws.{FalsifiedIsViolated, SolutionSatisfies, RefutedAreViolated, RefutedHasNone, KeysNeverDescend};

mod clauses;
mod encoder;
mod encoding;
mod rules;

pub use clauses::KeyedClauses;
pub use encoder::all_of;
pub use encoding::encode_rules;
pub use rules::{add_places, negative_literal, positive_literal};

/// What follows from the definitions alone.
pub mod laws {
    /// A status doesn't satisfy all clauses of an instance exactly where it violates the instance.
    pub fn violated()
        ensures { FalsifiedIsViolated }
    {}

    /// A proposed status is a solution exactly where it has no unknown stanza and satisfies each clause.
    pub fn solution()
        ensures { SolutionSatisfies }
    {}

    /// Where clauses of a problem's CNF are refuted, each proposed status violates an instance whose key is that of one of
    /// these clauses, so none is a solution.
    pub fn refuted()
        ensures violated { RefutedAreViolated }
        ensures none { RefutedHasNone }
    {}

    /// The keys of the CNF never descend: it is in key order, the clauses of one instance beside each other.
    pub fn ordered()
        ensures { KeysNeverDescend }
    {}
}

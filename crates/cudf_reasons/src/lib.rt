//! The core of a refutation as a list to be read: the instances of the needed CNF clauses, each once, each after the one
//! that brings in its package, with the packages that it is met by.
#![tactic(auto)]

ghost use Rattle.cudf_reasons.specs.Laws.{EachIsToldOnce, StepsAreEnough};

mod gathering;
mod order;
mod walk;

pub use gathering::NeededClause;
pub use order::order_reasons;
pub use walk::Reasons;

/// What follows from the definition of the reasons alone. A law is the contract of a function without effect.
pub mod laws {
    /// The reasons are the instances of the needed CNF clauses, each once.
    pub fn each_once()
        ensures { EachIsToldOnce }
    {}

    /// The walk that orders them ends because nothing that waits is new, and not for want of steps.
    pub fn steps()
        ensures { StepsAreEnough }
    {}
}

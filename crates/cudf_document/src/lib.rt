//! CUDF 2.0 documents: how a problem and what a solution proposes are read, and the first fault of a
//! document that has one.
#![tactic(auto)]

ghost use Rattle.cudf_document.specs.Promises.Laws.{LeastIsFirst, FaultlessIsSound, FaultsAreFound, StrictAddsSomeKinds};

pub(crate) mod declarations;
pub(crate) mod details;
mod fault;
mod names;
pub(crate) mod package;
pub(crate) mod problem;
pub(crate) mod proposed;
pub(crate) mod solution;

pub use cudf_problem::{
    InstalledPair, Keep, Mode, Package, Problem, Request, Solution, Status, initial,
};
pub use details::invalid::format_of;
pub use details::of_fault::detail;
pub use details::{Detail, Format};
pub use fault::ReadError;
pub use problem::keeping::NameRoom;
pub use problem::{first_fault, problem_of, read_problem};
pub use proposed::{Proposed, proposed_of};
pub use solution::{read_solution, solution_of, stanza_lines};

/// What follows from the definitions alone. Each law is the contract of a function without effect.
pub mod laws {
    /// The fault that a reader answers is one of the document's faults and precedes every other one,
    /// and no other fault does.
    pub fn first()
        ensures { LeastIsFirst }
    {}

    /// Where a problem has no fault, each package stanza describes a package, no two packages have
    /// one name and version, and there is one request.
    pub fn sound()
        ensures { FaultlessIsSound }
    {}

    /// Strictly a problem has the faults that it has leniently and some of the kinds E14 and E16, a solution
    /// those and some of the kinds E8, E15 and E16; leniently no stanza has a fault of these kinds. So a document
    /// that has no fault strictly has none leniently.
    pub fn lenient()
        ensures { StrictAddsSomeKinds }
    {}

    /// The stanza on the line of a stanza's fault is the one that has the fault, and the property on the line of a
    /// property is that property. So what a document says beside a fault is said of those that have it.
    pub fn found()
        ensures { FaultsAreFound }
    {}
}

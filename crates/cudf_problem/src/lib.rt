//! What CUDF 2.0 documents describe: a universe of packages, a request, the status that a solution proposes; the
//! definitions by which a document's stanzas describe them.
#![tactic(auto)]

pub(crate) mod package;
mod problem;
pub(crate) mod solution;

pub use package::{Keep, Package, PackageIds, ProposedPackage, read_keep};
pub use problem::{Mode, Postmark, Problem, Request};
pub use solution::{InstalledPair, Solution, Status, initial};

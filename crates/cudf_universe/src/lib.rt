//! What the packages of a universe give and satisfy, handed on from `cudf_index`, and the documents that describe it,
//! handed on from `cudf_document`.
#![tactic(auto)]

pub use cudf_document::{
    InstalledPair, Keep, Mode, NameRoom, Package, Problem, Proposed, ReadError, Request, Solution,
    Status, first_fault, initial, problem_of, proposed_of, read_problem, read_solution,
    solution_of,
};
pub use cudf_index::{Index, MeteredIndex, Providers, Steps, laws};

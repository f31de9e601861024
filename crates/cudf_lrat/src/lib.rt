//! A checker of refutations: proofs, in LRAT's text form, that no assignment satisfies a CNF.
//!
//! A solver that finds no assignment can write down the clauses that it learned on the way, the last
//! one empty. Each is a *step* of the proof, and follows by *reverse unit propagation*: if all its
//! *literals* were false, some clause would be a *unit*, with one literal that isn't false and so has
//! to be true, then some other clause, until one is a *conflict*, with all its literals false. Finding
//! these clauses is the work; in LRAT each step names them, in order, as its *hints*.
//!
//! So nobody has to trust the solver. [`check`] tells the first faulty line of a proof, or else its
//! core: the numbers of clauses that no assignment satisfies together, as [`laws::refuted`] proves.
//! Negative hints, of steps by resolution asymmetric tautologies (RAT), are refused.
//!
//! The `reader` reads a line, the `checker` finds the clauses of its literals and hints, and the
//! `assignment` propagates. What a step assigned carries the step's number, so nothing is cleared
//! before the next one. A step that holds is put after the `steps` so far; going back through these
//! from the last one finds the core.
//!
//! A proof takes the time of its words and of the clauses that its hints name, and for each hint that of
//! a binary search where the steps' numbers have gaps. Deletions are passed over, so each step stays in
//! memory.
//!
//! It rests on the lines of `cudf_text` and on nothing else of CUDF.
#![tactic(auto)]

ghost use Rattle.cudf_lrat.specs.Laws.{RefutedIsCore};

mod assignment;
mod checker;
mod cnf;
mod details;
mod reader;
mod steps;

pub use checker::{Answer, ProofFault, check};
pub use cnf::{Cnf, Lists, Literal};
pub use details::{ProofDetail, fault_detail};

/// Laws of the definitions that the contracts of this crate cite. The functions do nothing: each
/// contract is a law, proved for every argument.
pub mod laws {
    /// Where a proof has a core, its numbers are those of clauses, and no assignment satisfies these.
    pub fn refuted()
        ensures { RefutedIsCore }
    {}
}

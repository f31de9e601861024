//! What a run is asked to do.

use crate::criteria::Aim;
use crate::key::Key;

/// One run's task.
#[derive(Clone, PartialEq, Eq, Drop)]
pub enum Job {
    /// Say whether the first input is a valid problem. All of it is the problem, also what follows its request.
    Lint {
        /// Whether the cause is added to the line of a fault, as `; nothing declares size` (own): not of the kinds E3, E5
        /// and E12, and of E13 only that the problem is empty. All other bytes are as without it.
        explain: bool,
    },
    /// Judge the solution, the second input, and list the violated instances: those whose keys come after `after`, where
    /// it is given, and at most `limit` of them; with 0 the page is empty. The verdict is of all instances.
    Check {
        after: Option<Key>,
        limit: Option<u64>,
        /// Whether the cause is added to the line of a fault, as for `Lint`, and to that of an instance (own): of the
        /// packages that alone satisfy what is needed the first that was installed, or else the first of all, as
        /// `; wheel 3 line 9 was installed` or `; wheel 3 line 9 would do`; the line of the package that meets an entry
        /// of conflicts or remove, and the first package that needs it; the first package of the name, where its version
        /// isn't in the problem; the numbers of an upgrade to several or to lower ones. All other bytes are as without it.
        explain: bool,
    },
    /// Judge the solution and count what it changes and lacks: the counts that `aims` name, each with its
    /// sign and in this order; or else those of the MISC competition's criteria, with its two vectors.
    Score {
        aims: Option<Vec<Aim>>,
    },
    /// Judge several solutions and rank them by these aims, the best first (own). The whole first input is the problem, and
    /// each other one a solution.
    Rank {
        aims: Vec<Aim>,
    },
    /// Print the rules of the problem as a CNF in DIMACS, for a SAT solver (own). The whole first input is the problem.
    Cnf,
    /// Judge the solution, the second input, and print a CNF that can be satisfied where some solution compares better by
    /// these aims: that of `Cnf`, with more variables and clauses after its own (own). The whole first input is the
    /// problem; without a second one the solution is empty.
    CnfBetter {
        aims: Vec<Aim>,
    },
    /// Check a proof, the second input, that the problem has no solution, against the CNF that `Cnf` prints (own). The
    /// whole first input is the problem; without a second one the proof is empty.
    Refute {
        /// Whether the cause is added to the line of a fault, as for `Lint`, to that of an instance of depends,
        /// install or upgrade, as for `Check`, and to that of a proof's fault (own). All other bytes are as
        /// without it.
        explain: bool,
    },
    /// Judge the solution, the third input, and check a proof, the second one, that no solution compares better by these
    /// aims, against the CNF that `CnfBetter` prints (own). The whole first input is the problem; without a second or a
    /// third one the proof or the solution is empty.
    RefuteBetter {
        aims: Vec<Aim>,
    },
}

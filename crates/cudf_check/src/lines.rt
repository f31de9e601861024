//! Prints the lines of reports. All memory is taken before the first line is printed.

mod better;
mod detail;
mod dimacs;
mod explanation;
mod instance;
mod judged;
mod naming;
mod ranks;
mod reasons;
mod scribe;

pub(crate) use better::{print_better, refute_better};
pub(crate) use dimacs::print_cnf;
pub(crate) use instance::package_at;
pub(crate) use judged::judge_solution;
pub(crate) use naming::print_faulty;
pub(crate) use ranks::{print_faulty_solution, print_ranking};
pub(crate) use reasons::report_refutation;

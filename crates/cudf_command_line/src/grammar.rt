//! The commands, their options and the texts of help.
ghost use Rattle.std.specs.Prelude.{◌≡◌, IfOk, List, false};
ghost use Rattle.clap.specs.Simple.{App, new_app, with_subcommand};
ghost use Rattle.clap.specs.Walk.{Rule};
ghost use Rattle.std.specs.List.{AllZip};
ghost use Rattle.cudf_command_line.specs.Grammar.{IsArgument, with_rules};
ghost use Rattle.clap.specs.Words.{rule_of};
ghost use Rattle.cudf_command_line.specs.Grammar.{problem_word, solution_word, after_option, limit_option, solutions_word, proof_word, better_option, criteria_option, needed_criteria, strict_flag, explain_flag, filename_flag, lint_grammar, check_grammar, score_grammar, rank_grammar, cnf_grammar, refute_grammar, grammar, IsOf};

use clap::{Arg, ArgAction, Command};
use std::alloc::{AllocError, Global};

/// The version of the program.
const VERSION: &str = "1.0.0";

pub(crate) const LINT: &str = "lint";

pub(crate) const CHECK: &str = "check";

pub(crate) const SCORE: &str = "score";

pub(crate) const RANK: &str = "rank";

pub(crate) const CNF: &str = "cnf";

pub(crate) const REFUTE: &str = "refute";

pub(crate) const PROBLEM: &str = "problem";

pub(crate) const SOLUTION: &str = "solution";

pub(crate) const SOLUTIONS: &str = "solutions";

pub(crate) const PROOF: &str = "proof";

pub(crate) const AFTER: &str = "after";

pub(crate) const LIMIT: &str = "limit";

pub(crate) const BETTER_THAN: &str = "better-than";

pub(crate) const CRITERIA: &str = "criteria";

pub(crate) const STRICT: &str = "strict";

pub(crate) const EXPLAIN: &str = "explain";

pub(crate) const WITH_FILENAME: &str = "with-filename";

const ABOUT_SCORE: &str = "Counts what an answer changes, by the criteria of the MISC competition";

const ABOUT_SCORE_LINES: &str =
    "Counts what an answer changes, by the criteria of the MISC competition.

  cudf_check score problem.cudf answer.cudf

prints these lines, and then whether the answer is a solution:
  removed           names installed before and not after
  new               names installed after and not before
  changed           names whose installed versions differ
  notuptodate       names installed after, but not in the greatest version
  unsat_recommends  unsatisfied clauses in recommends of installed packages
  paranoid          removed, changed: what the paranoid track minimises
  trendy            removed, notuptodate, unsat_recommends, new: what the
                    trendy track minimises";

const ABOUT_RANK: &str = "Ranks several answers to a problem by a list of criteria";

const ABOUT_RANK_LINES: &str = "Ranks several answers to a problem by a list of criteria.

  cudf_check rank --criteria=-removed,-changed problem.cudf *.answer.cudf

prints a line for each answer, the best first: its rank, its place among the
answers, and yes with its counts, or no, or FAIL. The list is one aim or more,
separated by commas, without blanks. An aim is - (minimise) or + (maximise),
and then removed, new, changed, notuptodate, unsat_recommends or touched
(packages installed before or after but not both). Solutions are compared by
the first aim whose counts differ. Ties keep the order of the files.";

const ABOUT_CNF: &str = "Prints the rules of a problem as a CNF, for a SAT solver";

const ABOUT_CNF_LINES: &str = "Prints the rules of a problem as a CNF, for a SAT solver.

  cudf_check cnf problem.cudf > cnf

It is in DIMACS: a comment for each package, such as c p1 car 1, with its
number, name and version, and clauses. A model installs the packages of its
positive numbers, and is a solution. refute checks a proof that there is none.

  cudf_check cnf problem.cudf --better-than=S --criteria=-removed > cnf

prints a CNF whose models are the solutions that are better than the answer S:
clauses over more variables follow those of the rules. For S that is not a
solution this prints solution no.";

const ABOUT_REFUTE: &str = "Checks a proof that a problem has no solution, or no better one";

const ABOUT_REFUTE_LINES: &str = "Checks a proof that a problem has no solution, or no better one.

  cudf_check cnf problem.cudf > cnf
  cadical --lrat --no-binary cnf proof
  cudf_check refute problem.cudf proof --explain

The proof is in LRAT's text form. If it holds, this prints rules of which every
answer violates one, and then no solution exists. Otherwise it prints the
proof's first error, which says nothing about the problem.

  cudf_check refute problem.cudf proof --better-than=S --criteria=-removed

checks a proof against the CNF that cnf prints for these options. If it holds,
this prints the counts of S, and then no better solution exists.";

const ABOUT_LINT: &str = "Checks that a file is a well-formed problem";

const ABOUT_LINT_LINES: &str = "Checks that a file is a well-formed problem.

  cudf_check lint problem.cudf --strict --explain

prints problem ok, or the problem's first error.";

const ABOUT_CHECK: &str = "Checks an answer, and prints every rule that it violates";

const ABOUT_CHECK_LINES: &str = "Checks an answer, and prints every rule that it violates.

  cudf_check check problem.cudf answer.cudf --strict --explain

prints a line for each violation, sorted by key, and then solution yes or
solution no. A key such as p1.depends.2 is the second clause in depends of the
problem's first package.";

const STATUSES: &str = "Exit status:
  0  the answer is a solution; lint: the problem is well-formed;
     rank: one of the answers is a solution; refute: the proof holds
  1  the answer isn't a solution; rank: none is, and not all say FAIL;
     refute: the proof has an error
  2  a document is malformed
  3  the answer says FAIL; rank: all do
  4  invalid arguments
  5  a file can't be read or written, or is too large, or a CNF is
  6  out of memory

man cudf_check has more.";

/// The program with its commands.
pub(crate) fn program<'w>(alloc: Global) -> Result<Command<'w>, AllocError>
    ensures { IfOk result (IsOf grammar) }
{
    let program = Command::new(alloc, "cudf_check")
        .about("Checks answers of package solvers to CUDF 2.0 problems")
        .after_help(STATUSES)
        .version(VERSION)
        .subcommand_required(true);
    let program = with_command(program, lint_command(alloc))?;
    let program = with_command(program, check_command(alloc))?;
    let program = with_command(program, score_command(alloc))?;
    let program = with_command(program, rank_command(alloc))?;
    let program = with_command(program, cnf_command(alloc))?;
    with_command(program, refute_command(alloc))
}

/// The program with one command more. Where both stand in `program`, each `?` there has two values to drop, which is dear to
/// prove.
fn with_command<'w>(
    program: Command<'w>,
    command: Result<Command<'w>, AllocError>,
) -> Result<Command<'w>, AllocError>
    ensures { (app sub : App) → IsOf app program.entry → IfOk command.entry (IsOf sub) → IfOk result (IsOf (with_subcommand app sub.top)) }
{
    program.subcommand(command?)
}

/// A command of this name, with its texts of help and its arguments.
fn new_command<'w>(
    alloc: Global,
    name: &'w str,
    about: &'w str,
    lines: &'w str,
    arguments: Vec<Arg<'w>>,
) -> Result<Command<'w>, AllocError>
    ensures { (rules : List Rule) → AllZip IsArgument arguments.entry.items rules → IfOk result (IsOf (with_rules (new_app name.now) rules)) }
{
    Command::new(alloc, name)
        .about(about)
        .long_about(lines)
        .after_help(STATUSES)
        .args(arguments)
}

fn lint_command<'w>(alloc: Global) -> Result<Command<'w>, AllocError>
    ensures { IfOk result (IsOf lint_grammar) }
{
    let arguments = vec![in alloc;
        problem(alloc),
        strict(alloc),
        explain(alloc),
        with_filename(alloc),
    ]?;
    new_command(alloc, LINT, ABOUT_LINT, ABOUT_LINT_LINES, arguments)
}

fn check_command<'w>(alloc: Global) -> Result<Command<'w>, AllocError>
    ensures { IfOk result (IsOf check_grammar) }
{
    let arguments = vec![in alloc;
        problem(alloc),
        solution(alloc),
        after(alloc),
        limit(alloc),
        strict(alloc),
        explain(alloc),
        with_filename(alloc),
    ]?;
    new_command(alloc, CHECK, ABOUT_CHECK, ABOUT_CHECK_LINES, arguments)
}

fn score_command<'w>(alloc: Global) -> Result<Command<'w>, AllocError>
    ensures { IfOk result (IsOf score_grammar) }
{
    let arguments = vec![in alloc;
        problem(alloc),
        solution(alloc),
        criteria(alloc),
        strict(alloc),
        with_filename(alloc),
    ]?;
    new_command(alloc, SCORE, ABOUT_SCORE, ABOUT_SCORE_LINES, arguments)
}

fn rank_command<'w>(alloc: Global) -> Result<Command<'w>, AllocError>
    ensures { IfOk result (IsOf rank_grammar) }
{
    let arguments = vec![in alloc;
        problem(alloc),
        solutions(alloc),
        needed_criteria(alloc),
        strict(alloc),
        with_filename(alloc),
    ]?;
    new_command(alloc, RANK, ABOUT_RANK, ABOUT_RANK_LINES, arguments)
}

fn cnf_command<'w>(alloc: Global) -> Result<Command<'w>, AllocError>
    ensures { IfOk result (IsOf cnf_grammar) }
{
    let arguments = vec![in alloc;
        problem(alloc),
        better_than(alloc),
        compared(alloc),
        strict(alloc),
    ]?;
    new_command(alloc, CNF, ABOUT_CNF, ABOUT_CNF_LINES, arguments)
}

fn refute_command<'w>(alloc: Global) -> Result<Command<'w>, AllocError>
    ensures { IfOk result (IsOf refute_grammar) }
{
    let arguments = vec![in alloc;
        problem(alloc),
        proof(alloc),
        better_than(alloc),
        compared(alloc),
        strict(alloc),
        explain(alloc),
    ]?;
    new_command(alloc, REFUTE, ABOUT_REFUTE, ABOUT_REFUTE_LINES, arguments)
}

fn problem<'w>(alloc: Global) -> Arg<'w>
    ensures rule { rule_of result ≡ problem_word }
    ensures local { result.global ≡ false }
{
    Arg::new(alloc, PROBLEM)
        .value_name("P")
        .help("The problem; - is standard input")
        .required(true)
}

fn solution<'w>(alloc: Global) -> Arg<'w>
    ensures rule { rule_of result ≡ solution_word }
    ensures local { result.global ≡ false }
{
    Arg::new(alloc, SOLUTION).value_name("S").help(
        "The answer; without it, the answer follows the problem in P",
    )
}

fn solutions<'w>(alloc: Global) -> Arg<'w>
    ensures rule { rule_of result ≡ solutions_word }
    ensures local { result.global ≡ false }
{
    let files = Arg::new(alloc, SOLUTIONS)
        .value_name("S")
        .help("The answers");
    files.num_args(1..).required(true)
}

fn proof<'w>(alloc: Global) -> Arg<'w>
    ensures rule { rule_of result ≡ proof_word }
    ensures local { result.global ≡ false }
{
    Arg::new(alloc, PROOF)
        .value_name("PROOF")
        .help("The proof, in LRAT's text form; - is standard input")
        .required(true)
}

fn after<'w>(alloc: Global) -> Arg<'w>
    ensures rule { rule_of result ≡ after_option }
    ensures local { result.global ≡ false }
{
    Arg::new(alloc, AFTER)
        .long(AFTER)
        .value_name("KEY")
        .help("Prints only violations with greater keys")
}

fn limit<'w>(alloc: Global) -> Arg<'w>
    ensures rule { rule_of result ≡ limit_option }
    ensures local { result.global ≡ false }
{
    Arg::new(alloc, LIMIT)
        .long(LIMIT)
        .value_name("N")
        .help("Prints at most N violations")
}

fn criteria<'w>(alloc: Global) -> Arg<'w>
    ensures rule { rule_of result ≡ criteria_option }
    ensures local { result.global ≡ false }
{
    Arg::new(alloc, CRITERIA)
        .long(CRITERIA)
        .value_name("LIST")
        .help("The counts to print, as in --criteria=-removed,+new")
}

fn compared<'w>(alloc: Global) -> Arg<'w>
    ensures rule { rule_of result ≡ criteria_option }
    ensures local { result.global ≡ false }
{
    criteria(alloc).help("The counts to compare, as in --criteria=-removed,+new")
}

fn needed_criteria<'w>(alloc: Global) -> Arg<'w>
    ensures rule { rule_of result ≡ needed_criteria }
    ensures local { result.global ≡ false }
{
    compared(alloc).required(true)
}

fn better_than<'w>(alloc: Global) -> Arg<'w>
    ensures rule { rule_of result ≡ better_option }
    ensures local { result.global ≡ false }
{
    Arg::new(alloc, BETTER_THAN)
        .long(BETTER_THAN)
        .value_name("S")
        .help("Only solutions better than S, by --criteria")
}

fn strict<'w>(alloc: Global) -> Arg<'w>
    ensures rule { rule_of result ≡ strict_flag }
    ensures local { result.global ≡ false }
{
    Arg::new(alloc, STRICT)
        .long(STRICT)
        .action(ArgAction::SetTrue)
        .help("Also rejects what the standard forbids")
}

fn explain<'w>(alloc: Global) -> Arg<'w>
    ensures rule { rule_of result ≡ explain_flag }
    ensures local { result.global ≡ false }
{
    Arg::new(alloc, EXPLAIN)
        .long(EXPLAIN)
        .action(ArgAction::SetTrue)
        .help("Adds the cause to each line")
}

fn with_filename<'w>(alloc: Global) -> Arg<'w>
    ensures rule { rule_of result ≡ filename_flag }
    ensures local { result.global ≡ false }
{
    Arg::new(alloc, WITH_FILENAME)
        .short('H')
        .long(WITH_FILENAME)
        .action(ArgAction::SetTrue)
        .help("Begins lines with FILE:LINE:, for editors and CI")
}

//! Prints a CNF in DIMACS.
ghost use Rattle.std.specs.Prelude.{map};
ghost use Rattle.std.specs.List.{flat_map, enumerate_from};
ghost use Rattle.cudf_problem.specs.Promises.Views.{package_view};
ghost use Rattle.cudf_check.specs.Report.{clause_line, cnf_answer, dimacs, header_line, literal_text, package_comment};
ghost use Rattle.cudf_device.specs.Promises.PaperInside.{Prints, Says};

use cudf_cnf::encode_rules;
use cudf_device::{Outcome, Paper, Sink};
use cudf_document::{Package, Problem};
use cudf_lrat::{Cnf, Literal};
use std::alloc::{AllocError, Global};

/// Prints the comment for a package at a place.
fn print_package<W: Sink>(paper: &mut Paper<'_, W>, place: u64, package: &Package<'_>)
    ensures { Says W.state paper.old paper.new (package_comment (place, package_view «package».now)) }
{
    paper.text("c p");
    paper.number(place);
    paper.text(" ");
    paper.text(package.name);
    paper.text(" ");
    paper.number(package.version);
    paper.text("\n");
}

/// Prints a comment for each package.
fn print_packages<W: Sink>(paper: &mut Paper<'_, W>, packages: &[Package<'_>])
    ensures { Says W.state paper.old paper.new (flat_map package_comment (enumerate_from 1 (map package_view packages.now))) }
{
    for (index, package) in packages.iter().enumerate() {
        print_package(paper, index as u64 + 1, package);
    }
}

/// Prints how many variables and clauses there are.
fn print_header<W: Sink>(paper: &mut Paper<'_, W>, variables: u64, clauses: u64)
    ensures { Says W.state paper.old paper.new (header_line variables clauses) }
{
    paper.text("p cnf ");
    paper.number(variables);
    paper.text(" ");
    paper.number(clauses);
    paper.text("\n");
}

/// Prints a literal and a blank.
fn print_literal<W: Sink>(paper: &mut Paper<'_, W>, literal: Literal)
    ensures { Says W.state paper.old paper.new (literal_text literal) }
{
    let sign = if literal.positive { "" } else { "-" };
    paper.text(sign);
    paper.number(u64::from(literal.variable));
    paper.text(" ");
}

/// Prints the literals, each with a blank.
fn print_literals<W: Sink>(paper: &mut Paper<'_, W>, literals: &[Literal])
    ensures { Says W.state paper.old paper.new (flat_map literal_text literals.now) }
{
    for literal in literals {
        print_literal(paper, *literal);
    }
}

/// Prints the line of a clause.
fn print_clause<W: Sink>(paper: &mut Paper<'_, W>, literals: &[Literal])
    ensures { Says W.state paper.old paper.new (clause_line literals.now) }
{
    print_literals(paper, literals);
    paper.text("0\n");
}

/// Prints a line for each clause.
fn print_clauses<W: Sink>(paper: &mut Paper<'_, W>, cnf: &Cnf)
    ensures { Says W.state paper.old paper.new (flat_map clause_line cnf.now.clauses) }
{
    for index in 0..cnf.len() {
        print_clause(paper, cnf.clause(index + 1));
    }
}

/// Prints clauses, whose first variables are these packages.
pub(crate) fn print_dimacs<W: Sink>(paper: &mut Paper<'_, W>, packages: &[Package<'_>], cnf: &Cnf)
    ensures { Says W.state paper.old paper.new (dimacs (map package_view packages.now) cnf.now) }
{
    print_packages(paper, packages);
    print_header(paper, u64::from(cnf.variables()), u64::from(cnf.len()));
    print_clauses(paper, cnf);
}

/// Prints the CNF of a problem, unless it is too large.
pub(crate) fn print_cnf<W: Sink>(
    paper: &mut Paper<'_, W>,
    alloc: Global,
    problem: &Problem<'_>,
) -> Result<Outcome, AllocError>
    ensures { Prints W.state paper.old paper.new (cnf_answer problem.now) result }
{
    match encode_rules(alloc, problem) {
        Ok(Some(clauses)) => {
            print_dimacs(paper, problem.packages(), clauses.cnf());
            Ok(Outcome::Yes)
        }
        Ok(None) => Ok(Outcome::TooLarge),
        Err(error) => Err(error),
    }
}

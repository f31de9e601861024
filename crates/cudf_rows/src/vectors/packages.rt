//! How a problem is shown.
use super::shown::{push_clauses, push_vpkgs};
use cudf_document::{Keep, Package, Problem, Request};
use cudf_value::{Formula, VpkgList};
use std::alloc::{AllocError, Global};

/// Adds a name and the vpkgs after it, where there are some.
fn push_named(out: &mut String, name: &str, list: VpkgList<'_>) -> Result<(), AllocError> {
    if list.len() == 0 {
        return Ok(());
    }
    write!(out, " {name} ")?;
    push_vpkgs(out, list)
}

/// Adds a package as `LINE NAME VERSION`, then what isn't the default.
fn push_package(out: &mut String, package: &Package<'_>) -> Result<(), AllocError> {
    write!(out, "{} {} {}", package.line, package.name, package.version)?;
    if package.depends.clauses().next().is_some() {
        push_formula(out, " depends ", Some(package.depends))?;
    }
    push_named(out, "conflicts", package.conflicts)?;
    push_named(out, "provides", package.provides)?;
    out.push_str(if package.installed { " installed" } else { "" })?;
    out.push_str(match package.keep {
        Keep::Version => " keep version",
        Keep::Package => " keep package",
        Keep::Feature => " keep feature",
        Keep::Nothing => "",
    })?;
    push_formula(out, " says recommends ", package.recommends)
}

/// Adds a formula, if there is one.
fn push_formula(
    out: &mut String,
    name: &str,
    formula: Option<Formula<'_>>,
) -> Result<(), AllocError> {
    match formula {
        Some(formula) => {
            out.push_str(name)?;
            push_clauses(out, formula)
        }
        None => Ok(()),
    }
}

/// What the package of this place recommends, where there is one.
fn recommends_at<'t>(problem: &Problem<'t>, place: u64) -> Option<Formula<'t>> {
    if place == 0 || place > problem.packages().len() as u64 {
        return None;
    }
    problem.recommends(place)
}

/// Adds a request as its line and its lists that aren't empty.
fn push_request(out: &mut String, request: &Request<'_>) -> Result<(), AllocError> {
    write!(out, "{} request", request.line)?;
    push_named(out, "install", request.install)?;
    push_named(out, "remove", request.remove)?;
    push_named(out, "upgrade", request.upgrade)
}

/// A problem as its packages and its request, with a semicolon between each two.
pub(crate) fn shown(alloc: Global, problem: &Problem<'_>) -> Result<String, AllocError> {
    let mut shown = String::new(alloc);
    for (before, package) in problem.packages().iter().enumerate() {
        let place = (before as u64).saturating_add(1);
        push_package(&mut shown, package)?;
        push_formula(&mut shown, " recommends ", recommends_at(problem, place))?;
        shown.push_str("; ")?;
    }
    push_request(&mut shown, problem.request())?;
    Ok(shown)
}

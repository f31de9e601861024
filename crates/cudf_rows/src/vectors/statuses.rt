//! Calls about what a problem's initial status gives and satisfies.
use super::shown::{push_list, yes_if};
use super::solutions::places;
use cudf_document::{Problem, Status, initial};
use cudf_index::Index;
use cudf_value::{read_formula, read_vpkg};
use std::alloc::{AllocError, Global};

/// The answer to a call about the text and the status.
pub(crate) fn answer(
    alloc: Global,
    call: &str,
    text: &str,
    problem: &Problem<'_>,
) -> Result<String, AllocError> {
    let status = initial(alloc, problem)?;
    match call {
        "initial" => shown(alloc, problem, &status),
        _ => answer_by(alloc, call, text, &Index::build(alloc, problem, &status)?),
    }
}

fn answer_by(
    alloc: Global,
    call: &str,
    text: &str,
    index: &Index<'_, '_>,
) -> Result<String, AllocError> {
    match call {
        "satisfied" => satisfied(alloc, index, text),
        "clause" => clause(alloc, index, text),
        "numbers" => ends(alloc, index.least(text), index.greatest(text)),
        _ => String::from_str(alloc, "no such call"),
    }
}

fn shown(alloc: Global, problem: &Problem<'_>, status: &Status) -> Result<String, AllocError> {
    let mut shown = String::new(alloc);
    push_list(&mut shown, &places(alloc, problem, status)?)?;
    Ok(shown)
}

/// Adds whether a status satisfies a vpkg, and the first place that meets it.
fn push_met(out: &mut String, is_satisfied: bool, first: Option<u64>) -> Result<(), AllocError> {
    out.push_str(if is_satisfied { "yes" } else { "no" })?;
    if let Some(place) = first {
        write!(out, " by {place}")?;
    }
    Ok(())
}

/// Whether the status satisfies the vpkg, and whether it does without the package of place 1.
fn satisfied(alloc: Global, index: &Index<'_, '_>, text: &str) -> Result<String, AllocError> {
    let mut shown = String::new(alloc);
    match read_vpkg(text) {
        Some(vpkg) => {
            push_met(
                &mut shown,
                index.satisfies(&vpkg),
                index.first_meeting(&vpkg, None),
            )?;
            shown.push_str(", without 1 ")?;
            let is_satisfied = index.satisfies_without(&vpkg, 1);
            push_met(
                &mut shown,
                is_satisfied,
                index.first_meeting(&vpkg, Some(1)),
            )?;
        }
        None => shown.push_str("no vpkg")?,
    }
    Ok(shown)
}

/// Whether the status satisfies the formula's first clause.
fn clause(alloc: Global, index: &Index<'_, '_>, text: &str) -> Result<String, AllocError> {
    match read_formula(text) {
        Some(formula) => match formula.clauses().next() {
            Some(clause) => yes_if(alloc, index.satisfies_clause(&clause)),
            None => String::from_str(alloc, "no clause"),
        },
        None => String::from_str(alloc, "no formula"),
    }
}

/// The least and the greatest number of a name.
fn ends(alloc: Global, least: Option<u64>, greatest: Option<u64>) -> Result<String, AllocError> {
    match (least, greatest) {
        (Some(least), Some(greatest)) => format!(in alloc; "{least} to {greatest}"),
        (None, None) => String::from_str(alloc, "none"),
        _ => String::from_str(alloc, "one end"),
    }
}

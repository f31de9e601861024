//! How answers are shown.
use cudf_value::{Formula, VpkgList};
use std::alloc::{AllocError, Global};
use std::fmt::Display;

/// Adds values between brackets, with a comma between each two.
pub(crate) fn push_list<T: Display>(out: &mut String, values: &[T]) -> Result<(), AllocError> {
    out.push_str("[")?;
    for (before, value) in values.iter().enumerate() {
        out.push_str(if before == 0 { "" } else { ", " })?;
        write!(out, "{value}")?;
    }
    out.push_str("]")?;
    Ok(())
}

/// Adds the clauses of a formula between brackets, with a comma between each two.
pub(crate) fn push_clauses(out: &mut String, formula: Formula<'_>) -> Result<(), AllocError> {
    out.push_str("[")?;
    let mut is_first = true;
    for clause in formula.clauses() {
        out.push_str(if is_first { "" } else { ", " })?;
        write!(out, "{clause}")?;
        is_first = false;
    }
    out.push_str("]")?;
    Ok(())
}

/// Adds the vpkgs of a list between brackets, with a comma between each two.
pub(crate) fn push_vpkgs(out: &mut String, list: VpkgList<'_>) -> Result<(), AllocError> {
    out.push_str("[")?;
    let mut is_first = true;
    for vpkg in list.vpkgs() {
        out.push_str(if is_first { "" } else { ", " })?;
        write!(out, "{vpkg}")?;
        is_first = false;
    }
    out.push_str("]")?;
    Ok(())
}

/// The value, or what is said where there is none.
pub(crate) fn shown_or<T: Display + Drop>(
    alloc: Global,
    value: Option<T>,
    none: &str,
) -> Result<String, AllocError> {
    match value {
        Some(value) => value.to_string(alloc),
        None => String::from_str(alloc, none),
    }
}

/// `yes` or `no`.
pub(crate) fn yes_if(alloc: Global, is_so: bool) -> Result<String, AllocError> {
    String::from_str(alloc, if is_so { "yes" } else { "no" })
}

/// What two ways answer: once where it is the same.
pub(crate) fn agreed(alloc: Global, one: String, other: String) -> Result<String, AllocError> {
    if one.as_str() == other.as_str() {
        return Ok(one);
    }
    format!(in alloc; "{one}, or else {other}")
}

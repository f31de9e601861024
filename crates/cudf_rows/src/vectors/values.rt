//! Calls that read values, keys and lists of criteria, and whether a text says FAIL.
use super::shown::{agreed, push_clauses, push_list, push_vpkgs, shown_or, yes_if};
use cudf_referee::{Aim, Key, read_criterion};
use cudf_text::is_fail;
use cudf_value::{
    Declaration, ValueType, VpkgList, fits, is_ident, is_of_type, is_pkgname, meets, read_bool,
    read_declarations, read_formula, read_int, read_nat, read_posint, read_veqpkg, read_veqpkglist,
    read_vpkg, read_vpkglist,
};
use std::alloc::{AllocError, Global};

/// The answer where a text isn't of the type.
const OTHER: &str = "not of the type";

/// The answer to a call about a text.
pub(crate) fn answer(alloc: Global, call: &str, text: &str) -> Result<String, AllocError> {
    match call {
        "posint" => shown_or(alloc, read_posint(text), OTHER),
        "nat" => shown_or(alloc, read_nat(text), OTHER),
        "int" => shown_or(alloc, read_int(text), OTHER),
        "bool" => shown_or(alloc, read_bool(text), OTHER),
        "ident" => yes_if(alloc, is_ident(text)),
        "pkgname" => yes_if(alloc, is_pkgname(text)),
        "vpkg" => shown_or(alloc, read_vpkg(text), OTHER),
        "veqpkg" => shown_or(alloc, read_veqpkg(text), OTHER),
        "vpkglist" => list(
            alloc,
            read_vpkglist(text),
            fits(alloc, &ValueType::List, text)?,
        ),
        "veqpkglist" => list(
            alloc,
            read_veqpkglist(text),
            fits(alloc, &ValueType::ExactList, text)?,
        ),
        "formula" => formula(alloc, text),
        "declarations" => declarations(alloc, text),
        "fits" => fitting(alloc, text),
        "meets" => meeting(alloc, text),
        "fail" => yes_if(alloc, is_fail(text)),
        "key" => shown_or(alloc, Key::parse(text), "not a key"),
        "criterion" => criterion(alloc, text),
        _ => String::from_str(alloc, "no such call"),
    }
}

/// A list as it was read.
fn list(alloc: Global, list: Option<VpkgList<'_>>, is_list: bool) -> Result<String, AllocError> {
    let is_read = list.is_some();
    let mut shown = String::new(alloc);
    match list {
        Some(list) => push_vpkgs(&mut shown, list)?,
        None => shown.push_str(OTHER)?,
    }
    with_test(shown, is_read, is_list)
}

/// What was read, and after it the test where this tells otherwise.
fn with_test(shown: String, is_read: bool, is_of_type: bool) -> Result<String, AllocError> {
    let mut shown = shown;
    if is_read != is_of_type {
        write!(&mut shown, ", or else {is_of_type}")?;
    }
    Ok(shown)
}

fn formula(alloc: Global, text: &str) -> Result<String, AllocError> {
    let mut shown = String::new(alloc);
    let is_formula = fits(alloc, &ValueType::Formula, text)?;
    match read_formula(text) {
        Some(formula) => {
            push_clauses(&mut shown, formula)?;
            with_test(shown, true, is_formula)
        }
        None => {
            shown.push_str(OTHER)?;
            with_test(shown, false, is_formula)
        }
    }
}

/// Adds a type as it is written in a declaration.
fn push_type(out: &mut String, kind: &ValueType<'_>) -> Result<(), AllocError> {
    out.push_str(match kind {
        ValueType::Positive => "posint",
        ValueType::Natural => "nat",
        ValueType::Signed => "int",
        ValueType::Truth => "bool",
        ValueType::Words => "string",
        ValueType::Name => "pkgname",
        ValueType::Ident => "ident",
        ValueType::Choice(_) => "enum",
        ValueType::Versioned => "vpkg",
        ValueType::Exact => "veqpkg",
        ValueType::Formula => "vpkgformula",
        ValueType::List => "vpkglist",
        ValueType::ExactList => "veqpkglist",
    })?;
    match kind {
        ValueType::Choice(idents) => push_list(out, idents),
        _ => Ok(()),
    }
}

/// Adds a declaration as `NAME: TYPE`, with ` = <DEFAULT>` after it where there is one.
fn push_declaration(out: &mut String, declaration: &Declaration<'_>) -> Result<(), AllocError> {
    write!(out, "{}: ", declaration.name)?;
    push_type(out, &declaration.kind)?;
    if let Some(default) = declaration.default {
        write!(out, " = <{default}>")?;
    }
    Ok(())
}

/// Declarations between brackets, with a semicolon between each two.
fn declarations(alloc: Global, text: &str) -> Result<String, AllocError> {
    match read_declarations(alloc, text)? {
        Some(declarations) => shown_declarations(alloc, &declarations),
        None => String::from_str(alloc, "bad declaration"),
    }
}

fn shown_declarations(
    alloc: Global,
    declarations: &[Declaration<'_>],
) -> Result<String, AllocError> {
    let mut shown = String::from_str(alloc, "[")?;
    for (before, declaration) in declarations.iter().enumerate() {
        shown.push_str(if before == 0 { "" } else { "; " })?;
        push_declaration(&mut shown, declaration)?;
    }
    shown.push_str("]")?;
    Ok(shown)
}

/// Whether a text is of a type, where the type, a space and the text are given.
fn fitting(alloc: Global, text: &str) -> Result<String, AllocError> {
    let (kind, value) = text.split_once(' ').unwrap_or((text, ""));
    let declaration = format!(in alloc; "a: {kind}")?;
    match read_declarations(alloc, declaration.as_str())? {
        Some(declarations) => match declarations.first() {
            Some(declared) => is_fitting(alloc, &declared.kind, value),
            None => String::from_str(alloc, "no such type"),
        },
        None => String::from_str(alloc, "no such type"),
    }
}

fn is_fitting(alloc: Global, kind: &ValueType<'_>, value: &str) -> Result<String, AllocError> {
    let fitting = yes_if(alloc, fits(alloc, kind, value)?)?;
    let trimmed = value.trim_matches([' ', '\t']);
    agreed(alloc, fitting, yes_if(alloc, is_of_type(kind, trimmed))?)
}

/// Whether a number meets the bound of a vpkg, where the number, a space and the vpkg are given.
fn meeting(alloc: Global, text: &str) -> Result<String, AllocError> {
    let (number, vpkg) = text.split_once(' ').unwrap_or((text, ""));
    match (read_nat(number), read_vpkg(vpkg)) {
        (Some(number), Some(vpkg)) => yes_if(alloc, meets(vpkg.bound, number)),
        _ => String::from_str(alloc, "no number and vpkg"),
    }
}

/// The aims of a list.
fn criterion(alloc: Global, text: &str) -> Result<String, AllocError> {
    match read_criterion(alloc, text)? {
        Some(aims) => shown_aims(alloc, &aims),
        None => String::from_str(alloc, "not a list"),
    }
}

fn shown_aims(alloc: Global, aims: &[Aim]) -> Result<String, AllocError> {
    let mut shown = String::from_str(alloc, "[")?;
    for (before, aim) in aims.iter().enumerate() {
        shown.push_str(if before == 0 { "" } else { ", " })?;
        write!(&mut shown, "{}{}", aim.sign.text(), aim.count.text())?;
    }
    shown.push_str("]")?;
    Ok(shown)
}

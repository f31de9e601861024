//! Calls about the text of documents.
use crate::notation::push_written;
use cudf_text::{Property, Stanza, Text, cut_joined, read};
use std::alloc::{AllocError, Global};
use std::borrow::CowStr;

/// The problem and the solution of one input, each between angle brackets.
pub(crate) fn joined(alloc: Global, bytes: &[u8]) -> Result<String, AllocError> {
    let (problem, solution) = cut_joined(bytes);
    let mut shown = String::from_str(alloc, "<")?;
    push_written(&mut shown, problem)?;
    shown.push_str("><")?;
    push_written(&mut shown, solution)?;
    shown.push_str(">")?;
    Ok(shown)
}

/// Adds a property as `LINE NAME <VALUE>`, with `joined` after a value that is no part of the source.
fn push_property(out: &mut String, property: &Property<'_>) -> Result<(), AllocError> {
    write!(out, ", {} {} <", property.line, property.name)?;
    push_written(out, property.value.as_str().as_bytes())?;
    out.push_str(match property.value {
        CowStr::Borrowed(_) => ">",
        CowStr::Owned(_) => "> joined",
    })?;
    Ok(())
}

/// Adds a stanza as ` [FIRST to LAST, PROPERTY, ..]`.
fn push_stanza(out: &mut String, stanza: &Stanza<'_>) -> Result<(), AllocError> {
    write!(out, " [{} to {}", stanza.line, stanza.last)?;
    for property in &stanza.properties {
        push_property(out, property)?;
    }
    out.push_str("]")?;
    Ok(())
}

/// A text as the number of its lines, its stanzas and its faulty line.
fn shown_text(alloc: Global, text: &Text<'_>) -> Result<String, AllocError> {
    let mut shown = format!(in alloc; "{} lines", text.lines)?;
    for stanza in &text.stanzas {
        push_stanza(&mut shown, stanza)?;
    }
    if let Some(fault) = text.fault {
        write!(&mut shown, " {fault}")?;
    }
    Ok(shown)
}

/// What is read of these bytes.
pub(crate) fn text(alloc: Global, bytes: &[u8]) -> Result<String, AllocError> {
    match read(alloc, bytes) {
        Ok(text) => shown_text(alloc, &text),
        Err(error) => error.to_string(alloc),
    }
}

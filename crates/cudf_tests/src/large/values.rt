//! Values of many bytes and lines, and of many entries.
use super::with_parts;
use crate::table::{Answer, assert_rows};
use cudf_text::{Text, read};
use cudf_value::{read_formula, read_veqpkglist, read_vpkglist};
use std::alloc::Global;

/// The bytes of a value's first line, how many lines of one byte continue it, and the bytes of the value.
type Joined = (u64, u64, usize);

const JOINED: [Joined; 17] = [
    (79, 0, 79),
    (80, 0, 80),
    (81, 0, 81),
    (5000, 0, 5000),
    (100_000, 0, 100_000),
    (0, 1, 1),
    (0, 2, 3),
    (1, 1, 3),
    (79, 1, 81),
    (80, 1, 82),
    (81, 1, 83),
    (200, 1, 202),
    (5000, 1, 5002),
    (100_000, 1, 100_002),
    (1, 5000, 10_001),
    (81, 2, 85),
    (5000, 5000, 15_000),
];

fn is_joined(alloc: Global, row: &Joined) -> Answer {
    let first = with_parts(alloc, "a: ", "x", row.0)?;
    is_continued(alloc, first.as_str(), row)
}

fn is_continued(alloc: Global, first: &str, row: &Joined) -> Answer {
    let source = with_parts(alloc, first, "\n y", row.1)?;
    is_source(alloc, source.as_str(), row.2)
}

fn is_source(alloc: Global, source: &str, bytes: usize) -> Answer {
    let text = read(alloc, source.as_bytes())?;
    Ok(text.source == source && has_value(&text, bytes))
}

/// Whether the text has one property, and its value so many bytes.
fn has_value(text: &Text<'_>, bytes: usize) -> bool {
    match text.stanzas.as_slice() {
        [stanza] => match stanza.properties.as_slice() {
            [property] => property.value.as_str().len() == bytes,
            _ => false,
        },
        _ => false,
    }
}

#[test]
fn joined_values(rt: HostRuntime) {
    assert_rows(&rt, rt.alloc(), &JOINED, is_joined);
}

const COUNTS: [u64; 8] = [1, 2, 63, 64, 65, 100, 1000, 5000];

/// Whether so many entries are a list, and a formula, of so many, and so many atoms a clause of so many.
fn has_entries(alloc: Global, count: &u64) -> Answer {
    Ok(is_list(alloc, *count)? && is_clause(alloc, *count)?)
}

fn is_list(alloc: Global, count: u64) -> Answer {
    let text = with_parts(alloc, "a = 1", ", a = 1", count.saturating_sub(1))?;
    Ok(has_vpkgs(text.as_str(), count) && has_clauses(text.as_str(), count))
}

fn has_vpkgs(text: &str, count: u64) -> bool {
    match (read_vpkglist(text), read_veqpkglist(text)) {
        (Some(list), Some(exact)) => list.len() as u64 == count && exact.len() as u64 == count,
        _ => false,
    }
}

fn has_clauses(text: &str, count: u64) -> bool {
    match read_formula(text) {
        Some(formula) => formula.clauses().take(9999).count() as u64 == count,
        None => false,
    }
}

fn is_clause(alloc: Global, count: u64) -> Answer {
    let text = with_parts(alloc, "a = 1", " | a = 1", count.saturating_sub(1))?;
    Ok(has_clauses(text.as_str(), 1) && has_atoms(text.as_str(), count))
}

/// Whether the first clause of the formula has so many atoms.
fn has_atoms(text: &str, count: u64) -> bool {
    match read_formula(text) {
        Some(formula) => match formula.clauses().next() {
            Some(clause) => clause.atoms().take(9999).count() as u64 == count,
            None => false,
        },
        None => false,
    }
}

#[test]
fn entries(rt: HostRuntime) {
    assert_rows(&rt, rt.alloc(), &COUNTS, has_entries);
}

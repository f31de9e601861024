//! Whole listings, walked page by page from each printed key.
use super::answer::{Answer, answer_once};
use super::asked::Asked;
use super::document::Documents;
use cudf_check::{Job, Key, Mode};
use std::alloc::{AllocError, Global};
use std::str;

/// More pages than a listing here has.
const MOST_PAGES: u64 = 2_000;

/// Compares the answer of a check with its pages of 1, of 2 and of 3 lines.
pub(crate) fn compare_pages(
    alloc: Global,
    documents: &Documents,
    found: &mut Answer,
) -> Result<(), AllocError> {
    for limit in 1..=3u64 {
        let joined = joined_pages(alloc, documents, limit, found.status)?;
        found.compare("by pages:\n", &joined)?;
    }
    Ok(())
}

/// The pages of this length, joined: each is continued from the key that the one before it printed. One that ends with
/// another status is the last.
fn joined_pages(
    alloc: Global,
    documents: &Documents,
    limit: u64,
    status: u8,
) -> Result<Answer, AllocError> {
    let mut whole = Answer {
        status,
        report: Vec::new(alloc),
    };
    let mut after = None;
    for _ in 0..MOST_PAGES {
        after = add_page(alloc, documents, &mut whole, after, limit)?;
        if after.is_none() || whole.status != status {
            return Ok(whole);
        }
    }
    Ok(whole)
}

/// Adds a page, and gives the key that it is continued from.
fn add_page(
    alloc: Global,
    documents: &Documents,
    whole: &mut Answer,
    after: Option<Key>,
    limit: u64,
) -> Result<Option<Key>, AllocError> {
    let page = page(alloc, documents, after, limit)?;
    let (lines, next) = cut_page(str::from_utf8(&page.report).unwrap_or(""));
    whole.status = page.status;
    whole.report.extend_from_slice(lines.as_bytes())?;
    Ok(next)
}

/// The answer of a page.
fn page(
    alloc: Global,
    documents: &Documents,
    after: Option<Key>,
    limit: u64,
) -> Result<Answer, AllocError> {
    let job = Job::Check {
        after,
        limit: Some(limit),
        explain: false,
    };
    let asked = Asked {
        job,
        mode: Mode::Lenient,
        names_files: false,
        is_also_long: false,
        is_also_paged: false,
    };
    answer_once(alloc, &asked, &documents.problem, &documents.solutions)
}

/// What is before the line of the key that the page is continued from, and that key.
fn cut_page(report: &str) -> (&str, Option<Key>) {
    match report.split_once("more after ") {
        Some((lines, rest)) => match rest.split_once("\n") {
            Some((key, _)) => (lines, Key::parse(key)),
            None => (lines, None),
        },
        None => (report, None),
    }
}

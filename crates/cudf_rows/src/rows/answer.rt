//! What runs on the documents of a row write, and how they end.
use super::asked::Asked;
use super::document::Documents;
use super::pages::compare_pages;
use cudf_check::{Device, Named, run};
use std::alloc::{AllocError, Global};

/// The bytes of a long comment, more than eight times those of each solution.
const COMMENT: usize = 2000;

/// The exit status, and what was written.
#[derive(Drop)]
pub(crate) struct Answer {
    pub(crate) status: u8,
    pub(crate) report: Vec<u8>,
}

impl Answer {
    /// Adds the report of another run, if this answers otherwise.
    pub(crate) fn compare(&mut self, how: &str, other: &Answer) -> Result<(), AllocError> {
        if other.status != self.status || other.report.as_slice() != self.report.as_slice() {
            self.report.extend_from_slice(how.as_bytes())?;
            self.report.extend_from_slice(&other.report)?;
        }
        Ok(())
    }
}

/// The answer, and what other runs that the row asks for answer otherwise.
pub(crate) fn answers(
    alloc: Global,
    asked: &Asked,
    documents: &Documents,
) -> Result<Answer, AllocError> {
    let mut found = answer_once(alloc, asked, &documents.problem, &documents.solutions)?;
    if asked.is_also_long {
        compare_long(alloc, asked, documents, &mut found)?;
    }
    if asked.is_also_paged {
        compare_pages(alloc, documents, &mut found)?;
    }
    Ok(found)
}

/// Compares the answer with that beside a long problem.
fn compare_long(
    alloc: Global,
    asked: &Asked,
    documents: &Documents,
    found: &mut Answer,
) -> Result<(), AllocError> {
    let problem = with_comment(alloc, &documents.problem)?;
    let again = answer_once(alloc, asked, &problem, &documents.solutions)?;
    found.compare("beside a long problem:\n", &again)
}

/// The problem with a comment after its last line.
fn with_comment(alloc: Global, problem: &[u8]) -> Result<Vec<u8>, AllocError> {
    let dots = vec![in alloc; b'.'; COMMENT]?;
    let mut bytes = Vec::from_slice(alloc, problem)?;
    bytes.extend_from_slice(b"\n#")?;
    bytes.extend_from_slice(&dots)?;
    Ok(bytes)
}

/// The answer of one run.
pub(crate) fn answer_once(
    alloc: Global,
    asked: &Asked,
    problem: &[u8],
    solutions: &[Vec<u8>],
) -> Result<Answer, AllocError> {
    let names = names(alloc, solutions.len())?;
    let mut input = Named::new(Device::new(problem), asked.names_files.then_some("P"));
    let mut proposed = sources(alloc, asked, solutions, &names)?;
    let mut out = Device::new(Vec::new(alloc));
    let status = match run(
        alloc,
        &asked.job,
        asked.mode,
        &mut input,
        &mut proposed,
        &mut out,
    ) {
        Ok(outcome) => outcome.status(),
        Err(error) => error.status(),
    };
    Ok(Answer {
        status,
        report: out.into_inner(),
    })
}

/// The names of so many solutions.
fn names(alloc: Global, count: usize) -> Result<Vec<String>, AllocError> {
    let mut names = Vec::new(alloc);
    for place in 1..count.saturating_add(1) {
        names.push(format!(in alloc; "S{place}")?)?;
    }
    Ok(names)
}

/// The solutions with their names, where lines name the files.
fn sources<'t>(
    alloc: Global,
    asked: &Asked,
    solutions: &'t [Vec<u8>],
    names: &'t [String],
) -> Result<Vec<Named<'t, Device<&'t [u8]>>>, AllocError> {
    let mut sources = Vec::new(alloc);
    for (solution, name) in solutions.iter().zip(names) {
        let name = asked.names_files.then_some(name.as_str());
        sources.push(Named::new(Device::new(solution.as_slice()), name))?;
    }
    Ok(sources)
}

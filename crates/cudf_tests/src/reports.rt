//! What runs write.
use crate::table::Ended;
use cudf_check::{Device, Job, Mode, Outcome, RunError, run};
use std::alloc::Global;

impl From<RunError> for Ended {
    fn from(error: RunError) -> Ended {
        match error {
            RunError::Memory | RunError::Write => Ended::Refused,
            RunError::Read | RunError::TooLong => Ended::Faulty,
        }
    }
}

/// A check that lists everything.
pub(crate) const CHECK: Job = Job::Check {
    after: None,
    limit: None,
    explain: false,
};

/// A check of a problem alone.
pub(crate) const LINT: Job = Job::Lint { explain: false };

/// A problem and its solution in one input.
pub(crate) const JOINED: &[u8] =
    b"package: car\nversion: 1\ndepends: wheel > 2\ninstalled: true\n\npackage: wheel\nversion: 2\ninstalled: true\n\nrequest: r\n\npackage: car\nversion: 1\ninstalled: true\n";

/// How the job on this input ends, and what it writes.
pub(crate) fn report(alloc: Global, job: &Job, input: &[u8]) -> Result<(Outcome, Vec<u8>), Ended> {
    let mut input = Device::new(input);
    let mut others: [Device<&[u8]>; 0] = [];
    let mut out = Device::new(Vec::new(alloc));
    let outcome = run(alloc, job, Mode::Lenient, &mut input, &mut others, &mut out)?;
    Ok((outcome, out.into_inner()))
}

//! A campaign's report in the XML of JUnit.

use crate::escape::escaped;
use crate::jobs::{Job, Outcome, jobs_of};
use mc_protocol::{OutOfMemory, append_all};
use std::alloc::Global;

// How many jobs a test case has.
const JOBS_OF_CASE: usize = 100;

const HEAD: &[u8] = b"<?xml version=\"1.0\" encoding=\"UTF-8\"?>\n";

/// The XML for the text of a campaign: a test case for each 100 jobs in the order of their lines. Each job that is unexplained is a failure
/// of its case, with what is shown of it; any other job that isn't explained with all sections done is an error.
///
/// # Errors
///
/// That memory ran out.
pub fn campaign_junit(alloc: Global, text: &[u8]) -> Result<Vec<u8>, OutOfMemory> {
    let jobs = jobs_of(alloc, text)?;
    let mut cases = Vec::new(alloc);
    let mut tests: usize = 0;
    let mut failures: usize = 0;
    let mut errors: usize = 0;
    'cases: for case in jobs.as_slice().chunks(JOBS_OF_CASE) {
        append_case(alloc, &mut cases, case)?;
        tests = tests.saturating_add(1);
        if case.iter().any(is_failure) {
            failures = failures.saturating_add(1);
        } else if case.iter().any(is_error) {
            errors = errors.saturating_add(1);
        }
    }
    let counts = format!(in alloc;
        "tests=\"{tests}\" failures=\"{failures}\" errors=\"{errors}\""
    )?;
    let mut out = Vec::new(alloc);
    append_all(
        &mut out,
        &[
            HEAD,
            b"<testsuite name=\"mcrace campaign\" ",
            counts.as_bytes(),
            b">\n",
            cases.as_slice(),
            b"</testsuite>\n",
        ],
    )?;
    Ok(out)
}

fn is_failure(job: &Job<'_>) -> bool {
    job.outcome == Outcome::Unexplained
}

fn is_error(job: &Job<'_>) -> bool {
    job.outcome == Outcome::Undecided || job.outcome == Outcome::None
}

fn append_case(alloc: Global, out: &mut Vec<u8>, case: &[Job<'_>]) -> Result<(), OutOfMemory> {
    let (Some(first), Some(last)) = (case.first(), case.last()) else {
        return Ok(());
    };
    let first = escaped(alloc, first.number)?;
    let last = escaped(alloc, last.number)?;
    let name = format!(in alloc;
        "<testcase classname=\"mcrace.campaign\" name=\"jobs {first} to {last}\">\n"
    )?;
    out.extend_from_slice(name.as_bytes())?;
    'jobs: for job in case {
        if is_failure(job) {
            append_fault(alloc, out, "failure", job)?;
        } else if is_error(job) {
            append_fault(alloc, out, "error", job)?;
        }
    }
    out.extend_from_slice(b"</testcase>\n")
}

fn append_fault(
    alloc: Global,
    out: &mut Vec<u8>,
    element: &str,
    job: &Job<'_>,
) -> Result<(), OutOfMemory> {
    let message = escaped(alloc, job.line)?;
    let shown = escaped(alloc, job.shown.unwrap_or(&[]))?;
    let fault = format!(in alloc; "<{element} message=\"job {message}\">{shown}</{element}>\n")?;
    out.extend_from_slice(fault.as_bytes())
}

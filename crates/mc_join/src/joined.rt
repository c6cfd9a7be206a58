//! Reports of parts, joined.

use crate::fault::{ReportFault, Stop};
use crate::in_json::read_json;
use crate::job::JobLine;
use crate::plain::read_plain;
use crate::whole::whole_of;
use crate::written::{json_text, plain_text};
use mc_protocol::{Lines, OutOfMemory, Separator};
use std::alloc::{AllocError, Global};

/// What the jobs of a whole came to.
#[derive(Clone, Copy, Debug, Drop, PartialEq, Eq)]
pub enum Finding {
    /// All are explained, with all their sections done.
    Explained,
    /// One is unexplained, or a section of one failed by BadReply.
    Unexplained,
    /// Neither.
    Other,
}

/// What comes of it.
#[derive(Debug, Drop)]
pub enum Joined {
    /// The report of the whole, and what its jobs came to.
    Whole(Vec<u8>, Finding),
    /// They make no whole.
    Refused(ReportFault),
}

/// The report of the campaign whose parts have these reports, one after another in any order: all are text, or all are JSON. It has the
/// form of the parts, the first ten histories that they show, and the smaller script of the first part that has one.
///
/// # Errors
///
/// That memory ran out.
pub fn join(alloc: Global, text: &[u8]) -> Result<Joined, OutOfMemory> {
    let found = if is_json(text) {
        join_json(alloc, text)
    } else {
        join_plain(alloc, text)
    };
    match found {
        Ok((report, finding)) => Ok(Joined::Whole(report, finding)),
        Err(Stop::Refused(fault)) => Ok(Joined::Refused(fault)),
        Err(Stop::OutOfMemory) => Err(AllocError),
    }
}

// Whether the first line that counts is an object.
fn is_json(text: &[u8]) -> bool {
    let first = Lines::new(text, Separator::Space).next();
    first.is_some_and(|line| line.text.starts_with(b"{"))
}

fn join_plain(alloc: Global, text: &[u8]) -> Result<(Vec<u8>, Finding), Stop> {
    let mut read = read_plain(alloc, text)?;
    read.parts.sort_by_key(|part| part.first)?;
    let whole = whole_of(read.parts.as_slice())?;
    let report = plain_text(alloc, whole, &read)?;
    Ok((report, finding_of(read.jobs.as_slice())))
}

fn join_json(alloc: Global, text: &[u8]) -> Result<(Vec<u8>, Finding), Stop> {
    let mut read = read_json(alloc, text)?;
    read.parts.sort_by_key(|part| part.first)?;
    let whole = whole_of(read.parts.as_slice())?;
    let report = json_text(alloc, whole, &read)?;
    Ok((report, finding_of(read.jobs.as_slice())))
}

// What is found of these jobs, if nothing was wrong with any other.
fn finding_of(jobs: &[JobLine<'_>]) -> Finding {
    if jobs.iter().any(|job| job.outcome.accuses()) {
        Finding::Unexplained
    } else if jobs.iter().all(|job| job.outcome.is_clean()) {
        Finding::Explained
    } else {
        Finding::Other
    }
}

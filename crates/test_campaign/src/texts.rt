//! The texts of reports.

use crate::memory::has_memory;
use mc_campaign::{Report, print_report};
use mc_lane::Stream;
use mc_protocol::OutOfMemory;
use std::alloc::Global;

/// The text of a report. Where memory ran out in a job, that is an error.
pub(crate) fn report_text<S: Stream>(
    alloc: Global,
    report: &Report<S>,
) -> Result<Vec<u8>, OutOfMemory> {
    has_memory(report)?;
    let mut text = Vec::new(alloc);
    print_report(report, &mut text)?;
    Ok(text)
}

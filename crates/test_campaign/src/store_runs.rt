//! Jobs that are run over a store: what one came to, and the text of a report on several.

ghost use Rattle.std.specs.Prelude.{◌≤◌, ◌+◌, ◌^◌};

use crate::connectors::Stores;
use crate::memory::{again, has_memory};
use crate::store_stream::StoreStream;
use mc_campaign::{
    Bounds, Campaign, CampaignError, JobOutcome, Report, Results, Unwatched, print_report,
    report_status, run_jobs,
};
use mc_lane::{Stream, Wire};
use mc_protocol::OutOfMemory;
use mc_run::FreeGate;
use std::alloc::Global;
use std::sync::Wait;
use std::thread::Threads;

/// What stands before the text of a report.
const FRONT: &[u8] = b"report\n";

/// What the first job of the campaign came to, if it has one.
pub(crate) fn outcome_of<'s, R: Threads + Wait + Sync>(
    rt: &R,
    alloc: Global,
    connector: &Stores<'s, R>,
    campaign: Campaign<'_>,
) -> Result<Option<JobOutcome<Wire<StoreStream<'s, R>>>>, CampaignError>
    requires last { campaign.first + campaign.jobs ≤ 2 ^ 64 }
{
    let mut results = run_jobs(
        rt,
        alloc,
        Campaign {
            jobs: campaign.jobs.min(1),
            ..campaign
        },
        Bounds::NONE,
        0,
        connector,
        &FreeGate,
        &mut Unwatched,
        Results::new(alloc),
    )?;
    match results.all.pop() {
        Some(one) => Ok(Some(one.outcome)),
        None => Ok(None),
    }
}

/// The text of the report on the campaign after `report` in a line, and its status. Where memory ran out in a job, that is an error.
pub(crate) fn text_and_status<R: Threads + Wait + Sync>(
    rt: &R,
    alloc: Global,
    connector: &Stores<'_, R>,
    campaign: Campaign<'_>,
    workers: u32,
) -> Result<(Vec<u8>, u8), CampaignError>
    requires jobs { campaign.jobs ≤ 10000 }
    requires last { campaign.first + campaign.jobs ≤ 2 ^ 64 }
    requires workers { workers ≤ 16 }
{
    let results = run_jobs(
        rt,
        alloc,
        campaign,
        Bounds::NONE,
        workers,
        connector,
        &FreeGate,
        &mut Unwatched,
        Results::new(alloc),
    )?;
    let report = Report {
        seed: campaign.seed,
        results: results.all,
    };
    Ok(text_and_status_of(alloc, &report)?)
}

/// The same of a report.
pub(crate) fn text_and_status_of<S: Stream>(
    alloc: Global,
    report: &Report<S>,
) -> Result<(Vec<u8>, u8), OutOfMemory> {
    has_memory(report)?;
    let mut text = Vec::from_slice(alloc, FRONT)?;
    again(|| print_report(report, &mut text))?;
    Ok((text, report_status(report)))
}

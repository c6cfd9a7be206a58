//! Reports of campaigns against a store in memory: what is written of them, and the exit status.

ghost use Rattle.std.specs.Prelude.{◌≡◌, ◌≤◌, ◌+◌, ◌^◌};

use crate::connectors::Stores;
use crate::memory::{again, has_memory};
use crate::store_runs::{text_and_status, text_and_status_of};
use crate::store_stream::StoreStream;
use mc_campaign::{Campaign, CampaignError, Report, print_brief_report, run_campaign};
use mc_lane::Wire;
use mc_protocol::Actor;
use mc_run::FreeGate;
use mc_server::Shared;
use mc_settings::Meeting;
use std::alloc::{AllocError, Global};
use std::sync::Wait;
use std::test::Fail;
use std::thread::Threads;

/// More turns than the history of a job takes.
const LIMIT: u64 = 1_000_000;

#[test]
fn tells_what_each_job_came_to(rt: HostRuntime) -> Result<(), Fail> {
    let (text, status) = again(|| told_of_faults(&rt, rt.alloc()))?;
    assert_eq!(rt;
        text.as_slice(),
        b"report\n0 explained\n1 no connection A\n2 explained P ErrorLine\n\
        jobs 3 explained 2 unexplained 0 other 1\n"
            .as_slice()
    );
    assert_eq!(rt; status, 4);
    Ok(())
}

/// The text and the status of a report on three jobs, where A of the second gets no connection and P of the third is refused.
fn told_of_faults<R: Threads + Wait + Sync>(
    rt: &R,
    alloc: Global,
) -> Result<(Vec<u8>, u8), CampaignError> {
    let store = Shared::new(alloc)?;
    let connector = faulty_stores(rt, alloc, &store);
    told_over(rt, alloc, &connector)
}

fn told_over<R: Threads + Wait + Sync>(
    rt: &R,
    alloc: Global,
    connector: &Stores<'_, R>,
) -> Result<(Vec<u8>, u8), CampaignError> {
    let report = run_campaign(rt, alloc, 1, 3, 2, LIMIT, connector, &FreeGate)?;
    Ok(text_and_status_of(alloc, &report)?)
}

/// Connects all sections but A of job 1, and refuses what P of job 2 asks.
fn faulty_stores<'s, R: Wait>(rt: &'s R, alloc: Global, store: &'s Shared) -> Stores<'s, R> {
    Stores {
        closed: Some((1, Actor::A)),
        refusing: Some((2, Actor::P)),
        ..Stores::honest(rt, alloc, store)
    }
}

// Where memory runs out for what a worker sends, its job is run once more, and more of its connections are released.
#[test]
fn releases_the_connections_that_no_fault_ended(rt: HostRuntime) -> Result<(), Fail> {
    // All three of job 0, none of job 1, and of job 2 those that no fault ended.
    assert_eq!(rt; released_with_faults(&rt, rt.alloc())?, 5);
    Ok(())
}

/// How many connections are released of three such jobs.
fn released_with_faults<R: Threads + Wait + Sync>(rt: &R, alloc: Global) -> Result<u64, Fail> {
    let store = Shared::new(alloc)?;
    let connector = faulty_stores(rt, alloc, &store);
    told_over(rt, alloc, &connector)?;
    Ok(connector.released())
}

// Two jobs: few enough allocations that each of them can be refused.
#[test]
fn brief_report_leaves_out_one_job(rt: HostRuntime) -> Result<(), Fail> {
    let text = again(|| brief_text(&rt, rt.alloc(), 2))?;
    assert_eq!(rt;
        text.as_slice(),
        b"1 no connection A\njobs 2 explained 1 unexplained 0 other 1\n".as_slice()
    );
    Ok(())
}

/// The text of a brief report on so many jobs, where A of the second gets no connection.
fn brief_text<R: Threads + Wait + Sync>(
    rt: &R,
    alloc: Global,
    jobs: u64,
) -> Result<Vec<u8>, CampaignError>
    requires { jobs ≤ 10000 }
{
    let store = Shared::new(alloc)?;
    let connector = Stores {
        closed: Some((1, Actor::A)),
        ..Stores::honest(rt, alloc, &store)
    };
    brief_text_over(rt, alloc, &connector, jobs)
}

fn brief_text_over<R: Threads + Wait + Sync>(
    rt: &R,
    alloc: Global,
    connector: &Stores<'_, R>,
    jobs: u64,
) -> Result<Vec<u8>, CampaignError>
    requires { jobs ≤ 10000 }
{
    let report = run_campaign(rt, alloc, 1, jobs, 0, LIMIT, connector, &FreeGate)?;
    Ok(brief_text_of(alloc, &report)?)
}

fn brief_text_of<R: Wait>(
    alloc: Global,
    report: &Report<Wire<StoreStream<'_, R>>>,
) -> Result<Vec<u8>, AllocError> {
    has_memory(report)?;
    let mut text = Vec::new(alloc);
    again(|| print_brief_report(report, &mut text))?;
    Ok(text)
}

/// A campaign of seed 1.
fn campaign(first: u64, jobs: u64) -> Campaign<'static>
    ensures first { result.first ≡ first }
    ensures jobs { result.jobs ≡ jobs }
{
    Campaign {
        seed: 1,
        first,
        jobs,
        limit: LIMIT,
        meeting: Meeting::Drawn,
        spread: 0,
        name: None,
    }
}

/// Whether this is the text of the campaign's report against a store that answers rightly, its status is 0, and each job connected
/// three times. Where one did more often, that is an error.
fn comes_to<R: Threads + Wait + Sync>(
    rt: &R,
    alloc: Global,
    campaign: Campaign<'_>,
    workers: u32,
    expected: &[u8],
) -> Result<bool, CampaignError>
    requires jobs { campaign.jobs ≤ 10000 }
    requires last { campaign.first + campaign.jobs ≤ 2 ^ 64 }
    requires workers { workers ≤ 16 }
{
    let store = Shared::new(alloc)?;
    let connector = Stores::honest(rt, alloc, &store);
    let (text, status) = text_and_status(rt, alloc, &connector, campaign, workers)?;
    let is_reported = text.as_slice() == expected && status == 0;
    Ok(is_reported && are_released(&connector, 3 * campaign.jobs)?)
}

/// Whether the connector has made this number of connections, and all of them are released. More of them are an error: where memory runs
/// out for what a worker sends, its job is run once more.
fn are_released<R: Wait>(connector: &Stores<'_, R>, connections: u64) -> Result<bool, AllocError> {
    if connector.count() > connections {
        return Err(AllocError);
    }
    Ok(connector.count() == connections && connector.released() == connections)
}

// One job and one worker: few enough allocations that each of them can be refused.
#[test]
fn one_job_is_run_by_one_worker(rt: HostRuntime) -> Result<(), Fail> {
    let expected = b"report\n8 explained\njobs 1 explained 1 unexplained 0 other 0\n".as_slice();
    assert!(rt; again(|| comes_to(&rt, rt.alloc(), campaign(8, 1), 1, expected))?);
    Ok(())
}

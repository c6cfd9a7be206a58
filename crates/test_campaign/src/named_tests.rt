//! Campaigns whose keys are put under a name. `tools/live/test_campaigns.py` has more of them.

ghost use Rattle.std.specs.Prelude.{◌≡◌};

use crate::connectors::Stores;
use crate::store_runs::outcome_of;
use crate::store_stream::StoreStream;
use mc_campaign::{Campaign, JobOutcome};
use mc_generate::JobFault;
use mc_lane::Wire;
use mc_server::Shared;
use mc_settings::{Meeting, Namespace};
use std::alloc::Global;
use std::sync::Wait;
use std::test::Fail;
use std::thread::Threads;

/// A name of 35 bytes.
const LONG: &str = "a-name-of-35-bytes-leaves-room-for-";

/// The word as a name.
fn named(word: &str) -> Result<Namespace<'_>, Fail> {
    match Namespace::new(word.as_bytes()) {
        Some(name) => Ok(name),
        None => Err(Fail::new("the name is refused")),
    }
}

/// Jobs of seed 1 whose keys are under this name.
fn campaign<'a>(name: Option<&'a Namespace<'a>>, first: u64, jobs: u64) -> Campaign<'a>
    ensures first { result.first ≡ first }
    ensures jobs { result.jobs ≡ jobs }
{
    Campaign {
        seed: 1,
        first,
        jobs,
        limit: 1_000_000,
        meeting: Meeting::Each,
        spread: 0,
        name,
    }
}

#[test]
fn job_whose_key_is_too_long_connects_nothing(rt: HostRuntime) -> Result<(), Fail> {
    let (fault, connections) = run_with_too_long_a_key(&rt, rt.alloc())?;
    assert_eq!(rt; fault, JobFault::KeyTooLong);
    assert_eq!(rt; connections, 0);
    Ok(())
}

/// Why a job whose key is too long isn't made, and how many connections were made for it.
fn run_with_too_long_a_key<R: Threads + Wait + Sync>(
    rt: &R,
    alloc: Global,
) -> Result<(JobFault, u64), Fail> {
    let store = Shared::new(alloc)?;
    let connector = Stores::honest(rt, alloc, &store);
    let fault = fault_over(rt, alloc, &connector)?;
    Ok((fault, connector.count()))
}

fn fault_over<R: Threads + Wait + Sync>(
    rt: &R,
    alloc: Global,
    connector: &Stores<'_, R>,
) -> Result<JobFault, Fail> {
    let name = named(LONG)?;
    let outcome = outcome_of(rt, alloc, connector, campaign(Some(&name), 10, 1))?;
    fault_of(&outcome)
}

/// Why a job wasn't made.
fn fault_of<R: Wait>(
    outcome: &Option<JobOutcome<Wire<StoreStream<'_, R>>>>,
) -> Result<JobFault, Fail> {
    match outcome {
        Some(JobOutcome::NotMade(JobFault::OutOfMemory)) => {
            Err(Fail::new("there was no memory for the job"))
        }
        Some(JobOutcome::NotMade(fault)) => Ok(*fault),
        _ => Err(Fail::new("the job was made")),
    }
}

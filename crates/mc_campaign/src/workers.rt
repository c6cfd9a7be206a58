//! The threads of a campaign.

ghost use Rattle.std.specs.Prelude.{◌≡◌, ◌≤◌, ◌+◌, ◌++◌, ◌^◌, List, map, All, IfOk, None};
ghost use Rattle.std.specs.{List.range_with_len, Option.option_copied};
ghost use Rattle.mc_campaign.specs.Outcomes.{IsJudgedWithin, IsOutcome};
ghost use Rattle.mc_campaign.specs.Runs.{AreRun};
ghost use Rattle.mc_campaign.specs.declared.outcome.JobResult.{JobResult};

use crate::job::run_job_beside;
use crate::message::JobMessage;
use crate::running::keep_all;
use crate::turns::Turns;
use crate::window::{MOST_AHEAD, Window};
use crate::{
    Bounds, Campaign, CampaignError, Connector, JobResult, Keeper, Report, Results, Unwatched,
    Watcher,
};
use crossbeam_channel::{Receiver, Sender, bounded};
use mc_lane::Stream;
use mc_run::{Desk, Gate};
use mc_settings::Meeting;
use std::alloc::Global;
use std::sync::Wait;
use std::thread::{self, Scope, Threads};

/// Runs the jobs 0 to `jobs - 1` of a seed, as many at once as there are workers, and judges each history in at most `limit` turns.
/// With 0 workers they are run one after the other. `gate` is passed by the calls of all jobs. It waits for the streams, for the
/// gate and for the threads.
///
/// # Errors
///
/// Why there is no report: see [`CampaignError`]. The workers have ended then.
pub fn run_campaign<S: Stream + Send, C: Connector<S>, G: Gate, R: Threads + Wait + Sync>(
    rt: &R,
    alloc: Global,
    seed: u64,
    jobs: u64,
    workers: u32,
    limit: u64,
    connector: &C,
    gate: &G,
) -> Result<Report<S>, CampaignError>
    requires jobs { jobs ≤ 10000 }
    requires workers { workers ≤ 16 }
    ensures seed { IfOk result (λ report. report.seed ≡ seed) }
    ensures jobs { IfOk result (λ report. map (λ r. r.job) report.results ≡ range_with_len 0 jobs) }
    ensures outcomes { IfOk result (λ report. All (λ r. IsOutcome seed None r.job r.outcome) report.results) }
    ensures turns { IfOk result (λ report. All (λ r. IsJudgedWithin limit r.outcome) report.results) }
{
    let campaign = Campaign {
        seed,
        first: 0,
        jobs,
        limit,
        meeting: Meeting::Each,
        spread: 0,
        name: None,
    };
    let results = run_jobs(
        rt,
        alloc,
        campaign,
        Bounds::NONE,
        workers,
        connector,
        gate,
        &mut Unwatched,
        Results::new(alloc),
    )?;
    Ok(Report {
        seed,
        results: results.all,
    })
}

/// Runs the jobs of any campaign, until `bounds` end it. The watcher is called with what each job came to, as soon as it has ended; the
/// keeper gets that in the order of the jobs' numbers. At most 64 jobs have begun, or may begin, beyond those that the keeper was given.
///
/// # Errors
///
/// See [`CampaignError`]. The workers have ended then, and the keeper is dropped.
pub fn run_jobs<S, C, G, R, W, K>(
    rt: &R,
    alloc: Global,
    campaign: Campaign<'_>,
    bounds: Bounds,
    workers: u32,
    connector: &C,
    gate: &G,
    watcher: &mut W,
    keeper: K,
) -> Result<K, CampaignError>
where
    S: Stream + Send,
    C: Connector<S>,
    G: Gate,
    R: Threads + Wait + Sync,
    W: Watcher<S>,
    K: Keeper<JobResult<S>> + Drop,
    requires last { campaign.first + campaign.jobs ≤ 2 ^ 64 }
    requires workers { workers ≤ 16 }
    requires accepts { (r : JobResult S) → IsOutcome campaign.seed (option_copied campaign.name) r.job r.outcome
        → IsJudgedWithin campaign.limit r.outcome → K.accepts r }
    ensures { IfOk result (λ kept. (first : K) (before : List (JobResult S)) → K.becomes first before keeper
        → (results : List (JobResult S)) × K.becomes first (before ++ results) kept × AreRun campaign.entry bounds results) }
{
    let turns = Turns::new();
    run_workers(
        rt, alloc, campaign, bounds, workers, connector, gate, &turns, watcher, keeper,
    )
}

/// The same, with the workers as threads of a scope. All have ended when it returns.
fn run_workers<'a, S, C, G, R, W, K>(
    rt: &'a R,
    alloc: Global,
    campaign: Campaign<'a>,
    bounds: Bounds,
    workers: u32,
    connector: &'a C,
    gate: &'a G,
    turns: &'a Turns,
    watcher: &mut W,
    keeper: K,
) -> Result<K, CampaignError>
where
    S: Stream + Send,
    C: Connector<S>,
    G: Gate,
    R: Threads + Wait + Sync,
    W: Watcher<S>,
    K: Keeper<JobResult<S>> + Drop,
    requires last { campaign.first + campaign.jobs ≤ 2 ^ 64 }
    requires workers { workers ≤ 16 }
    requires accepts { (r : JobResult S) → IsOutcome campaign.seed (option_copied campaign.name) r.job r.outcome
        → IsJudgedWithin campaign.limit r.outcome → K.accepts r }
    ensures { IfOk result (λ kept. (first : K) (before : List (JobResult S)) → K.becomes first before keeper
        → (results : List (JobResult S)) × K.becomes first (before ++ results) kept × AreRun campaign.entry bounds results) }
{
    let watcher = &mut *watcher;
    thread::scope(
        thread::scope_env(),
        rt,
        move |scope| -> Result<K, CampaignError>
            requires last { campaign.first + campaign.jobs ≤ 2 ^ 64 }
            requires workers { workers ≤ 16 }
            requires accepts { (r : JobResult S) → IsOutcome campaign.seed (option_copied campaign.name) r.job r.outcome
                → IsJudgedWithin campaign.limit r.outcome → K.accepts r }
            ensures { IfOk result (λ kept. (first : K) (before : List (JobResult S)) → K.becomes first before keeper
                → (results : List (JobResult S)) × K.becomes first (before ++ results) kept × AreRun campaign.entry bounds results) }
        {
            let kept = run_in_scope(
                rt, alloc, campaign, bounds, workers, connector, gate, turns, watcher, keeper,
                scope,
            );
            turns.close(rt);
            kept
        },
    )
}

/// Starts the workers as threads of this scope, and has what the jobs come to kept.
fn run_in_scope<'s, 'a: 's, E, S, C, G, R, W, K>(
    rt: &'s R,
    alloc: Global,
    campaign: Campaign<'a>,
    bounds: Bounds,
    workers: u32,
    connector: &'s C,
    gate: &'s G,
    turns: &'s Turns,
    watcher: &mut W,
    keeper: K,
    scope: &Scope<'s, E>,
) -> Result<K, CampaignError>
where
    S: Stream + Send + 's,
    C: Connector<S>,
    G: Gate,
    R: Threads + Wait + Sync,
    W: Watcher<S>,
    K: Keeper<JobResult<S>> + Drop,
    requires last { campaign.first + campaign.jobs ≤ 2 ^ 64 }
    requires workers { workers ≤ 16 }
    requires accepts { (r : JobResult S) → IsOutcome campaign.seed (option_copied campaign.name) r.job r.outcome
        → IsJudgedWithin campaign.limit r.outcome → K.accepts r }
    ensures { IfOk result (λ kept. (first : K) (before : List (JobResult S)) → K.becomes first before keeper
        → (results : List (JobResult S)) × K.becomes first (before ++ results) kept × AreRun campaign.entry bounds results) }
{
    let mut keeper = keeper;
    // There is room for all that may come, so that none is lost.
    let (to_collector, results) = bounded(alloc, MOST_AHEAD as usize)?;
    let mut window = Window::new(alloc)?;
    start_workers(
        rt,
        alloc,
        campaign,
        bounds,
        workers,
        connector,
        gate,
        turns,
        to_collector,
        scope,
    )?;
    let ahead = u64::from(4 * workers).max(1);
    keep_all(
        rt,
        alloc,
        campaign,
        bounds,
        ahead,
        connector,
        gate,
        turns,
        &results,
        &mut window,
        watcher,
        &mut keeper,
    )?;
    Ok(keeper)
}

/// Starts the workers, each with a second thread for its jobs, as threads of the scope.
fn start_workers<'s, 'a: 's, E, S, C, G, R>(
    rt: &'s R,
    alloc: Global,
    campaign: Campaign<'a>,
    bounds: Bounds,
    workers: u32,
    connector: &'s C,
    gate: &'s G,
    turns: &'s Turns,
    to_collector: Sender<JobMessage<'a, S>>,
    scope: &Scope<'s, E>,
) -> Result<(), CampaignError>
where
    S: Stream + Send + 's,
    C: Connector<S>,
    G: Gate,
    R: Threads + Wait + Sync,
{
    'workers: for _ in 0..workers {
        let to_collector = to_collector.clone()?;
        let (desk, second) = Desk::new(alloc)?;
        let serve = move || second.serve(rt, alloc, gate);
        let worker = move || {
            work(
                rt,
                alloc,
                campaign,
                bounds,
                connector,
                gate,
                turns,
                &desk,
                to_collector,
            )
        };
        if scope.spawn(serve).is_err() || scope.spawn(worker).is_err() {
            return Err(CampaignError::NoThread);
        }
    }
    Ok(())
}

/// Runs one job after the other over the desk, until no further one begins, and sends what each came to.
fn work<'a, S: Stream + Send, C: Connector<S>, G: Gate, R: Threads + Wait + Sync>(
    rt: &R,
    alloc: Global,
    campaign: Campaign<'a>,
    bounds: Bounds,
    connector: &C,
    gate: &G,
    turns: &Turns,
    desk: &Desk<S>,
    to_collector: Sender<JobMessage<'a, S>>,
) {
    'jobs: for _ in rt.forever() {
        let Some(place) = turns.take(rt, |place| bounds.end(place, connector.is_over())) else {
            break;
        };
        let job = campaign.first.wrapping_add(place);
        let outcome = run_job_beside(rt, alloc, campaign, connector, gate, job, desk);
        let message = JobMessage::of(campaign, job, outcome);
        drop(to_collector.send(rt, message));
    }
}

//! The jobs of a campaign, one after the other.

ghost use Rattle.std.specs.Prelude.{◌≡◌, ◌⊎◌, ◌+◌, ◌++◌, ◌∷◌, ◌<◌, ◌≤◌, ◌^◌, List, [], IfNone, IfOk, IfSome, OnOk, false, true};
ghost use Rattle.std.specs.Option.{option_copied};
ghost use Rattle.mc_campaign.specs.Outcomes.{IsJudgedWithin, IsOutcome};
ghost use Rattle.mc_campaign.specs.Runs.{Allows, AreRun, IsNext, IsOver};
ghost use Rattle.mc_campaign.specs.declared.outcome.JobResult.{JobResult};

use crate::job::run_job;
use crate::message::JobMessage;
use crate::turns::Turns;
use crate::window::Window;
use crate::{Bounds, Campaign, Connector, JobOutcome, JobResult, Keeper, Standing, Watcher};
use crossbeam_channel::Receiver;
use mc_lane::Stream;
use mc_protocol::OutOfMemory;
use mc_run::Gate;
use mc_settings::is_same_name;
use std::alloc::Global;
use std::sync::Wait;
use std::thread::Threads;

/// Hands out the jobs, at most `ahead` beyond those that were kept, and has what each came to kept in the order of their numbers. A job
/// that may begin, but of which no message comes, is run here.
pub(crate) fn keep_all<'a, S, C, G, R, W, K>(
    rt: &R,
    alloc: Global,
    campaign: Campaign<'a>,
    bounds: Bounds,
    ahead: u64,
    connector: &C,
    gate: &G,
    turns: &Turns,
    results: &Receiver<JobMessage<'a, S>>,
    window: &mut Window<'a, S>,
    watcher: &mut W,
    keeper: &mut K,
) -> Result<(), OutOfMemory>
where
    S: Stream + Send,
    C: Connector<S>,
    G: Gate,
    R: Threads + Wait + Sync,
    W: Watcher<S>,
    K: Keeper<JobResult<S>>,
    requires last { campaign.first + campaign.jobs ≤ 2 ^ 64 }
    requires some { 0 < ahead }
    requires few { ahead ≤ 64 }
    requires accepts { (r : JobResult S) → IsOutcome campaign.seed (option_copied campaign.name) r.job r.outcome
        → IsJudgedWithin campaign.limit r.outcome → K.accepts r }
    ensures { OnOk result ((first : K) (before : List (JobResult S)) → K.becomes first before keeper.old
        → (results : List (JobResult S)) × K.becomes first (before ++ results) keeper.new × AreRun campaign.entry bounds results) }
{
    let mut kept = 0;
    let mut unexplained = 0;
    let mut end = 0;
    'jobs: for _ in rt.forever() {
        let is_over = connector.is_over();
        end = hand_out(
            rt,
            turns,
            campaign.jobs,
            bounds,
            ahead,
            kept,
            unexplained,
            is_over,
            end,
        );
        if end <= kept {
            return Ok(());
        }
        let message = window.wait_for(rt, results, campaign, kept, watcher);
        let next = keep_next(
            rt, alloc, campaign, bounds, connector, gate, turns, kept, message, watcher, keeper,
        )?;
        let Some(standing) = next else {
            return Ok(());
        };
        unexplained = Standing::Unexplained.counted(unexplained, standing);
        kept += 1;
    }
    unreachable!()
}

/// Has what the job in this place came to kept, and answers what it counts as; or nothing, where it doesn't begin.
fn keep_next<S, C, G, R, W, K>(
    rt: &R,
    alloc: Global,
    campaign: Campaign<'_>,
    bounds: Bounds,
    connector: &C,
    gate: &G,
    turns: &Turns,
    place: u64,
    message: Option<JobMessage<'_, S>>,
    watcher: &mut W,
    keeper: &mut K,
) -> Result<Option<Standing>, OutOfMemory>
where
    S: Stream + Send,
    C: Connector<S>,
    G: Gate,
    R: Threads + Wait + Sync,
    W: Watcher<S>,
    K: Keeper<JobResult<S>>,
    requires place { campaign.first + place < 2 ^ 64 }
    requires accepts { (r : JobResult S) → IsOutcome campaign.seed (option_copied campaign.name) r.job r.outcome
        → IsJudgedWithin campaign.limit r.outcome → K.accepts r }
    ensures kept { IfOk result (λ next. IfSome next (λ standing. (first : K) (before : List (JobResult S))
        → K.becomes first before keeper.old → (r : JobResult S) × K.becomes first (before ++ r ∷ []) keeper.new
        × IsNext campaign.entry (campaign.entry.first + place) standing r)) }
    ensures over { IfOk result (λ next. IfNone next (keeper.new ≡ keeper.old × (0 < place) × (bounds.has_time ≡ true))) }
{
    let settled = settle(
        rt, alloc, campaign, bounds, connector, gate, turns, place, message, watcher,
    );
    let Some(came_to) = settled else {
        return Ok(None);
    };
    let standing = Standing::of(&came_to.outcome);
    keeper.keep(came_to)?;
    Ok(Some(standing))
}

/// Lets jobs begin where they may, and answers the place before which they may.
fn hand_out<R: Wait>(
    rt: &R,
    turns: &Turns,
    jobs: u64,
    bounds: Bounds,
    ahead: u64,
    kept: u64,
    unexplained: u64,
    is_over: bool,
    end: u64,
) -> u64
    requires some { 0 < ahead }
    requires few { ahead ≤ 64 }
    requires left { end ≤ jobs }
    ensures left { result ≤ jobs }
    ensures allowed { (result ≡ end) ⊎ ((kept < result) × (result ≤ kept + 64) × Allows bounds.unexplained unexplained) }
    ensures over { result ≤ kept → IsOver bounds jobs kept unexplained }
{
    if !bounds.allow(jobs, kept, unexplained, is_over) {
        return end;
    }
    let end = jobs.min(kept.saturating_add(ahead));
    turns.hand_out(rt, end);
    end
}

/// What the job in this place came to: by its message, where it is one of this job, and else by a run, with which the watcher is called.
/// Nothing where it doesn't begin, as the time is over.
fn settle<S: Stream + Send, C: Connector<S>, G: Gate, R: Threads + Wait + Sync, W: Watcher<S>>(
    rt: &R,
    alloc: Global,
    campaign: Campaign<'_>,
    bounds: Bounds,
    connector: &C,
    gate: &G,
    turns: &Turns,
    place: u64,
    message: Option<JobMessage<'_, S>>,
    watcher: &mut W,
) -> Option<JobResult<S>>
    requires { campaign.first + place < 2 ^ 64 }
    ensures job { IfSome result (λ r. r.job ≡ campaign.entry.first + place) }
    ensures outcome { IfSome result (λ r. IsOutcome campaign.entry.seed (option_copied campaign.entry.name) r.job r.outcome) }
    ensures turns { IfSome result (λ r. IsJudgedWithin campaign.entry.limit r.outcome) }
    ensures over { IfNone result ((0 < place) × (bounds.has_time ≡ true)) }
{
    let job = campaign.first + place;
    let outcome = match message {
        Some(message) if is_of_job(&message, campaign, job) => message.into_outcome(),
        _ => {
            let ends = bounds.end(place, connector.is_over());
            if !turns.begins(rt, place, ends) {
                return None;
            }
            run_watched(rt, alloc, campaign, connector, gate, job, watcher)
        }
    };
    Some(JobResult { job, outcome })
}

/// Whether the message is one of this job, with the seed, the limit of turns and the name of the campaign.
fn is_of_job<S: Stream + Send>(
    message: &JobMessage<'_, S>,
    campaign: Campaign<'_>,
    job: u64,
) -> bool
    ensures job { result ≡ true → message.now.job ≡ job }
    ensures seed { result ≡ true → message.now.seed ≡ campaign.entry.seed }
    ensures limit { result ≡ true → message.now.limit ≡ campaign.entry.limit }
    ensures name { result ≡ true → message.now.name ≡ option_copied campaign.entry.name }
{
    message.job() == job
        && message.seed() == campaign.seed
        && message.limit() == campaign.limit
        && is_same_name(message.name(), campaign.name)
}

/// Runs a job, and calls the watcher with what it came to.
fn run_watched<S: Stream + Send, C: Connector<S>, G: Gate, R: Threads + Wait + Sync, W: Watcher<S>>(
    rt: &R,
    alloc: Global,
    campaign: Campaign<'_>,
    connector: &C,
    gate: &G,
    job: u64,
    watcher: &mut W,
) -> JobOutcome<S>
    ensures outcome { IsOutcome campaign.entry.seed (option_copied campaign.entry.name) job result }
    ensures turns { IsJudgedWithin campaign.entry.limit result }
{
    let outcome = run_job(rt, alloc, campaign, connector, gate, job);
    watcher.ended(job, &outcome);
    outcome
}

//! The run of one job.

ghost use Rattle.std.specs.Prelude.{◌≡◌, ℕ, length, IfOk, IfSome, None};
ghost use Rattle.std.specs.Option.{option_copied};
ghost use Rattle.mc_code.specs.Code.{Code};
ghost use Rattle.mc_explain.specs.Verdicts.{IsWithin};
ghost use Rattle.mc_run.specs.Running.{AreNew, IsNew};
ghost use Rattle.mc_trial.specs.Judged.{IsJudged};
ghost use Rattle.mc_campaign.specs.Outcomes.{IsJudgedWithin, IsOutcome, IsOutcomeOf, closed_lanes};

use crate::{Campaign, Connector, JobOutcome};
use core::thread::Stack;
use mc_generate::generate_under;
use mc_lane::{Lane, Stream};
use mc_protocol::{Actor, Sections};
use mc_run::{Desk, Gate, Lanes, Run, RunError};
use mc_sound::Checked;
use mc_trial::{Judged, play, play_beside};
use std::alloc::Global;
use std::sync::{Arc, Wait};
use std::thread::Threads;

/// The most bytes that a lane receives.
pub const RECEIVED_LIMIT: u32 = 262_144;

/// Makes the code of a job, under the campaign's name if it has one, and runs it as [`play_job`].
pub(crate) fn run_job<S: Stream + Send, C: Connector<S>, G: Gate, R: Threads + Wait + Sync>(
    rt: &R,
    alloc: Global,
    campaign: Campaign<'_>,
    connector: &C,
    gate: &G,
    job: u64,
) -> JobOutcome<S>
    ensures outcome { IsOutcome campaign.entry.seed (option_copied campaign.entry.name) job result }
    ensures turns { IsJudgedWithin campaign.entry.limit result }
{
    match generate_under(alloc, campaign.seed, campaign.name, job) {
        Ok(checked) => play_job(rt, alloc, campaign, connector, gate, job, &checked),
        Err(fault) => JobOutcome::NotMade(fault),
    }
}

/// The same over a desk, so that no thread is made.
pub(crate) fn run_job_beside<S: Stream, C: Connector<S>, G: Gate, R: Wait>(
    rt: &R,
    alloc: Global,
    campaign: Campaign<'_>,
    connector: &C,
    gate: &G,
    job: u64,
    desk: &Desk<S>,
) -> JobOutcome<S>
    ensures outcome { IsOutcome campaign.entry.seed (option_copied campaign.entry.name) job result }
    ensures turns { IsJudgedWithin campaign.entry.limit result }
{
    match generate_under(alloc, campaign.seed, campaign.name, job) {
        Ok(checked) => play_job_beside(rt, alloc, campaign, connector, gate, job, checked, desk),
        Err(fault) => JobOutcome::NotMade(fault),
    }
}

/// Connects the sections of a job, runs this code over them, which may be other code than that of the job, judges its history in at most
/// `limit` turns of the campaign, then closes the lanes, and gives their streams back. It waits for the streams, for the gate and for the
/// threads of the branches. The connections are held while the history is judged.
pub fn play_job<S: Stream + Send, C: Connector<S>, G: Gate, R: Threads + Wait + Sync>(
    rt: &R,
    alloc: Global,
    campaign: Campaign<'_>,
    connector: &C,
    gate: &G,
    job: u64,
    checked: &Checked,
) -> JobOutcome<S>
    ensures outcome { IsOutcomeOf checked.now.code result }
    ensures turns { IsJudgedWithin campaign.entry.limit result }
{
    let lanes = match connect_lanes(alloc, connector, job) {
        Ok(lanes) => lanes,
        Err(actor) => return JobOutcome::NoLane(actor),
    };
    let meet = campaign.meet(job);
    let played = play(
        rt,
        alloc,
        checked,
        lanes,
        gate,
        Stack::new(),
        meet,
        campaign.limit,
    );
    match played {
        Ok(judged) => end_job(connector, judged),
        Err(error) => JobOutcome::NotRun(error),
    }
}

/// As `play_job`, but over a desk.
fn play_job_beside<S: Stream, C: Connector<S>, G: Gate, R: Wait>(
    rt: &R,
    alloc: Global,
    campaign: Campaign<'_>,
    connector: &C,
    gate: &G,
    job: u64,
    checked: Checked,
    desk: &Desk<S>,
) -> JobOutcome<S>
    ensures outcome { IsOutcomeOf checked.code result }
    ensures turns { IsJudgedWithin campaign.entry.limit result }
{
    let lanes = match connect_lanes(alloc, connector, job) {
        Ok(lanes) => lanes,
        Err(actor) => return JobOutcome::NoLane(actor),
    };
    let Ok(checked) = Arc::new(alloc, checked) else {
        return JobOutcome::NotRun(RunError::OutOfMemory);
    };
    let meet = campaign.meet(job);
    let played = play_beside(rt, alloc, &checked, lanes, gate, desk, meet, campaign.limit);
    match played {
        Ok(judged) => end_job(connector, judged),
        Err(error) => JobOutcome::NotRun(error),
    }
}

/// What a job came to that was judged. Its lanes are closed, and their streams given back.
fn end_job<S: Stream, C: Connector<S>>(connector: &C, judged: Judged<S>) -> JobOutcome<S>
    ensures outcome { (code : Code) → IsJudged code judged.run.world judged.run.lanes judged.history judged.verdict
        → IsOutcomeOf code result }
    ensures turns { (limit : ℕ) → IsWithin limit judged.verdict judged.turns → IsJudgedWithin limit result }
{
    let Judged {
        run,
        history,
        verdict,
        turns,
    } = judged;
    let Run { world, lanes } = run;
    let lanes = close_lanes(connector, lanes);
    JobOutcome::Ran {
        run: Run { world, lanes },
        history,
        verdict,
        turns,
    }
}

/// The lanes, closed. Their streams are given back.
fn close_lanes<S: Stream, C: Connector<S>>(connector: &C, lanes: Lanes<S>) -> Lanes<S>
    ensures { result ≡ closed_lanes lanes }
{
    let Lanes {
        mut p,
        mut a,
        mut b,
    } = lanes;
    connector.release(Sections {
        p: close_lane(&mut p),
        a: close_lane(&mut a),
        b: close_lane(&mut b),
    });
    Lanes { p, a, b }
}

/// Closes the lane, and hands out its stream, if no fault has closed it, and nothing was received but the replies that it answered.
fn close_lane<S: Stream>(lane: &mut Lane<S>) -> Option<S>
    ensures closed { lane.new ≡ record lane.old { stream = None } }
    ensures clean { IfSome result (λ _. (lane.old.fault ≡ None) × (lane.old.taken ≡ length lane.old.got)) }
{
    let is_clean = lane.fault().is_none() && lane.taken() == lane.got().len();
    let stream = lane.close();
    if is_clean { stream } else { None }
}

/// A new lane of each section, connected in the order P, A, B.
///
/// # Errors
///
/// The first section that gets no connection.
fn connect_lanes<S: Stream, C: Connector<S>>(
    alloc: Global,
    connector: &C,
    job: u64,
) -> Result<Lanes<S>, Actor>
    ensures { IfOk result AreNew }
{
    Ok(Lanes {
        p: connect_lane(alloc, connector, job, Actor::P)?,
        a: connect_lane(alloc, connector, job, Actor::A)?,
        b: connect_lane(alloc, connector, job, Actor::B)?,
    })
}

fn connect_lane<S: Stream, C: Connector<S>>(
    alloc: Global,
    connector: &C,
    job: u64,
    actor: Actor,
) -> Result<Lane<S>, Actor>
    ensures { IfOk result IsNew }
{
    match connector.connect(job, actor) {
        Some(stream) => Ok(Lane::new(alloc, stream, RECEIVED_LIMIT)),
        None => Err(actor),
    }
}

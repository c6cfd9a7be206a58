//! The exit status after a report.

ghost use Rattle.std.specs.Prelude.{◌≡◌};
ghost use Rattle.mc_campaign.specs.ReportStatus as spec;

use crate::{JobOutcome, JobResult, Report};
use mc_core::Ending;
use mc_explain::Verdict;
use mc_lane::Stream;
use mc_protocol::{Actor, Fault};

/// What the program exits with after a report: 1 where a job is unexplained, or what a section received is no reply; else 0 where
/// all jobs are explained and all their sections done; and else 4. No memory is taken.
pub fn report_status<S: Stream>(report: &Report<S>) -> u8
    ensures { result ≡ spec.status_of report.now.results }
{
    let results = report.results.as_slice();
    if one_accuses(results) {
        1
    } else if are_clean(results) {
        0
    } else {
        4
    }
}

/// What it exits with after a report of one job that came to this.
pub fn job_status<S: Stream>(outcome: &JobOutcome<S>) -> u8
    ensures { result ≡ spec.status_by (spec.accuses outcome.now) (spec.is_clean outcome.now) }
{
    if accuses(outcome) {
        1
    } else if is_clean(outcome) {
        0
    } else {
        4
    }
}

/// Whether one of the jobs speaks against the server.
fn one_accuses<S: Stream>(results: &[JobResult<S>]) -> bool
    ensures { result ≡ spec.one_accuses results.now }
{
    results.iter().any(|one| accuses(&one.outcome))
}

/// Whether nothing was wrong with any of the jobs.
fn are_clean<S: Stream>(results: &[JobResult<S>]) -> bool
    ensures { result ≡ spec.are_clean results.now }
{
    results.iter().all(|one| is_clean(&one.outcome))
}

/// Whether the job speaks against the server.
fn accuses<S: Stream>(outcome: &JobOutcome<S>) -> bool
    ensures { result ≡ spec.accuses outcome.now }
{
    match outcome {
        JobOutcome::Ran { run, verdict, .. } => {
            is_unexplained(verdict)
                || ended_badly(run.world.ending(Actor::P))
                || ended_badly(run.world.ending(Actor::A))
                || ended_badly(run.world.ending(Actor::B))
        }
        JobOutcome::NotMade(_) | JobOutcome::NoLane(_) | JobOutcome::NotRun(_) => false,
    }
}

/// Whether nothing was wrong with the job.
pub(crate) fn is_clean<S: Stream>(outcome: &JobOutcome<S>) -> bool
    ensures { result ≡ spec.is_clean outcome.now }
{
    match outcome {
        JobOutcome::Ran { run, verdict, .. } => {
            is_explained(verdict)
                && is_done(run.world.ending(Actor::P))
                && is_done(run.world.ending(Actor::A))
                && is_done(run.world.ending(Actor::B))
        }
        JobOutcome::NotMade(_) | JobOutcome::NoLane(_) | JobOutcome::NotRun(_) => false,
    }
}

fn is_unexplained(verdict: &Verdict) -> bool
    ensures { result ≡ spec.is_unexplained verdict.now }
{
    matches!(verdict, Verdict::Unexplained)
}

fn is_explained(verdict: &Verdict) -> bool
    ensures { result ≡ spec.is_explained verdict.now }
{
    matches!(verdict, Verdict::Explained(_))
}

fn ended_badly(ending: Ending) -> bool
    ensures { result ≡ spec.ended_badly ending }
{
    matches!(ending, Ending::Failed(Fault::BadReply))
}

fn is_done(ending: Ending) -> bool
    ensures { result ≡ spec.is_done ending }
{
    matches!(ending, Ending::Done)
}

//! What jobs came to.

use mc_explain::Verdict;
use mc_generate::JobFault;
use mc_lane::Stream;
use mc_model::History;
use mc_protocol::Actor;
use mc_run::{Run, RunError};
use std::marker::Model;

/// What a job of a campaign came to.
#[derive(Debug, Drop)]
pub enum JobOutcome<S: Stream> {
    /// It has no code that may run.
    NotMade(JobFault),
    /// This section got no connection, and nothing ran.
    NoLane(Actor),
    /// There is no run of it, or memory ran out before there was a verdict.
    NotRun(RunError),
    /// It ran.
    Ran {
        /// What was noted, and the lanes, which are closed.
        run: Run<S>,
        /// The history of what was noted.
        history: History,
        /// The verdict on the history.
        verdict: Verdict,
        /// How many turns the search for an explanation used.
        turns: u64,
    },
}

/// A job, and what it came to.
#[derive(Debug, Drop)]
pub struct JobResult<S: Stream> {
    /// Its number.
    pub job: u64,
    pub outcome: JobOutcome<S>,
}

/// What the jobs of a campaign came to. Contracts see the results as a list.
#[derive(Debug, Drop)]
pub struct Report<S: Stream> {
    /// That of the campaign.
    pub seed: u64,
    /// One of each job, in the order of their numbers.
    pub results: Vec<JobResult<S>>,
}

impl<S: Stream> Model for Report<S> {
    ghost use Rattle.mc_campaign.specs.Reports.{Reported};

    ghost Value = { Reported S };

    ghost view = { λ r. record { seed = r.seed; results = r.results.items } };
}

//! What the workers of a campaign send: results of jobs.

ghost use Rattle.std.specs.Prelude.{◌≡◌};
ghost use Rattle.std.specs.Option.{option_copied};
ghost use Rattle.mc_campaign.specs.Outcomes.{IsJudgedWithin, IsOutcome};

use crate::{Campaign, JobOutcome};
use mc_lane::Stream;
use mc_settings::Namespace;
use std::marker::Model;

/// What a job came to, with the seed, the limit of turns and the name of its campaign. Whoever receives it knows that the job may come
/// to this. Contracts see the seed, the limit, the name, the job and the outcome.
#[derive(Debug)]
pub(crate) struct JobMessage<'a, S: Stream> {
    seed: u64,
    limit: u64,
    name: Option<&'a Namespace<'a>>,
    job: u64,
    outcome: JobOutcome<S>,
}

// One call drops its parts. A derived `Drop` would write them out at each end of each function that holds one.
impl<'a, S: Stream> Drop for JobMessage<'a, S> {
    fn drop(self) {
        let JobMessage {
            seed: _,
            limit: _,
            name: _,
            job: _,
            outcome: _,
        } = self;
    }
}

impl<'a, S: Stream> Model for JobMessage<'a, S> {
    ghost use Rattle.mc_campaign.specs.Messages.{Message};

    ghost Value = { Message S };

    ghost use Rattle.std.specs.Option.{option_copied};
    ghost use Rattle.mc_campaign.specs.Outcomes.{IsJudgedWithin, IsOutcome};

    ghost view = { λ m. record { seed = m.seed; limit = m.limit; name = option_copied m.name; job = m.job; outcome = m.outcome } };

    ghost invariant = { λ m. IsOutcome m.seed (option_copied m.name) m.job m.outcome × IsJudgedWithin m.limit m.outcome };
}

impl<'a, S: Stream + Send> JobMessage<'a, S> {
    /// The message that a job of the campaign came to this.
    pub(crate) fn of(campaign: Campaign<'a>, job: u64, came_to: JobOutcome<S>) -> Self
        requires right { IsOutcome campaign.seed (option_copied campaign.name) job came_to }
        requires within { IsJudgedWithin campaign.limit came_to }
        ensures seed { result.seed ≡ campaign.entry.seed }
        ensures limit { result.limit ≡ campaign.entry.limit }
        ensures name { result.name ≡ option_copied campaign.entry.name }
        ensures job { result.job ≡ job }
        ensures outcome { result.outcome ≡ came_to }
    {
        JobMessage {
            seed: campaign.seed,
            limit: campaign.limit,
            name: campaign.name,
            job,
            outcome: came_to,
        }
    }

    /// The seed of its campaign.
    pub(crate) fn seed(&self) -> u64
        ensures { result ≡ self.now.seed }
    {
        self.seed
    }

    /// The most turns in which its campaign judges a history.
    pub(crate) fn limit(&self) -> u64
        ensures { result ≡ self.now.limit }
    {
        self.limit
    }

    /// The name of its campaign, if it has one.
    pub(crate) fn name(&self) -> Option<&'a Namespace<'a>>
        ensures { option_copied result ≡ self.now.name }
    {
        self.name
    }

    /// The number of the job.
    pub(crate) fn job(&self) -> u64
        ensures { result ≡ self.now.job }
    {
        self.job
    }

    /// What the job came to.
    pub(crate) fn outcome(&self) -> &JobOutcome<S>
        ensures { result.now ≡ self.now.outcome }
    {
        &self.outcome
    }

    /// What the job came to, without the message.
    pub(crate) fn into_outcome(self) -> JobOutcome<S>
        ensures same { result ≡ self.entry.outcome }
        ensures right { IsOutcome self.entry.seed self.entry.name self.entry.job result }
        ensures turns { IsJudgedWithin self.entry.limit result }
    {
        let JobMessage {
            seed: _,
            limit: _,
            name: _,
            job: _,
            outcome,
        } = self;
        outcome
    }
}

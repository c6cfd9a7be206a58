//! What the jobs of a campaign came to, together, as far as they have run.
ghost use Rattle.std.specs.Prelude.{◌≡◌, ◌+◌, ◌<◌, ◌^◌, List, [], ◌∷◌, ◌++◌, length};
ghost use Rattle.mc_answers.specs.Statuses.{status_number};
ghost use Rattle.mc_command.specs.CampaignAnswers as answers;
ghost use Rattle.mc_command.specs.Tallies.{IsTally};
ghost use Rattle.mc_campaign.specs.declared.outcome.JobResult.{JobResult};

use mc_answers::Status;
use mc_campaign::{JobResult, Standing, job_status};
use mc_lane::Stream;

/// What jobs came to.
#[derive(Clone, Copy, Drop, PartialEq, Eq)]
pub struct Tally {
    /// How many there were.
    pub jobs: u64,
    /// How many of them are unexplained.
    pub unexplained: u64,
    /// The number of the first of these.
    pub first: Option<u64>,
    /// The exit status of one report of them all.
    pub status: Status,
}

impl Tally {
    /// Of no jobs.
    pub fn new() -> Tally
        ensures jobs { result.jobs ≡ 0 }
        ensures unexplained { result.unexplained ≡ 0 }
        ensures first { result.first ≡ None }
        ensures status { result.status ≡ Status.Success }
    {
        Tally {
            jobs: 0,
            unexplained: 0,
            first: None,
            status: Status::Success,
        }
    }

    /// Of one job more.
    pub fn with<S: Stream>(self, one: &JobResult<S>) -> Tally
        ensures { (all : List (JobResult S)) → IsTally all self → length all + 1 < 2 ^ 64 → IsTally (all ++ one.now ∷ []) result }
    {
        let is_unexplained = is_unexplained(one);
        Tally {
            jobs: self.jobs.saturating_add(1),
            unexplained: self.unexplained.saturating_add(u64::from(is_unexplained)),
            first: self.first.or(is_unexplained.then_some(one.job)),
            status: self.status.joined(status_of(job_status(&one.outcome))),
        }
    }
}

/// Whether the job is unexplained.
pub fn is_unexplained<S: Stream>(one: &JobResult<S>) -> bool
    ensures { result ≡ answers.is_unexplained one.now }
{
    match Standing::of(&one.outcome) {
        Standing::Unexplained => true,
        Standing::Explained | Standing::Other => false,
    }
}

// The exit status of this number.
fn status_of(number: u8) -> Status
    requires { answers.IsReportStatus number }
    ensures { status_number result ≡ number }
{
    match number {
        0 => Status::Success,
        1 => Status::Unexplained,
        _ => Status::NoAnswer,
    }
}

//! What jobs count as.

ghost use Rattle.std.specs.Prelude.{◌≡◌, ◌+◌, ◌-◌, ◌^◌, cond, min};
ghost use Rattle.mc_campaign.specs.ReportText as spec;

use crate::JobOutcome;
use mc_explain::Verdict;
use mc_lane::Stream;

/// What a job counts as in the totals of a report.
#[derive(Clone, Copy, Debug, PartialEq, Eq)]
pub enum Standing {
    /// It ran, and its run has an explanation.
    Explained,
    /// It ran, and its run has none.
    Unexplained,
    /// It didn't run, or there is no verdict within the limit of turns.
    Other,
}

impl Standing {
    /// What a job counts as that came to this.
    pub fn of<S: Stream>(outcome: &JobOutcome<S>) -> Standing
        ensures { result ≡ spec.standing_of outcome.now }
    {
        match outcome {
            JobOutcome::Ran { verdict, .. } => Standing::by(verdict),
            JobOutcome::NotMade(_) | JobOutcome::NoLane(_) | JobOutcome::NotRun(_) => {
                Standing::Other
            }
        }
    }

    fn by(verdict: &Verdict) -> Standing
        ensures { result ≡ spec.standing_by verdict.now }
    {
        match verdict {
            Verdict::Explained(_) => Standing::Explained,
            Verdict::Unexplained => Standing::Unexplained,
            Verdict::Undecided => Standing::Other,
        }
    }

    /// The count of those that count as this, after one that counts as `other`.
    pub(crate) fn counted(self, count: u64, other: Standing) -> u64
        ensures { result ≡ min (count + cond (spec.is_same_standing self other) 1 0) (2 ^ 64 - 1) }
    {
        if self.is(other) {
            count.saturating_add(1)
        } else {
            count
        }
    }

    /// Whether both are the same.
    pub(crate) fn is(self, other: Standing) -> bool
        ensures { result ≡ spec.is_same_standing self other }
    {
        self == other
    }
}

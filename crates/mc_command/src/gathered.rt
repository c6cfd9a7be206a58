//! What is known of the jobs of a campaign, as far as they have run.
ghost use Rattle.std.specs.Prelude.{◌≡◌, ◌+◌, ◌-◌, ◌<◌, ◌^◌, ◌++◌, ◌∷◌, List, [], length, IfOk, OnOk};
ghost use Rattle.mc_campaign.specs.declared.outcome.JobResult.{JobResult};
ghost use Rattle.mc_campaign.specs.ReportLines.{IsEmpty, printed};
ghost use Rattle.mc_command.specs.Tallies.{Becomes, Gathers, HasSettings, IsNone};
ghost use Rattle.mc_command.specs.declared.gathered.Gathered.{Gathered};
ghost use Rattle.mc_command.specs.CampaignAnswers as answers;

use crate::showing::shown_text;
use crate::tally::Tally;
use mc_campaign::{JobResult, Keeper, ReportLines};
use mc_cli::{Plan, Search};
use mc_lane::Stream;
use std::alloc::{AllocError, Global};
use std::mem;

/// Keeps of each job its line in the report that isn't written yet, what all came to, and what shows the first that are unexplained.
#[derive(Drop)]
pub struct Gathered {
    alloc: Global,
    show: bool,
    how: Search,
    /// The report that isn't written yet.
    pub report: ReportLines,
    /// What all jobs came to.
    pub tally: Tally,
    /// What shows the first of them that are unexplained, where that is asked for.
    pub shown: Vec<u8>,
}

impl Gathered {
    /// Of no jobs.
    pub fn new(alloc: Global, plan: Plan) -> Self
        ensures settings { HasSettings plan result }
        ensures none { IsNone result }
    {
        Gathered {
            alloc,
            show: plan.show,
            how: Search {
                limit: plan.limit,
                why: plan.why,
            },
            report: ReportLines::new(alloc, plan.brief),
            tally: Tally::new(),
            shown: Vec::new(alloc),
        }
    }

    /// Of one job more. Its history is shown where that is asked for, and why nothing explains it.
    fn add<S: Stream>(&mut self, one: &JobResult<S>) -> Result<(), AllocError>
        requires { answers.HasTrueVerdict one.now.outcome }
        ensures brief { self.new.report.brief ≡ self.old.report.brief }
        ensures show { self.new.show ≡ self.old.show }
        ensures how { self.new.how ≡ self.old.how }
        ensures gathers { OnOk result ((all last : List (JobResult S)) → Gathers self.old.show self.old.how.why all last self.old
            → length all + 1 < 2 ^ 64 → length last + 1 < 2 ^ 64
            → Gathers self.old.show self.old.how.why (all ++ one.now ∷ []) (last ++ one.now ∷ []) self.new) }
    {
        let shown = shown_text(self.alloc, self.show, self.how, self.tally.unexplained, one)?;
        self.shown.extend_from_slice(shown.as_slice())?;
        self.report.add(one)?;
        self.tally = self.tally.with(one);
        Ok(())
    }

    /// The text of the report. The next one has no jobs yet.
    pub fn take_report(&mut self, brief: bool) -> Result<Vec<u8>, AllocError>
        requires { brief ≡ self.old.report.brief }
        ensures text { IfOk result (λ text. text.items ≡ printed self.old.report) }
        ensures tally { self.new.tally ≡ self.old.tally }
        ensures brief { self.new.report.brief ≡ brief }
        ensures show { self.new.show ≡ self.old.show }
        ensures how { self.new.how ≡ self.old.how }
        ensures shown { self.new.shown.items ≡ self.old.shown.items }
        ensures none { IsEmpty self.new.report }
    {
        let report = mem::replace(&mut self.report, ReportLines::new(self.alloc, brief));
        report.into_text()
    }
}

impl<S: Stream> Keeper<JobResult<S>> for Gathered {
    ghost accepts = { λ r. answers.HasTrueVerdict r.outcome };

    ghost becomes = { Becomes };

    fn keep(&mut self, came_to: JobResult<S>) -> Result<(), AllocError>
        requires { answers.HasTrueVerdict came_to.outcome }
        ensures { OnOk result ((first : Gathered) (before : List (JobResult S)) → Becomes first before self.old
            → Becomes first (before ++ came_to ∷ []) self.new) }
    {
        self.add(&came_to)
    }
}

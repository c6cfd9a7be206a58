//! The text of a report whose jobs come one after the other.

ghost use Rattle.std.specs.Prelude.{◌≡◌, ◌+◌, ◌<◌, ◌^◌, ◌++◌, ◌∷◌, List, [], IfOk, OnOk, length, string_bytes};
ghost use Rattle.mc_campaign.specs.ReportLines.{IsEmpty, IsReportOf, printed};
ghost use Rattle.mc_campaign.specs.ReportText as spec;
ghost use Rattle.mc_campaign.specs.declared.outcome.JobResult.{JobResult};

use crate::report_text::line_by;
use crate::{JobResult, Standing};
use mc_lane::Stream;
use mc_protocol::OutOfMemory;
use std::alloc::Global;

/// The lines of the jobs that came, and the counts for the last line.
#[derive(Debug, Drop)]
pub struct ReportLines {
    alloc: Global,
    brief: bool,
    text: Vec<u8>,
    /// How many jobs there are.
    pub jobs: u64,
    explained: u64,
    unexplained: u64,
    other: u64,
}

impl ReportLines {
    /// Of no jobs yet; of a brief report, or of one with all lines.
    pub fn new(alloc: Global, brief: bool) -> Self
        ensures brief { result.brief ≡ brief }
        ensures none { IsEmpty result }
    {
        ReportLines {
            alloc,
            brief,
            text: Vec::new(alloc),
            jobs: 0,
            explained: 0,
            unexplained: 0,
            other: 0,
        }
    }

    /// One job more.
    ///
    /// # Errors
    ///
    /// That memory ran out.
    pub fn add<S: Stream>(&mut self, one: &JobResult<S>) -> Result<(), OutOfMemory>
        ensures brief { self.new.brief ≡ self.old.brief }
        ensures more { OnOk result ((results : List (JobResult S)) → IsReportOf results self.old → length results + 1 < 2 ^ 64
            → IsReportOf (results ++ one.now ∷ []) self.new) }
    {
        let line = line_by(self.alloc, self.brief, one)?;
        self.text.extend_from_slice(line.as_bytes())?;
        self.jobs = self.jobs.saturating_add(1);
        let standing = Standing::of(&one.outcome);
        self.explained = Standing::Explained.counted(self.explained, standing);
        self.unexplained = Standing::Unexplained.counted(self.unexplained, standing);
        self.other = Standing::Other.counted(self.other, standing);
        Ok(())
    }

    /// The text of the report.
    ///
    /// # Errors
    ///
    /// That memory ran out.
    pub fn into_text(self) -> Result<Vec<u8>, OutOfMemory>
        ensures { IfOk result (λ text. text.items ≡ printed self) }
    {
        let ReportLines {
            alloc,
            brief: _,
            text,
            jobs,
            explained,
            unexplained,
            other,
        } = self;
        let totals = totals_line(alloc, jobs, explained, unexplained, other)?;
        let mut text = text;
        text.extend_from_slice(totals.as_bytes())?;
        Ok(text)
    }
}

fn totals_line(
    alloc: Global,
    jobs: u64,
    explained: u64,
    unexplained: u64,
    other: u64,
) -> Result<String, OutOfMemory>
    ensures { IfOk result (λ line. string_bytes line ≡ spec.totals_by jobs explained unexplained other) }
{
    format!(in alloc; "jobs {jobs} explained {explained} unexplained {unexplained} other {other}\n")
}

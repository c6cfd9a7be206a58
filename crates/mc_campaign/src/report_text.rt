//! The text of a report.

ghost use Rattle.std.specs.Prelude.{◌≡◌, ◌++◌, string_bytes, IfOk, OnOk, OnErr};
ghost use Rattle.mc_campaign.specs.ReportText as spec;

use crate::exit_status::is_clean;
use crate::{JobOutcome, JobResult, Report, ReportLines};
use mc_core::{Ending, World};
use mc_explain::Verdict;
use mc_lane::Stream;
use mc_protocol::{Actor, OutOfMemory};
use std::alloc::Global;

/// Appends the text of a report: a line for each job, and then one with how many there are, how many of them are explained, how many
/// are unexplained, and how many are neither. The line of a job that ran has the verdict, and each section that failed with its
/// fault. Want of memory leaves `out` as it was.
pub fn print_report<S: Stream>(report: &Report<S>, out: &mut Vec<u8>) -> Result<(), OutOfMemory>
    ensures ok { OnOk result (out.new.items ≡ out.old.items ++ spec.report_text report.now.results) }
    ensures err { OnErr result (out.new.items ≡ out.old.items) }
{
    let text = text_of(*out.allocator(), false, report.results.as_slice())?;
    out.extend_from_slice(text.as_slice())
}

/// The same without the lines of the jobs with which nothing was wrong: that are explained, with all their sections done. The last line
/// counts them.
pub fn print_brief_report<S: Stream>(
    report: &Report<S>,
    out: &mut Vec<u8>,
) -> Result<(), OutOfMemory>
    ensures ok { OnOk result (out.new.items ≡ out.old.items ++ spec.brief_report_text report.now.results) }
    ensures err { OnErr result (out.new.items ≡ out.old.items) }
{
    let text = text_of(*out.allocator(), true, report.results.as_slice())?;
    out.extend_from_slice(text.as_slice())
}

fn text_of<S: Stream>(
    alloc: Global,
    brief: bool,
    results: &[JobResult<S>],
) -> Result<Vec<u8>, OutOfMemory>
    ensures { IfOk result (λ text. text.items ≡ spec.text_by brief results.now) }
{
    let count = results.len();
    prove!(count <= usize::MAX);
    let mut lines = ReportLines::new(alloc, brief);
    'jobs: for one in results {
        lines.add(one)?;
    }
    lines.into_text()
}

/// The line of a job; or nothing in a brief report, if nothing was wrong with it.
pub(crate) fn line_by<S: Stream>(
    alloc: Global,
    brief: bool,
    one: &JobResult<S>,
) -> Result<String, OutOfMemory>
    ensures { IfOk result (λ line. string_bytes line ≡ spec.line_by brief one.now) }
{
    if brief {
        brief_job_line(alloc, one)
    } else {
        job_line(alloc, one)
    }
}

fn brief_job_line<S: Stream>(alloc: Global, one: &JobResult<S>) -> Result<String, OutOfMemory>
    ensures { IfOk result (λ line. string_bytes line ≡ spec.brief_job_line one.now) }
{
    if is_clean(&one.outcome) {
        return Ok(String::new(alloc));
    }
    job_line(alloc, one)
}

fn job_line<S: Stream>(alloc: Global, one: &JobResult<S>) -> Result<String, OutOfMemory>
    ensures { IfOk result (λ line. string_bytes line ≡ spec.job_line one.now) }
{
    let job = one.job;
    let words = outcome_words(alloc, &one.outcome)?;
    format!(in alloc; "{job} {words}\n")
}

fn outcome_words<S: Stream>(alloc: Global, outcome: &JobOutcome<S>) -> Result<String, OutOfMemory>
    ensures { IfOk result (λ words. string_bytes words ≡ spec.outcome_words outcome.now) }
{
    match outcome {
        JobOutcome::NotMade(_) => format!(in alloc; "not made"),
        JobOutcome::NoLane(section) => format!(in alloc; "no connection {}", section.word()),
        JobOutcome::NotRun(_) => format!(in alloc; "not run"),
        JobOutcome::Ran { run, verdict, .. } => {
            let failures = failures_words(alloc, &run.world)?;
            format!(in alloc; "{}{failures}", verdict_word(verdict))
        }
    }
}

fn verdict_word(verdict: &Verdict) -> &'static str
    ensures { result.now ≡ spec.verdict_word verdict.now }
{
    match verdict {
        Verdict::Explained(_) => "explained",
        Verdict::Unexplained => "unexplained",
        Verdict::Undecided => "undecided",
    }
}

/// The sections that failed.
fn failures_words(alloc: Global, world: &World) -> Result<String, OutOfMemory>
    ensures { IfOk result (λ words. string_bytes words ≡ spec.failures_words world.now.endings) }
{
    let p = failure_words(alloc, Actor::P, world.ending(Actor::P))?;
    let a = failure_words(alloc, Actor::A, world.ending(Actor::A))?;
    let b = failure_words(alloc, Actor::B, world.ending(Actor::B))?;
    format!(in alloc; "{p}{a}{b}")
}

fn failure_words(alloc: Global, actor: Actor, ending: Ending) -> Result<String, OutOfMemory>
    ensures { IfOk result (λ words. string_bytes words ≡ spec.failure_words actor ending) }
{
    match ending {
        Ending::Failed(fault) => {
            let section = actor.word();
            let name = fault.name();
            format!(in alloc; " {section} {name}")
        }
        Ending::NotBegun | Ending::Running | Ending::Done => Ok(String::new(alloc)),
    }
}

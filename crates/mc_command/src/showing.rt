//! The histories of unexplained jobs, and why nothing explains them.
ghost use Rattle.std.specs.Prelude.{◌≡◌, ◌⊎◌, ◌<◌, ◌≤◌, ◌∷◌, ◌-◌, [], IfOk, false, true};
ghost use Rattle.mc_explain.specs.Verdicts.{IsTrueOf};
ghost use Rattle.mc_command.specs.CampaignAnswers as answers;

use crate::tally::is_unexplained;
use mc_answers::{Counted, why_text};
use mc_campaign::{JobOutcome, JobResult};
use mc_cli::Search;
use mc_explain::Verdict;
use mc_history::print_history;
use mc_lane::Stream;
use mc_model::History;
use mc_protocol::OutOfMemory;
use std::alloc::Global;

// At most this many jobs of a campaign are shown.
const MOST_SHOWN: u64 = 10;

/// What shows the job where that is asked for, it is unexplained, and fewer than ten before it were: a line with its number, why nothing
/// explains its history, where `how` asks for it, and the history.
pub fn shown_text<S: Stream>(
    alloc: Global,
    show: bool,
    how: Search,
    before: u64,
    one: &JobResult<S>,
) -> Result<Vec<u8>, OutOfMemory>
    requires { answers.HasTrueVerdict one.now.outcome }
    ensures { IfOk result (λ text. answers.ShowsAtMost (answers.MOST_SHOWN - before) show how.why (one.now ∷ []) text.items) }
{
    if is_shown(show, before, one) {
        job_text(alloc, how, one)
    } else {
        Ok(Vec::new(alloc))
    }
}

// The job is shown, where it is asked for and `before` ones were unexplained.
fn is_shown<S: Stream>(show: bool, before: u64, one: &JobResult<S>) -> bool
    ensures shown { result ≡ true → (show ≡ true) × (before < answers.MOST_SHOWN) × (answers.is_unexplained one.now ≡ true) }
    ensures hidden { result ≡ false → (show ≡ false) ⊎ ((answers.MOST_SHOWN ≤ before) ⊎ (answers.is_unexplained one.now ≡ false)) }
{
    show && before < MOST_SHOWN && is_unexplained(one)
}

fn job_text<S: Stream>(
    alloc: Global,
    how: Search,
    one: &JobResult<S>,
) -> Result<Vec<u8>, OutOfMemory>
    requires { answers.HasTrueVerdict one.now.outcome }
    ensures { IfOk result (λ text. answers.IsShownJob how.why one.now text.items) }
{
    let job = one.job;
    let line = format!(in alloc; "job {job}\n")?;
    let shown = outcome_text(alloc, how, &one.outcome)?;
    let mut text = Vec::from_slice(alloc, line.as_bytes())?;
    text.extend_from_slice(shown.as_slice())?;
    Ok(text)
}

fn outcome_text<S: Stream>(
    alloc: Global,
    how: Search,
    outcome: &JobOutcome<S>,
) -> Result<Vec<u8>, OutOfMemory>
    requires { answers.HasTrueVerdict outcome.now }
    ensures { IfOk result (λ text. answers.IsShownOutcome how.why outcome.now text.items) }
{
    match outcome {
        JobOutcome::Ran {
            history,
            verdict,
            ..
        } => run_text(alloc, how, history, verdict),
        JobOutcome::NotMade(_) | JobOutcome::NoLane(_) | JobOutcome::NotRun(_) => {
            Ok(Vec::new(alloc))
        }
    }
}

// Why nothing explains the history, where that is so and is asked for, and the history.
fn run_text(
    alloc: Global,
    how: Search,
    history: &History,
    verdict: &Verdict,
) -> Result<Vec<u8>, OutOfMemory>
    requires { IsTrueOf history.now verdict.now }
    ensures { IfOk result (λ text. answers.IsShownRun how.why history.now verdict.now text.items) }
{
    let mut text = why_text(alloc, how, Counted::Printed, history, verdict)?;
    print_history(history, &mut text)?;
    Ok(text)
}

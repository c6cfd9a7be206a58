//! A campaign's report as lines of JSON.

use crate::converted::write_part;
use crate::jobs::{Job, Outcome, jobs_of, shrunk_lines, totals_of};
use crate::json_text::JsonText;
use crate::run_json::{write_outcome, write_totals};
use mc_protocol::OutOfMemory;
use std::alloc::Global;

/// What a campaign was asked for, which its report doesn't say.
#[derive(Clone, Copy, Debug, Drop)]
pub struct CampaignArguments<'a> {
    pub seed: u64,
    /// The number of the first job.
    pub from: u64,
    /// How many jobs there are, if that was asked for.
    pub jobs: Option<u64>,
    /// The name that all keys are put under, if they are.
    pub name: Option<&'a str>,
}

/// The lines of JSON for the text of a campaign: one for each job that isn't explained with all sections done, and one for the totals of
/// each report, of which the last has the arguments and the smaller script.
///
/// # Errors
///
/// That memory ran out.
pub fn campaign_json(
    alloc: Global,
    text: &[u8],
    arguments: Option<CampaignArguments<'_>>,
) -> Result<Vec<u8>, OutOfMemory> {
    let mut out = Vec::new(alloc);
    let jobs = jobs_of(alloc, text)?;
    'jobs: for job in &jobs {
        if job.outcome != Outcome::Explained {
            let line = job_line(alloc, job)?;
            out.extend_from_slice(line.as_slice())?;
        }
    }
    let totals = totals_of(alloc, text)?;
    if let Some((last, others)) = totals.as_slice().split_last() {
        'totals: for line in others {
            let line = totals_line(alloc, line, &[], None)?;
            out.extend_from_slice(line.as_slice())?;
        }
        let script = shrunk_lines(alloc, text)?;
        let line = totals_line(alloc, last, script.as_slice(), arguments)?;
        out.extend_from_slice(line.as_slice())?;
    }
    Ok(out)
}

fn job_line(alloc: Global, job: &Job<'_>) -> Result<Vec<u8>, OutOfMemory> {
    let mut out = JsonText::new(alloc)?;
    write_job(&mut out, job)?;
    if let Some(part) = job.shown {
        write_part(&mut out, part)?;
    }
    out.into_line()
}

/// Writes the members for what a job's line says.
pub fn write_job(out: &mut JsonText, job: &Job<'_>) -> Result<(), OutOfMemory> {
    out.text("job", job.number)?;
    let words = out.words_of(job.line)?;
    match words.as_slice() {
        [_, others @ ..] if job.outcome == Outcome::None => write_outcome(out, others),
        [_, verdict, failed @ ..] => {
            out.text("verdict", verdict)?;
            write_failed(out, failed)
        }
        _ => Ok(()),
    }
}

// The sections that failed: pairs of a section and the name of its fault.
fn write_failed(out: &mut JsonText, words: &[&[u8]]) -> Result<(), OutOfMemory> {
    if words.is_empty() {
        return Ok(());
    }
    out.begin_list("failed")?;
    'pairs: for pair in words.chunks(2) {
        out.item(&["section", "fault"], pair)?;
    }
    out.end_list()
}

fn totals_line(
    alloc: Global,
    line: &[u8],
    script: &[&[u8]],
    arguments: Option<CampaignArguments<'_>>,
) -> Result<Vec<u8>, OutOfMemory> {
    let mut out = JsonText::new(alloc)?;
    write_totals(&mut out, line)?;
    if let Some(
        CampaignArguments {
            seed,
            from,
            jobs,
            name,
        },
    ) = arguments
    {
        out.quoted("seed", Some(seed))?;
        out.quoted("from", Some(from))?;
        out.quoted("jobs", jobs)?;
        match name {
            Some(name) => out.text("name", name.as_bytes())?,
            None => out.null("name")?,
        }
    }
    out.strings("shrunk", script)?;
    out.into_line()
}

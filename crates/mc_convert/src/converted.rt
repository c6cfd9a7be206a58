//! A history in a printed text, in another form.

use crate::campaign::{campaign_json, write_job};
use crate::edn::{append_lines, append_operations};
use crate::excerpt::{find_history, has_words};
use crate::history_json::{write_history, write_timeline};
use crate::jobs::{job_of, totals_of};
use crate::json_text::JsonText;
use crate::printed::{lines_in, lines_that_say};
use crate::run_json::write_said;
use itoa::Buffer;
use mc_history::{Explanation, HistoryFault, parse_history};
use mc_model::History;
use mc_protocol::{OutOfMemory, fault_of_input};
use std::alloc::Global;

/// The form of what is written.
#[derive(Clone, Copy, Debug, Drop, PartialEq, Eq)]
pub enum Form {
    Json,
    Edn,
}

/// What comes of it.
#[derive(Debug, Drop)]
pub enum Converted {
    /// The text in the form.
    Written(Vec<u8>),
    /// The text has no such history. The fault is that of `parse_history`, its line that of the whole text.
    Refused(HistoryFault),
    /// EDN needs the order of begins and replies, and the history keeps none.
    NoOrder,
}

// What a text shows.
#[derive(Drop)]
enum Shown<'a> {
    None,
    // A history, with the explanation that its text claims.
    History((History, Option<Explanation>)),
    // The lines of a timeline.
    Timeline(Vec<&'a [u8]>),
}

/// A text's first history, or with `job` the first one after the line `job N` of this number, in this form; in JSON with what the text says
/// of the run or of the job. The report of a campaign in JSON, if no job is asked for, is that of `campaign_json`.
///
/// # Errors
///
/// That memory ran out.
pub fn convert(
    alloc: Global,
    text: &[u8],
    form: Form,
    job: Option<u64>,
) -> Result<Converted, OutOfMemory> {
    if form == Form::Json && job.is_none() && !totals_of(alloc, text)?.is_empty() {
        return Ok(Converted::Written(campaign_json(alloc, text, None)?));
    }
    let excerpt = find_history(text, job);
    match parse_history(alloc, excerpt.text) {
        Ok(parsed) => match form {
            Form::Json => {
                let shown = Shown::History(parsed);
                Ok(Converted::Written(json_of(alloc, text, job, shown)?))
            }
            Form::Edn => edn_of(alloc, parsed.0),
        },
        Err(fault) => {
            fault_of_input(fault.kind)?;
            Ok(Converted::Refused(excerpt.fault_in_whole(fault)))
        }
    }
}

/// A timeline as `convert` writes a history. The text shows it at the place that [`find_history`] finds, and `printed` is what stands
/// there, as a timeline is printed.
///
/// # Errors
///
/// That memory ran out.
pub fn convert_timeline(
    alloc: Global,
    text: &[u8],
    form: Form,
    job: Option<u64>,
    printed: &[u8],
) -> Result<Vec<u8>, OutOfMemory> {
    let lines = lines_in(alloc, printed)?;
    match form {
        Form::Json => json_of(alloc, text, job, Shown::Timeline(lines)),
        Form::Edn => {
            let mut out = Vec::new(alloc);
            append_lines(alloc, &mut out, lines.as_slice())?;
            Ok(out)
        }
    }
}

fn edn_of(alloc: Global, history: History) -> Result<Converted, OutOfMemory> {
    if history.notes().is_none() {
        return Ok(Converted::NoOrder);
    }
    let mut out = Vec::new(alloc);
    append_operations(alloc, &mut out, &history)?;
    Ok(Converted::Written(out))
}

// The object of the text, or of what it says and shows of the job, with the history that was found there.
fn json_of(
    alloc: Global,
    text: &[u8],
    job: Option<u64>,
    shown: Shown<'_>,
) -> Result<Vec<u8>, OutOfMemory> {
    let mut out = JsonText::new(alloc)?;
    match job {
        Some(job) => {
            let mut digits = Buffer::new();
            let job = job_of(alloc, text, digits.format(job).as_bytes())?;
            write_job(&mut out, &job)?;
            write_members(&mut out, job.shown.unwrap_or(&[]), shown)?;
        }
        None => write_members(&mut out, text, shown)?,
    }
    out.into_line()
}

fn write_members(out: &mut JsonText, text: &[u8], shown: Shown<'_>) -> Result<(), OutOfMemory> {
    let said = lines_that_say(out.alloc(), text)?;
    write_said(out, said.as_slice())?;
    match shown {
        Shown::None => Ok(()),
        Shown::History((history, claim)) => write_history(out, &history, &claim),
        Shown::Timeline(lines) => write_timeline(out, lines.as_slice()),
    }
}

/// Writes the members for what the text says, and for its first history if it has one.
pub fn write_part(out: &mut JsonText, text: &[u8]) -> Result<(), OutOfMemory> {
    let part = find_history(text, None).text;
    let lines = lines_in(out.alloc(), part)?;
    let shown = match lines.first() {
        Some(header) if has_words(header, &[b"history", b"3"]) => Shown::Timeline(lines),
        _ => shown_in(out.alloc(), part)?,
    };
    write_members(out, text, shown)
}

fn shown_in<'a>(alloc: Global, part: &[u8]) -> Result<Shown<'a>, OutOfMemory> {
    match parse_history(alloc, part) {
        Ok(parsed) => Ok(Shown::History(parsed)),
        Err(fault) => {
            fault_of_input(fault.kind)?;
            Ok(Shown::None)
        }
    }
}

/// The object for what `run`, `judge` or `check` printed, with the text's first history if it has one.
///
/// # Errors
///
/// That memory ran out.
pub fn report_json(alloc: Global, text: &[u8]) -> Result<Vec<u8>, OutOfMemory> {
    let mut out = JsonText::new(alloc)?;
    write_part(&mut out, text)?;
    out.into_line()
}

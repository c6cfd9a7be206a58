//! The jobs of a campaign's report, and what it shows of them.

use crate::excerpt::has_words;
use crate::printed::lines_in;
use mc_protocol::{OutOfMemory, Separator, has_digits_alone, is_word, words_in};
use std::alloc::Global;

/// A job of a report.
#[derive(Clone, Copy, Debug, Drop)]
pub struct Job<'a> {
    pub number: &'a [u8],
    /// Its line.
    pub line: &'a [u8],
    pub outcome: Outcome,
    /// What is shown of it, without its line `job N`.
    pub shown: Option<&'a [u8]>,
}

/// What a job came to.
#[derive(Clone, Copy, Debug, Drop, PartialEq, Eq)]
pub enum Outcome {
    /// It is explained, and all its sections are done.
    Explained,
    Unexplained,
    /// It is undecided, or explained though a section failed.
    Undecided,
    /// It didn't run: there is no verdict.
    None,
}

/// The jobs of a report in its order.
pub fn jobs_of<'a>(alloc: Global, text: &'a [u8]) -> Result<Vec<Job<'a>>, OutOfMemory> {
    let parts = shown_parts(alloc, text)?;
    let mut next: usize = 0;
    let mut jobs = Vec::new(alloc);
    'lines: for line in lines_in(alloc, text)? {
        let words = words_in(alloc, Separator::Space, line)?;
        if let Some((number, outcome)) = job_in(words.as_slice()) {
            // What is shown of jobs stands in the order of their lines.
            let shown = part_of(parts.as_slice(), next, number);
            if shown.is_some() {
                next = next.saturating_add(1);
            }
            jobs.push(Job {
                number,
                line,
                outcome,
                shown,
            })?;
        }
    }
    Ok(jobs)
}

/// The words of a job's line: what is said of the job of this number.
fn job_in<'a>(words: &[&'a [u8]]) -> Option<(&'a [u8], Outcome)> {
    match words {
        [number, word, others @ ..] if has_digits_alone(number) => {
            let outcome = outcome_in(word, others)?;
            Some((*number, outcome))
        }
        _ => None,
    }
}

fn outcome_in(word: &[u8], others: &[&[u8]]) -> Option<Outcome> {
    if is_word(word, b"explained") && others.is_empty() {
        Some(Outcome::Explained)
    } else if is_word(word, b"unexplained") {
        Some(Outcome::Unexplained)
    } else if is_word(word, b"explained") || is_word(word, b"undecided") {
        Some(Outcome::Undecided)
    } else if is_word(word, b"no") || is_word(word, b"not") {
        Some(Outcome::None)
    } else {
        None
    }
}

// The part with this index, if it is the job's.
fn part_of<'a>(parts: &[(&'a [u8], &'a [u8])], index: usize, job: &[u8]) -> Option<&'a [u8]> {
    let (number, part) = parts.get(index)?;
    if *number == job { Some(*part) } else { None }
}

// What stands after each line `job N`, up to the next one, with its number.
fn shown_parts<'a>(
    alloc: Global,
    text: &'a [u8],
) -> Result<Vec<(&'a [u8], &'a [u8])>, OutOfMemory> {
    let mut parts = Vec::new(alloc);
    let mut starts = Vec::new(alloc);
    let mut start: usize = 0;
    'lines: for line in text.split(|byte| *byte == b'\n') {
        let after = start.saturating_add(line.len()).saturating_add(1);
        if let Some(number) = number_of_job(line) {
            starts.push((number, start, after))?;
        }
        start = after;
    }
    'parts: for (index, (number, _, after)) in starts.iter().enumerate() {
        let end = match starts.as_slice().get(index.saturating_add(1)) {
            Some((_, start, _)) => *start,
            None => text.len(),
        };
        parts.push((*number, slice_of(text, *after, end)))?;
    }
    Ok(parts)
}

fn slice_of<'a>(text: &'a [u8], start: usize, end: usize) -> &'a [u8] {
    let (front, _) = text.split_at(end.min(text.len()));
    let (_, part) = front.split_at(start.min(front.len()));
    part
}

// The number in a line `job N`.
fn number_of_job(line: &[u8]) -> Option<&[u8]> {
    let number = line.strip_prefix(b"job ".as_slice())?;
    if has_digits_alone(number) {
        Some(number)
    } else {
        None
    }
}

/// The job of this number: that of its line with what is shown of it, or what is shown alone.
pub fn job_of<'a>(alloc: Global, text: &'a [u8], number: &'a [u8]) -> Result<Job<'a>, OutOfMemory> {
    let jobs = jobs_of(alloc, text)?;
    if let Some(job) = jobs.iter().find(|job: &&Job<'_>| job.number == number) {
        return Ok(*job);
    }
    let parts = shown_parts(alloc, text)?;
    let shown = parts.iter().find(|part| part.0 == number);
    Ok(Job {
        number,
        line: &[],
        outcome: Outcome::None,
        shown: shown.map(|part| part.1),
    })
}

/// The lines with the totals of a campaign: one for each of its reports.
pub fn totals_of<'a>(alloc: Global, text: &'a [u8]) -> Result<Vec<&'a [u8]>, OutOfMemory> {
    let mut totals = Vec::new(alloc);
    'lines: for line in lines_in(alloc, text)? {
        if line.starts_with(b"jobs ") {
            totals.push(line)?;
        }
    }
    Ok(totals)
}

/// The lines of the smaller script, with its line `end`.
pub fn shrunk_lines<'a>(alloc: Global, text: &'a [u8]) -> Result<Vec<&'a [u8]>, OutOfMemory> {
    let mut script = Vec::new(alloc);
    let mut is_script = false;
    'lines: for line in lines_in(alloc, text)? {
        if is_script {
            script.push(line)?;
            if has_words(line, &[b"end"]) {
                break;
            }
        }
        is_script = is_script || has_words(line, &[b"shrunk"]);
    }
    Ok(script)
}

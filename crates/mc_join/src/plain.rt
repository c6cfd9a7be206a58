//! Parts as text.

use crate::fault::{ReportKind, Stop};
use crate::job::{JobLine, Outcome, standing_of};
use crate::part::{Part, Span, push};
use crate::totals::{Standing, Totals};
use mc_protocol::{
    Actor, Line, Lines, Separator, has_digits_alone, is_word, read_decimal, words_in,
};
use std::alloc::Global;

/// A line that stands after the totals.
#[derive(Clone, Copy, Debug, Drop)]
pub struct AfterLine<'a> {
    pub kind: After,
    pub text: &'a [u8],
}

/// What a line after the totals belongs to.
#[derive(Clone, Copy, Debug, Drop, PartialEq, Eq)]
pub enum After {
    /// The smaller script: from the line `shrunk` to its line `end`.
    Script,
    /// It names the job that is shown: `job N`.
    Job,
    /// What is shown of the job.
    Shown,
}

/// Parts that were read.
#[derive(Debug, Drop)]
pub struct PlainParts<'a> {
    alloc: Global,
    pub parts: Vec<Part>,
    /// The lines of the jobs of all parts.
    pub jobs: Vec<JobLine<'a>>,
    /// The lines after the totals of all parts.
    pub after: Vec<AfterLine<'a>>,
    // How many of the lines of jobs are those of whole parts.
    begun: usize,
    // What those of the next part count as.
    counted: Totals,
    // What the last line after the last totals belongs to, if there is one.
    last: Option<After>,
    // Whether what stands after the last totals is whole.
    is_whole: bool,
}

// What a line says.
#[derive(Clone, Copy, Drop)]
enum Said {
    Job(u64, Outcome),
    Totals(Totals),
    /// What neither a job's line nor the totals may say.
    Wrong,
    Other,
}

/// The parts that the text has one after another.
pub fn read_plain<'a>(alloc: Global, text: &'a [u8]) -> Result<PlainParts<'a>, Stop> {
    let mut read = PlainParts::new(alloc);
    let mut lines = Lines::new(text, Separator::Space);
    'lines: while let Some(line) = lines.next() {
        read.take(line)?;
    }
    if read.is_over() {
        return Ok(read);
    }
    let line = lines.number().saturating_add(1);
    Err(Stop::at(ReportKind::Unended, line))
}

impl<'a> PlainParts<'a> {
    fn new(alloc: Global) -> Self {
        PlainParts {
            alloc,
            parts: Vec::new(alloc),
            jobs: Vec::new(alloc),
            after: Vec::new(alloc),
            begun: 0,
            counted: Totals::none(),
            last: None,
            is_whole: true,
        }
    }

    // Whether some lines of the next part were read, and its totals weren't.
    fn is_open(&self) -> bool {
        self.begun < self.jobs.len()
    }

    // Whether there are parts, and all of them are whole.
    fn is_over(&self) -> bool {
        !self.parts.is_empty() && !self.is_open() && self.is_whole
    }

    fn take(&mut self, line: Line<'a>) -> Result<(), Stop> {
        if line.text.starts_with(b"{") {
            return Err(Stop::at(ReportKind::Mixed, line.number));
        }
        let words = words_in(self.alloc, Separator::Space, line.text)?;
        match said_by(words.as_slice()) {
            Said::Wrong => Err(Stop::at(ReportKind::Line, line.number)),
            Said::Other => self.take_after(line, words.as_slice()),
            Said::Job(..) | Said::Totals(_) if !self.is_whole => {
                Err(Stop::at(ReportKind::Unended, line.number))
            }
            Said::Job(number, outcome) => self.take_job(line, number, outcome),
            Said::Totals(totals) => self.end_part(line, totals),
        }
    }

    fn take_job(&mut self, line: Line<'a>, number: u64, outcome: Outcome) -> Result<(), Stop> {
        self.counted = self.counted.and(outcome.standing);
        let job = JobLine {
            number,
            outcome,
            line: line.number,
            text: line.text,
        };
        push(&mut self.jobs, job)?;
        Ok(())
    }

    // Ends a part with its totals.
    fn end_part(&mut self, line: Line<'a>, totals: Totals) -> Result<(), Stop> {
        let jobs = Span {
            start: self.begun,
            end: self.jobs.len(),
        };
        let after = Span {
            start: self.after.len(),
            end: self.after.len(),
        };
        let lines = jobs.of(self.jobs.as_slice());
        let first = match lines.first() {
            Some(job) if totals == self.counted => *job,
            _ => return Err(Stop::at(ReportKind::Totals, line.number)),
        };
        in_a_row(lines)?;
        let part = Part {
            first: first.number,
            totals,
            line: first.line,
            jobs,
            after,
        };
        push(&mut self.parts, part)?;
        self.begun = self.jobs.len();
        self.counted = Totals::none();
        self.last = None;
        Ok(())
    }

    // Takes a line that is no job's, and isn't the totals.
    fn take_after(&mut self, line: Line<'a>, words: &[&[u8]]) -> Result<(), Stop> {
        let kind = match self.kind_after(words) {
            Some(kind) if !self.is_open() && !self.parts.is_empty() => kind,
            _ => return Err(Stop::at(ReportKind::Line, line.number)),
        };
        let line = AfterLine {
            kind,
            text: line.text,
        };
        push(&mut self.after, line)?;
        if let Some(part) = self.parts.last_mut() {
            part.after.end = self.after.len();
        }
        self.last = Some(kind);
        self.is_whole = is_alone(words, b"end");
        Ok(())
    }

    // What the next line belongs to, or nothing if it can't stand there.
    fn kind_after(&self, words: &[&[u8]]) -> Option<After> {
        match self.last {
            Some(After::Script) if !self.is_whole => Some(After::Script),
            None if is_alone(words, b"shrunk") => Some(After::Script),
            None | Some(After::Script) if names_job(words) => Some(After::Job),
            Some(After::Shown) if self.is_whole && names_job(words) => Some(After::Job),
            Some(After::Job | After::Shown) => Some(After::Shown),
            None | Some(After::Script) => None,
        }
    }
}

// The numbers of these jobs follow one another.
fn in_a_row(jobs: &[JobLine<'_>]) -> Result<(), Stop> {
    let mut expected = None;
    'jobs: for job in jobs {
        match expected {
            Some(number) if job.number != number => return Err(job.misplaced(number)),
            _ => {}
        }
        expected = Some(job.number.saturating_add(1));
    }
    Ok(())
}

fn is_alone(words: &[&[u8]], wanted: &[u8]) -> bool {
    match words {
        [word] => is_word(word, wanted),
        _ => false,
    }
}

// The line `job N`.
fn names_job(words: &[&[u8]]) -> bool {
    match words {
        [word, number] => is_word(word, b"job") && has_digits_alone(number),
        _ => false,
    }
}

fn said_by(words: &[&[u8]]) -> Said {
    match words {
        [number, others @ ..] if has_digits_alone(number) => {
            match (number_of(number), outcome_in(others)) {
                (Some(number), Some(outcome)) => Said::Job(number, outcome),
                _ => Said::Wrong,
            }
        }
        [word, ..] if is_word(word, b"jobs") => match totals_in(words) {
            Some(totals) => Said::Totals(totals),
            None => Said::Wrong,
        },
        _ => Said::Other,
    }
}

fn number_of(word: &[u8]) -> Option<u64> {
    read_decimal(u64::MAX, word).ok()
}

// What the words after a job's number say.
fn outcome_in(words: &[&[u8]]) -> Option<Outcome> {
    match words {
        [no, connection, section] if is_word(no, b"no") && is_word(connection, b"connection") => {
            Actor::from_word(section)?;
            Some(Outcome::of(Standing::Other))
        }
        [not, done] if is_word(not, b"not") && (is_word(done, b"run") || is_word(done, b"made")) =>
            { Some(Outcome::of(Standing::Other)) }
        [verdict, failed @ ..] => {
            let standing = standing_of(verdict)?;
            with_failed(Outcome::of(standing), failed)
        }
        [] => None,
    }
}

// The outcome with these sections that failed, each with its fault.
fn with_failed(outcome: Outcome, words: &[&[u8]]) -> Option<Outcome> {
    let mut found = outcome;
    'pairs: for pair in words.chunks(2) {
        found = match pair {
            [section, fault] => found.failed(section, fault)?,
            _ => return None,
        };
    }
    Some(found)
}

fn totals_in(words: &[&[u8]]) -> Option<Totals> {
    let [_, jobs, first, explained, second, unexplained, third, other] = words else {
        return None;
    };
    if !is_word(first, b"explained")
        || !is_word(second, b"unexplained")
        || !is_word(third, b"other")
    {
        return None;
    }
    let totals = Totals {
        jobs: number_of(jobs)?,
        explained: number_of(explained)?,
        unexplained: number_of(unexplained)?,
        other: number_of(other)?,
    };
    totals.add_up().then_some(totals)
}

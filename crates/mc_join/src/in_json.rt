//! Parts as JSON.

use crate::fault::{ReportKind, Stop};
use crate::job::{JobLine, Outcome, standing_of};
use crate::part::{Part, Span, push};
use crate::totals::{Standing, Totals};
use json::{Error, Scratch, Value};
use mc_protocol::{Line, Lines, Separator, read_decimal};
use std::alloc::Global;

/// What all parts are of.
#[derive(Debug, Drop)]
pub struct JsonCampaign {
    pub seed: u64,
    /// The name that all keys are put under, if they are.
    pub name: Option<String>,
}

/// Parts that were read.
#[derive(Debug, Drop)]
pub struct JsonParts<'a> {
    alloc: Global,
    pub parts: Vec<Part>,
    /// The lines of jobs of all parts.
    pub jobs: Vec<JobLine<'a>>,
    /// The line that ends each part.
    pub after: Vec<&'a [u8]>,
    /// What the first part is of, if there is one.
    pub campaign: Option<JsonCampaign>,
    /// Whether each part says how many jobs were asked for.
    pub is_asked: bool,
    // How many of the lines of jobs are those of whole parts.
    begun: usize,
    // What those of the next part count as, and the totals of its reports.
    counted: Totals,
    totals: Totals,
}

/// The parts that the text has one after another.
pub fn read_json<'a>(alloc: Global, text: &'a [u8]) -> Result<JsonParts<'a>, Stop> {
    let mut read = JsonParts::new(alloc);
    let mut lines = Lines::new(text, Separator::Space);
    'lines: while let Some(line) = lines.next() {
        read.take(line)?;
    }
    if read.is_over() {
        return Ok(read);
    }
    let line = lines.number().saturating_add(1);
    Err(Stop::at(ReportKind::Unended, line))
}

impl<'a> JsonParts<'a> {
    fn new(alloc: Global) -> Self {
        JsonParts {
            alloc,
            parts: Vec::new(alloc),
            jobs: Vec::new(alloc),
            after: Vec::new(alloc),
            campaign: None,
            is_asked: true,
            begun: 0,
            counted: Totals::none(),
            totals: Totals::none(),
        }
    }

    // Whether there are parts, and all of them are whole.
    fn is_over(&self) -> bool {
        !self.parts.is_empty() && self.begun == self.jobs.len() && self.totals.jobs == 0
    }

    fn take(&mut self, line: Line<'a>) -> Result<(), Stop> {
        if !line.text.starts_with(b"{") {
            return Err(Stop::at(ReportKind::Mixed, line.number));
        }
        let alloc = self.alloc;
        let mut scratch = Scratch::new(alloc);
        match Value::from_slice(alloc, line.text, &mut scratch) {
            Ok(value) => self.take_value(line, &value),
            Err(Error::OutOfMemory) => Err(Stop::OutOfMemory),
            Err(_) => Err(Stop::at(ReportKind::Line, line.number)),
        }
    }

    fn take_value(&mut self, line: Line<'a>, value: &Value<'_>) -> Result<(), Stop> {
        if let Some(job) = job_in(value) {
            return self.take_job(line, job);
        }
        let Some(totals) = totals_in(value) else {
            return Err(Stop::at(ReportKind::Line, line.number));
        };
        let Some(sum) = self.totals.plus(totals) else {
            return Err(Stop::at(ReportKind::Totals, line.number));
        };
        self.totals = sum;
        if value.get("seed").is_none() {
            return Ok(());
        }
        let Some(end) = PartEnd::in_value(value) else {
            return Err(Stop::at(ReportKind::Line, line.number));
        };
        self.check_campaign(line, &end)?;
        self.end_part(line, &end)
    }

    fn take_job(&mut self, line: Line<'a>, job: (u64, Outcome)) -> Result<(), Stop> {
        let (number, outcome) = job;
        self.counted = self.counted.and(outcome.standing);
        let job = JobLine {
            number,
            outcome,
            line: line.number,
            text: line.text,
        };
        push(&mut self.jobs, job)?;
        Ok(())
    }

    // The part is of the same campaign as the first one.
    fn check_campaign(&mut self, line: Line<'a>, end: &PartEnd<'_>) -> Result<(), Stop> {
        match &self.campaign {
            Some(campaign) if end.is_of(campaign) => Ok(()),
            Some(_) => Err(Stop::at(ReportKind::Campaign, line.number)),
            None => {
                self.campaign = Some(end.campaign(self.alloc)?);
                Ok(())
            }
        }
    }

    fn end_part(&mut self, line: Line<'a>, end: &PartEnd<'_>) -> Result<(), Stop> {
        let totals = self.totals;
        if !is_counted(self.counted, totals) || end.jobs.is_some_and(|jobs| jobs != totals.jobs) {
            return Err(Stop::at(ReportKind::Totals, line.number));
        }
        let jobs = Span {
            start: self.begun,
            end: self.jobs.len(),
        };
        let after = Span {
            start: self.after.len(),
            end: self.after.len().saturating_add(1),
        };
        stand_in(end.from, totals.jobs, jobs.of(self.jobs.as_slice()))?;
        push(&mut self.after, line.text)?;
        let part = Part {
            first: end.from,
            totals,
            line: line.number,
            jobs,
            after,
        };
        push(&mut self.parts, part)?;
        self.is_asked = self.is_asked && end.jobs.is_some();
        self.begun = self.jobs.len();
        self.counted = Totals::none();
        self.totals = Totals::none();
        Ok(())
    }
}

// Whether the lines of jobs that count as this may be those of a report with these totals: it has all lines but those of jobs that are
// explained with all sections done.
fn is_counted(lines: Totals, totals: Totals) -> bool {
    lines.unexplained == totals.unexplained
        && lines.other == totals.other
        && lines.explained <= totals.explained
}

// The jobs are some of this many from the first one on, in order.
fn stand_in(first: u64, count: u64, jobs: &[JobLine<'_>]) -> Result<(), Stop> {
    let mut least = first;
    'jobs: for job in jobs {
        if job.number < least || job.number.saturating_sub(first) >= count {
            return Err(Stop::at(ReportKind::Line, job.line));
        }
        least = job.number.saturating_add(1);
    }
    Ok(())
}

// What the line that ends a part says beside its totals.
#[derive(Clone, Copy, Drop)]
struct PartEnd<'a> {
    seed: u64,
    from: u64,
    jobs: Option<u64>,
    name: Option<&'a str>,
}

impl<'a> PartEnd<'a> {
    fn in_value(value: &Value<'a>) -> Option<PartEnd<'a>> {
        let jobs = value.get("jobs")?;
        let name = value.get("name")?;
        let end = PartEnd {
            seed: quoted(value.get("seed")?)?,
            from: quoted(value.get("from")?)?,
            jobs: quoted(jobs),
            name: name.as_str(),
        };
        if (end.jobs.is_some() || jobs.is_null()) && (end.name.is_some() || name.is_null()) {
            Some(end)
        } else {
            None
        }
    }

    fn is_of(&self, campaign: &JsonCampaign) -> bool {
        let name = campaign.name.as_ref().map(|name| name.as_str());
        self.seed == campaign.seed && self.name == name
    }

    fn campaign(&self, alloc: Global) -> Result<JsonCampaign, Stop> {
        let name = match self.name {
            Some(name) => Some(String::from_str(alloc, name)?),
            None => None,
        };
        Ok(JsonCampaign {
            seed: self.seed,
            name,
        })
    }
}

// A number of 64 bits that stands as a string.
fn quoted(value: &Value<'_>) -> Option<u64> {
    let word = value.as_str()?;
    read_decimal(u64::MAX, word.as_bytes()).ok()
}

// The job of the line, if it is a job's.
fn job_in(value: &Value<'_>) -> Option<(u64, Outcome)> {
    let number = quoted(value.get("job")?)?;
    let outcome = match value.get("outcome") {
        Some(outcome) => undone_in(outcome.as_str()?)?,
        None => {
            let standing = standing_of(value.get("verdict")?.as_str()?.as_bytes())?;
            with_failed(Outcome::of(standing), value.get("failed"))?
        }
    };
    // A job with which nothing is wrong has no line.
    if outcome.is_clean() {
        return None;
    }
    Some((number, outcome))
}

fn undone_in(words: &str) -> Option<Outcome> {
    match words {
        "no connection" | "not run" | "not made" => Some(Outcome::of(Standing::Other)),
        _ => None,
    }
}

// The outcome with the sections that failed, if there is a list of them.
fn with_failed(outcome: Outcome, failed: Option<&Value<'_>>) -> Option<Outcome> {
    let Some(Value::Array(items)) = failed else {
        return failed.is_none().then_some(outcome);
    };
    let mut found = outcome;
    'items: for item in items {
        let section = item.get("section")?.as_str()?;
        let fault = item.get("fault")?.as_str()?;
        found = found.failed(section.as_bytes(), fault.as_bytes())?;
    }
    Some(found)
}

fn totals_in(value: &Value<'_>) -> Option<Totals> {
    let value = value.get("totals")?;
    let totals = Totals {
        jobs: value.get("jobs")?.as_u64()?,
        explained: value.get("explained")?.as_u64()?,
        unexplained: value.get("unexplained")?.as_u64()?,
        other: value.get("other")?.as_u64()?,
    };
    totals.add_up().then_some(totals)
}

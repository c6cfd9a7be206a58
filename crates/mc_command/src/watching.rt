//! What the program says of jobs while a campaign runs.
use crate::evidence::failure_text;
use crate::job_totals::{FailedSections, JobTotals};
use crate::progress::{Progress, lead};
use crate::statistics::Statistics;
use mc_campaign::{JobOutcome, Standing, Watcher};
use mc_cli::{CampaignArgs, GREATEST_JOBS, Plan, Seconds, Until};
use mc_connect::Dialer;
use mc_history::print_history;
use mc_lane::Stream;
use mc_model::History;
use mc_protocol::{Actor, Sections};
use std::alloc::Global;
use std::io;
use std::io::Eprint;
use std::rt::Clock;
use std::sync::Wait;

// At most this many unexplained jobs are written to standard error, and this many sections that failed.
const MOST_SHOWN: u32 = 10;

/// Says on standard error which jobs are unexplained, as soon as they are, and how to print their scripts; how sections failed; and on a
/// terminal how far the campaign is. It counts, too, how the jobs' requests were answered.
#[derive(Drop)]
pub struct Teller<'a, R> {
    rt: &'a R,
    alloc: Global,
    seed: u64,
    // Whether the history of an unexplained job is written, too.
    shows: bool,
    shown_jobs: u32,
    shown_failures: u32,
    lead: &'static str,
    progress: Option<Progress<'a, R>>,
    statistics: Statistics,
    totals: JobTotals,
    timeout: Option<Seconds<'a>>,
    dialer: &'a Dialer<'a, R>,
}

impl<'a, R: Eprint + Clock + Wait> Teller<'a, R> {
    /// What says which jobs of a campaign are unexplained; how far the campaign is, in a line of `columns` columns, if there are any; and
    /// with each report which of its jobs had no connection, as `dialer` has them. It has, too, why a call
    /// of a job's connection failed.
    pub fn new(
        rt: &'a R,
        alloc: Global,
        target: &CampaignArgs<'a>,
        columns: Option<usize>,
        dialer: &'a Dialer<'a, R>,
    ) -> Self {
        let plan = target.plan;
        Teller {
            rt,
            alloc,
            seed: plan.seed,
            shows: plan.show && !plan.json && !plan.junit,
            shown_jobs: 0,
            shown_failures: 0,
            lead: lead(columns),
            progress: columns.map(|columns| Progress::new(
                rt,
                alloc,
                columns,
                "jobs",
                known_jobs(plan),
            )),
            statistics: Statistics::new(),
            totals: JobTotals::new(),
            timeout: target.timeout,
            dialer,
        }
    }

    /// Says on standard error how the requests of the jobs that ran were answered.
    pub fn tell_statistics(&self) {
        // There is nowhere else to say that this could not be said.
        let _ = eprint!(self.rt; "{}", self.statistics);
    }

    /// Clears the line that says how far the campaign is, as a report is written next, and says which of its jobs had no connection.
    pub fn end_report(&self) {
        if let Some(progress) = &self.progress {
            progress.clear();
        }
        self.dialer.tell_failures();
    }

    /// Says on standard error which sections failed, and what the jobs came to if they have more than one report.
    pub fn tell_totals(&self) {
        let totals = self.totals;
        // There is nowhere else to say that this could not be said.
        let _ = eprint!(self.rt; "{}", FailedSections(&totals));
        if totals.jobs > GREATEST_JOBS {
            let _ = eprintln!(self.rt; "mcrace: in all reports: {totals}");
        }
    }

    // Says that a job with this history is unexplained.
    fn tell(&self, job: u64, history: &History) {
        let Teller { lead, seed, .. } = self;
        // There is nowhere else to say that this could not be said.
        let _ = eprintln!(self.rt;
            "{lead}mcrace: job {job} is unexplained; mcrace generate --seed {seed} --job {job}"
        );
        if self.shows {
            self.tell_history(history);
        }
    }

    // Writes the history before the report has it, so that it isn't lost if the campaign is interrupted; or nothing, where there is no
    // memory for it.
    fn tell_history(&self, history: &History) {
        let mut text = Vec::new(self.alloc);
        if print_history(history, &mut text).is_ok()
            && let Ok(text) = str::from_utf8(text.as_slice())
        {
            let _ = eprint!(self.rt; "{text}");
        }
    }
}

impl<'a, R: Eprint + Clock + Wait> Teller<'a, R> {
    // Says how a section of the job failed, if it did; `error` is why a call of its connection failed. Where there is no memory for it,
    // it isn't said.
    fn tell_failure<S: Stream>(
        &mut self,
        job: u64,
        outcome: &JobOutcome<S>,
        section: Actor,
        error: Option<io::Error>,
    ) {
        let JobOutcome::Ran { run, history, .. } = outcome else {
            return;
        };
        if self.shown_failures >= MOST_SHOWN {
            return;
        }
        let sent = history.sent(section);
        let lane = run.lanes.get(section);
        if let Ok(Some(text)) = failure_text(self.alloc, sent, lane, error, self.timeout) {
            self.shown_failures += 1;
            let lead = self.lead;
            let section = section.word();
            // There is nowhere else to say that this could not be said.
            let _ = eprintln!(self.rt; "{lead}mcrace: job {job}: {section}: {text}");
        }
    }
}

impl<'a, S: Stream, R: Eprint + Clock + Wait> Watcher<S> for Teller<'a, R> {
    fn ended(&mut self, job: u64, outcome: &JobOutcome<S>) {
        let is_unexplained = Standing::of(outcome) == Standing::Unexplained;
        if let JobOutcome::Ran { history, .. } = outcome
            && is_unexplained
            && self.shown_jobs < MOST_SHOWN
        {
            self.shown_jobs += 1;
            self.tell(job, history);
        }
        let Sections { p, a, b } = self.dialer.take_errors(job);
        self.tell_failure(job, outcome, Actor::P, p);
        self.tell_failure(job, outcome, Actor::A, a);
        self.tell_failure(job, outcome, Actor::B, b);
        if let Some(progress) = &mut self.progress {
            progress.add(is_unexplained);
        }
        self.totals.add(outcome);
        if let JobOutcome::Ran { run, history, .. } = outcome {
            self.statistics.add(run.world.notes(), history);
        }
    }
}

// How many jobs there are, if no time ends the campaign.
fn known_jobs(plan: Plan) -> Option<u64> {
    match plan.until {
        Some(Until { time: Some(_), .. }) => None,
        Some(Until { time: None, .. }) | None => Some(plan.jobs),
    }
}

/// Says on standard error which jobs there are, and how many workers.
pub fn tell_start<R: Eprint>(rt: &R, plan: Plan) {
    let Plan {
        seed,
        first,
        workers,
        ..
    } = plan;
    let noun = if workers == 1 { "worker" } else { "workers" };
    // There is nowhere else to say that this could not be said.
    let _ = match known_jobs(plan) {
        Some(jobs) => {
            let last = first.saturating_add(jobs.saturating_sub(1));
            eprintln!(rt; "mcrace: seed {seed}, jobs {first} to {last}, {workers} {noun}")
        }
        None => eprintln!(rt; "mcrace: seed {seed}, jobs from {first} on, {workers} {noun}"),
    };
}

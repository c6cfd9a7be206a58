//! What the jobs of a campaign came to, as standard error says it at the end.
use mc_campaign::{JobOutcome, Standing};
use mc_core::Ending;
use mc_lane::Stream;
use mc_protocol::{Actor, Fault};
use std::fmt::{Display, Error, Formatter, Write};

// In the order of their numbers.
const FAULTS: [Fault; 8] = [
    Fault::WriteFailed,
    Fault::ReadFailed,
    Fault::Ended,
    Fault::BadReply,
    Fault::ErrorLine,
    Fault::TooMuch,
    Fault::Closed,
    Fault::Memory,
];

/// How many jobs there were, what they count as, and which of their sections failed.
#[derive(Clone, Copy, Drop, PartialEq, Eq)]
pub struct JobTotals {
    pub jobs: u64,
    explained: u64,
    unexplained: u64,
    other: u64,
    /// How many jobs had a section that failed.
    failed: u64,
    /// How many sections failed by each fault, at the number of the fault.
    sections: [u64; 9],
}

impl JobTotals {
    /// Of no jobs.
    pub fn new() -> Self {
        JobTotals {
            jobs: 0,
            explained: 0,
            unexplained: 0,
            other: 0,
            failed: 0,
            sections: [0; 9],
        }
    }

    /// Of one job more.
    pub fn add<S: Stream>(&mut self, outcome: &JobOutcome<S>) {
        add_one(&mut self.jobs);
        add_one(match Standing::of(outcome) {
            Standing::Explained => &mut self.explained,
            Standing::Unexplained => &mut self.unexplained,
            Standing::Other => &mut self.other,
        });
        let JobOutcome::Ran { run, .. } = outcome else {
            return;
        };
        let mut has_failed = false;
        for section in [Actor::P, Actor::A, Actor::B] {
            if let Ending::Failed(fault) = run.world.ending(section) {
                self.add_failure(fault);
                has_failed = true;
            }
        }
        if has_failed {
            add_one(&mut self.failed);
        }
    }

    fn add_failure(&mut self, fault: Fault) {
        if let Some(count) = self.sections.get_mut(usize::from(fault.number())) {
            add_one(count);
        }
    }

    fn count(&self, fault: Fault) -> u64 {
        match self.sections.get(usize::from(fault.number())) {
            Some(count) => *count,
            None => 0,
        }
    }
}

/// The line of totals of a report, of all jobs.
impl Display for JobTotals {
    fn fmt<W: Write>(&self, f: &mut Formatter<W>) -> Result<(), Error> {
        let JobTotals {
            jobs,
            explained,
            unexplained,
            other,
            ..
        } = self;
        write!(
            f,
            "jobs {jobs} explained {explained} unexplained {unexplained} other {other}"
        )
    }
}

/// A line that says how many jobs had a section that failed, and how many sections by which fault; or nothing if none did.
#[derive(Clone, Copy, Drop)]
pub struct FailedSections<'a>(pub &'a JobTotals);

impl Display for FailedSections<'_> {
    fn fmt<W: Write>(&self, f: &mut Formatter<W>) -> Result<(), Error> {
        let totals = self.0;
        if totals.failed == 0 {
            return Ok(());
        }
        write!(
            f,
            "mcrace: {} of {} jobs had a failed section:",
            totals.failed, totals.jobs
        )?;
        let mut comma = "";
        for fault in FAULTS {
            let count = totals.count(fault);
            if count > 0 {
                write!(f, "{comma} {count} {}", fault.name())?;
                comma = ",";
            }
        }
        write!(f, "\n")
    }
}

fn add_one(count: &mut u64) {
    *count = count.saturating_add(1);
}

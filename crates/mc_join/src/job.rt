//! The line of a job, as a report has it.

use crate::fault::{ReportKind, Stop};
use crate::totals::Standing;
use mc_protocol::{Actor, Fault};

/// What a job came to.
#[derive(Clone, Copy, Debug, Drop, PartialEq, Eq)]
pub struct Outcome {
    pub standing: Standing,
    /// Whether a section of it failed.
    pub has_failed: bool,
    /// Whether a section of it failed by BadReply.
    pub has_bad_reply: bool,
}

impl Outcome {
    /// What counts as this, with all its sections done.
    pub fn of(standing: Standing) -> Outcome {
        Outcome {
            standing,
            has_failed: false,
            has_bad_reply: false,
        }
    }

    /// The same, with one more section that failed by this fault; or nothing if there is no such section or fault.
    pub fn failed(self, section: &[u8], fault: &[u8]) -> Option<Outcome> {
        Actor::from_word(section)?;
        let fault = fault_of_name(fault)?;
        Some(Outcome {
            has_failed: true,
            has_bad_reply: self.has_bad_reply || fault == Fault::BadReply,
            ..self
        })
    }

    /// Whether it speaks against the server.
    pub fn accuses(self) -> bool {
        self.standing == Standing::Unexplained || self.has_bad_reply
    }

    /// Whether nothing was wrong with it.
    pub fn is_clean(self) -> bool {
        self.standing == Standing::Explained && !self.has_failed
    }
}

fn fault_of_name(name: &[u8]) -> Option<Fault> {
    (1..=8)
        .filter_map(Fault::from_number)
        .find(|fault| fault.name().as_bytes() == name)
}

/// What this verdict counts as.
pub fn standing_of(verdict: &[u8]) -> Option<Standing> {
    match verdict {
        b"explained" => Some(Standing::Explained),
        b"unexplained" => Some(Standing::Unexplained),
        b"undecided" => Some(Standing::Other),
        _ => None,
    }
}

/// The line of a job.
#[derive(Clone, Copy, Debug, Drop)]
pub struct JobLine<'a> {
    pub number: u64,
    pub outcome: Outcome,
    /// The number of the line in the input.
    pub line: u32,
    pub text: &'a [u8],
}

impl JobLine<'_> {
    /// That this job stands where the expected one should: it stood before, or some are missing.
    pub fn misplaced(&self, expected: u64) -> Stop {
        if self.number < expected {
            Stop::at(ReportKind::Doubled, self.line)
        } else {
            Stop::at(ReportKind::Missing, self.line)
        }
    }
}

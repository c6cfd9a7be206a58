//! What the runs of a test came to.

use crate::outcome::Outcome;
use std::time::Duration;

// The exit statuses.
const NOTHING: u8 = 0;

const FOUND: u8 = 1;

// It couldn't be tested.
const UNTESTED: u8 = 4;

const FAILED: u8 = 5;

// After this many runs of which none was answered, the server isn't asked further.
const MOST_UNANSWERED: u64 = 3;

/// How many runs of scripts there were, and how many of them, and of the plays of rounds, came to each end.
#[derive(Clone, Copy)]
pub(crate) struct Tally {
    pub(crate) runs: u64,
    /// Those whose requests all have replies.
    pub(crate) answered: u64,
    pub(crate) failed: u64,
    pub(crate) unconnected: u64,
    pub(crate) not_run: u64,
    pub(crate) undecided: u64,
    /// What came was no reply, or more than replies.
    pub(crate) wrong: u64,
    /// The time of the slowest reply.
    pub(crate) slowest: Duration,
    /// The time of all.
    pub(crate) passed: Duration,
    /// Whether the server was gone before the time was over.
    pub(crate) is_gone: bool,
}

impl Tally {
    /// No runs.
    pub(crate) fn new() -> Tally {
        Tally {
            runs: 0,
            answered: 0,
            failed: 0,
            unconnected: 0,
            not_run: 0,
            undecided: 0,
            wrong: 0,
            slowest: Duration::ZERO,
            passed: Duration::ZERO,
            is_gone: false,
        }
    }

    /// Counts a run of a script.
    pub(crate) fn add(&mut self, outcome: &Outcome) {
        self.runs = self.runs.saturating_add(1);
        self.note(outcome);
    }

    /// Counts how a run, or several rounds, ended.
    pub(crate) fn note(&mut self, outcome: &Outcome) {
        match outcome {
            Outcome::Explained | Outcome::Unexplained(_) => {
                self.answered = self.answered.saturating_add(1);
            }
            Outcome::Failed(_) => self.failed = self.failed.saturating_add(1),
            Outcome::Wrong(_) => self.wrong = self.wrong.saturating_add(1),
            Outcome::Undecided => self.undecided = self.undecided.saturating_add(1),
            Outcome::Unconnected(_) => self.unconnected = self.unconnected.saturating_add(1),
            Outcome::NotRun => self.not_run = self.not_run.saturating_add(1),
        }
    }

    /// The sums of both. All else is that of this one.
    pub(crate) fn with(&self, other: &Tally) -> Tally {
        Tally {
            runs: self.runs.saturating_add(other.runs),
            answered: self.answered.saturating_add(other.answered),
            failed: self.failed.saturating_add(other.failed),
            unconnected: self.unconnected.saturating_add(other.unconnected),
            not_run: self.not_run.saturating_add(other.not_run),
            undecided: self.undecided.saturating_add(other.undecided),
            wrong: self.wrong.saturating_add(other.wrong),
            ..*self
        }
    }

    /// Whether what is there answers no requests as a cache does, and isn't to be asked further.
    pub(crate) fn is_strange(&self) -> bool {
        let left_out = self.unconnected.saturating_add(self.not_run);
        self.answered == 0 && self.runs.saturating_sub(left_out) >= MOST_UNANSWERED
    }

    /// The exit status: a finding goes before a server that failed, and that before what wasn't tested.
    pub(crate) fn status(&self, has_found: bool, is_tested: bool) -> u8 {
        let left_out = self.unconnected.saturating_add(self.not_run);
        let has_played = self.runs > left_out;
        if has_found || self.wrong > 0 {
            FOUND
        } else if self.failed > 0 || has_played && (self.is_gone || self.unconnected > 0) {
            FAILED
        } else if !is_tested || self.undecided > 0 || left_out > 0 {
            UNTESTED
        } else {
            NOTHING
        }
    }
}

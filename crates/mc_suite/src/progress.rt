//! How far a test is, in a line of a terminal that is written again and again.

use crate::numbers::Grouped;
use std::alloc::{AllocError, Global};
use std::io::Eprint;
use std::time::Duration;

// What clears a line of a terminal, and goes back to its begin.
const CLEAR: &str = "\r\x1b[K";

// The milliseconds from one writing of the line to the next, at least.
const PAUSE: u64 = 100;

/// When the line was written last, and how many columns it may have.
#[derive(Clone, Copy)]
pub(crate) struct Progress {
    columns: usize,
    next: Duration,
}

impl Progress {
    /// A line of this many columns.
    pub(crate) fn new(columns: usize) -> Progress {
        Progress {
            columns,
            next: Duration::from_millis(PAUSE),
        }
    }

    /// Says how much of the time has passed, and what was found in how many runs, unless it was said just now.
    pub(crate) fn tell<R: Eprint>(
        &mut self,
        rt: &R,
        alloc: Global,
        passed: Duration,
        time: Duration,
        runs: u64,
        found: u64,
    ) {
        if passed < self.next {
            return;
        }
        self.next = passed.saturating_add(Duration::from_millis(PAUSE));
        if let Ok(text) = text_of(alloc, passed, time, runs, found) {
            let text = text.as_str();
            let shown = text.get(..self.columns).unwrap_or(text);
            // There is nowhere else to say that this could not be said.
            let _ = eprint!(rt; "{CLEAR}{shown}");
        }
    }

    /// Clears the line.
    pub(crate) fn clear<R: Eprint>(&self, rt: &R) {
        // There is nowhere else to say that this could not be said.
        let _ = eprint!(rt; "{CLEAR}");
    }
}

fn text_of(
    alloc: Global,
    passed: Duration,
    time: Duration,
    runs: u64,
    found: u64,
) -> Result<String, AllocError> {
    let (passed, time, runs) = (passed.as_secs(), time.as_secs(), Grouped(runs));
    let races = if found == 1 { "race" } else { "races" };
    format!(in alloc; "{passed} s of {time} s, {runs} runs, {found} {races} found")
}

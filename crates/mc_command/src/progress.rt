//! How far a campaign is, or the runs of a script, in a line of a terminal that is written again and again.
use std::alloc::{AllocError, Global};
use std::io::Eprint;
use std::rt::Clock;
use std::time::{Duration, Instant};

/// What clears a line of a terminal, and goes back to its begin.
const CLEAR: &str = "\r\x1b[K";

// The line is written at most once in this many milliseconds.
const PAUSE: u64 = 100;

/// What goes before a line of standard error, so that it doesn't stand beside a line of progress: that is cleared, where there may be
/// one.
pub fn lead(columns: Option<usize>) -> &'static str {
    match columns {
        Some(_) => CLEAR,
        None => "",
    }
}

/// The line that says how far jobs or runs are. Where the clock fails, it isn't written.
#[derive(Drop)]
pub struct Progress<'a, R> {
    rt: &'a R,
    alloc: Global,
    /// The columns that it may have.
    columns: usize,
    /// What is counted, in the plural.
    noun: &'static str,
    /// How many there will be, if that is known.
    all: Option<u64>,
    done: u64,
    unexplained: u64,
    begun: Option<Instant>,
    written: Option<Instant>,
}

impl<'a, R: Eprint + Clock> Progress<'a, R> {
    /// Of jobs or runs that begin now.
    pub fn new(
        rt: &'a R,
        alloc: Global,
        columns: usize,
        noun: &'static str,
        all: Option<u64>,
    ) -> Self {
        Progress {
            rt,
            alloc,
            columns,
            noun,
            all,
            done: 0,
            unexplained: 0,
            begun: Instant::now(rt).ok(),
            written: None,
        }
    }

    /// One more has ended.
    pub fn add(&mut self, is_unexplained: bool) {
        self.done = self.done.saturating_add(1);
        self.unexplained = self.unexplained.saturating_add(u64::from(is_unexplained));
        if self.is_due() {
            self.write();
            self.written = Instant::now(self.rt).ok();
        }
    }

    /// Clears the line.
    pub fn clear(&self) {
        // There is nowhere else to say that this could not be said.
        let _ = eprint!(self.rt; "{CLEAR}");
    }

    // It wasn't written for as long as it is to stay.
    fn is_due(&self) -> bool {
        match self.written.or(self.begun) {
            Some(last) => last
                .elapsed(self.rt)
                .is_ok_and(|passed| passed >= Duration::from_millis(PAUSE)),
            None => false,
        }
    }

    fn write(&self) {
        let Some(Ok(passed)) = self.begun.map(|begun| begun.elapsed(self.rt)) else {
            return;
        };
        if let Ok(text) = self.text(passed) {
            let text = text.as_str();
            let shown = text.get(..self.columns).unwrap_or(text);
            // There is nowhere else to say that this could not be said.
            let _ = eprint!(self.rt; "{CLEAR}{shown}");
        }
    }

    fn text(&self, passed: Duration) -> Result<String, AllocError> {
        let Progress {
            noun,
            all,
            done,
            unexplained,
            ..
        } = self;
        let milliseconds = u64::try_from(passed.as_millis()).unwrap_or(u64::MAX).max(1);
        let speed = done.saturating_mul(1000) / milliseconds;
        let Some(all) = all else {
            return format!(in self.alloc;
                "{done} {noun}, {speed} a second, {unexplained} unexplained"
            );
        };
        let ahead = all.saturating_sub(*done).saturating_mul(milliseconds);
        let left = ahead / done.saturating_mul(1000).max(1);
        format!(in self.alloc;
            "{done} of {all} {noun}, {speed} a second, {unexplained} unexplained, {left} s left"
        )
    }
}

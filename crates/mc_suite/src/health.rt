//! When a server is gone.

use crate::outcome::{Failure, Outcome};
use mc_protocol::Fault;
use std::rt::Clock;
use std::thread::sleep;
use std::time::{Duration, Instant};

// A server is gone after this many failed connects in a row, if they took as many milliseconds, or this many late replies in a row.
const MOST_CONNECTS: u32 = 20;

const MOST_WAIT: u64 = 2_000;

const MOST_TIMEOUTS: u32 = 3;

// The milliseconds between a failed connect and the next one.
const PAUSE: u64 = 50;

/// How a server has answered lately.
#[derive(Clone, Copy)]
pub(crate) struct Health {
    failed_connects: u32,
    timeouts: u32,
    first_failed: Option<Instant>,
    is_gone: bool,
}

impl Health {
    /// Nothing is wrong so far.
    pub(crate) fn new() -> Health {
        Health {
            failed_connects: 0,
            timeouts: 0,
            first_failed: None,
            is_gone: false,
        }
    }

    /// Whether no connect has succeeded for two seconds and 20 have failed, or three replies in a row didn't come within their time.
    pub(crate) fn is_gone(&self) -> bool {
        self.is_gone
    }

    /// The server is gone.
    pub(crate) fn give_up(&mut self) {
        self.is_gone = true;
    }

    /// A run took this time, in which one reply may take `limit`. After a failed connect it waits a little.
    pub(crate) fn note<R: Clock>(
        &mut self,
        rt: &R,
        outcome: &Outcome,
        took: Duration,
        limit: Duration,
    ) {
        match outcome {
            Outcome::Unconnected(_) => self.fail_to_connect(rt),
            Outcome::Failed(failure) if is_timeout(failure, took, limit) => {
                self.first_failed = None;
                self.failed_connects = 0;
                self.timeouts = self.timeouts.saturating_add(1);
                self.is_gone = self.is_gone || self.timeouts >= MOST_TIMEOUTS;
            }
            _ => {
                self.first_failed = None;
                self.failed_connects = 0;
                self.timeouts = 0;
            }
        }
    }

    fn fail_to_connect<R: Clock>(&mut self, rt: &R) {
        self.failed_connects = self.failed_connects.saturating_add(1);
        if self.first_failed.is_none() {
            self.first_failed = Instant::now(rt).ok();
        }
        let waited = match self.first_failed {
            Some(first) => first.elapsed(rt).unwrap_or(Duration::ZERO),
            None => Duration::MAX,
        };
        if self.failed_connects >= MOST_CONNECTS && waited >= Duration::from_millis(MOST_WAIT) {
            self.is_gone = true;
        } else {
            sleep(rt, Duration::from_millis(PAUSE));
        }
    }
}

fn is_timeout(failure: &Failure, took: Duration, limit: Duration) -> bool {
    failure.fault == Fault::ReadFailed && took >= limit
}

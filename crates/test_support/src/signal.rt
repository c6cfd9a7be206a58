//! What one thread of a test tells the others.

use std::sync::atomic::{AtomicU64, Ordering};
use std::thread::yield_now;

/// How often a thread looks for a signal before it goes on without.
const TURNS: u64 = 1_000_000;

/// Something that happens in one thread, and for which others wait.
#[derive(Drop)]
pub struct Signal {
    raised: AtomicU64,
}

impl Signal {
    /// One that hasn't happened.
    pub fn new() -> Signal {
        Signal {
            raised: AtomicU64::new(0),
        }
    }

    /// It has happened.
    pub fn raise(&self) {
        self.raised.store(1, Ordering::SeqCst);
    }

    /// Whether it has happened.
    pub fn is_raised(&self) -> bool {
        self.raised.load(Ordering::SeqCst) == 1
    }

    /// Waits until it has happened, but no longer than the limit of turns; `missed` happens where it hasn't.
    pub fn wait(&self, missed: &Signal) {
        'turns: for _ in 0..TURNS {
            if self.is_raised() {
                return;
            }
            yield_now();
        }
        missed.raise();
    }
}

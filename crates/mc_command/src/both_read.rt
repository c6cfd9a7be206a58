//! What makes the race of a server certain.
use mc_server::Between;
use std::sync::atomic::{AtomicU64, Ordering};
use std::thread::yield_now;

// How often an increment looks whether the other has read, before it goes on without.
const TURNS: u64 = 1_000_000;

/// Holds each increment until two have read, but not for ever.
#[derive(Drop)]
pub struct BothRead {
    read: AtomicU64,
}

impl BothRead {
    /// None has read.
    pub fn new() -> Self {
        BothRead {
            read: AtomicU64::new(0),
        }
    }
}

impl Between for BothRead {
    fn between(&self) {
        self.read.fetch_add(1, Ordering::SeqCst);
        'turns: for _ in 0..TURNS {
            if self.read.load(Ordering::SeqCst) >= 2 {
                return;
            }
            yield_now();
        }
    }
}

//! Where the clients of a round wait for each other.

use std::sync::atomic::{AtomicU64, Ordering};
use std::sync::{Condvar, Mutex, Wait};

/// How often a client that has been woken looks whether the others are awake: some 50 microseconds, which is what it takes to wake a
/// thread.
const TURNS: u32 = 7_500;

/// How many have come, and whether the meeting was called off.
#[derive(Clone, Copy, Drop)]
struct Comers {
    came: u64,
    is_off: bool,
}

/// A meeting of all clients, before the first request of each. No proof rests on it: without it a round would be as right, and would find
/// fewer races.
#[derive(Drop)]
pub(crate) struct Meeting {
    all: u64,
    comers: Mutex<Comers>,
    news: Condvar,
    awake: AtomicU64,
}

impl Meeting {
    /// A meeting to which nobody has come.
    pub(crate) fn new(all: u64) -> Self {
        Meeting {
            all,
            comers: Mutex::new(Comers {
                came: 0,
                is_off: false,
            }),
            news: Condvar::new(),
            awake: AtomicU64::new(0),
        }
    }

    /// Comes, and waits until all have. Answers whether the meeting takes place.
    pub(crate) fn come<R: Wait>(&self, rt: &R) -> bool {
        let all = self.all;
        let mut comers = self.comers.lock(rt);
        comers.came = comers.came.saturating_add(1);
        let is_last = comers.came >= all;
        let is_off = if is_last || comers.is_off {
            let is_off = comers.is_off;
            drop(comers);
            is_off
        } else {
            let comers = self
                .news
                .wait_while(rt, comers, |comers| comers.came < all && !comers.is_off);
            comers.is_off
        };
        if is_last {
            self.news.notify_all();
        }
        if !is_off {
            self.look();
        }
        !is_off
    }

    /// Calls the meeting off: who waits goes on, and who comes doesn't wait.
    pub(crate) fn call_off<R: Wait>(&self, rt: &R) {
        self.comers.lock(rt).is_off = true;
        self.news.notify_all();
    }

    // Is awake, and looks for a while whether the others are too: the kernel wakes them one after another.
    fn look(&self) {
        self.awake.fetch_add(1, Ordering::SeqCst);
        let turns = AtomicU64::new(0);
        'turns: for _ in 0..TURNS {
            if self.awake.load(Ordering::SeqCst) >= self.all {
                break;
            }
            // what makes a turn take some 7 nanoseconds
            turns.fetch_add(1, Ordering::SeqCst);
        }
    }
}

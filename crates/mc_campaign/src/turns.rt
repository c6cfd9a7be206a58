//! Which jobs of a campaign may begin, and which have begun.

ghost use Rattle.std.specs.Prelude.{◌≡◌, true, false};

use std::sync::{Condvar, Mutex, Wait};

/// Of all places before `begun` the jobs have begun. Those before `end` may.
#[derive(Clone, Copy, Drop)]
struct Places {
    begun: u64,
    end: u64,
    is_closed: bool,
}

/// The places of a campaign's jobs, handed out to its workers one after the other. A job begins when its place is taken, so none is left
/// out between others.
#[derive(Drop)]
pub(crate) struct Turns {
    places: Mutex<Places>,
    news: Condvar,
}

impl Turns {
    /// No job may begin yet.
    pub(crate) fn new() -> Turns {
        Turns {
            places: Mutex::new(Places {
                begun: 0,
                end: 0,
                is_closed: false,
            }),
            news: Condvar::new(),
        }
    }

    /// The jobs in places before this one may begin.
    pub(crate) fn hand_out<R: Wait>(&self, rt: &R, end: u64) {
        self.places.lock(rt).end = end;
        self.news.notify_all();
    }

    /// No further job begins.
    pub(crate) fn close<R: Wait>(&self, rt: &R) {
        self.places.lock(rt).is_closed = true;
        self.news.notify_all();
    }

    /// The next place, once one is handed out; or nothing where no further job begins, since `ends` says so of its place.
    pub(crate) fn take<R: Wait, F: Fn(u64) -> bool>(&self, rt: &R, ends: F) -> Option<u64>
        requires { F.IsAlwaysCallable ends }
    {
        let places = self.places.lock(rt);
        let mut places = self.news.wait_while(rt, places, |places| {
            places.begun >= places.end && !places.is_closed
        });
        let place = places.begun;
        if places.is_closed || ends(place) {
            return None;
        }
        places.begun = place.saturating_add(1);
        Some(place)
    }

    /// Whether the job in this place has begun. Where `ends` isn't so it begins now.
    pub(crate) fn begins<R: Wait>(&self, rt: &R, place: u64, ends: bool) -> bool
        ensures { result ≡ false → ends ≡ true }
    {
        let mut places = self.places.lock(rt);
        if ends && places.begun <= place {
            return false;
        }
        places.begun = places.begun.max(place.saturating_add(1));
        true
    }
}

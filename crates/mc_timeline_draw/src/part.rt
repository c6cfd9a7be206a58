//! Which requests on a key are shown.

use crate::walk::Walk;
use mc_model::Note;
use mc_protocol::Bytes;

// At most this many requests are shown.
const MOST: usize = 200;
// Of those that begin after the reply that nothing explains at most this many are.
const AFTER: usize = 20;

/// The requests on a key that are shown, by their numbers, which are counted from 0.
#[derive(Clone, Copy, Debug, Drop)]
pub struct Part {
    pub first: usize,
    /// The number behind the last one.
    pub end: usize,
    /// How many requests there are on the key.
    pub count: usize,
    /// The request whose reply, or begin, nothing explains.
    pub blamed: Option<usize>,
}

/// The part of the requests on the key that is shown: with the note at the place `cause`, those around its request; else the first ones.
pub fn part_of(notes: &[(u8, Note)], key: Option<&Bytes>, cause: Option<usize>) -> Part {
    let mut walk = Walk::new(key);
    let mut blamed = None;
    let mut begun: usize = 0;
    'notes: for (place, (client, note)) in notes.iter().enumerate() {
        let number = walk.take(*client, note);
        if cause == Some(place) {
            blamed = number;
            begun = walk.count;
        }
    }
    part_around(blamed, begun, walk.count)
}

// The part with a request, if one is to be in it, when this many had begun.
fn part_around(blamed: Option<usize>, begun: usize, count: usize) -> Part {
    let first = match blamed {
        Some(number) => begun
            .saturating_add(AFTER)
            .min(count)
            .saturating_sub(MOST)
            .min(number),
        None => 0,
    };
    Part {
        first,
        end: first.saturating_add(MOST).min(count),
        count,
        blamed,
    }
}

impl Part {
    /// The row of the request with this number, if it is shown.
    pub fn row(self, number: usize) -> Option<usize> {
        if number < self.end {
            number.checked_sub(self.first)
        } else {
            None
        }
    }

    /// Whether it has all requests on the key.
    pub fn is_all(self) -> bool {
        self.first == 0 && self.end == self.count
    }
}

//! The order of an explanation, of which a picture shows the steps of its rows.

use crate::part::Part;
use crate::walk::Walk;
use mc_linearize::TimelineMove;
use mc_model::Note;
use mc_picture::Step;
use mc_protocol::{Bytes, OutOfMemory};
use std::alloc::Global;

/// Whose requests the moves of an explanation count.
#[derive(Clone, Copy, Debug, Drop, PartialEq, Eq)]
pub enum Counts {
    /// Those on all keys.
    All,
    /// Those on the key alone.
    Key,
}

// A request: its client, and its number among those on the key if it is one.
type Begun = (u8, Option<usize>);

/// The steps of the moves whose requests are shown.
pub fn steps_of(
    alloc: Global,
    notes: &[(u8, Note)],
    key: Option<&Bytes>,
    part: Part,
    moves: &[TimelineMove],
    counts: Counts,
) -> Result<Vec<Step>, OutOfMemory> {
    let begun = begun_in(alloc, notes, key, counts)?;
    let mut steps = Vec::new(alloc);
    let mut places = [0; 256];
    'moves: for by in moves {
        let number = take_next(begun.as_slice(), &mut places, by.client);
        if let Some(row) = number.and_then(|number| part.row(number)) {
            let choice = by.choice;
            steps.push(Step { row, choice })?;
        }
    }
    Ok(steps)
}

// The requests that moves count, in the order in which they began.
fn begun_in(
    alloc: Global,
    notes: &[(u8, Note)],
    key: Option<&Bytes>,
    counts: Counts,
) -> Result<Vec<Begun>, OutOfMemory> {
    let mut walk = Walk::new(key);
    let mut begun = Vec::new(alloc);
    'notes: for (client, note) in notes {
        let number = walk.take(*client, note);
        let is_counted = counts == Counts::All || number.is_some();
        if is_counted && matches!(note, Note::Begin(_)) {
            begun.push((*client, number))?;
        }
    }
    Ok(begun)
}

// The number of the client's next request, from its place on; the place is then the one after it.
fn take_next(begun: &[Begun], places: &mut [usize; 256], client: u8) -> Option<usize> {
    let place = next_place(begun, places[client as usize], client)?;
    places[client as usize] = place.saturating_add(1);
    let (_, number) = begun.get(place)?;
    *number
}

// The place of the client's next request, from a place on.
fn next_place(begun: &[Begun], from: usize, client: u8) -> Option<usize> {
    let later = begun.get(from..)?;
    let ahead = later.iter().position(|(who, _)| *who == client)?;
    Some(from.saturating_add(ahead))
}

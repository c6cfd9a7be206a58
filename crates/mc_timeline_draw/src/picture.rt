//! What a picture shows of a timeline.

use crate::known::TimelineKnown;
use crate::part::{Part, part_of};
use crate::rows::rows_of;
use crate::sentences::{headline_of, remarks_of};
use crate::steps::{Counts, steps_of};
use mc_linearize::TimelineExplanation;
use mc_model::Note;
use mc_picture::{Blame, Picture};
use mc_protocol::{Bytes, OutOfMemory};
use mc_timeline::{CLIENTS_LIMIT, Timeline};
use mc_timeline_why::TimelineFinding;
use std::alloc::Global;

/// What comes with a timeline.
#[derive(Clone, Copy, Debug, Drop)]
pub struct Given<'a> {
    /// The number of each note's line, or nothing.
    pub lines: &'a [(u8, u32)],
    /// Whether an order is claimed.
    pub has_claim: bool,
}

/// The picture of the timeline, of which this is known: of the key that this names, or of the first one.
pub fn picture_of<'a>(
    alloc: Global,
    timeline: &'a Timeline,
    known: &'a TimelineKnown,
    given: Given<'_>,
) -> Result<Picture<'a>, OutOfMemory> {
    let notes = timeline.notes();
    let key = key_of(known, notes);
    let part = part_of(notes, key, cause_in(known));
    let mut picture = Picture {
        headline: headline_of(alloc, known, key)?,
        remarks: remarks_of(alloc, known, given.has_claim, part)?,
        lanes: lane_names(alloc)?,
        is_ordered: true,
        rows: rows_of(alloc, notes, key, part, given.lines)?,
        first: part.first.saturating_add(1),
        start: &[],
        steps: Vec::new(alloc),
        blame: blame_in(part),
    };
    if let Some((explanation, counts)) = order_in(known) {
        let moves = explanation.moves.as_slice();
        picture.start = start_of(explanation, key);
        picture.steps = steps_of(alloc, notes, key, part, moves, counts)?;
    }
    Ok(picture)
}

// The key that is shown. There is none if there is no request.
fn key_of<'a>(known: &'a TimelineKnown, notes: &'a [(u8, Note)]) -> Option<&'a Bytes> {
    match known {
        TimelineKnown::Unexplained(key, _) | TimelineKnown::Undecided(key) => Some(key),
        TimelineKnown::Confirmed(_) | TimelineKnown::Explained(_) => first_key(notes),
    }
}

// The key of the first request.
fn first_key(notes: &[(u8, Note)]) -> Option<&Bytes> {
    match notes {
        [(_, Note::Begin(request)), ..] => Some(&request.key),
        _ => None,
    }
}

// The place of the note with which the requests become unexplained, if it was found.
fn cause_in(known: &TimelineKnown) -> Option<usize> {
    match known {
        TimelineKnown::Unexplained(_, TimelineFinding::Cause(cause)) => Some(cause.place),
        _ => None,
    }
}

// What explains the timeline, or if nothing does what stands before the place of its cause.
fn order_in(known: &TimelineKnown) -> Option<(&TimelineExplanation, Counts)> {
    match known {
        TimelineKnown::Confirmed(explanation) | TimelineKnown::Explained(explanation) => {
            Some((explanation, Counts::All))
        }
        TimelineKnown::Unexplained(_, TimelineFinding::Cause(cause)) => {
            Some((&cause.explanation, Counts::Key))
        }
        _ => None,
    }
}

// The item that was there before, if there was one on the key.
fn start_of<'a>(explanation: &'a TimelineExplanation, key: Option<&Bytes>) -> &'a [(Bytes, u64)] {
    let start = explanation.start.as_slice();
    let Some(key) = key else {
        return &[];
    };
    match start.iter().position(|(other, _)| other == key) {
        Some(place) => start.get(place..=place).unwrap_or(&[]),
        None => &[],
    }
}

fn blame_in<'a>(part: Part) -> Option<Blame<'a>> {
    let row = part.row(part.blamed?)?;
    Some(Blame { row, correct: None })
}

// The numbers of all clients.
fn lane_names(alloc: Global) -> Result<Vec<String>, OutOfMemory> {
    let mut names = Vec::new(alloc);
    'clients: for client in 0..CLIENTS_LIMIT {
        names.push(format!(in alloc; "{client}")?)?;
    }
    Ok(names)
}

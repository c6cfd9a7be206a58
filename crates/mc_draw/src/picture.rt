//! What a picture shows of a history.

use crate::known::Known;
use crate::rows::{SECTIONS, lane_of, row_at, rows_of};
use crate::sentences::{remarks_of, verdict_of};
use mc_convert::Excerpt;
use mc_explain::{Explanation, Move};
use mc_model::History;
use mc_picture::{Blame, Picture, Row, Step};
use mc_protocol::{Bytes, OutOfMemory};
use mc_why::{Answer, Cause, Finding};
use std::alloc::Global;

/// The picture of the history that this excerpt spells, with or without a claim, and of which this is known.
pub fn picture_of<'a>(
    alloc: Global,
    history: &'a History,
    known: &'a Known,
    has_claim: bool,
    excerpt: Excerpt<'_>,
) -> Result<Picture<'a>, OutOfMemory> {
    let rows = rows_of(alloc, history, excerpt)?;
    let (start, steps) = match explanation_in(known) {
        Some(explanation) => (
            explanation.start.as_slice(),
            steps_of(alloc, rows.as_slice(), explanation.order.as_slice())?,
        ),
        None => (&[] as &[(Bytes, u64)], Vec::new(alloc)),
    };
    let is_ordered = history.notes().is_some();
    let blame = blame_in(rows.as_slice(), known);
    Ok(Picture {
        headline: String::from_str(alloc, verdict_of(known).sentence())?,
        remarks: remarks_of(alloc, known, is_ordered, has_claim)?,
        lanes: lane_names(alloc)?,
        is_ordered,
        rows,
        first: 1,
        start,
        steps,
        blame,
    })
}

// The names of the sections.
fn lane_names(alloc: Global) -> Result<Vec<String>, OutOfMemory> {
    let mut names = Vec::new(alloc);
    'sections: for section in SECTIONS {
        names.push(String::from_str(alloc, section.word())?)?;
    }
    Ok(names)
}

// What explains the history, or if nothing does what stands before the place of its cause.
fn explanation_in(known: &Known) -> Option<&Explanation> {
    match known {
        Known::Confirmed(explanation) | Known::Explained(explanation) => Some(explanation),
        Known::Unexplained(Finding::Cause(cause)) => Some(&cause.explanation),
        Known::Unexplained(Finding::Undecided(_)) | Known::Undecided => None,
    }
}

fn steps_of(alloc: Global, rows: &[Row<'_>], moves: &[Move]) -> Result<Vec<Step>, OutOfMemory> {
    let mut steps = Vec::new(alloc);
    'moves: for (place, by) in moves.iter().enumerate() {
        let (earlier, _) = moves.split_at(place);
        let index = earlier.iter().filter(|one| one.actor == by.actor).count();
        if let Some(row) = row_at(rows, lane_of(by.actor), index) {
            let choice = by.choice;
            steps.push(Step { row, choice })?;
        }
    }
    Ok(steps)
}

fn blame_in<'a>(rows: &[Row<'_>], known: &'a Known) -> Option<Blame<'a>> {
    match known {
        Known::Unexplained(Finding::Cause(cause)) => blame_of(rows, cause),
        _ => None,
    }
}

fn blame_of<'a>(rows: &[Row<'_>], cause: &'a Cause) -> Option<Blame<'a>> {
    let row = rows.iter().position(|row| stands_at(row, cause.place))?;
    let lane = rows.get(row)?.lane;
    let section = SECTIONS.get(lane)?;
    let correct = match cause.answers.get(*section) {
        Some(Answer::Next { reply, .. }) | Some(Answer::Acted { reply, .. }) => Some(reply),
        None => None,
    };
    Some(Blame { row, correct })
}

// Whether the request begins or is answered at the place.
fn stands_at(row: &Row<'_>, place: usize) -> bool {
    let is_answered = match row.answer {
        Some(answered) => answered.place == place,
        None => false,
    };
    is_answered || row.begin == place
}

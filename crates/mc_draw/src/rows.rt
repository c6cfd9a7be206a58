//! The requests of a history in the order in which they began.

use mc_convert::Excerpt;
use mc_model::{History, Note};
use mc_picture::{Answered, Row, numbered_lines};
use mc_protocol::{Actor, OutOfMemory};
use std::alloc::Global;

/// The sections of a history: each has a lane of a picture.
pub const SECTIONS: [Actor; 3] = [Actor::P, Actor::A, Actor::B];

/// The lane of a section.
pub fn lane_of(section: Actor) -> usize {
    match section {
        Actor::P => 0,
        Actor::A => 1,
        Actor::B => 2,
    }
}

/// The row of the lane's request with this index.
pub fn row_at(rows: &[Row<'_>], lane: usize, index: usize) -> Option<usize> {
    rows.iter()
        .position(|row| row.lane == lane && row.index == index)
}

/// The requests of the history, which this excerpt spells, in the order in which they began; if it keeps no notes P's, then A's, then B's.
pub fn rows_of<'a>(
    alloc: Global,
    history: &'a History,
    excerpt: Excerpt<'_>,
) -> Result<Vec<Row<'a>>, OutOfMemory> {
    let lines = numbered_lines(alloc, excerpt)?;
    match history.notes() {
        Some(notes) => rows_of_notes(alloc, notes, lines.as_slice()),
        None => rows_of_sections(alloc, history, lines.as_slice()),
    }
}

fn rows_of_notes<'a>(
    alloc: Global,
    notes: &'a [(Actor, Note)],
    lines: &[(u8, u32)],
) -> Result<Vec<Row<'a>>, OutOfMemory> {
    let mut rows = Vec::new(alloc);
    'notes: for (place, (section, note)) in notes.iter().enumerate() {
        let lane = lane_of(*section);
        let (_, line) = lines.get(place).copied().unwrap_or((0, 0));
        match note {
            Note::Begin(request) => {
                let index = count_in(rows.as_slice(), lane);
                rows.push(Row {
                    lane,
                    index,
                    request,
                    begin: place,
                    line,
                    answer: None,
                })?;
            }
            Note::Reply(reply) => answer_last(&mut rows, lane, Answered { reply, place, line }),
        }
    }
    Ok(rows)
}

fn count_in(rows: &[Row<'_>], lane: usize) -> usize {
    rows.iter().filter(|row| row.lane == lane).count()
}

// The lane's last request is answered.
fn answer_last<'a>(rows: &mut Vec<Row<'a>>, lane: usize, answered: Answered<'a>) {
    let last = count_in(rows.as_slice(), lane).saturating_sub(1);
    if let Some(place) = row_at(rows.as_slice(), lane, last) {
        if let Some(row) = rows.get_mut(place) {
            row.answer = Some(answered);
        }
    }
}

fn rows_of_sections<'a>(
    alloc: Global,
    history: &'a History,
    lines: &[(u8, u32)],
) -> Result<Vec<Row<'a>>, OutOfMemory> {
    let mut rows = Vec::new(alloc);
    'sections: for section in SECTIONS {
        push_section(&mut rows, history, section, lines)?;
    }
    Ok(rows)
}

fn push_section<'a>(
    rows: &mut Vec<Row<'a>>,
    history: &'a History,
    section: Actor,
    lines: &[(u8, u32)],
) -> Result<(), OutOfMemory> {
    let lane = lane_of(section);
    let name = section.word().as_bytes();
    'requests: for (index, sent) in history.sent(section).iter().enumerate() {
        let place = rows.len();
        let line = nth_line(lines, name, index);
        let answer = match &sent.reply {
            Some(reply) => Some(Answered { reply, place, line }),
            None => None,
        };
        rows.push(Row {
            lane,
            index,
            request: &sent.request,
            begin: place,
            line,
            answer,
        })?;
    }
    Ok(())
}

// The number of the line of a section's request with this index.
fn nth_line(lines: &[(u8, u32)], name: &[u8], index: usize) -> u32 {
    let mut left = index;
    'lines: for (initial, number) in lines {
        if name.first().copied() == Some(*initial) {
            if left == 0 {
                return *number;
            }
            left -= 1;
        }
    }
    0
}

//! The rows of a picture: the requests on a key in the order in which they began.

use crate::part::Part;
use crate::walk::Walk;
use mc_model::Note;
use mc_picture::{Answered, Row};
use mc_protocol::{Bytes, OutOfMemory};
use std::alloc::Global;

/// The rows of this part of the requests on the key. `lines` has the number of each note's line, or nothing.
pub fn rows_of<'a>(
    alloc: Global,
    notes: &'a [(u8, Note)],
    key: Option<&Bytes>,
    part: Part,
    lines: &[(u8, u32)],
) -> Result<Vec<Row<'a>>, OutOfMemory> {
    let mut rows = Vec::new(alloc);
    let mut walk = Walk::new(key);
    // Of the notes that are shown.
    let mut place: usize = 0;
    'notes: for (index, (client, note)) in notes.iter().enumerate() {
        let Some(row) = walk.take(*client, note).and_then(|number| part.row(number)) else {
            continue;
        };
        let line = line_at(lines, index);
        match note {
            Note::Begin(request) => {
                let lane = *client as usize;
                let index = count_in(rows.as_slice(), lane);
                rows.push(Row {
                    lane,
                    index,
                    request,
                    begin: place,
                    line,
                    answer: None,
                })?;
            }
            Note::Reply(reply) => answer(&mut rows, row, Answered { reply, place, line }),
        }
        place = place.saturating_add(1);
    }
    Ok(rows)
}

fn line_at(lines: &[(u8, u32)], index: usize) -> u32 {
    match lines.get(index) {
        Some((_initial, line)) => *line,
        None => 0,
    }
}

fn count_in(rows: &[Row<'_>], lane: usize) -> usize {
    rows.iter().filter(|row| row.lane == lane).count()
}

fn answer<'a>(rows: &mut Vec<Row<'a>>, row: usize, answered: Answered<'a>) {
    if let Some(row) = rows.get_mut(row) {
        row.answer = Some(answered);
    }
}

//! Where bars and marks stand from left to right.

use crate::bars::Bar;
use crate::picture::{Picture, Step};
use crate::rows::Row;
use mc_protocol::OutOfMemory;
use std::alloc::Global;

/// Where the first bar begins.
pub const LEFT: usize = 48;
// A band that is wider than this ends as soon as nothing is outstanding.
const BAND: usize = 1_100;
// From what happens to the begin of a bar after it.
const GAP: usize = 16;
// From one mark to the next.
const BETWEEN_MARKS: usize = 24;
// From an end of a bar to a mark within it.
const TO_MARK: usize = 14;

/// Places the bars in bands from left to right, and answers where the widest band ends. If times were recorded, what happens later stands
/// further to the right, with room for the marks of all steps. Otherwise all bars have one width; those of the first lane come first, and
/// those of the others stand below one another.
pub fn place_bars(
    alloc: Global,
    picture: &Picture<'_>,
    bars: &mut Vec<Bar>,
) -> Result<usize, OutOfMemory> {
    if picture.is_ordered {
        place_recorded(alloc, picture, bars)
    } else {
        Ok(place_equally(picture.rows.as_slice(), bars))
    }
}

fn place_equally(rows: &[Row<'_>], bars: &mut Vec<Bar>) -> usize {
    let mut width = TO_MARK * 2;
    'widths: for bar in bars.iter() {
        width = bar.text_width().max(width);
    }
    let step = width.saturating_add(GAP);
    let most = (BAND / step.max(1)).max(1);
    let prefix = rows.iter().filter(|row| row.lane == 0).count();
    let mut end = LEFT;
    'rows: for (row, bar) in rows.iter().zip(bars.iter_mut()) {
        let before = if row.lane == 0 { 0 } else { prefix };
        let column = before.saturating_add(row.index);
        bar.band = column / most;
        bar.left = LEFT.saturating_add((column % most).saturating_mul(step));
        bar.right = bar.left.saturating_add(width);
        end = bar.right.max(end);
    }
    end
}

// A bar begins, or it ends.
#[derive(Clone, Copy, Debug, Drop)]
struct Happening {
    row: usize,
    is_end: bool,
}

// What happens, in the recorded order. Bars of requests without a reply end after all that.
fn happenings_of(alloc: Global, rows: &[Row<'_>]) -> Result<Vec<Happening>, OutOfMemory> {
    let mut all = Vec::new(alloc);
    'room: for row in 0..rows.len() {
        all.push(Happening { row, is_end: true })?;
        all.push(Happening { row, is_end: true })?;
    }
    let answered = rows.iter().filter(|row| row.answer.is_some()).count();
    let mut last = rows.len().saturating_add(answered);
    'rows: for (row, one) in rows.iter().enumerate() {
        let end = match one.answer {
            Some(answered) => answered.place,
            None => last,
        };
        if one.answer.is_none() {
            last = last.saturating_add(1);
        }
        put(&mut all, one.begin, Happening { row, is_end: false });
        put(&mut all, end, Happening { row, is_end: true });
    }
    Ok(all)
}

fn put(all: &mut Vec<Happening>, place: usize, one: Happening) {
    if let Some(happening) = all.get_mut(place) {
        *happening = one;
    }
}

// Before a bar ends there is room for the marks of all steps up to its own, so that each mark finds a place within its bar.
fn place_recorded(
    alloc: Global,
    picture: &Picture<'_>,
    bars: &mut Vec<Bar>,
) -> Result<usize, OutOfMemory> {
    let steps = picture.steps.as_slice();
    let mut done: usize = 0;
    let happenings = happenings_of(alloc, picture.rows.as_slice())?;
    let mut now = LEFT - GAP;
    let mut end = now;
    let mut band: usize = 0;
    let mut outstanding: usize = 0;
    'happenings: for happening in &happenings {
        let due = steps.iter().position(|step| step.row == happening.row);
        if let Some(bar) = bars.get_mut(happening.row) {
            if happening.is_end {
                let marks = due.map_or(0, |place| (place + 1).saturating_sub(done));
                done = done.saturating_add(marks);
                now = now.saturating_add(marks.saturating_mul(BETWEEN_MARKS));
                let least = bar.left.saturating_add(bar.text_width());
                now = now.saturating_add(TO_MARK).max(least);
                bar.right = now;
                end = now.max(end);
                outstanding = outstanding.saturating_sub(1);
            } else {
                if outstanding == 0 && now > BAND {
                    band = band.saturating_add(1);
                    now = LEFT - GAP;
                }
                now = now.saturating_add(GAP);
                bar.band = band;
                bar.left = now;
                outstanding = outstanding.saturating_add(1);
            }
        }
    }
    Ok(end)
}

/// The middles of the steps' marks. If times were recorded, each stands in the middle between the earliest place that the marks before it
/// in its band leave, and the latest that those after it leave; otherwise in the middle of its bar.
pub fn marks_of(
    alloc: Global,
    picture: &Picture<'_>,
    bars: &[Bar],
) -> Result<Vec<usize>, OutOfMemory> {
    let steps = picture.steps.as_slice();
    let mut marks = Vec::new(alloc);
    let mut before = (0, 0);
    'earliest: for step in steps {
        let room = room_in(bars, step.row);
        let (band, least) = before;
        let mark = if picture.is_ordered && band == room.band {
            room.first.max(least)
        } else {
            room.first
        };
        marks.push(mark)?;
        before = (room.band, mark.saturating_add(BETWEEN_MARKS));
    }
    let mut after = (0, usize::MAX);
    'latest: for (index, step) in steps.iter().enumerate().rev() {
        let room = room_in(bars, step.row);
        let (band, most) = after;
        let latest = if picture.is_ordered && band == room.band {
            room.last.min(most)
        } else {
            room.last
        };
        if let Some(mark) = marks.get_mut(index) {
            *mark = mark.saturating_add(latest.saturating_sub(*mark) / 2);
        }
        after = (room.band, latest.saturating_sub(BETWEEN_MARKS));
    }
    Ok(marks)
}

// Where a mark may stand.
#[derive(Clone, Copy, Debug, Drop)]
struct Room {
    band: usize,
    first: usize,
    last: usize,
}

// Where the mark of a row's request may stand.
fn room_in(bars: &[Bar], row: usize) -> Room {
    match bars.get(row) {
        Some(bar) => Room {
            band: bar.band,
            first: bar.left.saturating_add(TO_MARK),
            last: bar.right.saturating_sub(TO_MARK),
        },
        None => Room {
            band: 0,
            first: LEFT,
            last: LEFT,
        },
    }
}

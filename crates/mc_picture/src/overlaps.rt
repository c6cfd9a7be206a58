//! Which requests were outstanding at once.

use crate::picture::Picture;
use crate::rows::Row;
use mc_protocol::OutOfMemory;
use std::alloc::Global;

/// The numbers of the rows that overlap with the one at this place: as ranges, such as `3,5-7`.
pub fn overlaps_text(
    alloc: Global,
    picture: &Picture<'_>,
    place: usize,
) -> Result<Vec<u8>, OutOfMemory> {
    let mut text = Vec::new(alloc);
    let rows = picture.rows.as_slice();
    let Some(row) = rows.get(place) else {
        return Ok(text);
    };
    let mut range: Option<(usize, usize)> = None;
    'rows: for (index, other) in rows.iter().enumerate() {
        if index != place && overlap(row, other) {
            let number = picture.number(index);
            range = match range {
                Some((first, _)) => Some((first, number)),
                None => Some((number, number)),
            };
        } else if let Some(found) = range {
            append_range(&mut text, found)?;
            range = None;
        }
    }
    if let Some(found) = range {
        append_range(&mut text, found)?;
    }
    Ok(text)
}

// Whether each began before the other one was answered.
fn overlap(one: &Row<'_>, other: &Row<'_>) -> bool {
    begins_in_time(one, other) && begins_in_time(other, one)
}

fn begins_in_time(one: &Row<'_>, other: &Row<'_>) -> bool {
    match other.answer {
        Some(answered) => one.begin < answered.place,
        None => true,
    }
}

fn append_range(text: &mut Vec<u8>, range: (usize, usize)) -> Result<(), OutOfMemory> {
    let alloc = *text.allocator();
    let (first, last) = range;
    if !text.is_empty() {
        text.push(b',')?;
    }
    let words = if first == last {
        format!(in alloc; "{first}")?
    } else {
        format!(in alloc; "{first}-{last}")?
    };
    text.extend_from_slice(words.as_bytes())
}

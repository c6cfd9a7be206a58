//! The picture of a timeline, or of its requests on a key.

use crate::known::find_out;
use crate::picture::{Given, picture_of};
use crate::walk::Walk;
use mc_convert::find_history;
use mc_linearize::TimelineExplanation;
use mc_model::Note;
use mc_picture::{Drawing, Form, numbered_lines, render};
use mc_protocol::{Bytes, OutOfMemory, fault_of_input};
use mc_timeline::{Timeline, restrict};
use mc_timeline_text::parse_timeline;
use std::alloc::Global;

/// The picture of a text's first history, which is a timeline, or with `job` of the first one after the line `job N` of this number. Of
/// its keys the first is drawn that is unexplained; if there is none, the first undecided one; else the first. A search for what explains
/// a key takes at most `limit` turns. At most 200 requests are drawn: those around the reply that nothing explains, or the first ones.
///
/// What stands before and after the history isn't looked at. The fault of a text that has no such history is that of `parse_timeline`, its
/// line that of the whole text.
///
/// # Errors
///
/// That memory ran out.
pub fn draw(
    alloc: Global,
    text: &[u8],
    form: Form,
    limit: u64,
    job: Option<u64>,
) -> Result<Drawing, OutOfMemory> {
    let excerpt = find_history(text, job);
    match parse_timeline(alloc, excerpt.text) {
        Ok(parsed) => {
            let lines = numbered_lines(alloc, excerpt)?;
            let (timeline, claim) = parsed;
            let drawn = draw_known(alloc, &timeline, claim, lines.as_slice(), form, limit)?;
            Ok(Drawing::Drawn(drawn))
        }
        Err(fault) => {
            fault_of_input(fault.kind)?;
            Ok(Drawing::Refused(excerpt.fault_in_whole(fault)))
        }
    }
}

/// The same of the requests on a key, or nothing if the timeline has none, or comes with an explanation.
///
/// # Errors
///
/// That memory ran out.
pub fn draw_only(
    alloc: Global,
    text: &[u8],
    form: Form,
    limit: u64,
    job: Option<u64>,
    key: &[u8],
) -> Result<Option<Drawing>, OutOfMemory> {
    let found = find_history(text, job);
    match parse_timeline(alloc, found.text) {
        Ok(parsed) => {
            let (timeline, claim) = parsed;
            if claim.is_some() {
                return Ok(None);
            }
            let lines = numbered_lines(alloc, found)?;
            let drawn = draw_alone(alloc, &timeline, key, lines.as_slice(), form, limit)?;
            Ok(drawn.map(Drawing::Drawn))
        }
        Err(fault) => {
            fault_of_input(fault.kind)?;
            Ok(Some(Drawing::Refused(found.fault_in_whole(fault))))
        }
    }
}

// The picture of the requests on a key, if there are any.
fn draw_alone(
    alloc: Global,
    timeline: &Timeline,
    key: &[u8],
    lines: &[(u8, u32)],
    form: Form,
    limit: u64,
) -> Result<Option<Vec<u8>>, OutOfMemory> {
    let key = Bytes::new(Vec::from_slice(alloc, key)?);
    let alone = restrict(alloc, timeline, &key)?;
    if alone.notes().is_empty() {
        return Ok(None);
    }
    let lines = lines_on(alloc, timeline.notes(), &key, lines)?;
    let drawn = draw_known(alloc, &alone, None, lines.as_slice(), form, limit)?;
    Ok(Some(drawn))
}

// The lines of the notes of requests on the key.
fn lines_on(
    alloc: Global,
    notes: &[(u8, Note)],
    key: &Bytes,
    lines: &[(u8, u32)],
) -> Result<Vec<(u8, u32)>, OutOfMemory> {
    let mut kept = Vec::new(alloc);
    let mut walk = Walk::new(Some(key));
    'notes: for ((client, note), line) in notes.iter().zip(lines.iter()) {
        if walk.take(*client, note).is_some() {
            kept.push(*line)?;
        }
    }
    Ok(kept)
}

/// The picture of the timeline's requests on the key. A search for what explains them takes at most `limit` turns. At most 200 requests
/// are drawn: those around the reply that nothing explains, or the first ones. No row has numbers of lines.
///
/// The text begins with the verdict, such as `unexplained: no order of these requests gives these replies (key k)`, and what is to be
/// known beside it; an empty line ends that. In the SVG it is the title.
///
/// # Errors
///
/// That memory ran out.
pub fn draw_key(
    alloc: Global,
    timeline: &Timeline,
    key: &Bytes,
    form: Form,
    limit: u64,
) -> Result<Vec<u8>, OutOfMemory> {
    let alone = restrict(alloc, timeline, key)?;
    draw_known(alloc, &alone, None, &[], form, limit)
}

// The picture of the timeline, with the numbers of the lines of its notes if they are known.
fn draw_known(
    alloc: Global,
    timeline: &Timeline,
    claim: Option<TimelineExplanation>,
    lines: &[(u8, u32)],
    form: Form,
    limit: u64,
) -> Result<Vec<u8>, OutOfMemory> {
    let has_claim = claim.is_some();
    let known = find_out(alloc, timeline, claim, limit)?;
    let given = Given { lines, has_claim };
    let picture = picture_of(alloc, timeline, &known, given)?;
    render(alloc, &picture, form)
}

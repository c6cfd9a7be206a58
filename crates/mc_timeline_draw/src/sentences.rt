//! What a picture of a timeline says in sentences.

use crate::known::TimelineKnown;
use crate::part::Part;
use mc_picture::{CLAIM_FAILS, PLACE_UNKNOWN, Verdict};
use mc_protocol::{Bytes, OutOfMemory};
use mc_timeline_why::TimelineFinding;
use std::alloc::Global;

fn verdict_of(known: &TimelineKnown) -> Verdict {
    match known {
        TimelineKnown::Confirmed(_) => Verdict::Confirmed,
        TimelineKnown::Explained(_) => Verdict::Explained,
        TimelineKnown::Unexplained(_, _) => Verdict::Unexplained,
        TimelineKnown::Undecided(_) => Verdict::Undecided,
    }
}

/// The verdict on the timeline, with the key whose requests are shown.
pub fn headline_of(
    alloc: Global,
    known: &TimelineKnown,
    key: Option<&Bytes>,
) -> Result<String, OutOfMemory> {
    let sentence = verdict_of(known).sentence();
    match key {
        Some(key) => {
            let key = String::from_utf8_lossy(alloc, key.as_slice())?;
            format!(in alloc; "{sentence} (key {key})")
        }
        None => String::from_str(alloc, sentence),
    }
}

/// What is to be known beside it, if the timeline comes with a claim or doesn't, and this part of the requests is shown.
pub fn remarks_of(
    alloc: Global,
    known: &TimelineKnown,
    has_claim: bool,
    part: Part,
) -> Result<Vec<String>, OutOfMemory> {
    let mut remarks = Vec::new(alloc);
    if has_claim && !matches!(known, TimelineKnown::Confirmed(_)) {
        remarks.push(String::from_str(alloc, CLAIM_FAILS)?)?;
    }
    if matches!(
        known,
        TimelineKnown::Unexplained(_, TimelineFinding::Undecided(_))
    ) {
        remarks.push(String::from_str(alloc, PLACE_UNKNOWN)?)?;
    }
    if !part.is_all() {
        remarks.push(part_text(alloc, part)?)?;
    }
    Ok(remarks)
}

// Which of the requests on the key are shown.
fn part_text(alloc: Global, part: Part) -> Result<String, OutOfMemory> {
    let first = part.first.saturating_add(1);
    let Part { end, count, .. } = part;
    format!(in alloc; "Of {count} requests only {first} to {end} are shown.")
}

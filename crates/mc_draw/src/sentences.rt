//! What a picture of a history says in sentences.

use crate::known::Known;
use mc_picture::{CLAIM_FAILS, PLACE_UNKNOWN, Verdict};
use mc_protocol::OutOfMemory;
use mc_why::Finding;
use std::alloc::Global;

const NO_TIMES: &str =
    "No times were recorded: A's and B's requests may have overlapped in any way.";

/// The verdict on the history.
pub fn verdict_of(known: &Known) -> Verdict {
    match known {
        Known::Confirmed(_) => Verdict::Confirmed,
        Known::Explained(_) => Verdict::Explained,
        Known::Unexplained(_) => Verdict::Unexplained,
        Known::Undecided => Verdict::Undecided,
    }
}

/// What is to be known beside the verdict, if the history keeps the order of its notes or doesn't, and comes with a claim or doesn't.
pub fn remarks_of(
    alloc: Global,
    known: &Known,
    is_ordered: bool,
    has_claim: bool,
) -> Result<Vec<String>, OutOfMemory> {
    let mut remarks = Vec::new(alloc);
    if !is_ordered {
        remarks.push(String::from_str(alloc, NO_TIMES)?)?;
    }
    if has_claim && !matches!(known, Known::Confirmed(_)) {
        remarks.push(String::from_str(alloc, CLAIM_FAILS)?)?;
    }
    if matches!(known, Known::Unexplained(Finding::Undecided(_))) {
        remarks.push(String::from_str(alloc, PLACE_UNKNOWN)?)?;
    }
    Ok(remarks)
}

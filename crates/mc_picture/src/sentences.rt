//! What a picture says in sentences.

use crate::picture::{Picture, Step};
use mc_protocol::{Bytes, OutOfMemory, append_all};
use std::alloc::Global;

/// What is said where a claim doesn't explain what is drawn.
pub const CLAIM_FAILS: &str = "The order that the history claims does not give these replies.";

/// What is said where a search used up its turns.
pub const PLACE_UNKNOWN: &str =
    "The search for the first reply that nothing explains was not finished.";

/// The verdict on what is drawn.
#[derive(Clone, Copy, Debug, Drop, PartialEq, Eq)]
pub enum Verdict {
    /// The order that comes with it explains it.
    Confirmed,
    /// The order that was found explains it.
    Explained,
    /// Nothing explains it.
    Unexplained,
    /// The turns were used up before a search came to its end.
    Undecided,
}

impl Verdict {
    /// The verdict in a sentence.
    pub fn sentence(self) -> &'static str {
        match self {
            Verdict::Confirmed =>
                "confirmed: the order that the history claims gives these replies",
            Verdict::Explained => "explained: an order of these requests gives these replies",
            Verdict::Unexplained => "unexplained: no order of these requests gives these replies",
            Verdict::Undecided => "undecided: the search for an order was not finished",
        }
    }
}

/// What stands over the order of a text.
pub fn order_heading(picture: &Picture<'_>) -> &'static str {
    match picture.blame {
        Some(_) => "What came before is explained if the requests took effect in this order:",
        None => "The requests took effect in this order:",
    }
}

/// What the numbers of an SVG are.
pub fn legend_of(picture: &Picture<'_>) -> &'static str {
    match picture.blame {
        Some(_) =>
            "Numbers: an order in which the requests before the cross may have taken effect.",
        None => "Numbers: the order in which the requests took effect.",
    }
}

/// That an item was there before.
pub fn start_text(alloc: Global, key: &Bytes) -> Result<Vec<u8>, OutOfMemory> {
    let mut text = Vec::new(alloc);
    append_all(&mut text, &[b"before: ", key.as_slice(), b" held an item"])?;
    Ok(text)
}

/// What is to be said of the way in which a request took effect, if it isn't the usual one.
pub fn choice_text(step: Step) -> &'static str {
    match (step.choice.pad, step.choice.read) {
        (false, true) => "",
        (true, true) => " (filled up with spaces)",
        (false, false) => " (the body is no number)",
        (true, false) => " (filled up with spaces; the body is no number)",
    }
}

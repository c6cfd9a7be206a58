//! The picture of a history in a text.

use crate::known::find_out;
use crate::picture::picture_of;
use mc_convert::find_history;
use mc_explain::parse_history;
use mc_picture::{Drawing, Form, render};
use mc_protocol::{OutOfMemory, fault_of_input};
use std::alloc::Global;

/// The picture of a text's first history, or with `job` of the first one after the line `job N` of this number. A search for what explains
/// it takes at most `limit` turns. What stands before and after the history isn't looked at. In a text that has no such history, the fault
/// is that of its first line; or the one after its last line, if a job is asked for. The fault is that of `parse_history`.
///
/// # Errors
///
/// That memory ran out.
pub fn draw(
    alloc: Global,
    text: &[u8],
    form: Form,
    limit: u64,
    job: Option<u64>,
) -> Result<Drawing, OutOfMemory> {
    let excerpt = find_history(text, job);
    match parse_history(alloc, excerpt.text) {
        Ok(parsed) => {
            let (history, given) = parsed;
            let has_claim = given.is_some();
            let known = find_out(alloc, &history, given, limit)?;
            let picture = picture_of(alloc, &history, &known, has_claim, excerpt)?;
            Ok(Drawing::Drawn(render(alloc, &picture, form)?))
        }
        Err(fault) => {
            fault_of_input(fault.kind)?;
            Ok(Drawing::Refused(excerpt.fault_in_whole(fault)))
        }
    }
}

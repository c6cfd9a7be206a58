//! The text of a verdict.

use mc_explain::{Verdict, print_explanation};
use mc_protocol::OutOfMemory;
use std::alloc::Global;

/// Whether this is the text of the verdict: the lines of an explanation, or the verdict's name.
pub(crate) fn is_written(
    alloc: Global,
    verdict: &Verdict,
    expected: &[u8],
) -> Result<bool, OutOfMemory> {
    Ok(text(alloc, verdict)?.as_slice() == expected)
}

/// The lines of an explanation, or the verdict's name.
pub(crate) fn text(alloc: Global, verdict: &Verdict) -> Result<Vec<u8>, OutOfMemory> {
    let mut text = Vec::new(alloc);
    write(verdict, &mut text)?;
    Ok(text)
}

fn write(verdict: &Verdict, text: &mut Vec<u8>) -> Result<(), OutOfMemory> {
    match verdict {
        Verdict::Explained(explanation) => print_explanation(explanation, text),
        Verdict::Unexplained => text.extend_from_slice(b"unexplained"),
        Verdict::Undecided => text.extend_from_slice(b"undecided"),
    }
}

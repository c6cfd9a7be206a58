//! Pieces of text.

use std::alloc::AllocError;

/// The widest line, as far as words allow.
pub(crate) const COLUMNS: usize = 80;

/// Appends these words, in lines of two spaces and what has room. A unit stays with its number. The line that stands there has this width.
pub(crate) fn push_lines(text: &mut String, begun: usize, words: &str) -> Result<(), AllocError> {
    let mut width = begun;
    'words: for (index, word) in words.split(' ').enumerate() {
        let next = words.split(' ').nth(index.saturating_add(1));
        width = width.saturating_add(word.len()).saturating_add(1);
        if width.saturating_add(unit_width(next)) > COLUMNS {
            width = word.len().saturating_add(2);
            text.push_str("\n  ")?;
        } else {
            text.push_str(" ")?;
        }
        text.push_str(word)?;
    }
    text.push_str("\n")
}

// The columns of the word and of the space before it, if it is a unit.
fn unit_width(word: Option<&str>) -> usize {
    match word {
        Some("s") => 2,
        Some("ms") => 3,
        _ => 0,
    }
}

/// Appends the pieces, one after another.
pub(crate) fn push_all(text: &mut String, pieces: &[&str]) -> Result<(), AllocError> {
    'pieces: for piece in pieces {
        text.push_str(piece)?;
    }
    Ok(())
}

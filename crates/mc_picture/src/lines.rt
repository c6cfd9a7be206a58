//! The lines of a history in a text.

use mc_convert::Excerpt;
use mc_protocol::{Lines, OutOfMemory, Separator};
use std::alloc::Global;

/// The lines after the header of the history that this excerpt spells: of each the first byte that is no space, and its number in the
/// whole text. Blank lines and comments are left out.
///
/// # Errors
///
/// That memory ran out.
pub fn numbered_lines(alloc: Global, excerpt: Excerpt<'_>) -> Result<Vec<(u8, u32)>, OutOfMemory> {
    let mut numbered = Vec::new(alloc);
    let mut lines = Lines::new(excerpt.text, Separator::Space);
    let _header = lines.next();
    'lines: while let Some(line) = lines.next() {
        let initial = line.text.iter().copied().find(|byte| *byte != b' ');
        let number = excerpt.lines_before.saturating_add(line.number);
        numbered.push((initial.unwrap_or(b' '), number))?;
    }
    Ok(numbered)
}

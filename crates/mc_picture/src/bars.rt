//! The bars of a picture, one for each request, with what stands above and below them.

use crate::picture::Picture;
use crate::words::{answer_text, reply_text, request_text};
use mc_protocol::{OutOfMemory, append_all};
use std::alloc::Global;

/// The most columns of a line.
const COLUMNS: usize = 20;
/// The width of a column.
pub const COLUMN: usize = 8;

/// The bar of a request.
#[derive(Drop)]
pub struct Bar {
    pub lane: usize,
    /// The band in which it stands; bands stand below one another.
    pub band: usize,
    /// The lines of text above it, which say what was sent.
    pub above: Vec<Vec<u8>>,
    /// The lines of text below it, which say what came.
    pub below: Vec<Vec<u8>>,
    pub left: usize,
    pub right: usize,
    pub top: usize,
}

/// The bars of all rows, which have no place yet.
pub fn bars_of(alloc: Global, picture: &Picture<'_>) -> Result<Vec<Bar>, OutOfMemory> {
    let mut bars = Vec::new(alloc);
    'rows: for (place, row) in picture.rows.iter().enumerate() {
        let mut above = Vec::new(alloc);
        push_lines(
            &mut above,
            request_text(alloc, row.request, COLUMNS)?.as_slice(),
        )?;
        let mut below = Vec::new(alloc);
        push_lines(&mut below, answer_text(alloc, row, COLUMNS)?.as_slice())?;
        if picture.is_wrong(place) {
            push_blame(&mut below, picture)?;
        }
        bars.push(Bar {
            lane: row.lane,
            band: 0,
            above,
            below,
            left: 0,
            right: 0,
            top: 0,
        })?;
    }
    Ok(bars)
}

// Adds what is to be said of a reply that nothing explains.
fn push_blame(lines: &mut Vec<Vec<u8>>, picture: &Picture<'_>) -> Result<(), OutOfMemory> {
    let alloc = *lines.allocator();
    let mut text = Vec::from_slice(alloc, b"no order explains it")?;
    if let Some(correct) = picture.correct() {
        let words = reply_text(alloc, correct, COLUMNS)?;
        append_all(
            &mut text,
            &[b"; a correct server answers ", words.as_slice()],
        )?;
    }
    push_lines(lines, text.as_slice())
}

// Adds the words in lines; a word that is longer than a line goes on in the next one.
fn push_lines(lines: &mut Vec<Vec<u8>>, text: &[u8]) -> Result<(), OutOfMemory> {
    let alloc = *lines.allocator();
    let mut line = Vec::new(alloc);
    'words: for word in text.split(|byte| *byte == b' ') {
        if !line.is_empty() && line.len().saturating_add(word.len()) >= COLUMNS {
            lines.push(line)?;
            line = Vec::new(alloc);
        }
        if !line.is_empty() {
            line.push(b' ')?;
        }
        'pieces: for piece in word.chunks(COLUMNS) {
            if line.len().saturating_add(piece.len()) > COLUMNS {
                lines.push(line)?;
                line = Vec::new(alloc);
            }
            line.extend_from_slice(piece)?;
        }
    }
    lines.push(line)?;
    Ok(())
}

impl Bar {
    /// The width of its widest line.
    pub fn text_width(&self) -> usize {
        let mut most = 0;
        'lines: for line in self.above.iter().chain(self.below.iter()) {
            most = line.len().max(most);
        }
        most.saturating_mul(COLUMN)
    }
}

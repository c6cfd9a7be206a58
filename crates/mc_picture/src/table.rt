//! Tables for a terminal.

use mc_protocol::OutOfMemory;
use std::alloc::Global;

/// A column is at most this wide; a wider cell moves those after it to the right.
const WIDEST: usize = 36;

/// The cells of a line.
pub type Cells = Vec<Vec<u8>>;

/// How wide the columns are. Of a column in which only the head, the first line, has something, nothing is shown: its width is 0.
pub fn widths_of(alloc: Global, table: &[Cells]) -> Result<Vec<usize>, OutOfMemory> {
    let mut widths = Vec::new(alloc);
    if let Some((head, lines)) = table.split_first() {
        'columns: for (column, cell) in head.iter().enumerate() {
            let width = width_of(lines, column);
            widths.push(if width == 0 { 0 } else { cell.len().max(width) })?;
        }
    }
    Ok(widths)
}

fn width_of(lines: &[Cells], column: usize) -> usize {
    let mut width = 0;
    'lines: for cells in lines {
        if let Some(cell) = cells.get(column) {
            width = cell.len().min(WIDEST).max(width);
        }
    }
    width
}

/// Appends the cells of a line, each in a column of this width, with two spaces between them and none at the end.
pub fn append_cells(
    out: &mut Vec<u8>,
    cells: &[Vec<u8>],
    widths: &[usize],
) -> Result<(), OutOfMemory> {
    // The spaces before the next cell that has something.
    let mut owed: usize = 0;
    'cells: for (cell, width) in cells.iter().zip(widths.iter()) {
        if *width > 0 {
            if !cell.is_empty() {
                append_spaces(out, owed)?;
                out.extend_from_slice(cell.as_slice())?;
                owed = 0;
            }
            let rest = width.saturating_sub(cell.len());
            owed = owed.saturating_add(rest).saturating_add(2);
        }
    }
    out.push(b'\n')?;
    Ok(())
}

/// Where the last column begins.
pub fn start_of_last(widths: &[usize]) -> usize {
    let mut start: usize = 0;
    if let Some((_, others)) = widths.split_last() {
        'columns: for width in others {
            if *width > 0 {
                start = start.saturating_add(*width).saturating_add(2);
            }
        }
    }
    start
}

/// Appends this many spaces.
pub fn append_spaces(out: &mut Vec<u8>, count: usize) -> Result<(), OutOfMemory> {
    'spaces: for _ in 0..count {
        out.push(b' ')?;
    }
    Ok(())
}

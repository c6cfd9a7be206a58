//! A picture as text, for a terminal.

use crate::overlaps::overlaps_text;
use crate::picture::{Picture, Step};
use crate::rows::Row;
use crate::sentences::{choice_text, order_heading, start_text};
use crate::table::{Cells, append_cells, append_spaces, start_of_last, widths_of};
use crate::words::{answer_text, reply_text, request_text};
use mc_protocol::{OutOfMemory, append_all};
use std::alloc::Global;

// A body has at most this many columns.
const MOST_BODY: usize = 20;

const HEADS: [&str; 6] = ["#", "lines", "", "request", "overlaps", "reply"];

/// Appends the picture as text: a row for each request, and the order below them. With `has_lines` each row has the numbers of its lines.
pub fn append_text(
    out: &mut Vec<u8>,
    picture: &Picture<'_>,
    has_lines: bool,
) -> Result<(), OutOfMemory> {
    append_all(out, &[picture.headline.as_bytes(), b"\n"])?;
    'remarks: for remark in &picture.remarks {
        append_all(out, &[remark.as_bytes(), b"\n"])?;
    }
    out.push(b'\n')?;
    append_rows(out, picture, has_lines)?;
    append_order(out, picture)
}

fn append_rows(
    out: &mut Vec<u8>,
    picture: &Picture<'_>,
    has_lines: bool,
) -> Result<(), OutOfMemory> {
    let table = table_of(*out.allocator(), picture, has_lines)?;
    let widths = widths_of(*out.allocator(), table.as_slice())?;
    let column = start_of_last(widths.as_slice());
    'lines: for (index, cells) in table.iter().enumerate() {
        append_cells(out, cells.as_slice(), widths.as_slice())?;
        if index > 0 && picture.is_wrong(index - 1) {
            append_blame(out, picture, column)?;
        }
    }
    Ok(())
}

// The names of the columns, and below them the cells of each request.
fn table_of(
    alloc: Global,
    picture: &Picture<'_>,
    has_lines: bool,
) -> Result<Vec<Cells>, OutOfMemory> {
    let mut table = Vec::new(alloc);
    let mut heads = Vec::new(alloc);
    'heads: for head in HEADS {
        heads.push(Vec::from_slice(alloc, head.as_bytes())?)?;
    }
    table.push(heads)?;
    'rows: for (place, row) in picture.rows.iter().enumerate() {
        table.push(cells_of(alloc, picture, place, row, has_lines)?)?;
    }
    Ok(table)
}

fn cells_of(
    alloc: Global,
    picture: &Picture<'_>,
    place: usize,
    row: &Row<'_>,
    has_lines: bool,
) -> Result<Cells, OutOfMemory> {
    let lines = if has_lines {
        lines_text(alloc, row)?
    } else {
        Vec::new(alloc)
    };
    let overlaps = if picture.is_ordered {
        overlaps_text(alloc, picture, place)?
    } else {
        Vec::new(alloc)
    };
    Ok(vec![in alloc;
        number_text(alloc, picture, place)?,
        lines,
        Vec::from_slice(alloc, picture.name(row.lane).as_bytes())?,
        request_text(alloc, row.request, MOST_BODY)?,
        overlaps,
        answer_text(alloc, row, MOST_BODY)?,
    ]?)
}

// The number of a row, as wide as that of the last one.
fn number_text(alloc: Global, picture: &Picture<'_>, place: usize) -> Result<Vec<u8>, OutOfMemory> {
    let number = picture.number(place);
    let most = picture.number(picture.rows.len().saturating_sub(1));
    let digits = format!(in alloc; "{number}")?;
    let width = format!(in alloc; "{most}")?.len();
    let mut text = Vec::new(alloc);
    append_spaces(&mut text, width.saturating_sub(digits.len()))?;
    text.extend_from_slice(digits.as_bytes())?;
    Ok(text)
}

// The line on which the request begins, and that of its reply if it is another one.
fn lines_text(alloc: Global, row: &Row<'_>) -> Result<Vec<u8>, OutOfMemory> {
    let first = row.line;
    let text = match row.answer {
        Some(answered) if answered.line != first => {
            let last = answered.line;
            format!(in alloc; "{first}-{last}")?
        }
        _ => format!(in alloc; "{first}")?,
    };
    Ok(text.into_bytes())
}

// Appends what stands below the reply that nothing explains, from this column on.
fn append_blame(
    out: &mut Vec<u8>,
    picture: &Picture<'_>,
    column: usize,
) -> Result<(), OutOfMemory> {
    append_spaces(out, column)?;
    out.extend_from_slice(b"^ no order explains this\n")?;
    if let Some(correct) = picture.correct() {
        append_spaces(out, column)?;
        out.extend_from_slice(b"  a correct server answers\n")?;
        append_spaces(out, column)?;
        let words = reply_text(*out.allocator(), correct, MOST_BODY)?;
        append_all(out, &[b"  ", words.as_slice(), b"\n"])?;
    }
    Ok(())
}

fn append_order(out: &mut Vec<u8>, picture: &Picture<'_>) -> Result<(), OutOfMemory> {
    if picture.steps.is_empty() {
        return Ok(());
    }
    append_all(out, &[b"\n", order_heading(picture).as_bytes(), b"\n"])?;
    'starts: for (key, _) in picture.start {
        let words = start_text(*out.allocator(), key)?;
        append_all(out, &[words.as_slice(), b"\n"])?;
    }
    'steps: for step in &picture.steps {
        append_step(out, picture, *step)?;
    }
    Ok(())
}

fn append_step(out: &mut Vec<u8>, picture: &Picture<'_>, step: Step) -> Result<(), OutOfMemory> {
    let alloc = *out.allocator();
    let Some(row) = picture.rows.as_slice().get(step.row) else {
        return Ok(());
    };
    let number = number_text(alloc, picture, step.row)?;
    let words = request_text(alloc, row.request, MOST_BODY)?;
    let name = name_text(alloc, picture, row)?;
    append_all(out, &[number.as_slice(), b"  ", name.as_slice(), b"  "])?;
    append_all(
        out,
        &[words.as_slice(), choice_text(step).as_bytes(), b"\n"],
    )
}

// The name of the row's lane, as wide as the widest one of all rows.
fn name_text(alloc: Global, picture: &Picture<'_>, row: &Row<'_>) -> Result<Vec<u8>, OutOfMemory> {
    let name = picture.name(row.lane);
    let mut width = 0;
    'rows: for other in &picture.rows {
        width = picture.name(other.lane).len().max(width);
    }
    let mut text = Vec::from_slice(alloc, name.as_bytes())?;
    append_spaces(&mut text, width.saturating_sub(name.len()))?;
    Ok(text)
}

//! The bars, the marks and the lines of text of a picture as SVG.

use crate::bars::Bar;
use crate::picture::Picture;
use crate::rows::Row;
use crate::words::{answer_text, request_text};
use mc_convert::escaped;
use mc_protocol::OutOfMemory;
use std::alloc::Global;

/// The height of a line of text.
pub const LINE: usize = 17;
/// The height of a bar.
pub const BAR: usize = 22;
// The most columns of a body in the title of a bar.
const TITLE_BODY: usize = 200;
// How far the arms of a cross reach from its middle.
const ARM: usize = 6;

/// Appends a line of text.
pub fn append_line(
    out: &mut Vec<u8>,
    class: &str,
    left: usize,
    base: usize,
    text: &[u8],
) -> Result<(), OutOfMemory> {
    let alloc = *out.allocator();
    let words = escaped(alloc, text)?;
    let line = format!(in alloc;
        "<text class=\"{class}\" x=\"{left}\" y=\"{base}\">{words}</text>\n"
    )?;
    out.extend_from_slice(line.as_bytes())
}

/// Appends the bar of a lane of this name, with a title that shows more of its bodies. If no reply came it goes on, without an end, up to
/// `end`. If nothing explains the reply it ends with a cross.
pub fn append_bar(
    out: &mut Vec<u8>,
    name: &str,
    row: &Row<'_>,
    bar: &Bar,
    end: usize,
    is_wrong: bool,
) -> Result<(), OutOfMemory> {
    let alloc = *out.allocator();
    let title = title_of(alloc, name, row)?;
    let Bar {
        left,
        right,
        top,
        ..
    } = bar;
    let bottom = top.saturating_add(BAR);
    let outline = match row.answer {
        Some(_) => format!(in alloc; "M{right} {top}H{left}V{bottom}H{right}Z")?,
        None => format!(in alloc; "M{end} {top}H{left}V{bottom}H{end}")?,
    };
    let class = if is_wrong { "wrong" } else { "right" };
    let group = format!(in alloc;
        "<g class=\"{class}\"><title>{title}</title><path class=\"bar\" d=\"{outline}\"/></g>\n"
    )?;
    out.extend_from_slice(group.as_bytes())?;
    if is_wrong {
        append_cross(out, bar)?;
    }
    Ok(())
}

// The name, the request and its reply, with more of their bodies.
fn title_of(alloc: Global, name: &str, row: &Row<'_>) -> Result<String, OutOfMemory> {
    let request = request_text(alloc, row.request, TITLE_BODY)?;
    let answer = answer_text(alloc, row, TITLE_BODY)?;
    let request = escaped(alloc, request.as_slice())?;
    let answer = escaped(alloc, answer.as_slice())?;
    let name = escaped(alloc, name.as_bytes())?;
    format!(in alloc; "{name} {request}: {answer}")
}

// Appends a cross at the end of a bar.
fn append_cross(out: &mut Vec<u8>, bar: &Bar) -> Result<(), OutOfMemory> {
    let alloc = *out.allocator();
    let middle = bar.top.saturating_add(BAR / 2);
    let left = bar.right.saturating_sub(ARM);
    let right = bar.right.saturating_add(ARM);
    let top = middle.saturating_sub(ARM);
    let bottom = middle.saturating_add(ARM);
    let cross = format!(in alloc;
        "<path class=\"cross\" d=\"M{left} {top}L{right} {bottom}M{left} {bottom}L{right} {top}\"/>\n"
    )?;
    out.extend_from_slice(cross.as_bytes())
}

/// Appends the marks of the steps, each with its number, and a thin line from mark to mark.
pub fn append_marks(
    out: &mut Vec<u8>,
    picture: &Picture<'_>,
    bars: &[Bar],
    marks: &[usize],
) -> Result<(), OutOfMemory> {
    let alloc = *out.allocator();
    let mut points = Vec::new(alloc);
    let mut circles = Vec::new(alloc);
    let mut band = 0;
    'steps: for (index, (step, x)) in picture.steps.iter().zip(marks.iter()).enumerate() {
        let Some(bar) = bars.get(step.row) else {
            continue;
        };
        if bar.band != band {
            // The line begins anew in each band.
            points.extend_from_slice(b"\"/>\n<polyline class=\"order\" points=\"")?;
            band = bar.band;
        }
        let y = bar.top.saturating_add(BAR / 2);
        let base = y.saturating_add(4);
        let number = index.saturating_add(1);
        let point = format!(in alloc; "{x} {y} ")?;
        points.extend_from_slice(point.as_bytes())?;
        let circle = format!(in alloc;
            "<circle class=\"mark\" cx=\"{x}\" cy=\"{y}\" r=\"10\"/><text class=\"number\" x=\"{x}\" y=\"{base}\">{number}</text>\n"
        )?;
        circles.extend_from_slice(circle.as_bytes())?;
    }
    out.extend_from_slice(b"<polyline class=\"order\" points=\"")?;
    out.extend_from_slice(points.as_slice())?;
    out.extend_from_slice(b"\"/>\n")?;
    out.extend_from_slice(circles.as_slice())
}

/// Appends what stands above and below the bars.
pub fn append_captions(
    out: &mut Vec<u8>,
    picture: &Picture<'_>,
    bars: &[Bar],
) -> Result<(), OutOfMemory> {
    'bars: for (place, bar) in bars.iter().enumerate() {
        let class = if picture.is_wrong(place) {
            "bad"
        } else {
            "reply"
        };
        let mut base = bar.top.saturating_sub(LINE / 3);
        'above: for text in bar.above.iter().rev() {
            append_line(out, "request", bar.left, base, text.as_slice())?;
            base = base.saturating_sub(LINE);
        }
        base = bar.top.saturating_add(BAR);
        'below: for text in &bar.below {
            base = base.saturating_add(LINE);
            append_line(out, class, bar.left, base, text.as_slice())?;
        }
    }
    Ok(())
}

//! A picture as SVG.

use crate::bars::{Bar, COLUMN, bars_of};
use crate::picture::Picture;
use crate::sentences::{legend_of, start_text};
use crate::shapes::{BAR, LINE, append_bar, append_captions, append_line, append_marks};
use crate::style::STYLE;
use crate::text::append_text;
use crate::times::{LEFT, marks_of, place_bars};
use mc_convert::escaped;
use mc_protocol::OutOfMemory;
use std::alloc::Global;

// The width at least, for what is said in sentences.
const LEAST_WIDTH: usize = 680;
// From a side of the picture to what it shows.
const SIDE: usize = 16;
// From a lane to the next.
const BETWEEN: usize = 20;

/// Appends the picture as SVG. Its title is the verdict, and its description the picture as text.
pub fn append_svg(out: &mut Vec<u8>, picture: &Picture<'_>) -> Result<(), OutOfMemory> {
    let alloc = *out.allocator();
    let mut bars = bars_of(alloc, picture)?;
    let end = place_bars(alloc, picture, &mut bars)?.saturating_add(SIDE);
    let width = end
        .saturating_add(SIDE)
        .max(LEAST_WIDTH)
        .max(width_of_sentences(picture));
    let mut shapes = Vec::new(alloc);
    let base = append_sentences(&mut shapes, picture)?;
    let bottom = append_bands(&mut shapes, picture, &mut bars, (base, width))?;
    'bars: for (place, row) in picture.rows.iter().enumerate() {
        if let Some(bar) = bars.as_slice().get(place) {
            let name = picture.name(row.lane);
            append_bar(&mut shapes, name, row, bar, end, picture.is_wrong(place))?;
        }
    }
    let marks = marks_of(alloc, picture, bars.as_slice())?;
    append_marks(&mut shapes, picture, bars.as_slice(), marks.as_slice())?;
    append_captions(&mut shapes, picture, bars.as_slice())?;
    let height = append_legend(&mut shapes, picture, bottom)?;
    append_head(out, picture, width, height)?;
    out.extend_from_slice(shapes.as_slice())?;
    out.extend_from_slice(b"</svg>\n")
}

// The width that the sentences need.
fn width_of_sentences(picture: &Picture<'_>) -> usize {
    let mut most = picture.headline.len();
    'remarks: for remark in &picture.remarks {
        most = remark.len().max(most);
    }
    most.saturating_mul(COLUMN).saturating_add(SIDE * 2)
}

fn append_head(
    out: &mut Vec<u8>,
    picture: &Picture<'_>,
    width: usize,
    height: usize,
) -> Result<(), OutOfMemory> {
    let alloc = *out.allocator();
    let mut text = Vec::new(alloc);
    append_text(&mut text, picture, false)?;
    let title = escaped(alloc, picture.headline.as_bytes())?;
    let description = escaped(alloc, text.as_slice())?;
    let head = format!(in alloc;
        "<svg xmlns=\"http://www.w3.org/2000/svg\" width=\"{width}\" height=\"{height}\" viewBox=\"0 0 {width} {height}\" \
         role=\"img\" aria-labelledby=\"title description\">\n<title id=\"title\">{title}</title>\n\
         <desc id=\"description\">{description}</desc>\n<style>\n{STYLE}</style>\n\
         <rect class=\"ground\" width=\"{width}\" height=\"{height}\"/>\n"
    )?;
    out.extend_from_slice(head.as_bytes())
}

// Appends the verdict and the remarks on it, and answers the base of the last of them.
fn append_sentences(out: &mut Vec<u8>, picture: &Picture<'_>) -> Result<usize, OutOfMemory> {
    let mut base = LINE * 2;
    append_line(out, "head", SIDE, base, picture.headline.as_bytes())?;
    'remarks: for remark in &picture.remarks {
        base = base.saturating_add(LINE);
        append_line(out, "remark", SIDE, base, remark.as_bytes())?;
    }
    Ok(base)
}

// Appends the bands below one another, from a base on in this width, and answers where they end.
fn append_bands(
    out: &mut Vec<u8>,
    picture: &Picture<'_>,
    bars: &mut Vec<Bar>,
    room: (usize, usize),
) -> Result<usize, OutOfMemory> {
    let (base, width) = room;
    let mut bands: usize = 0;
    'bands: for bar in bars.iter() {
        bands = bar.band.saturating_add(1).max(bands);
    }
    let mut now = base.saturating_add(BETWEEN);
    'below: for band in 0..bands {
        'lanes: for (lane, name) in picture.lanes.iter().enumerate() {
            now = append_lane(out, bars, (band, lane), name.as_bytes(), (now, width))?;
        }
    }
    Ok(now)
}

// Appends the name of a band's lane and its line of time, sets the tops of its bars, and answers where it ends. A lane without bars is
// left out.
fn append_lane(
    out: &mut Vec<u8>,
    bars: &mut Vec<Bar>,
    place: (usize, usize),
    name: &[u8],
    room: (usize, usize),
) -> Result<usize, OutOfMemory> {
    let (now, width) = room;
    let mut above: usize = 0;
    let mut below: usize = 0;
    'heights: for bar in bars.iter() {
        if (bar.band, bar.lane) == place {
            above = bar.above.len().max(above);
            below = bar.below.len().max(below);
        }
    }
    if above == 0 {
        return Ok(now);
    }
    let room_above = above.saturating_add(1).saturating_mul(LINE);
    let top = now.saturating_add(room_above.saturating_sub(LINE / 2));
    'tops: for bar in bars.iter_mut() {
        if (bar.band, bar.lane) == place {
            bar.top = top;
        }
    }
    let middle = top.saturating_add(BAR / 2);
    append_line(out, "lane", SIDE, middle.saturating_add(5), name)?;
    let end = width.saturating_sub(SIDE);
    let line = format!(in *out.allocator();
        "<path class=\"time\" d=\"M{LEFT} {middle}H{end}\"/>\n"
    )?;
    out.extend_from_slice(line.as_bytes())?;
    let height = BAR
        .saturating_add(below.saturating_mul(LINE))
        .saturating_add(BETWEEN);
    Ok(top.saturating_add(height))
}

// Appends what the numbers are and what was there before, and answers the height of the picture.
fn append_legend(
    out: &mut Vec<u8>,
    picture: &Picture<'_>,
    top: usize,
) -> Result<usize, OutOfMemory> {
    let mut base = top;
    if !picture.steps.is_empty() {
        base = base.saturating_add(LINE);
        append_line(out, "legend", SIDE, base, legend_of(picture).as_bytes())?;
    }
    'starts: for (key, _) in picture.start {
        base = base.saturating_add(LINE);
        let words = start_text(*out.allocator(), key)?;
        append_line(out, "legend", SIDE, base, words.as_slice())?;
    }
    Ok(base.saturating_add(SIDE))
}

//! The forms of a picture.

use crate::picture::Picture;
use crate::svg::append_svg;
use crate::text::append_text;
use mc_history::HistoryFault;
use mc_protocol::OutOfMemory;
use std::alloc::Global;

/// The form of a picture.
#[derive(Clone, Copy, Debug, Drop, PartialEq, Eq)]
pub enum Form {
    Svg,
    /// Text for a terminal.
    Text {
        /// Whether each row has the numbers of its lines in the input.
        lines: bool,
    },
}

/// What comes of a text that is to be drawn.
#[derive(Debug, Drop)]
pub enum Drawing {
    /// The picture.
    Drawn(Vec<u8>),
    /// The text has no such history. The line of the fault is that of the whole text.
    Refused(HistoryFault),
}

/// The picture in this form. An SVG has the verdict as its title, and the picture as text as its description.
///
/// # Errors
///
/// That memory ran out.
pub fn render(alloc: Global, picture: &Picture<'_>, form: Form) -> Result<Vec<u8>, OutOfMemory> {
    let mut out = Vec::new(alloc);
    match form {
        Form::Svg => append_svg(&mut out, picture)?,
        Form::Text { lines } => append_text(&mut out, picture, lines)?,
    }
    Ok(out)
}

//! How a line of an input is shown: with a caret under one of its words, and a sentence about the word.
ghost use Rattle.std.specs.Iterator.{IsFinite};

use crate::sentence::Sentence;
use std::alloc::{AllocError, Global};
use std::fmt::{Display, Error, Formatter, Write};

/// The most columns of a line that is written.
pub const WIDTH: usize = 80;

// Stands in place of what is cut off.
const CUT: &str = "..";

/// Bytes as they are shown: a control byte or one above 126 as `\x` and two hexadecimal digits, and `..` in place of what is cut off.
#[derive(Clone, Copy, Drop)]
pub struct Shown<'a> {
    front: &'static str,
    bytes: &'a [u8],
    back: &'static str,
}

impl<'a> Shown<'a> {
    /// The bytes, cut at their end if they are wider than `room`.
    pub fn start(bytes: &'a [u8], room: usize) -> Shown<'a> {
        let is_whole = fitting(bytes.iter(), room) >= bytes.len();
        let count = fitting(bytes.iter(), room.saturating_sub(CUT.len()));
        let (bytes, back) = if is_whole {
            (bytes, "")
        } else {
            (&bytes[..count.min(bytes.len())], CUT)
        };
        let front = "";
        Shown { front, bytes, back }
    }

    // The bytes, cut at their front if they are wider than `room`.
    fn end(bytes: &'a [u8], room: usize) -> Shown<'a> {
        let is_whole = fitting(bytes.iter(), room) >= bytes.len();
        let count = fitting(bytes.iter().rev(), room.saturating_sub(CUT.len()));
        let (front, bytes) = if is_whole {
            ("", bytes)
        } else {
            (CUT, &bytes[bytes.len().saturating_sub(count)..])
        };
        let back = "";
        Shown { front, bytes, back }
    }
}

impl Display for Shown<'_> {
    fn fmt<W: Write>(&self, f: &mut Formatter<W>) -> Result<(), Error> {
        f.write_str(self.front)?;
        for byte in self.bytes {
            if columns(*byte) == 1 {
                f.write_char(char::from(*byte))?;
            } else {
                write!(f, "\\x{byte:02x}")?;
            }
        }
        f.write_str(self.back)
    }
}

// How many columns a byte takes.
fn columns(byte: u8) -> usize {
    match byte {
        b' '..=b'~' => 1,
        _ => 4,
    }
}

// How many of the bytes, from the first on, fit in `room` columns.
fn fitting<'a, I: Iterator<Item = &'a u8> + Drop>(bytes: I, room: usize) -> usize
    requires next { I.can_next bytes }
    requires ends { IsFinite (I.remaining bytes) }
{
    let mut used: usize = 0;
    let mut count: usize = 0;
    for byte in bytes {
        used = used.saturating_add(columns(*byte));
        if used > room {
            break;
        }
        count = count.saturating_add(1);
    }
    count
}

/// The line, and below it a caret under the place that the sentence is about, the sentence, and what there is more to say. What stands
/// after an LF in this begins a line. Nothing is wider than 80 columns, if no word of the sentence is.
pub fn with_caret(
    alloc: Global,
    sentence: &Sentence<'_, '_>,
    more: &str,
) -> Result<String, AllocError> {
    let spot = sentence.spot;
    let sentence = format!(in alloc; "{sentence}{more}")?;
    let front = format!(in alloc; "{} |", spot.number)?;
    let margin = format!(in alloc; "{:>width$}", "|", width = front.len())?;
    let room = WIDTH.saturating_sub(front.len()).saturating_sub(1);
    let (head, tail) = spot.line.split_at(spot.start().min(spot.line.len()));
    let gap = spot.start().saturating_sub(head.len());
    // If both sides are wide, the caret stands in the middle.
    let after = format!(in alloc; "{}", Shown::start(tail, room / 2))?
        .len()
        .max(1);
    let room_before = room.saturating_sub(after).saturating_sub(gap);
    let before = format!(in alloc; "{}", Shown::end(head, room_before))?;
    let column = before.len().saturating_add(gap);
    let space = if spot.line.is_empty() { "" } else { " " };
    let tail = Shown::start(tail, room.saturating_sub(column));
    let mut out = format!(in alloc; "{front}{space}{before}{tail}\n{margin} {:>column$}^", "")?;
    let mut beside = room.saturating_sub(column).saturating_sub(2);
    for part in sentence.split('\n') {
        if part.len() <= beside {
            write!(out, " {part}")?;
        } else {
            append_folded(&mut out, margin.as_str(), room, part)?;
        }
        beside = 0;
    }
    out.push_str("\n")?;
    Ok(out)
}

// Appends the sentence on lines of its own.
fn append_folded(
    out: &mut String,
    margin: &str,
    room: usize,
    sentence: &str,
) -> Result<(), AllocError> {
    // How many columns the line has that was begun; the caret's is full.
    let mut used = room;
    for word in sentence.split(' ') {
        used = used.saturating_add(1).saturating_add(word.len());
        if used > room {
            write!(out, "\n{margin}")?;
            used = word.len();
        }
        write!(out, " {word}")?;
    }
    Ok(())
}

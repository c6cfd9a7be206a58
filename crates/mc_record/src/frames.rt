//! Where a reply ends, whatever it says.
use mc_protocol::{OutOfMemory, Separator, read_decimal, words_in};
use memchr::memchr;
use std::alloc::Global;

/// The most bytes of a line of a reply: no more are kept.
const LINE_BYTES: usize = 8_192;

/// The most bytes of an item.
const ITEM_LIMIT: u64 = 1_073_741_824;

/// How a line begins that ends a reply of many lines.
static ENDS: [&[u8]; 6] = [
    b"END",
    b"RESET",
    b"OK",
    b"ERROR",
    b"CLIENT_ERROR",
    b"SERVER_ERROR",
];

/// How a reply is made.
#[derive(Clone, Copy, Debug, Drop, PartialEq, Eq)]
pub(crate) enum Frame {
    /// No reply comes.
    Silent,
    /// One line.
    Line,
    /// Items, each with a line and a block, and a line `END`; or one line of an error.
    Items,
    /// Lines, up to one that ends them.
    Lines,
    /// One line; if it begins with `VA`, a block follows.
    Meta,
}

/// What comes after a line of a reply.
#[derive(Clone, Copy)]
enum After {
    Nothing,
    Line,
    // This many bytes, and then a line.
    Block(u64),
    // This many bytes, and nothing then.
    LastBlock(u64),
    // It isn't known.
    Unknown,
}

/// What a piece brought of a reply.
#[derive(Clone, Copy, Debug, Drop, PartialEq, Eq)]
pub(crate) enum Framed {
    /// All of the piece belongs to it, and more is to come.
    More,
    /// This many bytes belong to it, and nothing is to come.
    Done(usize),
    /// The bytes are no such reply.
    Unknown,
}

/// How far a reply has come.
#[derive(Drop)]
pub(crate) struct Framer {
    alloc: Global,
    frame: Frame,
    // The bytes of the line that has begun.
    line: Vec<u8>,
    // How many bytes of a block are to come.
    block: u64,
    // Whether nothing comes after the block.
    is_last: bool,
}

impl Framer {
    /// A reply of which nothing has come.
    pub(crate) fn new(alloc: Global, frame: Frame) -> Self {
        Framer {
            alloc,
            frame,
            line: Vec::new(alloc),
            block: 0,
            is_last: false,
        }
    }

    /// Reads the next piece. It ends where the reply does.
    pub(crate) fn feed(&mut self, piece: &[u8]) -> Result<Framed, OutOfMemory> {
        let mut unread = piece;
        // a step takes a byte at least
        for _ in 0..piece.len() {
            if unread.is_empty() {
                break;
            }
            let (used, after) = self.step(unread)?;
            unread = unread.get(used..).unwrap_or(&[]);
            match after {
                After::Nothing => return Ok(Framed::Done(piece.len().saturating_sub(unread.len()))),
                After::Unknown => return Ok(Framed::Unknown),
                After::Line => {}
                After::Block(len) => self.block = len,
                After::LastBlock(len) => {
                    self.block = len;
                    self.is_last = true;
                }
            }
        }
        Ok(Framed::More)
    }

    // Reads what is left of a block, or of a line, as far as it is there: how many bytes it took, and what comes after them.
    fn step(&mut self, unread: &[u8]) -> Result<(usize, After), OutOfMemory> {
        if self.block > 0 {
            return Ok(self.skip(unread));
        }
        let Some(at) = memchr(b'\n', unread) else {
            keep(&mut self.line, unread)?;
            return Ok((unread.len(), After::Line));
        };
        keep(&mut self.line, &unread[..at])?;
        let after = after_line(self.alloc, self.frame, self.line.as_slice())?;
        self.line.clear();
        Ok((at + 1, after))
    }

    fn skip(&mut self, unread: &[u8]) -> (usize, After) {
        let len = unread.len() as u64;
        if len < self.block {
            self.block -= len;
            return (unread.len(), After::Line);
        }
        let used = self.block as usize;
        self.block = 0;
        let after = if self.is_last {
            After::Nothing
        } else {
            After::Line
        };
        (used, after)
    }
}

// Keeps the bytes of a line, as far as there is room.
fn keep(line: &mut Vec<u8>, bytes: &[u8]) -> Result<(), OutOfMemory> {
    let room = LINE_BYTES.saturating_sub(line.len());
    line.extend_from_slice(bytes.get(..room).unwrap_or(bytes))
}

// What comes after a line of the reply, which is given without its LF.
fn after_line(alloc: Global, frame: Frame, line: &[u8]) -> Result<After, OutOfMemory> {
    match frame {
        Frame::Silent => Ok(After::Unknown),
        Frame::Line => Ok(After::Nothing),
        Frame::Items => after_item_line(alloc, line),
        Frame::Lines => Ok(if ends_lines(line) {
            After::Nothing
        } else {
            After::Line
        }),
        Frame::Meta if line.starts_with(b"VA ") => Ok(match len_in(alloc, line, 1)? {
            Some(len) => After::LastBlock(len),
            None => After::Unknown,
        }),
        Frame::Meta => Ok(After::Nothing),
    }
}

fn after_item_line(alloc: Global, line: &[u8]) -> Result<After, OutOfMemory> {
    if line.starts_with(b"VALUE ") {
        return Ok(match len_in(alloc, line, 3)? {
            Some(len) => After::Block(len),
            None => After::Unknown,
        });
    }
    Ok(if ends_lines(line) {
        After::Nothing
    } else {
        After::Unknown
    })
}

// Whether the line is the last one of a reply of many lines.
fn ends_lines(line: &[u8]) -> bool {
    ENDS.iter().any(|end| line.starts_with(*end))
}

// How many bytes come after the line, with CR LF, by the word with this number, counted from 0.
fn len_in(alloc: Global, line: &[u8], number: usize) -> Result<Option<u64>, OutOfMemory> {
    let text = match line {
        [text @ .., b'\r'] => text,
        _ => line,
    };
    let words = words_in(alloc, Separator::Space, text)?;
    let Some(word) = words.as_slice().get(number) else {
        return Ok(None);
    };
    match read_decimal(ITEM_LIMIT, word) {
        Ok(len) => Ok(Some(len.saturating_add(2))),
        Err(_) => Ok(None),
    }
}

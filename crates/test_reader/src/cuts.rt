//! Feeds a text in pieces, and looks whether the answer is the same however it is cut. Want of memory is an error here: no test
//! expects it.
use crate::wanted::{Row, Wanted};
use mc_protocol::{OutOfMemory, Verb};
use mc_reader::{Fed, ReadFault, ReplyReader, Shape};
use std::alloc::{AllocError, Global};

pub(crate) fn shape(verb: Verb) -> Shape<'static> {
    Shape { verb, key: b"a" }
}

/// What the reader answers to the piece.
pub(crate) fn feed(
    reader: &mut ReplyReader<'_>,
    piece: &[u8],
) -> Result<Result<Fed, ReadFault>, OutOfMemory> {
    match reader.feed(piece) {
        Err(ReadFault::OutOfMemory) => fail_without_memory(reader),
        answer => Ok(answer),
    }
}

/// Want of memory, after which the reader has failed. Where it goes on its answer is given, which no row wants.
fn fail_without_memory(
    reader: &mut ReplyReader<'_>,
) -> Result<Result<Fed, ReadFault>, OutOfMemory> {
    match reader.feed(b"END\r\n") {
        Err(ReadFault::Failed) => Err(AllocError),
        answer => Ok(answer),
    }
}

/// Whether the reader answers `More`.
pub(crate) fn goes_on(reader: &mut ReplyReader<'_>, piece: &[u8]) -> Result<bool, OutOfMemory> {
    match feed(reader, piece)? {
        Ok(Fed::More) => Ok(true),
        _ => Ok(false),
    }
}

/// Whether the reader answers what is wanted, at the end of the first `used` bytes of the piece.
pub(crate) fn answers(
    reader: &mut ReplyReader<'_>,
    piece: &[u8],
    used: usize,
    wanted: &Wanted,
) -> Result<bool, OutOfMemory> {
    match feed(reader, piece)? {
        Ok(Fed::Done { reply, used: count }) => Ok(wanted.is_reply(&reply) && count == used),
        Ok(Fed::More) => Ok(false),
        Err(fault) => Ok(wanted.is_fault(fault)),
    }
}

/// Whether the reader has answered before.
pub(crate) fn is_over(reader: &mut ReplyReader<'_>) -> Result<bool, OutOfMemory> {
    match feed(reader, b"END\r\n")? {
        Err(ReadFault::Failed) => Ok(true),
        _ => Ok(false),
    }
}

/// Whether the text, cut after its first `cut` bytes, is answered so at its end and not before.
fn is_read_at_cut(
    alloc: Global,
    shape: Shape<'_>,
    text: &[u8],
    cut: usize,
    wanted: &Wanted,
) -> Result<bool, OutOfMemory> {
    if cut > text.len() {
        return Ok(false);
    }
    let (front, back) = text.split_at(cut);
    let mut reader = ReplyReader::new(alloc, shape);
    is_read_after(&mut reader, front, back, wanted)
}

/// Whether the reader goes on at the front, and then answers so at the end of the other bytes and not before.
fn is_read_after(
    reader: &mut ReplyReader<'_>,
    front: &[u8],
    back: &[u8],
    wanted: &Wanted,
) -> Result<bool, OutOfMemory> {
    Ok(goes_on(reader, front)? && ends(reader, back, wanted)?)
}

/// Whether the reader answers so at the end of the piece, and nothing after it.
pub(crate) fn ends(
    reader: &mut ReplyReader<'_>,
    piece: &[u8],
    wanted: &Wanted,
) -> Result<bool, OutOfMemory> {
    Ok(answers(reader, piece, piece.len(), wanted)? && is_over(reader)?)
}

/// Feeds all but the last piece of `len` bytes, and answers that one, where the reader goes on at each of them.
pub(crate) fn last_piece<'t>(
    reader: &mut ReplyReader<'_>,
    text: &'t [u8],
    len: usize,
) -> Result<Option<&'t [u8]>, OutOfMemory> {
    let mut rest = text;
    'pieces: while rest.len() > len && len > 0 {
        let (piece, others) = rest.split_at(len);
        if !goes_on(reader, piece)? {
            return Ok(None);
        }
        rest = others;
    }
    Ok(Some(rest))
}

/// Whether the text is answered so at its end, fed in pieces of `len` bytes, and not before.
pub(crate) fn is_read_in_pieces(
    alloc: Global,
    shape: Shape<'_>,
    text: &[u8],
    len: usize,
    wanted: &Wanted,
) -> Result<bool, OutOfMemory> {
    let mut reader = ReplyReader::new(alloc, shape);
    match last_piece(&mut reader, text, len)? {
        Some(last) => ends(&mut reader, last, wanted),
        None => Ok(false),
    }
}

/// Whether the text is answered so at its end: in one piece, byte by byte, at every cut, and where more bytes follow it in
/// its last piece.
pub(crate) fn is_read(
    alloc: Global,
    shape: Shape<'_>,
    text: &[u8],
    wanted: &Wanted,
) -> Result<bool, OutOfMemory> {
    for cut in 0..text.len() {
        if !is_read_at_cut(alloc, shape, text, cut, wanted)? {
            return Ok(false);
        }
    }
    Ok(
        is_read_in_pieces(alloc, shape, text, text.len(), wanted)?
            && is_read_in_pieces(alloc, shape, text, 1, wanted)?
            && is_read_before_another(alloc, shape, text, wanted)?,
    )
}

/// Whether the text is answered so where other bytes follow it in the piece, and these are left.
fn is_read_before_another(
    alloc: Global,
    shape: Shape<'_>,
    text: &[u8],
    wanted: &Wanted,
) -> Result<bool, OutOfMemory> {
    let longer = [text, b"STORED\r\n".as_slice()].concat(alloc)?;
    let mut reader = ReplyReader::new(alloc, shape);
    answers(&mut reader, longer.as_slice(), text.len(), wanted)
}

/// The first row that isn't answered as it should be.
pub(crate) fn first_other(alloc: Global, rows: &[Row]) -> Result<Option<usize>, OutOfMemory> {
    for (place, (verb, text, wanted)) in rows.iter().enumerate() {
        if !is_read(alloc, shape(*verb), text, wanted)? {
            return Ok(Some(place));
        }
    }
    Ok(None)
}

//! Feeds the text of a request in pieces, and looks whether the same is asked however it is cut. Want of memory is an error here:
//! no test expects it.
use crate::wanted_ask::{AskRow, WantedAsk};
use mc_protocol::OutOfMemory;
use mc_reader::{AskFault, Asked, RequestReader};
use std::alloc::{AllocError, Global};

/// What the reader answers to the piece; none where it has failed.
fn feed(reader: &mut RequestReader, piece: &[u8]) -> Result<Option<Asked>, OutOfMemory> {
    match reader.feed(piece) {
        Ok(asked) => Ok(Some(asked)),
        Err(AskFault::OutOfMemory) => fail_without_memory(reader),
        Err(AskFault::Failed) => Ok(None),
    }
}

/// Want of memory, after which the reader has failed. Where it goes on that is no error, and no row wants the answer.
fn fail_without_memory(reader: &mut RequestReader) -> Result<Option<Asked>, OutOfMemory> {
    match reader.feed(b"get a\r\n") {
        Err(AskFault::Failed) => Err(AllocError),
        _ => Ok(None),
    }
}

/// Whether the reader answers `More`.
pub(crate) fn goes_on(reader: &mut RequestReader, piece: &[u8]) -> Result<bool, OutOfMemory> {
    let asked = feed(reader, piece)?;
    let goes_on = matches!(&asked, Some(Asked::More));
    drop(asked);
    Ok(goes_on)
}

/// Whether this is asked at the end of the first `used` bytes of the piece.
pub(crate) fn asks(
    reader: &mut RequestReader,
    piece: &[u8],
    used: usize,
    wanted: &WantedAsk,
) -> Result<bool, OutOfMemory> {
    match feed(reader, piece)? {
        Some(Asked::Done { ask, used: count }) => Ok(count == used && wanted.is_ask(&ask)),
        _ => Ok(false),
    }
}

/// Whether the reader fails from now on, where what was asked closes, and else reads the next request.
fn goes_on_after(reader: &mut RequestReader, closes: bool) -> Result<bool, OutOfMemory> {
    match feed(reader, b"get next\n")? {
        None => Ok(closes),
        Some(Asked::Done { used, .. }) => Ok(!closes && used == 9),
        Some(Asked::More) => Ok(false),
    }
}

fn is_asked_at_cut(
    alloc: Global,
    text: &[u8],
    cut: usize,
    wanted: &WantedAsk,
    closes: bool,
) -> Result<bool, OutOfMemory> {
    if cut > text.len() {
        return Ok(false);
    }
    let (front, back) = text.split_at(cut);
    let mut reader = RequestReader::new(alloc);
    Ok(goes_on(&mut reader, front)? && is_asked_last(&mut reader, back, wanted, closes)?)
}

fn is_asked_last(
    reader: &mut RequestReader,
    last: &[u8],
    wanted: &WantedAsk,
    closes: bool,
) -> Result<bool, OutOfMemory> {
    Ok(asks(reader, last, last.len(), wanted)? && goes_on_after(reader, closes)?)
}

/// Whether this is asked where other bytes follow the text in the piece, and these are left.
fn is_asked_before_another(
    alloc: Global,
    text: &[u8],
    wanted: &WantedAsk,
) -> Result<bool, OutOfMemory> {
    let longer = [text, b"quit\r\n".as_slice()].concat(alloc)?;
    let mut reader = RequestReader::new(alloc);
    asks(&mut reader, longer.as_slice(), text.len(), wanted)
}

/// Whether this is asked at the end of the text: at every cut, and where more bytes follow it.
fn is_asked(
    alloc: Global,
    text: &[u8],
    wanted: &WantedAsk,
    closes: bool,
) -> Result<bool, OutOfMemory> {
    for cut in 0..text.len() {
        if !is_asked_at_cut(alloc, text, cut, wanted, closes)? {
            return Ok(false);
        }
    }
    is_asked_before_another(alloc, text, wanted)
}

/// The first row of which another thing is asked, or after which the reader doesn't go on as it should.
pub(crate) fn first_other(
    alloc: Global,
    rows: &[AskRow],
    closes: bool,
) -> Result<Option<usize>, OutOfMemory> {
    for (place, (text, wanted)) in rows.iter().enumerate() {
        if !is_asked(alloc, text, wanted, closes)? {
            return Ok(Some(place));
        }
    }
    Ok(None)
}

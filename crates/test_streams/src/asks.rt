//! What is asked of a stream.
use crate::cuts::Cuts;
use crate::text::push_ask;
use mc_reader::{AskFault, Asked, RequestReader};
use std::alloc::{AllocError, Global};

/// A line for each thing that is asked of the stream, cut into such pieces. After a request that closes, a new reader reads on.
pub(crate) fn asks_in_pieces(
    alloc: Global,
    stream: &[u8],
    mut cuts: Cuts,
) -> Result<Vec<u8>, AllocError> {
    let mut lines = Vec::new(alloc);
    let mut reader = RequestReader::new(alloc);
    let mut rest = stream;
    'pieces: while !rest.is_empty() {
        let (piece, _) = rest.split_at(cuts.next(rest.len()).min(rest.len()));
        let read = stream.len() - rest.len();
        let used = feed(alloc, &mut reader, piece, read, &mut lines)?;
        rest = rest.split_at(used.max(1).min(rest.len())).1;
    }
    Ok(lines)
}

// Feeds a piece that begins after `read` bytes of the stream, and answers how many bytes of it are read.
fn feed(
    alloc: Global,
    reader: &mut RequestReader,
    piece: &[u8],
    read: usize,
    lines: &mut Vec<u8>,
) -> Result<usize, AllocError> {
    match reader.feed(piece) {
        Ok(Asked::More) => Ok(piece.len()),
        Ok(Asked::Done { ask, used }) => {
            push_ask(&ask, read.wrapping_add(used), lines)?;
            if ask.closes() {
                *reader = RequestReader::new(alloc);
            }
            Ok(used)
        }
        Err(AskFault::OutOfMemory) => Err(AllocError),
        Err(AskFault::Failed) => {
            lines.extend_from_slice(b"failed\n")?;
            Ok(piece.len())
        }
    }
}

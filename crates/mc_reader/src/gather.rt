//! Lines that come in pieces.
ghost use Rattle.std.specs.Prelude.{◌≡◌, MatchResult};
ghost use Rattle.mc_reader.specs.Gathered as spec;
ghost use Rattle.mc_reader.specs.Lines.{IsLine};

use crate::{LINE_LIMIT, ReadFault};
use memchr::memchr;

/// Looks in the piece for the LF of the line that begins with `start`, and answers its place. What comes before the LF is
/// added to `start`, but where `start` is empty: then the line stands whole in the piece, and isn't copied. Where the piece
/// has no LF, all of it is added.
pub(crate) fn gather(start: &mut Vec<u8>, piece: &[u8]) -> Result<Option<usize>, ReadFault>
    requires { IsLine start.old.items }
    ensures { spec.Gathers start.old.items start.new.items piece.now result }
{
    match line_end(LINE_LIMIT - start.len(), piece)? {
        None => {
            start.extend_from_slice(piece)?;
            Ok(None)
        }
        Some(at) => {
            if !start.is_empty() {
                start.extend_from_slice(&piece[..at])?;
            }
            Ok(Some(at))
        }
    }
}

/// Where the first LF stands in the piece, of which the line has at most the first `room` bytes.
fn line_end(room: usize, piece: &[u8]) -> Result<Option<usize>, ReadFault>
    ensures { spec.IsLineEnd room piece.now result }
{
    let searched = &piece[..room.min(piece.len())];
    match memchr(b'\n', searched) {
        Some(at) => Ok(Some(at)),
        None if piece.len() < room => Ok(None),
        None => Err(ReadFault::LineTooLong),
    }
}

/// The line whose LF was found: `start`, where what comes before the LF in the piece, `front`, was added to it, and else `front`.
pub(crate) fn joined<'a>(start: &'a Vec<u8>, front: &'a [u8]) -> &'a [u8]
    ensures { result.now ≡ spec.joined start.now.items front.now }
{
    if start.is_empty() {
        front
    } else {
        start.as_slice()
    }
}

/// The same line, in memory of its own.
pub(crate) fn owned(mut start: Vec<u8>, front: &[u8]) -> Result<Vec<u8>, ReadFault>
    ensures { MatchResult result (λ line. line.items ≡ spec.joined start.items front.now) (λ fault. fault ≡ ReadFault.OutOfMemory) }
{
    if start.is_empty() {
        start.extend_from_slice(front)?;
    }
    Ok(start)
}

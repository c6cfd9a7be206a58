//! How a reply is received.

ghost use Rattle.std.specs.Prelude.{◌≡◌, ◌≤◌, vec_len};
ghost use Rattle.mc_lane.specs.{Receiving.Adds, Receiving.Receives, Streams.CanFail};
ghost use Rattle.mc_lane.specs.Receiving as spec;

use crate::Stream;
use mc_protocol::{Fault, Reply};
use mc_reader::{Fed, ReadFault, ReplyReader, Shape};

/// The most bytes that are read at once.
const PIECE_BYTES: usize = 4_096;

/// Reads pieces until a reply stands after the first `taken` bytes of `got`, and answers it with the place where it ends. What
/// was read is added to `got`, which never has more than `limit` bytes; what comes after the reply stays there.
pub(crate) fn receive<S: Stream>(
    stream: &mut S,
    got: &mut Vec<u8>,
    taken: usize,
    limit: usize,
    shape: Shape<'_>,
) -> Result<(Reply, usize), Fault>
    requires taken { taken ≤ vec_len got.old }
    requires within { vec_len got.old ≤ limit }
    requires can_fail { CanFail (S.state stream.old) }
    ensures { Receives shape.entry.verb shape.entry.key.now taken limit got.old.items got.new.items
        (S.state stream.old) (S.state stream.new) result }
{
    let mut reader = ReplyReader::new(*got.allocator(), shape);
    let mut fed = taken;
    'pieces: loop {
        match reader.feed(&got[fed..]) {
            Ok(Fed::Done { reply, used }) => return Ok((reply, fed + used)),
            Ok(Fed::More) => fed = got.len(),
            Err(fault) => return Err(fault_for(fault)),
        }
        if let Err(fault) = read_some(stream, got, limit) {
            return Err(fault);
        }
    }
}

/// Reads some bytes, as many as `got` may still receive and at most a piece, and adds them to `got`.
fn read_some<S: Stream>(stream: &mut S, got: &mut Vec<u8>, limit: usize) -> Result<(), Fault>
    requires within { vec_len got.old ≤ limit }
    requires can_fail { CanFail (S.state stream.old) }
    ensures { Adds limit got.old.items got.new.items (S.state stream.old) (S.state stream.new) result }
{
    let room = (limit - got.len()).min(PIECE_BYTES);
    if room == 0 {
        return Err(Fault::TooMuch);
    }
    if got.reserve(room).is_err() {
        return Err(Fault::Memory);
    }
    let mut piece = [0; PIECE_BYTES];
    let Ok(count) = stream.read(&mut piece[..room]) else {
        return Err(Fault::ReadFailed);
    };
    if count == 0 {
        return Err(Fault::Ended);
    }
    // the room is there
    let Ok(()) = got.extend_from_slice(&piece[..count]) else {
        unreachable!()
    };
    Ok(())
}

/// The fault of a lane whose reader answers this one.
fn fault_for(fault: ReadFault) -> Fault
    ensures { result ≡ spec.fault_for fault }
{
    match fault {
        ReadFault::ErrorLine(_) => Fault::ErrorLine,
        ReadFault::OutOfMemory => Fault::Memory,
        ReadFault::LineTooLong
        | ReadFault::NotAReply
        | ReadFault::WrongKey
        | ReadFault::NumberTooLarge
        | ReadFault::DataTooLong
        | ReadFault::DataNotEnded
        | ReadFault::Failed => Fault::BadReply,
    }
}

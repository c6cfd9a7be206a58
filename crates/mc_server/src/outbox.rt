//! How answers are gathered and written.
ghost use Rattle.std.specs.Prelude.{◌≡◌, [], OnOk};
ghost use Rattle.mc_lane.specs.Streams.{CanFail};
ghost use Rattle.mc_server.specs.Answering.{Is, PutsWhole};
ghost use Rattle.mc_server.specs.Puts as spec;

use crate::Why;
use mc_lane::Stream;

/// How many bytes are held back at most before they are written, unless one answer is longer.
const HELD_LIMIT: usize = 65_536;

/// How much room is kept for answers after they were written, by a connection that may wait long for its client.
const KEPT_ROOM: usize = 1_024;

/// Writes all of the bytes, piece by piece as the stream takes them.
pub(crate) fn write_all<S: Stream>(stream: &mut S, bytes: &[u8]) -> Result<(), Why>
    requires { CanFail (S.state stream.old) }
    ensures { spec.WritesAll bytes.now (S.state stream.old) (S.state stream.new) result }
{
    let mut written = 0;
    while written < bytes.len() {
        let Ok(count) = stream.write(&bytes[written..]) else {
            return Err(Why::WriteFailed);
        };
        written += count;
    }
    Ok(())
}

/// Writes what is held back. Room for long answers is given back.
pub(crate) fn flush<S: Stream>(stream: &mut S, held: &mut Vec<u8>) -> Result<(), Why>
    requires { CanFail (S.state stream.old) }
    ensures written { spec.WritesAll held.old.items (S.state stream.old) (S.state stream.new) result }
    ensures none { OnOk result (held.new.items ≡ []) }
{
    write_all(stream, held.as_slice())?;
    if held.capacity() > KEPT_ROOM {
        *held = Vec::new(*held.allocator());
    } else {
        held.clear();
    }
    Ok(())
}

/// Writes what is held back, where `count` more bytes would be too many to be held back with it.
pub(crate) fn make_room<S: Stream>(
    stream: &mut S,
    held: &mut Vec<u8>,
    count: usize,
) -> Result<(), Why>
    requires { CanFail (S.state stream.old) }
    ensures { PutsWhole (Is []) held.old.items held.new.items (S.state stream.old) (S.state stream.new) result }
{
    if count > HELD_LIMIT.saturating_sub(held.len()) {
        return flush(stream, held);
    }
    Ok(())
}

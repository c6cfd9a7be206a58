//! How the bytes of one direction of a connection are handed on.
ghost use Rattle.std.specs.Prelude.{◌≡◌, IfOk, vec_len};
ghost use Rattle.mc_lane.specs.Streams.{CanFail};
ghost use Rattle.mc_relay.specs.Passing as spec;

use mc_lane::{Broken, Stream};
use std::alloc::{AllocError, Global};
use std::sync::Wait;

/// How many bytes are read at once.
const PIECE: usize = 16_384;

/// What hears the bytes of one direction before they are handed on.
pub trait Ear {
    ghost use Rattle.std.specs.Prelude.{List, Option, ℕ};
    ghost use Rattle.mc_lane.specs.Streams.{Grows};

    // The bytes that it has heard, where it tells them.
    ghost heard: { Self → Option (List ℕ) };

    /// Hears the bytes that come next.
    fn hear<R: Wait>(&mut self, rt: &R, bytes: &[u8])
        ensures { Grows (heard self.old) (heard self.new) bytes.now };
}

/// Why nothing more is handed on.
#[derive(Clone, Copy, Debug, PartialEq, Eq)]
pub enum Passed {
    /// The end was read. All that came before it was handed on.
    Ended,
    /// A read failed. All that came before was handed on.
    ReadFailed,
    /// A write failed.
    WriteFailed,
    /// There was no memory to begin with.
    Memory,
}

/// Hands on what comes, unchanged and as it comes, until the end was read or a call failed. The ear hears all bytes, each piece
/// before any byte of it is handed on.
pub fn pass_on<R: Wait, F: Stream, T: Stream, E: Ear>(
    rt: &R,
    alloc: Global,
    from: &mut F,
    to: &mut T,
    ear: &mut E,
) -> Passed
    requires from { CanFail (F.state from.old) }
    requires to { CanFail (T.state to.old) }
    ensures { spec.Passes (F.state from.old) (F.state from.new) (T.state to.old) (T.state to.new) (E.heard ear.old) (E.heard ear.new)
        result }
{
    let Ok(mut room) = room_for(alloc) else {
        return Passed::Memory;
    };
    for _ in rt.forever() {
        let Ok(count) = from.read(room.as_mut_slice()) else {
            return Passed::ReadFailed;
        };
        if count == 0 {
            return Passed::Ended;
        }
        let piece = &room.as_slice()[..count];
        ear.hear(rt, piece);
        if write_all(to, piece).is_err() {
            return Passed::WriteFailed;
        }
    }
    unreachable!()
}

/// Room for a piece.
fn room_for(alloc: Global) -> Result<Vec<u8>, AllocError>
    ensures { IfOk result (λ room. vec_len room ≡ 16384) }
{
    let mut room = Vec::new(alloc);
    room.resize(PIECE, 0)?;
    Ok(room)
}

/// Writes all of the bytes, piece by piece as the stream takes them.
fn write_all<S: Stream>(stream: &mut S, bytes: &[u8]) -> Result<(), Broken>
    requires { CanFail (S.state stream.old) }
    ensures { spec.WritesAll bytes.now (S.state stream.old) (S.state stream.new) result }
{
    let mut written = 0;
    while written < bytes.len() {
        let Ok(count) = stream.write(&bytes[written..]) else {
            return Err(Broken);
        };
        written += count;
    }
    Ok(())
}

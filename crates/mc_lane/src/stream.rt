//! Streams: what a lane writes its requests to and reads its replies from.

ghost use Rattle.std.specs.Prelude.{◌≡◌, ◌+◌, ◌^◌, ◌<◌};
ghost use Rattle.mc_lane.specs.Streams as spec;

use thiserror::Error;

/// A call of a stream failed.
#[derive(Clone, Copy, Debug, PartialEq, Eq, Error)]
#[error("the stream failed")]
pub struct Broken;

/// How many reads failed, how many writes failed, and how many reads found the end: those that had room for bytes and brought none.
#[derive(Clone, Copy, Debug, PartialEq, Eq)]
pub struct Counts {
    pub failed_reads: u64,
    pub failed_writes: u64,
    pub ends: u64,
}

impl Counts {
    /// Those of a stream of which no call failed and no read found the end.
    pub(crate) fn none() -> Counts
        ensures { result ≡ spec.no_counts }
    {
        Counts {
            failed_reads: 0,
            failed_writes: 0,
            ends: 0,
        }
    }

    /// With one more end, where a read found it that brought this many bytes, by the room that it had.
    pub(crate) fn after_read(self, room: usize, brought: usize) -> Counts
        requires { self.ends + 1 < 2 ^ 64 }
        ensures { result ≡ record self { ends = self.ends + spec.ends_of_read room brought } }
    {
        Counts {
            ends: self.ends + u64::from(finds_end(room, brought)),
            ..self
        }
    }
}

/// Whether a read found the end that brought this many bytes, by the room that it had.
pub(crate) fn finds_end(room: usize, brought: usize) -> bool
    ensures { result ≡ spec.finds_end room brought }
{
    0 < room && brought == 0
}

/// A connection to a server, or what stands for one.
///
/// Contracts see the bytes that were read and written so far, each where the stream tells them, what it counted, and whether its
/// last read found the end. A call that fails is counted, and so is a read that finds the end; neither moves a byte. Any other
/// call moves the bytes of that call alone, and counts nothing. Both calls ask that one more of each can be counted.
pub trait Stream: Drop {
    ghost use Rattle.mc_lane.specs.Streams.{StreamState, CanFail, Reads, Writes};

    // What was read and written so far, what was counted, and whether the last read found the end.
    ghost state: { Self → StreamState };

    /// Reads some bytes into the front of `buffer`, and answers how many: 0 where the stream has ended, or where the
    /// buffer has no room.
    fn read(&mut self, buffer: &mut [u8]) -> Result<usize, Broken>
        requires { CanFail (state self.old) }
        ensures { Reads (state self.old) (state self.new) buffer.new result };

    /// Writes some bytes from the front of `bytes`, and answers how many. A stream that takes none of them is broken.
    fn write(&mut self, bytes: &[u8]) -> Result<usize, Broken>
        requires { CanFail (state self.old) }
        ensures { Writes (state self.old) (state self.new) bytes.now result };
}

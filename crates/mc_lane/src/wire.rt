//! Streams over what std can read and write, as a socket.

ghost use Rattle.std.specs.Prelude.{◌≡◌, false};
ghost use Rattle.std.specs.Io.KnownBytes.{ReadConsumes, WriteAppends};
ghost use Rattle.mc_lane.specs.Streams.{silent, no_counts, CanFail, Reads, Writes};

use crate::stream::finds_end;
use crate::{Broken, Counts, Stream};
use std::io::{Read, Write};

/// A stream over a reader and writer of std. It tells no bytes, and counts its failures and ends. Every error is a failure, also a
/// call that was interrupted, and so is a write that takes none of its bytes.
#[derive(Debug, Drop)]
pub struct Wire<T> {
    inner: T,
    counts: Counts,
    at_end: bool,
}

impl<T: Read + Write + Drop> Wire<T> {
    ghost use Rattle.mc_lane.specs.Wires.{wire_inner};

    /// A stream over `inner`, on which no call has failed and no read has found the end.
    pub fn new(inner: T) -> Self
        ensures state { ⟦<Wire<T> as Stream>⟧.state result ≡ silent no_counts false }
        ensures inner { wire_inner result ≡ inner }
    {
        Wire {
            inner,
            counts: Counts::none(),
            at_end: false,
        }
    }

    /// What it reads and writes over.
    pub fn into_inner(self) -> T
        ensures { result ≡ wire_inner self }
    {
        let Wire { inner, .. } = self;
        inner
    }
}

impl<T: Read + Write + Drop> Stream for Wire<T> {
    ghost use Rattle.mc_lane.specs.Wires.{wire_inner, wire_state};

    ghost state = { wire_state };

    fn read(&mut self, buffer: &mut [u8]) -> Result<usize, Broken>
        requires { CanFail (wire_state self.old) }
        ensures state { Reads (wire_state self.old) (wire_state self.new) buffer.new result }
        ensures inner { ReadConsumes (T.remaining (wire_inner self.old)) (T.remaining (wire_inner self.new)) result buffer.new }
    {
        match self.inner.read(buffer) {
            Ok(count) => {
                self.counts = self.counts.after_read(buffer.len(), count);
                self.at_end = finds_end(buffer.len(), count);
                Ok(count)
            }
            Err(_) => {
                self.counts.failed_reads += 1;
                self.at_end = false;
                Err(Broken)
            }
        }
    }

    fn write(&mut self, bytes: &[u8]) -> Result<usize, Broken>
        requires { CanFail (wire_state self.old) }
        ensures state { Writes (wire_state self.old) (wire_state self.new) bytes.now result }
        ensures inner { WriteAppends (T.contents (wire_inner self.old)) (T.contents (wire_inner self.new)) result bytes.now }
    {
        match self.inner.write(bytes) {
            Ok(count) if count > 0 || bytes.is_empty() => Ok(count),
            _ => {
                self.counts.failed_writes += 1;
                Err(Broken)
            }
        }
    }
}

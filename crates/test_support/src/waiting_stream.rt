//! Streams that tell when they are written to, and that wait before they are read.
ghost use Rattle.mc_lane.specs.Streams.{CanFail, Reads, Writes};

use crate::Signal;
use mc_lane::{Broken, Stream};
use std::io::{self, Read, Write};

/// A stream with the signals of a test.
#[derive(Drop)]
pub struct WaitingStream<'s, T> {
    pub inner: T,
    /// It was written to.
    pub written: &'s Signal,
    /// It gives nothing before this.
    pub until: &'s Signal,
    /// A thread waited for too long.
    pub missed: &'s Signal,
}

impl<'s, S: Stream> Stream for WaitingStream<'s, S> {
    ghost state = { λ s. S.state s.inner };

    fn read(&mut self, buffer: &mut [u8]) -> Result<usize, Broken>
        requires { CanFail (S.state self.old.inner) }
        ensures { Reads (S.state self.old.inner) (S.state self.new.inner) buffer.new result }
    {
        self.until.wait(self.missed);
        self.inner.read(buffer)
    }

    fn write(&mut self, bytes: &[u8]) -> Result<usize, Broken>
        requires { CanFail (S.state self.old.inner) }
        ensures { Writes (S.state self.old.inner) (S.state self.new.inner) bytes.now result }
    {
        let count = self.inner.write(bytes)?;
        self.written.raise();
        Ok(count)
    }
}

impl<T: Read> Read for WaitingStream<'_, T> {
    fn read(&mut self, buffer: &mut [u8]) -> io::Result<usize> {
        self.until.wait(self.missed);
        self.inner.read(buffer)
    }
}

impl<T: Write> Write for WaitingStream<'_, T> {
    fn write(&mut self, request: &[u8]) -> io::Result<usize> {
        let count = self.inner.write(request)?;
        self.written.raise();
        Ok(count)
    }

    fn flush(&mut self) -> io::Result<()> {
        self.inner.flush()
    }
}

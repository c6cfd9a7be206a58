//! TCP connections: their reads and writes go on where they are interrupted.
ghost use Rattle.std.specs.Prelude.{◌≤◌, IfOk, length};

use crate::network::Connection;
use crate::quiet::is_quiet;
use std::io;
use std::io::{ErrorKind, Read, Write};
use std::net::TcpStream;
use std::rt::Clock;
use std::time::{Duration, Instant};

// A call that is interrupted is made this many times at most.
const MOST_CALLS: u32 = 1_000;

// A call that is repeated may take this many milliseconds at least, so that what came meanwhile is still read.
const SHORTEST: u64 = 1;

/// A TCP connection that has a clock. If its reads and writes have a time limit, the system interrupts one that waits while the program is
/// stopped, as by Ctrl-Z, and goes on. Such a call is repeated with the time that is left.
#[derive(Drop)]
pub struct TimedStream<'a, R> {
    rt: &'a R,
    stream: TcpStream,
    limit: Option<Duration>,
}

impl<'a, R> TimedStream<'a, R> {
    /// The connection, whose reads and writes have this limit, if there is one.
    pub fn new(rt: &'a R, stream: TcpStream, limit: Option<Duration>) -> Self {
        TimedStream { rt, stream, limit }
    }

    /// The connection itself.
    pub fn into_stream(self) -> TcpStream {
        let TimedStream { stream, .. } = self;
        stream
    }
}

impl<'a, R: Clock + Sync> Connection for TimedStream<'a, R> {
    fn receive(&self, buffer: &mut [u8]) -> io::Result<usize> {
        let mut stream = &self.stream;
        let Some(limit) = self.limit else {
            return stream.receive(buffer);
        };
        let begun = Instant::now(self.rt)?;
        for repeats in 0..MOST_CALLS {
            let result = stream.read(buffer);
            if !is_interrupted(&result) {
                if repeats > 0 {
                    // Where this fails, a later read has less time.
                    let _ = self.stream.set_read_timeout(Some(limit));
                }
                return result;
            }
            let left = time_left(limit, begun.elapsed(self.rt)?);
            self.stream.set_read_timeout(Some(left))?;
        }
        Err(io::Error::from(ErrorKind::Interrupted))
    }

    fn send(&self, bytes: &[u8]) -> io::Result<usize> {
        let mut stream = &self.stream;
        let Some(limit) = self.limit else {
            return stream.send(bytes);
        };
        let begun = Instant::now(self.rt)?;
        for repeats in 0..MOST_CALLS {
            let result = stream.write(bytes);
            if !is_interrupted(&result) {
                if repeats > 0 {
                    // Where this fails, a later write has less time.
                    let _ = self.stream.set_write_timeout(Some(limit));
                }
                return result;
            }
            let left = time_left(limit, begun.elapsed(self.rt)?);
            self.stream.set_write_timeout(Some(left))?;
        }
        Err(io::Error::from(ErrorKind::Interrupted))
    }

    fn is_quiet(&self) -> bool {
        is_quiet(&self.stream)
    }

    fn set_nonblocking(&self, nonblocking: bool) -> io::Result<()> {
        self.stream.set_nonblocking(nonblocking)
    }
}

/// A TCP connection without a clock. A call that is interrupted is made again, with the whole of its time.
impl Connection for TcpStream {
    fn receive(&self, buffer: &mut [u8]) -> io::Result<usize> {
        let mut stream = self;
        'calls: for _ in 0..MOST_CALLS {
            let called = stream.read(buffer);
            if !is_interrupted(&called) {
                return called;
            }
        }
        Err(io::Error::from(ErrorKind::Interrupted))
    }

    fn send(&self, bytes: &[u8]) -> io::Result<usize> {
        let mut stream = self;
        'calls: for _ in 0..MOST_CALLS {
            let called = stream.write(bytes);
            if !is_interrupted(&called) {
                return called;
            }
        }
        Err(io::Error::from(ErrorKind::Interrupted))
    }

    fn is_quiet(&self) -> bool {
        is_quiet(self)
    }

    fn set_nonblocking(&self, nonblocking: bool) -> io::Result<()> {
        self.set_nonblocking(nonblocking)
    }
}

// What is left of the limit for a call that is repeated.
fn time_left(limit: Duration, passed: Duration) -> Duration {
    limit
        .saturating_sub(passed)
        .max(Duration::from_millis(SHORTEST))
}

fn is_interrupted(called: &io::Result<usize>) -> bool {
    match called {
        Ok(_) => false,
        Err(error) => error.kind() == ErrorKind::Interrupted,
    }
}

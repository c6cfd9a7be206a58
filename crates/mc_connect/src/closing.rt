//! How connections end that are done with: the server closes them first.
use mc_protocol::Sections;
use std::io;
use std::io::{Read, Write};
use std::net::TcpStream;
use std::rt::Clock;
use std::time::{Duration, Instant};

// What a server closes a connection for.
const QUIT: &[u8] = b"quit\r\n";

// The milliseconds for which the ends of the connections are waited for at most.
const LONGEST: u64 = 10;

// At most this many reads wait for the end of one.
const READS: u64 = 16;

/// Connections that the server was asked to close, as far as it could be. Whoever closes a connection first keeps its port for a minute,
/// so a client that did so would run out of ports after some thousand jobs.
#[derive(Debug, Drop)]
pub struct Closing {
    streams: Sections<Option<TcpStream>>,
}

impl Closing {
    /// Asks the server to close the connections, and waits for nothing.
    pub fn ask(streams: Sections<Option<TcpStream>>) -> Self {
        let Sections { p, a, b } = streams;
        Closing {
            streams: Sections {
                p: ask_to_close(p),
                a: ask_to_close(a),
                b: ask_to_close(b),
            },
        }
    }

    /// Waits until the server has closed them, but no longer than 10 ms in all. Then they are dropped.
    pub fn wait<R: Clock>(self, rt: &R) {
        let Sections { p, a, b } = self.streams;
        let Ok(begun) = Instant::now(rt) else {
            return;
        };
        wait_for_end(rt, begun, p);
        wait_for_end(rt, begun, a);
        wait_for_end(rt, begun, b);
    }
}

/// Asks the server to close all these connections, and waits until it has, but no longer than 10 ms in all.
pub(crate) fn close_all<R: Clock>(rt: &R, mut streams: Vec<TcpStream>) {
    'streams: for stream in streams.iter_mut() {
        // Where this fails, no end of the connection is waited for either.
        let _ = stream.write_all(QUIT);
    }
    let Ok(begun) = Instant::now(rt) else {
        return;
    };
    'streams: for stream in streams {
        wait_for_end(rt, begun, Some(stream));
    }
}

// The connection, if the server could be asked to close it.
fn ask_to_close(stream: Option<TcpStream>) -> Option<TcpStream> {
    let mut stream = stream?;
    stream.write_all(QUIT).ok()?;
    Some(stream)
}

// Reads a connection to its end, unless the time is over before.
fn wait_for_end<R: Clock>(rt: &R, begun: Instant, stream: Option<TcpStream>) {
    let Some(mut stream) = stream else {
        return;
    };
    let mut buffer = [0; 256];
    'reads: for _ in 0..READS {
        match read_in_time(rt, begun, &mut stream, &mut buffer) {
            Ok(count) if count > 0 => {}
            Ok(_) | Err(_) => return,
        }
    }
}

// Reads what comes before the time is over.
fn read_in_time<R: Clock>(
    rt: &R,
    begun: Instant,
    stream: &mut TcpStream,
    buffer: &mut [u8],
) -> io::Result<usize> {
    let left = Duration::from_millis(LONGEST).saturating_sub(begun.elapsed(rt)?);
    // A limit of no time at all is an error.
    stream.set_read_timeout(Some(left))?;
    stream.read(buffer)
}

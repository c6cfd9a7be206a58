//! Which version the server says that it is.

use mc_connect::{Connection, Network, Unconnected};
use mc_protocol::Actor;
use std::alloc::{AllocError, Global};
use std::io::ErrorKind;
use std::rt::Clock;
use std::thread::sleep;
use std::time::Duration;

const ASKED: &[u8] = b"version\r\n";

const START: &[u8] = b"VERSION ";

// The most bytes of a version that are shown.
const MOST: usize = 40;

// How often is looked for a piece of its line, and the milliseconds between two looks: a server that doesn't know the word may be silent.
const MOST_LOOKS: u32 = 250;

const PAUSE: u64 = 4;

/// What the server answers to `version` within a second, over a connection of its own.
pub(crate) fn version_of<R: Clock, N: Network>(
    rt: &R,
    alloc: Global,
    network: &mut N,
) -> Result<Result<Option<String>, AllocError>, Unconnected> {
    let stream = network.connect(Actor::P)?;
    let is_asked = match stream.send(ASKED) {
        Ok(count) => count == ASKED.len(),
        Err(_) => false,
    };
    if is_asked && stream.set_nonblocking(true).is_ok() {
        Ok(read_version(rt, alloc, &stream))
    } else {
        Ok(Ok(None))
    }
}

// What it answers; in quotes, if that is no version.
fn read_version<R: Clock, C: Connection>(
    rt: &R,
    alloc: Global,
    stream: &C,
) -> Result<Option<String>, AllocError> {
    let line = read_line(rt, alloc, stream)?;
    let line = line.as_slice();
    let (quote, said) = match line.strip_prefix(START) {
        Some(version) => ("", version),
        None => ("\"", line),
    };
    // Who doesn't know the word is a cache all the same.
    if said.is_empty() || said == b"ERROR".as_slice() {
        return Ok(None);
    }
    let shown = said.get(..MOST).unwrap_or(said).escape_ascii();
    Ok(Some(format!(in alloc; "{quote}{shown}{quote}")?))
}

// The line that comes, without its end; or what came of one.
fn read_line<R: Clock, C: Connection>(
    rt: &R,
    alloc: Global,
    stream: &C,
) -> Result<Vec<u8>, AllocError> {
    let mut line = Vec::new(alloc);
    let mut piece = [0u8; 64];
    'looks: for _look in 0..MOST_LOOKS {
        let count = match stream.receive(&mut piece) {
            Err(error) if error.kind() == ErrorKind::WouldBlock => {
                sleep(rt, Duration::from_millis(PAUSE));
                0
            }
            Ok(0) | Err(_) => break,
            Ok(count) => count,
        };
        'bytes: for byte in &piece[..count] {
            if *byte == b'\r' || *byte == b'\n' {
                return Ok(line);
            }
            line.push(*byte)?;
        }
    }
    Ok(line)
}

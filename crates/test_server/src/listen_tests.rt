//! A connection that is served over TCP. `tools/live/test_serve.py` has more of them.
use crate::memory::again;
use mc_server::{Listened, Shared, listen};
use std::alloc::AllocError;
use std::io::{self, Read, Write};
use std::net::{Net, TcpListener, TcpStream};
use std::rt::Clock;
use std::sync::Wait;
use std::test::Fail;
use std::thread::Threads;

/// The port of 127.0.0.1 that is free.
const FREE_PORT: &str = "127.0.0.1:0";

/// What a client sends, and what it is answered until the connection is closed.
const SENT: &[u8] = b"set a 0 0 1\r\n1\r\ngets a\r\nquit\r\n";

const ANSWER: &[u8] = b"STORED\r\nVALUE a 0 1 1\r\n1\r\nEND\r\n";

/// What comes until the connection is closed, and how many bytes; no more than there is room for.
fn read_to_end<S: Read>(stream: &mut S) -> io::Result<([u8; 256], usize)> {
    let mut read = [0; 256];
    let mut len = 0usize;
    for _ in 0..256 {
        let Some(rest) = read.get_mut(len..) else {
            break;
        };
        let count = stream.read(rest)?;
        if count == 0 {
            break;
        }
        len = len.saturating_add(count);
    }
    Ok((read, len))
}

/// What comes of a listener that serves one connection, over which a client has sent all before it listens; and whether the client is
/// answered so. Where memory ran out, for the connection's thread too, another listener does it once more.
fn listened_again<
    R: Net<Listener = TcpListener, Stream = TcpStream>
        + Threads
        + Wait
        + Clock
        + Sync
        + AllocGlobal,
>(rt: &R, sent: &[u8], answer: &[u8]) -> Result<(Listened, bool), Fail> {
    match listened_after(rt, sent, answer)? {
        Some(found) => Ok(found),
        None => Ok(listened_after(rt, sent, answer)?.ok_or(AllocError)?),
    }
}

/// The same, once; nothing where memory ran out.
fn listened_after<
    R: Net<Listener = TcpListener, Stream = TcpStream>
        + Threads
        + Wait
        + Clock
        + Sync
        + AllocGlobal,
>(rt: &R, sent: &[u8], answer: &[u8]) -> Result<Option<(Listened, bool)>, Fail> {
    let listener = TcpListener::bind(rt, FREE_PORT)?;
    let mut stream = TcpStream::connect(rt, listener.local_addr()?)?;
    stream.write_all(sent)?;
    listened_and_answered(rt, &listener, &mut stream, answer)
}

fn listened_and_answered<
    R: Net<Listener = TcpListener, Stream = TcpStream>
        + Threads
        + Wait
        + Clock
        + Sync
        + AllocGlobal,
    S: Read,
>(
    rt: &R,
    listener: &TcpListener,
    stream: &mut S,
    answer: &[u8],
) -> Result<Option<(Listened, bool)>, Fail> {
    let listened = listened_once(rt, listener)?;
    // what the client sent isn't read where the connection got no thread
    if listened.accepted == 0 {
        return Ok(None);
    }
    let is_all = is_all(stream, answer)?;
    Ok(is_all.map(|is_all| (listened, is_all)))
}

/// What comes of a listener that serves one connection.
fn listened_once<
    R: Net<Listener = TcpListener, Stream = TcpStream>
        + Threads
        + Wait
        + Clock
        + Sync
        + AllocGlobal,
>(rt: &R, listener: &TcpListener) -> Result<Listened, AllocError> {
    let shared = again(|| Shared::new(rt.alloc()))?;
    Ok(listen(rt, rt.alloc(), listener, &shared, 1))
}

/// Whether this is what comes until the connection is closed; nothing where the server has no memory.
fn is_all<S: Read>(stream: &mut S, answer: &[u8]) -> io::Result<Option<bool>> {
    let (read, len) = read_to_end(stream)?;
    let read = read.get(..len).unwrap_or(&[]);
    if read.ends_with(b"SERVER_ERROR out of memory\r\n") {
        return Ok(None);
    }
    Ok(Some(read == answer))
}

#[test]
fn serves_a_client_that_sent_all_before(rt: HostRuntime) -> Result<(), Fail> {
    let served = Listened {
        accepted: 1,
        refused: 0,
    };
    assert_eq!(rt; listened_again(&rt, SENT, ANSWER)?, (served, true));
    Ok(())
}

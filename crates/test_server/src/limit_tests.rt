//! A client that sends without end.
use mc_lane::Wire;
use mc_server::{Served, Shared, Why, serve};
use std::alloc::{AllocError, Global};
use std::io::{self, Read, Write};
use std::test::Fail;

/// How many bytes a read gives where it has room for them.
const PIECE: usize = 65_536;

/// What is sent again and again is a `get`, and a `set` with an expiry, which is refused and skipped. They have as many bytes as a piece.
const LINES: &[u8] = b"get a\r\nset a 0 1 65510\r\n";

const BODY_LEN: usize = 65_510;

/// A stream that gives the same bytes again and again, as many as a read has room for, and counts the bytes that it is written.
#[derive(Drop)]
struct Endless {
    /// The bytes of two pieces.
    bytes: Vec<u8>,
    at: usize,
    written: u64,
}

impl Endless {
    fn new(alloc: Global) -> Result<Self, AllocError> {
        let body = vec![in alloc; b'x'; BODY_LEN]?;
        let mut bytes = Vec::new(alloc);
        for _ in 0..2 {
            bytes.extend_from_slice(LINES)?;
            bytes.extend_from_slice(body.as_slice())?;
            bytes.extend_from_slice(b"\r\n")?;
        }
        Ok(Endless {
            bytes,
            at: 0,
            written: 0,
        })
    }
}

impl Read for Endless {
    fn read(&mut self, buf: &mut [u8]) -> io::Result<usize> {
        let rest = self.bytes.get(self.at..).unwrap_or(&[]);
        let count = rest.len().min(buf.len()).min(PIECE);
        buf[..count].copy_from_slice(&rest[..count]);
        self.at = self.at.saturating_add(count) % PIECE;
        Ok(count)
    }
}

impl Write for Endless {
    fn write(&mut self, buf: &[u8]) -> io::Result<usize> {
        self.written = self.written.saturating_add(buf.len() as u64);
        Ok(buf.len())
    }

    fn flush(&mut self) -> io::Result<()> {
        Ok(())
    }
}

/// Of a connection 4,294,967,295 bytes are read: 65,536 pieces but for the last byte, which ends the last `set`. Each `get` is answered
/// by 5 bytes, and each `set` that is whole by 35.
#[test]
fn ends_a_connection_of_which_too_much_was_read(rt: HostRuntime) -> Result<(), Fail> {
    let shared = Shared::new(rt.alloc())?;
    let mut endless = Endless::new(rt.alloc())?;
    let served = serve(&rt, rt.alloc(), &mut Wire::new(&mut endless), &shared);
    assert_eq!(rt;
        served,
        Served {
            requests: 65_536,
            why: Why::TooMuch
        }
    );
    assert_eq!(rt; endless.written, 65_536 * 5 + 65_535 * 35);
    Ok(())
}

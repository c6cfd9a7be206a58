//! What is there of a connection between two runs.
use crate::network::Connection;
use std::alloc::Global;
use std::io::ErrorKind;

// Bytes that nobody asked for are read at most this many times.
const MOST_READS: usize = 64;

// At most this many of them are read at once.
const PIECE: usize = 4096;

/// What is there of a connection that isn't read.
#[derive(Debug, Drop)]
pub struct Waiting {
    /// The bytes that have come.
    pub bytes: Vec<u8>,
    /// Whether the server holds the connection open, as far as that is seen after them.
    pub is_open: bool,
}

impl Waiting {
    /// What is there of the connection now, without waiting for any. A read of it waits afterwards. Where memory runs out, bytes are lost,
    /// and the connection counts as closed.
    pub fn on<C: Connection>(alloc: Global, stream: &C) -> Waiting {
        let mut waiting = Waiting {
            bytes: Vec::new(alloc),
            is_open: stream.is_quiet(),
        };
        if waiting.is_open || stream.set_nonblocking(true).is_err() {
            return waiting;
        }
        waiting.take(stream);
        // A connection of which a read doesn't wait serves no more.
        if stream.set_nonblocking(false).is_err() {
            waiting.is_open = false;
        }
        waiting
    }

    // Takes what is there, where a read doesn't wait.
    fn take<C: Connection>(&mut self, stream: &C) {
        let mut piece = [0; PIECE];
        'reads: for _ in 0..MOST_READS {
            match stream.receive(&mut piece) {
                Ok(count) if count > 0 => {
                    if self.bytes.extend_from_slice(&piece[..count]).is_err() {
                        return;
                    }
                }
                Ok(_) => return,
                Err(error) => {
                    self.is_open = error.kind() == ErrorKind::WouldBlock;
                    return;
                }
            }
        }
    }

    /// Whether the server holds the connection open, and nothing has come.
    pub fn is_idle(&self) -> bool {
        self.is_open && self.bytes.is_empty()
    }
}

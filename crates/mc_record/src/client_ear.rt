//! What hears a client.
ghost use Rattle.std.specs.Prelude.{None};

use crate::notebook::Notebook;
use mc_reader::{Ask, AskFault, Asked, RequestReader};
use mc_relay::Ear;
use std::alloc::Global;
use std::sync::{Mutex, Wait};

/// How many bytes of a request are kept: as many as a line may have.
const FRONT_BYTES: usize = 2_048;

/// Hears the requests of one connection, and notes each when its last byte has come.
#[derive(Drop)]
pub struct ClientEar<'a> {
    notebook: &'a Mutex<Notebook>,
    connection: u8,
    reader: RequestReader,
    // The front of the request that has begun.
    front: Vec<u8>,
    // How many bytes come before the next request, of a block that the reader doesn't know.
    block: u64,
    // Whether nothing is understood any more.
    is_lost: bool,
}

impl<'a> ClientEar<'a> {
    /// What hears the connection with this number, of which nothing has come.
    pub fn new(alloc: Global, notebook: &'a Mutex<Notebook>, connection: u8) -> Self {
        ClientEar {
            notebook,
            connection,
            reader: RequestReader::new(alloc),
            front: Vec::new(alloc),
            block: 0,
            is_lost: false,
        }
    }

    // Hears some of the bytes, and answers how many. Other connections wait only while something is noted.
    fn hear_next<R: Wait>(&mut self, rt: &R, unread: &[u8]) -> usize {
        if self.block > 0 {
            return self.skip(unread);
        }
        match self.reader.feed(unread) {
            Ok(Asked::Done { ask, used }) => {
                self.keep(rt, unread.get(..used).unwrap_or(unread));
                if self.is_lost {
                    return used;
                }
                self.ask(rt, ask);
                used
            }
            Ok(Asked::More) => {
                self.keep(rt, unread);
                unread.len()
            }
            Err(AskFault::OutOfMemory) | Err(AskFault::Failed) => {
                self.lose(rt);
                unread.len()
            }
        }
    }

    fn skip(&mut self, unread: &[u8]) -> usize {
        let len = unread.len() as u64;
        if len < self.block {
            self.block -= len;
            return unread.len();
        }
        let used = self.block as usize;
        self.block = 0;
        used
    }

    // Notes what is asked.
    fn ask<R: Wait>(&mut self, rt: &R, ask: Ask) {
        self.is_lost = ask.closes();
        let line = line_of(self.front.as_slice());
        self.block = self.notebook.lock(rt).ask(self.connection, ask, line);
        self.front.clear();
    }

    // Keeps the bytes of a request, as far as there is room.
    fn keep<R: Wait>(&mut self, rt: &R, bytes: &[u8]) {
        let room = FRONT_BYTES.saturating_sub(self.front.len());
        let kept = bytes.get(..room).unwrap_or(bytes);
        if self.front.extend_from_slice(kept).is_err() {
            self.lose(rt);
        }
    }

    fn lose<R: Wait>(&mut self, rt: &R) {
        self.is_lost = true;
        self.notebook.lock(rt).misunderstand(self.connection);
    }
}

impl<'a> Ear for ClientEar<'a> {
    ghost heard = { λ _. None };

    fn hear<R: Wait>(&mut self, rt: &R, bytes: &[u8]) {
        if self.is_lost {
            return;
        }
        let mut unread = bytes;
        // each round hears a byte at least
        for _ in 0..bytes.len() {
            if unread.is_empty() || self.is_lost {
                break;
            }
            let used = self.hear_next(rt, unread);
            unread = unread.get(used..).unwrap_or(&[]);
        }
    }
}

// The line with which the bytes begin, without its LF.
fn line_of(bytes: &[u8]) -> &[u8] {
    match bytes.iter().position(|byte| *byte == b'\n') {
        Some(len) => bytes.get(..len).unwrap_or(bytes),
        None => bytes,
    }
}

//! What hears a server.
ghost use Rattle.std.specs.Prelude.{None};

use crate::awaited::Awaited;
use crate::frames::{Frame, Framed, Framer};
use crate::notebook::Notebook;
use mc_protocol::{OutOfMemory, REPLY_BODY_LIMIT, Reply};
use mc_reader::{Fed, ReplyReader, Shape};
use mc_relay::Ear;
use std::alloc::Global;
use std::sync::{Mutex, Wait};

/// How many bytes of a reply are kept; a longer one has a body that no timeline has words for.
const KEPT_BYTES: usize = REPLY_BODY_LIMIT + 4_096;

/// Hears the replies of one connection, and notes each when its last byte has come.
#[derive(Drop)]
pub struct ServerEar<'a> {
    alloc: Global,
    notebook: &'a Mutex<Notebook>,
    connection: u8,
    // What the reply that comes next or has begun answers, if that is known.
    awaited: Option<Awaited>,
    framer: Framer,
    // The bytes of the reply that has begun, and whether these are all of them.
    reply: Vec<u8>,
    is_whole: bool,
    // Whether nothing is understood any more.
    is_lost: bool,
}

impl<'a> ServerEar<'a> {
    /// What hears the connection with this number, of which nothing has come.
    pub fn new(alloc: Global, notebook: &'a Mutex<Notebook>, connection: u8) -> Self {
        ServerEar {
            alloc,
            notebook,
            connection,
            awaited: None,
            framer: Framer::new(alloc, Frame::Silent),
            reply: Vec::new(alloc),
            is_whole: true,
            is_lost: false,
        }
    }

    // Hears some of the bytes, and answers how many. Other connections wait only while something is noted.
    fn hear_next<R: Wait>(&mut self, rt: &R, unread: &[u8]) -> usize {
        if self.awaited.is_none() {
            self.expect(rt);
        }
        match self.answer_at_once(rt, unread) {
            Some(used) => used,
            None => self.hear_piece(rt, unread),
        }
    }

    // Notes the reply with which the bytes begin, if nothing of it came before, all of it is there and the request may have it.
    // Answers its length.
    fn answer_at_once<R: Wait>(&mut self, rt: &R, unread: &[u8]) -> Option<usize> {
        if !self.reply.is_empty() || !self.is_whole {
            return None;
        }
        let awaited = self.awaited.take()?;
        let Some((reply, used)) = reply_in(self.alloc, &awaited, unread) else {
            self.awaited = Some(awaited);
            return None;
        };
        self.notebook.lock(rt).answer(awaited, Some(reply));
        Some(used)
    }

    // Hears what is a piece of a reply, or one that no timeline has words for.
    fn hear_piece<R: Wait>(&mut self, rt: &R, unread: &[u8]) -> usize {
        match self.framer.feed(unread) {
            Ok(Framed::Done(used)) => {
                let last = unread.get(..used).unwrap_or(unread);
                self.answer(rt, last);
                used
            }
            Ok(Framed::More) => {
                self.keep(unread);
                unread.len()
            }
            Ok(Framed::Unknown) | Err(_) => {
                self.is_lost = true;
                self.notebook.lock(rt).misunderstand(self.connection);
                unread.len()
            }
        }
    }

    // A reply begins. If nothing is awaited, its first byte isn't understood.
    fn expect<R: Wait>(&mut self, rt: &R) {
        self.awaited = self.notebook.lock(rt).next_awaited(self.connection);
        let frame = match &self.awaited {
            Some(awaited) => awaited.frame,
            None => Frame::Silent,
        };
        self.framer = Framer::new(self.alloc, frame);
        self.reply.clear();
        self.is_whole = true;
    }

    // Keeps the bytes of a reply that isn't whole, unless they are too many.
    fn keep(&mut self, bytes: &[u8]) {
        let is_short = self.reply.len().saturating_add(bytes.len()) <= KEPT_BYTES;
        if !is_short || self.reply.extend_from_slice(bytes).is_err() {
            self.is_whole = false;
        }
    }

    // Notes the reply that ends with these bytes.
    fn answer<R: Wait>(&mut self, rt: &R, last: &[u8]) {
        let Some(awaited) = self.awaited.take() else {
            return;
        };
        self.keep(last);
        let reply = match reply_in(self.alloc, &awaited, self.reply.as_slice()) {
            Some((reply, _len)) if self.is_whole => Some(reply),
            _ => None,
        };
        self.notebook.lock(rt).answer(awaited, reply);
    }
}

impl<'a> Ear for ServerEar<'a> {
    ghost heard = { λ _. None };

    fn hear<R: Wait>(&mut self, rt: &R, bytes: &[u8]) {
        if self.is_lost {
            return;
        }
        let mut unread = bytes;
        // each round hears a byte at least
        for _ in 0..bytes.len() {
            if unread.is_empty() || self.is_lost {
                break;
            }
            let used = self.hear_next(rt, unread);
            unread = unread.get(used..).unwrap_or(&[]);
        }
    }
}

// The reply with which the bytes begin, and its length, if they begin with one to a request of one key.
fn reply_in(alloc: Global, awaited: &Awaited, bytes: &[u8]) -> Option<(Reply, usize)> {
    let verb = awaited.verb?;
    let key = awaited.keys.as_slice().first()?;
    let shape = Shape {
        verb,
        key: key.as_slice(),
    };
    match ReplyReader::new(alloc, shape).feed(bytes) {
        Ok(Fed::Done { reply, used }) => Some((reply, used)),
        _ => None,
    }
}

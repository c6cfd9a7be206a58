//! One client of a round, request by request.

use crate::meeting::Meeting;
use mc_lane::{Lane, Stream};
use mc_model::Note;
use mc_protocol::{Bytes, Fault, OutOfMemory, Request, Verb, render_request};
use mc_reader::Shape;
use mc_rounds::Client;
use std::alloc::Global;
use std::sync::Wait;
use std::sync::atomic::{AtomicU64, Ordering};

/// What the clients of a round share.
#[derive(Drop)]
pub(crate) struct Board<'a> {
    pub(crate) keys: &'a [Bytes],
    /// How often its time was taken. The notes of all clients stand in the order of their times.
    pub(crate) clock: AtomicU64,
    pub(crate) meeting: Meeting,
}

impl Board<'_> {
    // The next time.
    fn time(&self) -> u64 {
        self.clock.fetch_add(1, Ordering::SeqCst)
    }
}

/// A client of a round.
#[derive(Drop)]
pub(crate) struct Part<S: Stream> {
    pub(crate) client: u8,
    pub(crate) lane: Lane<S>,
    pub(crate) asking: Client,
    /// What was noted of it, each with the time. There is room for all that may come.
    pub(crate) notes: Vec<(u64, Note)>,
    pub(crate) ended: Option<Fault>,
}

// A request that is ready to be sent: its text, and what its reply is read by.
#[derive(Drop)]
struct Prepared {
    text: Vec<u8>,
    verb: Verb,
    key: Bytes,
    request: Request,
}

impl<S: Stream> Part<S> {
    /// Makes these requests, one after another.
    pub(crate) fn open(&mut self, alloc: Global, board: &Board<'_>, openings: Vec<Request>) {
        'openings: for request in openings {
            if !self.ask(alloc, board, request) {
                return;
            }
        }
    }

    /// Meets the others, and makes all requests, one after another as fast as replies come. The first fault ends the client.
    pub(crate) fn play<R: Wait>(mut self, rt: &R, alloc: Global, board: &Board<'_>) -> Self {
        if !board.meeting.come(rt) {
            return self;
        }
        'requests: for _ in 0..u16::MAX {
            match self.asking.next(alloc, board.keys) {
                Ok(Some(request)) => {
                    if !self.ask(alloc, board, request) {
                        break;
                    }
                }
                Ok(None) => break,
                Err(_) => {
                    self.ended = Some(Fault::Memory);
                    break;
                }
            }
        }
        self
    }

    // Makes the request, and answers whether a reply came.
    fn ask(&mut self, alloc: Global, board: &Board<'_>, request: Request) -> bool {
        match self.prepare(alloc, request) {
            Ok(prepared) => self.send(board, prepared),
            Err(_) => {
                self.ended = Some(Fault::Memory);
                false
            }
        }
    }

    // Makes the request ready, so that no memory is taken from its note until its bytes are sent, nor from its reply until that is noted.
    fn prepare(&mut self, alloc: Global, request: Request) -> Result<Prepared, OutOfMemory> {
        let mut text = Vec::new(alloc);
        render_request(&request, &mut text)?;
        self.lane.reserve(text.len())?;
        self.notes.reserve(2)?;
        Ok(Prepared {
            text,
            verb: request.verb,
            key: request.key.copy(alloc)?,
            request,
        })
    }

    // Makes the request, notes when it began and when its reply came, and answers whether it did.
    fn send(&mut self, board: &Board<'_>, prepared: Prepared) -> bool {
        let Prepared {
            text,
            verb,
            key,
            request,
        } = prepared;
        let shape = Shape {
            verb,
            key: key.as_slice(),
        };
        let begun = board.time();
        let answered = self.lane.call(text.as_slice(), shape);
        let ended = board.time();
        // the room is there
        let _ = self.notes.push((begun, Note::Begin(request)));
        match answered {
            Ok(reply) => {
                self.asking.hear(&reply);
                let _ = self.notes.push((ended, Note::Reply(reply)));
                true
            }
            Err(fault) => {
                self.ended = Some(fault);
                false
            }
        }
    }
}

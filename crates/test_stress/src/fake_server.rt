//! Servers in memory, and connections to them.
ghost use Rattle.std.specs.Prelude.{◌≤◌, IfOk, length};

use mc_connect::Connection;
use mc_protocol::{Reply, Request, render_reply};
use mc_reader::{Ask, Asked, RequestReader};
use mc_server::Store;
use mc_stress::Network;
use std::alloc::Global;
use std::io;
use std::io::ErrorKind;
use std::sync::{Mutex, Wait};

/// How a server answers.
#[derive(Clone, Copy, Debug, PartialEq, Eq)]
pub(crate) enum Manner {
    /// As a server does that keeps what it is sent.
    Right,
    /// As if each request were the first that it gets.
    Forgetful,
    /// As the first, but this client's connection ends at its first request.
    Ending(u8),
    /// As the first, and this client's replies aren't replies.
    Garbling(u8),
    /// This client's first connection ends at its first request. All that are made after it forget what they are sent.
    EndingThenForgetful(u8),
}

impl Manner {
    // How the connection with this number, from 1, answers if the first clients have one each.
    fn of_connection(self, number: u64) -> Manner {
        match self {
            Manner::EndingThenForgetful(client) if number <= u64::from(client) + 1 => {
                Manner::Ending(client)
            }
            Manner::EndingThenForgetful(_) => Manner::Forgetful,
            _ => self,
        }
    }
}

/// A server in memory.
#[derive(Drop)]
pub(crate) struct Server {
    alloc: Global,
    manner: Manner,
    store: Mutex<Store>,
}

/// A connection to it.
#[derive(Drop)]
pub(crate) struct Line<'a, R> {
    rt: &'a R,
    server: &'a Server,
    client: u8,
    manner: Manner,
    state: Mutex<State>,
}

// What stands in the connection's two directions.
#[derive(Drop)]
struct State {
    answers: Vec<u8>,
    given: usize,
    is_nonblocking: bool,
}

/// Connects clients to a server, except one that gets no connection, if there is one.
#[derive(Drop)]
pub(crate) struct Lines<'a, R> {
    pub(crate) rt: &'a R,
    pub(crate) server: &'a Server,
    pub(crate) refused: Option<u8>,
    /// How many connections were made.
    pub(crate) connected: u64,
}

impl Server {
    pub(crate) fn new(alloc: Global, manner: Manner) -> Self {
        Server {
            alloc,
            manner,
            store: Mutex::new(Store::new(alloc)),
        }
    }

    // The reply to the request.
    fn reply<R: Wait>(&self, rt: &R, manner: Manner, request: &Request) -> io::Result<Reply> {
        let answered = match manner {
            Manner::Forgetful => Store::new(self.alloc).call(request),
            _ => self.store.lock(rt).call(request),
        };
        answered.map_err(|_| io::Error::from(ErrorKind::OutOfMemory))
    }

    // Appends the reply to what the client asks.
    fn answer<R: Wait>(
        &self,
        rt: &R,
        (manner, client): (Manner, u8),
        asked: &[u8],
        out: &mut Vec<u8>,
    ) -> io::Result<()> {
        if manner == Manner::Garbling(client) {
            out.extend_from_slice(b"what?\r\n")?;
            return Ok(());
        }
        match RequestReader::new(self.alloc).feed(asked) {
            Ok(
                Asked::Done {
                    ask: Ask::One { request, .. },
                    ..
                },
            ) => {
                let reply = self.reply(rt, manner, &request)?;
                render_reply(request.key.as_slice(), &reply, out)?;
                Ok(())
            }
            _ => Err(io::Error::from(ErrorKind::OutOfMemory)),
        }
    }
}

impl<'a, R: Wait + Sync> Connection for Line<'a, R> {
    fn receive(&self, buffer: &mut [u8]) -> io::Result<usize>
        ensures { IfOk result (λ count. count ≤ length buffer.new) }
    {
        let mut state = self.state.lock(self.rt);
        let left = state.answers.len().saturating_sub(state.given);
        if left == 0 && state.is_nonblocking {
            return Err(io::Error::from(ErrorKind::WouldBlock));
        }
        let count = left.min(buffer.len());
        for place in 0..count {
            if let Some(byte) = state.answers.get(state.given) {
                if let Some(slot) = buffer.get_mut(place) {
                    *slot = *byte;
                }
            }
            state.given = state.given.saturating_add(1);
        }
        Ok(count)
    }

    fn send(&self, bytes: &[u8]) -> io::Result<usize>
        ensures { IfOk result (λ count. count ≤ length bytes.now) }
    {
        if self.manner == Manner::Ending(self.client) {
            return Ok(bytes.len());
        }
        let mut answers = Vec::new(self.server.alloc);
        self.server
            .answer(self.rt, (self.manner, self.client), bytes, &mut answers)?;
        let mut state = self.state.lock(self.rt);
        state.answers.extend_from_slice(answers.as_slice())?;
        Ok(bytes.len())
    }

    fn set_nonblocking(&self, nonblocking: bool) -> io::Result<()> {
        self.state.lock(self.rt).is_nonblocking = nonblocking;
        Ok(())
    }
}

impl<'a, R: Wait + Sync> Network for Lines<'a, R> {
    type Connection = Line<'a, R>;

    fn connect(&mut self, client: u8) -> io::Result<Line<'a, R>> {
        if self.refused == Some(client) {
            return Err(io::Error::from(ErrorKind::ConnectionRefused));
        }
        self.connected = self.connected.saturating_add(1);
        Ok(Line {
            rt: self.rt,
            server: self.server,
            client,
            manner: self.server.manner.of_connection(self.connected),
            state: Mutex::new(State {
                answers: Vec::new(self.server.alloc),
                given: 0,
                is_nonblocking: false,
            }),
        })
    }
}

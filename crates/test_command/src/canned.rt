//! A network in memory: on each connection come answers that are known beforehand, each after its request.

use mc_connect::{Connection, Network, Unconnected};
use mc_protocol::{Actor, Sections};
use std::io;
use std::io::{ErrorKind, Read};
use std::sync::atomic::{AtomicBool, AtomicUsize, Ordering};

/// What a server answers on one connection, to each request.
pub(crate) type Answers = &'static [&'static [u8]];

/// A connection in memory, which the server ends after its last answer.
#[derive(Drop)]
pub(crate) struct Canned {
    answers: Answers,
    requests: AtomicUsize,
    reads: AtomicUsize,
    is_nonblocking: AtomicBool,
    // What comes once the connection was looked at after a run.
    later: &'static [u8],
    looks: AtomicUsize,
}

impl Canned {
    fn new(answers: Answers, later: &'static [u8]) -> Self {
        Canned {
            answers,
            later,
            looks: AtomicUsize::new(0),
            requests: AtomicUsize::new(0),
            reads: AtomicUsize::new(0),
            is_nonblocking: AtomicBool::new(false),
        }
    }

    // The server has ended the connection.
    fn is_ended(&self) -> bool {
        self.reads.load(Ordering::SeqCst) >= self.answers.len()
    }

    // The answer that is to be read next, if its request was written. It counts as read.
    fn take_answer(&self) -> Option<&'static [u8]> {
        let number = self.reads.load(Ordering::SeqCst);
        if number >= self.requests.load(Ordering::SeqCst) {
            return None;
        }
        self.reads.store(number.saturating_add(1), Ordering::SeqCst);
        self.answers.get(number).copied()
    }
}

impl Connection for Canned {
    fn receive(&self, buffer: &mut [u8]) -> io::Result<usize> {
        match self.take_answer() {
            Some(mut answer) => answer.read(buffer),
            None if self.is_nonblocking.load(Ordering::SeqCst) && !self.is_ended() => {
                let mut later = self.later;
                if self.looks.fetch_add(1, Ordering::SeqCst) == 1 && !later.is_empty() {
                    return later.read(buffer);
                }
                Err(io::Error::from(ErrorKind::WouldBlock))
            }
            None => Ok(0),
        }
    }

    fn send(&self, bytes: &[u8]) -> io::Result<usize> {
        self.requests.fetch_add(1, Ordering::SeqCst);
        Ok(bytes.len())
    }

    fn set_nonblocking(&self, nonblocking: bool) -> io::Result<()> {
        self.is_nonblocking.store(nonblocking, Ordering::SeqCst);
        Ok(())
    }
}

/// A network that connects all sections.
#[derive(Drop)]
pub(crate) struct CannedNetwork {
    /// What comes on each connection of P, A and B.
    answers: [Answers; 3],
    /// What comes on A's connection once it was looked at after a run.
    pub(crate) later: &'static [u8],
    /// How often P, A and B were connected.
    pub(crate) connected: [u32; 3],
    /// How many connections were given back.
    pub(crate) released: usize,
}

impl CannedNetwork {
    /// One on which these answers come.
    pub(crate) fn new(answers: [Answers; 3]) -> Self {
        CannedNetwork {
            answers,
            later: b"",
            connected: [0; 3],
            released: 0,
        }
    }
}

impl Network for CannedNetwork {
    type Connection = Canned;

    fn connect(&mut self, section: Actor) -> Result<Canned, Unconnected> {
        let [p, a, b] = self.answers;
        let [to_p, to_a, to_b] = self.connected;
        match section {
            Actor::P => {
                self.connected = [to_p.saturating_add(1), to_a, to_b];
                Ok(Canned::new(p, b""))
            }
            Actor::A => {
                self.connected = [to_p, to_a.saturating_add(1), to_b];
                let later = if to_a == 0 { self.later } else { b"" };
                Ok(Canned::new(a, later))
            }
            Actor::B => {
                self.connected = [to_p, to_a, to_b.saturating_add(1)];
                Ok(Canned::new(b, b""))
            }
        }
    }

    fn release(&mut self, connections: Sections<Option<Canned>>) {
        let Sections { p, a, b } = connections;
        let count = usize::from(p.is_some()) + usize::from(a.is_some()) + usize::from(b.is_some());
        self.released = self.released.saturating_add(count);
    }
}

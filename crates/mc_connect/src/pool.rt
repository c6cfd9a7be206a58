//! Connections that jobs leave to later ones.
use crate::quiet::is_quiet;
use crate::servers::Servers;
use mc_protocol::{Actor, Sections};
use std::alloc::Global;
use std::mem;
use std::net::TcpStream;
use std::sync::{Mutex, Wait};

// At most this many connections are looked at for a section: more than the jobs that run at once have.
const MOST_LOOKS: u32 = 64;

/// Connections that no job has now, from any thread. Those of sections that share a server are kept together, and who takes one gets the
/// one that was left first. There are never more than were in use at once.
#[derive(Drop)]
pub(crate) struct Pool<'a, R> {
    rt: &'a R,
    alloc: Global,
    servers: Servers<'a>,
    // P's are those of each branch that has no server of its own, too.
    streams: Mutex<Sections<Vec<TcpStream>>>,
}

impl<'a, R: Wait> Pool<'a, R> {
    /// None so far.
    pub(crate) fn new(rt: &'a R, alloc: Global, servers: Servers<'a>) -> Self {
        Pool {
            rt,
            alloc,
            servers,
            streams: Mutex::new(no_streams(alloc)),
        }
    }

    /// A connection to the section's server that the server holds open, and on which nothing has come. Those that are found before and
    /// aren't so are closed.
    pub(crate) fn take(&self, section: Actor) -> Option<TcpStream> {
        'streams: for _ in 0..MOST_LOOKS {
            let stream = self.first(section)?;
            if is_quiet(&stream) {
                return Some(stream);
            }
        }
        None
    }

    // The connection to the section's server that was left first.
    fn first(&self, section: Actor) -> Option<TcpStream> {
        let mut streams = self.streams.lock(self.rt);
        let kept = self.kept(&mut streams, section);
        if kept.is_empty() {
            None
        } else {
            Some(kept.remove(0))
        }
    }

    /// Leaves the section's connection to a later job, if there is one. Without memory for it, it is closed.
    pub(crate) fn keep(&self, section: Actor, stream: Option<TcpStream>) {
        let Some(stream) = stream else {
            return;
        };
        let mut streams = self.streams.lock(self.rt);
        let _ = self.kept(&mut streams, section).push(stream);
    }

    /// All of them, which are no longer kept.
    pub(crate) fn take_all(&self) -> Sections<Vec<TcpStream>> {
        let mut streams = self.streams.lock(self.rt);
        mem::replace(&mut *streams, no_streams(self.alloc))
    }

    // Those that stand for the section's server.
    fn kept<'s>(
        &self,
        streams: &'s mut Sections<Vec<TcpStream>>,
        section: Actor,
    ) -> &'s mut Vec<TcpStream> {
        if self.servers.own(section).is_none() {
            return &mut streams.p;
        }
        match section {
            Actor::P => &mut streams.p,
            Actor::A => &mut streams.a,
            Actor::B => &mut streams.b,
        }
    }
}

fn no_streams(alloc: Global) -> Sections<Vec<TcpStream>> {
    Sections {
        p: Vec::new(alloc),
        a: Vec::new(alloc),
        b: Vec::new(alloc),
    }
}

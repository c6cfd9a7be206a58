//! Connections that serve the next run too.
ghost use Rattle.std.specs.Prelude.{◌≡◌, None};

use crate::network::{Connection, Network, Unconnected};
use crate::waiting::Waiting;
use mc_protocol::{Actor, Sections};
use std::alloc::Global;
use std::mem;

/// The connections of the last run, where the next one may use them, and what came on them after it.
#[derive(Debug, Drop)]
pub struct Kept<C> {
    alloc: Global,
    streams: Sections<Option<C>>,
    came: Vec<(Actor, Vec<u8>)>,
}

impl<C: Connection> Kept<C> {
    /// No connections.
    pub fn new(alloc: Global) -> Self
        ensures { result.streams ≡ record { p = None; a = None; b = None } }
    {
        Kept {
            alloc,
            streams: no_streams(),
            came: Vec::new(alloc),
        }
    }

    /// The connections that are kept, or else new ones, in the order P, A, B. One that the server has closed meanwhile, or on which bytes
    /// have come, is replaced.
    ///
    /// # Errors
    ///
    /// The first section that gets no new connection, and why.
    pub fn take_or_connect<N: Network<Connection = C>>(
        &mut self,
        network: &mut N,
    ) -> Result<Sections<C>, Unconnected> {
        let connected = self.connect(network);
        if connected.is_err() {
            // The next run looks for the servers anew.
            network.release(no_streams());
        }
        connected
    }

    fn connect<N: Network<Connection = C>>(
        &mut self,
        network: &mut N,
    ) -> Result<Sections<C>, Unconnected> {
        let Sections { p, a, b } = mem::replace(&mut self.streams, no_streams());
        Ok(Sections {
            p: self.idle_or_new(network, p, Actor::P)?,
            a: self.idle_or_new(network, a, Actor::A)?,
            b: self.idle_or_new(network, b, Actor::B)?,
        })
    }

    // The connection, or a new one in its place if it isn't idle.
    fn idle_or_new<N: Network<Connection = C>>(
        &mut self,
        network: &mut N,
        stream: Option<C>,
        section: Actor,
    ) -> Result<C, Unconnected> {
        match stream {
            Some(stream) if is_idle(self.alloc, &stream, section, &mut self.came) => Ok(stream),
            _ => network.connect(section),
        }
    }

    /// What came on connections after the run that used them last, by section, as far as it was seen when the next run took them.
    pub fn take_came(&mut self) -> Vec<(Actor, Vec<u8>)> {
        mem::replace(&mut self.came, Vec::new(self.alloc))
    }

    /// Looks at the connections that are kept, as no run follows. What has come on them is found by [`Kept::take_came`].
    pub fn look_again(&mut self) {
        for section in [Actor::P, Actor::A, Actor::B] {
            if let Some(stream) = self.streams.get(section) {
                is_idle(self.alloc, stream, section, &mut self.came);
            }
        }
    }

    /// The next run may use these connections, as far as they are there.
    pub fn keep(&mut self, connections: Sections<Option<C>>)
        ensures { self.new.streams ≡ connections }
    {
        self.streams = connections;
    }

    /// Gives the connections back, if there are any.
    pub fn quit<N: Network<Connection = C>>(self, network: &mut N) {
        let Kept { streams, .. } = self;
        network.release(streams);
    }
}

// Whether the section's connection is idle. What has come on it is added to what came.
fn is_idle<C: Connection>(
    alloc: Global,
    stream: &C,
    section: Actor,
    came: &mut Vec<(Actor, Vec<u8>)>,
) -> bool {
    let waiting = Waiting::on(alloc, stream);
    let is_idle = waiting.is_idle();
    if !waiting.bytes.is_empty() {
        // Without memory for it, it isn't told.
        let _ = came.push((section, waiting.bytes));
    }
    is_idle
}

fn no_streams<C>() -> Sections<Option<C>>
    ensures { result ≡ record { p = None; a = None; b = None } }
{
    Sections {
        p: None,
        a: None,
        b: None,
    }
}

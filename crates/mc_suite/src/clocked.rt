//! Connections that note how long the slowest reply took.

use mc_connect::{Connection, Network, TcpNetwork, Unconnected};
use mc_protocol::{Actor, Sections};
use mc_stress::Network as Clients;
use std::io;
use std::net::{Net, TcpStream};
use std::rt::Clock;
use std::sync::atomic::{AtomicU64, Ordering};
use std::time::{Duration, Instant};

/// The time of the slowest reply of each section.
#[derive(Drop)]
pub(crate) struct Slowest {
    // In microseconds.
    times: Sections<AtomicU64>,
}

impl Slowest {
    /// There was no reply.
    pub(crate) fn new() -> Slowest {
        Slowest {
            times: Sections {
                p: AtomicU64::new(0),
                a: AtomicU64::new(0),
                b: AtomicU64::new(0),
            },
        }
    }

    /// The time of the slowest one.
    pub(crate) fn time(&self) -> Duration {
        let p = self.times.p.load(Ordering::SeqCst);
        let a = self.times.a.load(Ordering::SeqCst);
        let b = self.times.b.load(Ordering::SeqCst);
        Duration::from_micros(p.max(a).max(b))
    }
}

/// A network whose connections note it.
#[derive(Drop)]
pub(crate) struct ClockedNetwork<'a, R> {
    rt: &'a R,
    network: TcpNetwork<'a, R>,
    slowest: &'a Slowest,
}

impl<'a, R> ClockedNetwork<'a, R> {
    /// The connections of this network.
    pub(crate) fn new(rt: &'a R, network: TcpNetwork<'a, R>, slowest: &'a Slowest) -> Self {
        ClockedNetwork {
            rt,
            network,
            slowest,
        }
    }
}

impl<'a, R: Net<Stream = TcpStream> + Clock + Sync> Network for ClockedNetwork<'a, R> {
    type Connection = Clocked<'a, R, <TcpNetwork<'a, R> as Network>::Connection>;

    fn connect(
        &mut self,
        section: Actor,
    ) -> Result<Clocked<'a, R, <TcpNetwork<'a, R> as Network>::Connection>, Unconnected> {
        let stream = self.network.connect(section)?;
        Ok(Clocked {
            rt: self.rt,
            stream,
            slowest: self.slowest.times.get(section),
        })
    }

    fn release(
        &mut self,
        connections: Sections<Option<Clocked<'a, R, <TcpNetwork<'a, R> as Network>::Connection>>>,
    ) {
        let Sections { p, a, b } = connections;
        self.network.release(Sections {
            p: p.map(Clocked::into_stream),
            a: a.map(Clocked::into_stream),
            b: b.map(Clocked::into_stream),
        });
    }
}

impl<'a, R: Net<Stream = TcpStream> + Clock + Sync> Clients for ClockedNetwork<'a, R> {
    type Connection = Clocked<'a, R, <TcpNetwork<'a, R> as Network>::Connection>;

    /// The first client connects to P's server, and the others in turn to A's and B's.
    fn connect(
        &mut self,
        client: u8,
    ) -> io::Result<Clocked<'a, R, <TcpNetwork<'a, R> as Network>::Connection>> {
        let section = if client == 0 {
            Actor::P
        } else if client % 2 == 1 {
            Actor::A
        } else {
            Actor::B
        };
        Network::connect(self, section).map_err(|none| none.error)
    }
}

/// A connection that notes it: what a read waits for is a reply.
#[derive(Drop)]
pub(crate) struct Clocked<'a, R, C> {
    rt: &'a R,
    stream: C,
    slowest: &'a AtomicU64,
}

impl<'a, R, C> Clocked<'a, R, C> {
    // The connection itself.
    fn into_stream(self) -> C {
        let Clocked { stream, .. } = self;
        stream
    }
}

impl<'a, R: Clock, C> Clocked<'a, R, C> {
    // A read took this time.
    fn note(&self, begun: Instant) {
        let took = begun.elapsed(self.rt).unwrap_or(Duration::ZERO);
        let took = u64::try_from(took.as_micros()).unwrap_or(u64::MAX);
        self.slowest.fetch_max(took, Ordering::SeqCst);
    }
}

impl<'a, R: Clock + Sync, C: Connection> Connection for Clocked<'a, R, C> {
    fn receive(&self, buffer: &mut [u8]) -> io::Result<usize> {
        let begun = Instant::now(self.rt)?;
        let count = self.stream.receive(buffer)?;
        self.note(begun);
        Ok(count)
    }

    fn send(&self, bytes: &[u8]) -> io::Result<usize> {
        self.stream.send(bytes)
    }

    fn set_nonblocking(&self, nonblocking: bool) -> io::Result<()> {
        self.stream.set_nonblocking(nonblocking)
    }
}

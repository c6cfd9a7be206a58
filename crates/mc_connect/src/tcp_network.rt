//! Connections of runs over TCP.
use crate::closing::Closing;
use crate::dial::dial;
use crate::network::{Network, Unconnected};
use crate::servers::Servers;
use crate::timed_stream::TimedStream;
use mc_protocol::{Actor, Sections};
use std::net::{Net, SocketAddr, TcpStream};
use std::rt::Clock;

/// Connections over TCP.
#[derive(Drop)]
pub struct TcpNetwork<'a, R> {
    rt: &'a R,
    servers: Servers<'a>,
    // The address that took P, where others may be connected to it.
    address: Option<SocketAddr>,
}

impl<'a, R> TcpNetwork<'a, R> {
    /// Connections to these servers by sockets of `rt`, which has the time too.
    pub fn new(rt: &'a R, servers: Servers<'a>) -> Self {
        TcpNetwork {
            rt,
            servers,
            address: None,
        }
    }
}

impl<'a, R: Net<Stream = TcpStream> + Clock + Sync> Network for TcpNetwork<'a, R> {
    type Connection = TimedStream<'a, R>;

    /// P looks its server's name up and tries the addresses one after another, and all of this again every 50 ms for as long as `wait` of
    /// the servers says. So does a branch that has a server of its own; any other connects to the address that took P. P goes there, too,
    /// until connections are released.
    fn connect(&mut self, section: Actor) -> Result<TimedStream<'a, R>, Unconnected> {
        let (stream, address) = dial(self.rt, &self.servers, section, self.address).map_err(
            |error| Unconnected { section, error },
        )?;
        if section == Actor::P {
            self.address = Some(address);
        }
        Ok(TimedStream::new(self.rt, stream, self.servers.timeout))
    }

    /// Has the server close them, and waits for that, but not for long.
    fn release(&mut self, connections: Sections<Option<TimedStream<'a, R>>>) {
        self.address = None;
        let Sections { p, a, b } = connections;
        let closing = Closing::ask(Sections {
            p: p.map(TimedStream::into_stream),
            a: a.map(TimedStream::into_stream),
            b: b.map(TimedStream::into_stream),
        });
        closing.wait(self.rt);
    }
}

//! What connects the jobs of a campaign to its server.
use crate::repeating::is_late;
use mc_campaign::Connector;
use mc_connect::{Dialer, Socket};
use mc_lane::Wire;
use mc_protocol::{Actor, Sections};
use std::io;
use std::io::Eprint;
use std::net::{Net, TcpListener, TcpStream};
use std::rt::Clock;
use std::sync::Wait;
use std::time::Instant;

/// The connections that a dialer makes, as streams of the jobs' lanes, for a time if there is one.
#[derive(Drop)]
pub struct JobConnector<'a, R> {
    rt: &'a R,
    dialer: &'a Dialer<'a, R>,
    begun: io::Result<Instant>,
    time: Option<u64>,
}

impl<'a, R: Clock> JobConnector<'a, R> {
    /// What connects jobs that begin within `time` milliseconds from now.
    pub fn new(rt: &'a R, dialer: &'a Dialer<'a, R>, time: Option<u64>) -> Self {
        JobConnector {
            rt,
            dialer,
            begun: Instant::now(rt),
            time,
        }
    }
}

impl<'a, R> Connector<Wire<Socket<TcpStream>>> for JobConnector<'a, R>
where
    R: Net<Listener = TcpListener, Stream = TcpStream> + Clock + Wait + Eprint + Sync,
{
    fn connect(&self, job: u64, section: Actor) -> Option<Wire<Socket<TcpStream>>> {
        let socket = self.dialer.connect(job, section)?;
        Some(Wire::new(socket))
    }

    fn release(&self, streams: Sections<Option<Wire<Socket<TcpStream>>>>) {
        let Sections { p, a, b } = streams;
        self.dialer.release(Sections {
            p: socket_of(p),
            a: socket_of(a),
            b: socket_of(b),
        });
    }

    // The time is over, or too many connects in a row failed.
    fn is_over(&self) -> bool {
        self.time.is_some()
            && (self.dialer.has_given_up() || is_late(self.rt, &self.begun, self.time))
    }
}

// The connection, if there is one.
fn socket_of(wire: Option<Wire<Socket<TcpStream>>>) -> Option<Socket<TcpStream>> {
    Some(wire?.into_inner())
}

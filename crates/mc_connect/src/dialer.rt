//! What connects the jobs of a campaign to their servers.
use crate::call_errors::CallErrors;
use crate::closing::{Closing, close_all};
use crate::dial::{connect, dial};
use crate::failures::Failures;
use crate::pool::Pool;
use crate::servers::Servers;
use crate::socket::Socket;
use mc_protocol::{Actor, Sections};
use std::alloc::Global;
use std::io;
use std::io::Eprint;
use std::net::{Net, SocketAddr, TcpListener, TcpStream};
use std::rt::Clock;
use std::sync::{Mutex, Wait};

/// Connects the sections of all jobs to their servers, from any thread. The name of P's server is looked up until one of its addresses
/// takes a connection; from then on all connections to it go to that one. That of a branch's own server is looked up for each new
/// connection. The connections of a job that has ended serve later ones; or else the server is asked to close them, and does so while
/// another job runs. The dialer knows which jobs had no connection, and why calls failed.
#[derive(Drop)]
pub struct Dialer<'a, R> {
    rt: &'a R,
    servers: Servers<'a>,
    address: Mutex<Option<SocketAddr>>,
    // Whether no connection serves a second job.
    reconnects: bool,
    pool: Pool<'a, R>,
    // The connections of the job that has ended last, if they serve no other.
    closing: Mutex<Option<Closing>>,
    failures: Failures<'a, R>,
    call_errors: CallErrors<'a, R>,
}

impl<'a, R> Dialer<'a, R>
where
    R: Net<Listener = TcpListener, Stream = TcpStream> + Clock + Wait + Eprint,
{
    /// What connects to these servers; with `reconnects` each job has connections of its own. Of each server and reason, the first
    /// connection that isn't made is written to standard error at once, in a line that begins with `lead`.
    pub fn new(
        rt: &'a R,
        alloc: Global,
        servers: Servers<'a>,
        reconnects: bool,
        lead: &'static str,
    ) -> Self {
        Dialer {
            rt,
            servers,
            address: Mutex::new(None),
            reconnects,
            pool: Pool::new(rt, alloc, servers),
            closing: Mutex::new(None),
            failures: Failures::new(rt, alloc, servers, lead),
            call_errors: CallErrors::new(rt, alloc),
        }
    }

    /// Has the servers close the connections that no job has, and waits until they have, but not for long.
    pub fn quit(&self) {
        let last = self.closing.lock(self.rt).take();
        if let Some(last) = last {
            last.wait(self.rt);
        }
        let Sections { p, a, b } = self.pool.take_all();
        close_all(self.rt, p);
        close_all(self.rt, a);
        close_all(self.rt, b);
    }

    /// Whether it connects no more, as 64 connects in a row failed: of all jobs, in the order in which they ended. All tries of a server
    /// for which it waits are one connect.
    pub fn has_given_up(&self) -> bool {
        self.failures.are_too_many()
    }

    /// A connection of a job's section, which an earlier job has left or which is new; or nothing where there is none or it has given
    /// up, which is noted.
    pub fn connect(&self, job: u64, section: Actor) -> Option<Socket<TcpStream>> {
        if self.failures.end_with(job) {
            return None;
        }
        match self.kept_or_new(section) {
            Ok(stream) => {
                self.failures.end_row();
                Some(self.watched(job, section, stream))
            }
            Err(error) => {
                self.failures.add(job, section, error);
                None
            }
        }
    }

    /// Takes back the connections of a job that has ended. They are kept for later jobs; or else the server is asked to close them, and
    /// this waits until it has closed those of the job before.
    pub fn release(&self, connections: Sections<Option<Socket<TcpStream>>>) {
        let Sections { p, a, b } = connections;
        let streams = Sections {
            p: p.map(|it| it.into_connection()),
            a: a.map(|it| it.into_connection()),
            b: b.map(|it| it.into_connection()),
        };
        if self.reconnects {
            self.close(streams);
        } else {
            self.keep(streams);
        }
    }

    // Sections that share a server take turns with its connections: where it hands each to a thread, the branches of later jobs meet at
    // other ones.
    fn keep(&self, streams: Sections<Option<TcpStream>>) {
        let Sections { p, a, b } = streams;
        self.pool.keep(Actor::A, a);
        self.pool.keep(Actor::B, b);
        self.pool.keep(Actor::P, p);
    }

    fn close(&self, streams: Sections<Option<TcpStream>>) {
        let closing = Closing::ask(streams);
        let earlier = self.closing.lock(self.rt).replace(closing);
        if let Some(earlier) = earlier {
            earlier.wait(self.rt);
        }
    }

    fn kept_or_new(&self, section: Actor) -> io::Result<TcpStream> {
        match self.pool.take(section) {
            Some(stream) => Ok(stream),
            None => self.dial(section),
        }
    }

    fn dial(&self, section: Actor) -> io::Result<TcpStream> {
        let (stream, address) = dial(self.rt, &self.servers, section, self.address())?;
        if self.servers.own(section).is_some() {
            return Ok(stream);
        }
        let first = self.first_address(address);
        if first == address {
            Ok(stream)
        } else {
            connect(self.rt, first, self.servers.timeout)
        }
    }

    // The connection of a job's section. If there is no memory, it isn't noted why a call of it failed.
    fn watched(&self, job: u64, section: Actor, stream: TcpStream) -> Socket<TcpStream> {
        Socket::noting(stream, self.call_errors.add(job, section).ok())
    }

    // The address that took the first connection, if one has.
    fn address(&self) -> Option<SocketAddr> {
        *self.address.lock(self.rt)
    }

    // The address that took the first connection: this one, if no other has.
    fn first_address(&self, address: SocketAddr) -> SocketAddr {
        let mut first = self.address.lock(self.rt);
        match *first {
            Some(first) => first,
            None => {
                *first = Some(address);
                address
            }
        }
    }
}

impl<'a, R: Wait + Eprint> Dialer<'a, R> {
    /// Why a call of each section failed, if one did, of a job that has ended. Its connections aren't known any more. The kind is
    /// `WouldBlock` if the call took longer than it may.
    pub fn take_errors(&self, job: u64) -> Sections<Option<io::Error>> {
        self.call_errors.take(job)
    }

    /// Writes to standard error, for each range of jobs in a row that had no connection, which they are, and why; and forgets them.
    pub fn tell_failures(&self) {
        self.failures.tell_ranges();
    }
}

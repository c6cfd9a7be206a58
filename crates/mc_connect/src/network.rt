//! Connections of runs, and what makes them.
ghost use Rattle.std.specs.Prelude.{◌≤◌, IfOk, length};

use mc_protocol::{Actor, Sections};
use std::io;

/// A connection to a server. Any thread may read and write it, one at a time.
pub trait Connection: Send + Drop {
    /// Reads some bytes into the front of `buffer`, and answers how many: 0 where the server has ended the connection.
    ///
    /// # Errors
    ///
    /// Why nothing was read. The kind is `WouldBlock` where it took longer than it may, or where nothing is there and a read doesn't wait.
    fn receive(&self, buffer: &mut [u8]) -> io::Result<usize>
        ensures { IfOk result (λ count. count ≤ length buffer.new) };

    /// Writes some bytes from the front of `bytes`, and answers how many.
    ///
    /// # Errors
    ///
    /// Why nothing was written. The kind is `WouldBlock` where it took longer than it may.
    fn send(&self, bytes: &[u8]) -> io::Result<usize>
        ensures { IfOk result (λ count. count ≤ length bytes.now) };

    /// Whether nothing is there that a read would find, neither a byte nor the end nor an error. Where that can't be told without a read,
    /// it is `false`.
    fn is_quiet(&self) -> bool {
        false
    }

    /// From now on a read waits until something has come, or with `nonblocking` it doesn't.
    ///
    /// # Errors
    ///
    /// Why this can't be had.
    fn set_nonblocking(&self, nonblocking: bool) -> io::Result<()>;
}

/// The first section that got no connection, and why.
#[derive(Debug, Drop)]
pub struct Unconnected {
    pub section: Actor,
    pub error: io::Error,
}

/// What connects the sections of runs to the servers that are tested.
pub trait Network {
    /// What each of them gets.
    type Connection: Connection;

    /// A new connection of the section to its server, and where that is P's, at the address that took P.
    ///
    /// # Errors
    ///
    /// That the section gets none, and why.
    fn connect(&mut self, section: Actor) -> Result<Self::Connection, Unconnected>;

    /// Takes back connections that are done with, as far as they are there, where another run may follow. All of its are new.
    fn release(&mut self, connections: Sections<Option<Self::Connection>>);
}

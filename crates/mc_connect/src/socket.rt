//! Connections that note why a read or a write failed.
use crate::call_errors::CallError;
use crate::network::Connection;
use crate::waiting::Waiting;
use std::alloc::Global;
use std::io;
use std::io::{Read, Write};
use std::sync::Arc;

/// What a lane reads and writes over: a connection, and why its last call that failed did.
#[derive(Drop)]
pub struct Socket<C> {
    connection: C,
    error: Option<io::Error>,
    // Where it is noted too, for who doesn't get the socket back.
    noted: Option<Arc<CallError, Global>>,
}

impl<C: Connection> Socket<C> {
    /// A connection of which no call has failed.
    pub fn new(connection: C) -> Self {
        Socket::noting(connection, None)
    }

    /// The same, which notes in `noted` too, if it is there, why a call failed.
    pub(crate) fn noting(connection: C, noted: Option<Arc<CallError, Global>>) -> Self {
        Socket {
            connection,
            error: None,
            noted,
        }
    }

    /// Why a call failed, if one did. The kind is `WouldBlock` if it took longer than it may.
    pub fn error(&self) -> Option<io::Error> {
        self.error
    }

    /// The connection.
    pub fn connection(&self) -> &C {
        &self.connection
    }

    /// Whether no call has failed, the server holds the connection open, and nothing has come.
    pub fn is_idle(&self, alloc: Global) -> bool {
        self.error.is_none() && Waiting::on(alloc, &self.connection).is_idle()
    }
}

impl<C> Socket<C> {
    /// The connection, which is taken out.
    pub fn into_connection(self) -> C {
        let Socket { connection, .. } = self;
        connection
    }

    // Notes why this call failed, if it did.
    fn note(&mut self, called: &io::Result<usize>) {
        if let Err(error) = called {
            self.error = Some(*error);
            if let Some(noted) = &self.noted {
                noted.note(error);
            }
        }
    }
}

impl<C: Connection> Read for Socket<C> {
    fn read(&mut self, buffer: &mut [u8]) -> io::Result<usize> {
        let called = self.connection.receive(buffer);
        self.note(&called);
        called
    }
}

impl<C: Connection> Write for Socket<C> {
    fn write(&mut self, bytes: &[u8]) -> io::Result<usize> {
        let called = self.connection.send(bytes);
        self.note(&called);
        called
    }

    fn flush(&mut self) -> io::Result<()> {
        Ok(())
    }
}

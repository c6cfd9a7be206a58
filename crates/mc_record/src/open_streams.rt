//! The connections that are open, so that they can be closed when the time is over.
use std::alloc::{AllocError, Global};
use std::net::{Shutdown, TcpStream};

/// The two ends of a connection that is handed on.
#[derive(Drop)]
pub(crate) struct Ends {
    pub(crate) client: TcpStream,
    pub(crate) server: TcpStream,
}

impl Ends {
    fn shut(&self) {
        // one that is closed already can't be shut
        let _ = self.client.shutdown(Shutdown::Both);
        let _ = self.server.shutdown(Shutdown::Both);
    }
}

/// The connections that are open, each at the place of its number.
#[derive(Drop)]
pub(crate) struct OpenStreams {
    places: Vec<Option<Ends>>,
    // How many threads serve connections.
    threads: u64,
    is_over: bool,
}

impl OpenStreams {
    /// None, and room for `count`.
    pub(crate) fn new(alloc: Global, count: usize) -> Result<Self, AllocError> {
        let mut places = Vec::with_capacity(alloc, count)?;
        for _ in 0..count {
            places.push(None)?;
        }
        Ok(OpenStreams {
            places,
            threads: 0,
            is_over: false,
        })
    }

    /// A thread serves one more connection.
    pub(crate) fn begin(&mut self) {
        self.threads = self.threads.saturating_add(1);
    }

    /// A thread is done with its connection.
    pub(crate) fn end(&mut self) {
        self.threads = self.threads.saturating_sub(1);
    }

    /// Whether no thread serves one.
    pub(crate) fn are_none(&self) -> bool {
        self.threads == 0
    }

    /// The connection with this number is open. If the time is over, it is closed at once.
    pub(crate) fn put(&mut self, number: u8, ends: Ends) {
        if self.is_over {
            ends.shut();
        }
        if let Some(place) = self.places.get_mut(usize::from(number)) {
            *place = Some(ends);
        }
    }

    /// The connection with this number has ended.
    pub(crate) fn remove(&mut self, number: u8) {
        if let Some(place) = self.places.get_mut(usize::from(number)) {
            *place = None;
        }
    }

    /// The time is over: all connections are closed.
    pub(crate) fn shut_all(&mut self) {
        self.is_over = true;
        for ends in self.places.iter().flatten() {
            ends.shut();
        }
    }
}

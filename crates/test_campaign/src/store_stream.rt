//! Connections to a store in memory.

use mc_lane::MemoryStream;
use mc_server::{Served, Shared, Why, serve};
use std::alloc::{AllocError, Global};
use std::io::{self, ErrorKind, Read, Write};
use std::sync::Wait;

/// The most bytes of the answer to a request.
const ANSWER_LIMIT: usize = 4_096;

/// A connection to a store. Each write is one request, and it is answered at once.
#[derive(Drop)]
pub(crate) struct StoreStream<'s, R: Wait> {
    rt: &'s R,
    alloc: Global,
    store: &'s Shared,
    /// Whether each request is answered with a line that reports an error.
    refuses: bool,
    answers: Vec<u8>,
    given: usize,
}

impl<'s, R: Wait> StoreStream<'s, R> {
    pub(crate) fn new(rt: &'s R, alloc: Global, store: &'s Shared, refuses: bool) -> Self {
        StoreStream {
            rt,
            alloc,
            store,
            refuses,
            answers: Vec::new(alloc),
            given: 0,
        }
    }

    fn answer(&mut self, request: &[u8]) -> Result<(), AllocError> {
        if self.refuses {
            return self.answers.extend_from_slice(b"ERROR\r\n");
        }
        let mut client = MemoryStream::new(self.alloc, &[request], ANSWER_LIMIT)?;
        let Served { why, .. } = serve(self.rt, self.alloc, &mut client, self.store);
        if why == Why::Memory {
            return Err(AllocError);
        }
        self.answers.extend_from_slice(client.written_bytes())
    }
}

impl<R: Wait> Read for StoreStream<'_, R> {
    fn read(&mut self, buffer: &mut [u8]) -> io::Result<usize> {
        let left = self.answers.get(self.given..).unwrap_or(&[]);
        let count = left.len().min(buffer.len());
        buffer[..count].copy_from_slice(&left[..count]);
        self.given = self.given.saturating_add(count);
        Ok(count)
    }
}

impl<R: Wait> Write for StoreStream<'_, R> {
    fn write(&mut self, request: &[u8]) -> io::Result<usize> {
        match self.answer(request) {
            Ok(()) => Ok(request.len()),
            Err(_) => Err(io::Error::from(ErrorKind::OutOfMemory)),
        }
    }

    fn flush(&mut self) -> io::Result<()> {
        Ok(())
    }
}

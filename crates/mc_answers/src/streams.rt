//! The streams that the program reads and writes.
//!
//! std's `Read` and `Write` say which bytes are left and held where that is known, and not whether a stream ever failed.
//! These two traits say both, so that a contract can name what was written where nothing failed.
ghost use Rattle.std.specs.Prelude.{◌≡◌, false, is_some};
ghost use Rattle.mc_answers.specs.Streams.{Reads, Writes};

use std::io;
use std::io::{Read, Write};
use thiserror::Error;

/// A stream failed.
#[derive(Clone, Copy, Debug, PartialEq, Eq, Error)]
#[error("input or output failed")]
pub struct Broken;

/// What gives bytes.
pub trait Source {
    ghost use Rattle.std.specs.Prelude.{ℕ, Bool, Option, List};

    // The bytes that are left, where they are known.
    ghost left: { Self → Option (List ℕ) };

    // Whether a read has failed.
    ghost has_failed: { Self → Bool };

    /// Reads some bytes into the front of the piece, and answers how many: 0 only at the end, or where the piece has
    /// no room.
    fn read(&mut self, piece: &mut [u8]) -> Result<usize, Broken>
        ensures { Reads (left self.old) (left self.new) (has_failed self.old) (has_failed self.new) piece.new result };
}

/// What takes bytes.
pub trait Sink {
    ghost use Rattle.std.specs.Prelude.{ℕ, Bool, Option, List};

    // The bytes that were written, where they are known.
    ghost written: { Self → Option (List ℕ) };

    // Whether a write has failed.
    ghost has_failed: { Self → Bool };

    /// Writes all the bytes.
    fn write_all(&mut self, bytes: &[u8]) -> Result<(), Broken>
        ensures { Writes (written self.old) (written self.new) (has_failed self.old) (has_failed self.new) bytes.now result };
}

/// A source over a reader of std. A read that was interrupted is one that failed.
#[derive(Drop)]
pub struct Reader<R> {
    inner: R,
    read_error: Option<io::Error>,
}

impl<R: Read> Reader<R> {
    /// A source that has not failed.
    pub fn new(inner: R) -> Self
        ensures left { ⟦<Reader<R> as Source>⟧.left result ≡ R.remaining inner }
        ensures whole { ⟦<Reader<R> as Source>⟧.has_failed result ≡ false }
    {
        Reader {
            inner,
            read_error: None,
        }
    }
}

impl<R> Reader<R> {
    /// Why the last read that failed did so.
    pub fn error(&self) -> Option<&io::Error>
        ensures { is_some result ≡ is_some self.now.read_error }
    {
        self.read_error.as_ref()
    }
}

impl<R: Read> Source for Reader<R> {
    ghost left = { λ r. R.remaining r.inner };

    ghost has_failed = { λ r. is_some r.read_error };

    fn read(&mut self, piece: &mut [u8]) -> Result<usize, Broken> {
        match self.inner.read(piece) {
            Ok(count) => Ok(count),
            Err(error) => {
                self.read_error = Some(error);
                Err(Broken)
            }
        }
    }
}

/// A sink over a writer of std.
#[derive(Drop)]
pub struct Writer<W> {
    inner: W,
    write_error: Option<io::Error>,
}

impl<W: Write> Writer<W> {
    /// A sink that has not failed.
    pub fn new(inner: W) -> Self
        ensures written { ⟦<Writer<W> as Sink>⟧.written result ≡ W.contents inner }
        ensures whole { ⟦<Writer<W> as Sink>⟧.has_failed result ≡ false }
    {
        Writer {
            inner,
            write_error: None,
        }
    }
}

impl<W> Writer<W> {
    /// Why the last write that failed did so.
    pub fn error(&self) -> Option<&io::Error>
        ensures { is_some result ≡ is_some self.now.write_error }
    {
        self.write_error.as_ref()
    }
}

impl<W: Write> Sink for Writer<W> {
    ghost written = { λ w. W.contents w.inner };

    ghost has_failed = { λ w. is_some w.write_error };

    fn write_all(&mut self, bytes: &[u8]) -> Result<(), Broken> {
        match self.inner.write_all(bytes) {
            Ok(()) => Ok(()),
            Err(error) => {
                self.write_error = Some(error);
                Err(Broken)
            }
        }
    }
}

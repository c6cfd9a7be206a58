//! Streams in memory, for tests of what stands on streams.

ghost use Rattle.std.specs.Prelude.{◌≡◌, ◌-◌, ◌<◌, ◌≤◌, nat_lt, Some, IfSome, find, map, IfOk};
ghost use Rattle.mc_lane.specs.MemoryStreams as memory;
ghost use Rattle.mc_lane.specs.Streams.{CanFail, Reads, Writes};

use crate::stream::finds_end;
use crate::{Broken, Counts, Stream};
use mc_protocol::OutOfMemory;
use std::alloc::Global;
use std::marker::Model;

/// A stream in memory. It gives the bytes that it was made with, keeps those that are written, and tells both.
///
/// It stands for a server in tests: a read gives bytes of one piece alone, and each piece is cut further where a read has
/// less room. Writes may be cut too, and one call may fail. It takes its memory when it is made; no call needs more.
///
/// ```text
/// let stream = MemoryStream::new(alloc, &[b"NOT_FOUND\r\n", b"STORED\r\n"], 64)?;
/// let cut = MemoryStream::new(alloc, &[b"STO", b"RED\r\n"], 64)?.with_longest_write(3).with_failure_at(2);
/// ```
#[derive(Debug)]
pub struct MemoryStream {
    replies: Vec<u8>,
    ends: Vec<usize>,
    given: usize,
    written: Vec<u8>,
    room: usize,
    longest_write: usize,
    until_failure: Option<u64>,
    counts: Counts,
    at_end: bool,
}

// One call drops its parts. A derived `Drop` would write them out at each end of each function that holds one.
impl Drop for MemoryStream {
    fn drop(self) {
        let MemoryStream {
            replies: _,
            ends: _,
            given: _,
            written: _,
            room: _,
            longest_write: _,
            until_failure: _,
            counts: _,
            at_end: _,
        } = self;
    }
}

impl Model for MemoryStream {
    ghost use Rattle.std.specs.Prelude.{◌≤◌, length};
    ghost use Rattle.std.specs.Vec.{vec_len, vec_capacity};
    ghost use Rattle.mc_lane.specs.MemoryStreams.{Memory};

    ghost Value = { Memory };

    ghost view = { λ s. record {
      replies = s.replies.items;
      ends = s.ends.items;
      given = s.given;
      written = s.written.items;
      room = s.room;
      longest_write = s.longest_write;
      until_failure = s.until_failure;
      counts = s.counts;
      at_end = s.at_end;
    } };

    ghost invariant = { λ s. (s.given ≤ length s.replies.items) × (vec_len s.written ≤ s.room) × (s.room ≤ vec_capacity s.written) };
}

impl MemoryStream {
    /// A stream that gives these pieces and then ends, and that has room for `room` written bytes.
    pub fn new(alloc: Global, pieces: &[&[u8]], room: usize) -> Result<Self, OutOfMemory>
        ensures { IfOk result (λ stream. stream ≡ memory.fresh (map (λ piece. piece.now) pieces.now) room) }
    {
        let (replies, ends) = join(alloc, pieces)?;
        Ok(MemoryStream {
            replies,
            ends,
            given: 0,
            written: Vec::with_capacity(alloc, room)?,
            room,
            longest_write: room,
            until_failure: None,
            counts: Counts::none(),
            at_end: false,
        })
    }

    /// The same stream, of which a write takes at most `longest` bytes. Where that is 0, each write of some bytes fails.
    pub fn with_longest_write(mut self, longest: usize) -> Self
        ensures { result ≡ record self { longest_write = longest } }
    {
        self.longest_write = longest;
        self
    }

    /// The same stream, of which the call with this number fails. Reads and writes from now on are counted together, from 1;
    /// the calls after that one don't fail for it.
    pub fn with_failure_at(mut self, call: u64) -> Self
        requires { 0 < call }
        ensures { result ≡ record self { until_failure = Some (call - 1) } }
    {
        self.until_failure = Some(call - 1);
        self
    }

    /// What was written.
    pub fn written_bytes(&self) -> &[u8]
        ensures { result.now ≡ self.now.written }
    {
        self.written.as_slice()
    }
}

impl Stream for MemoryStream {
    ghost use Rattle.mc_lane.specs.MemoryStreams.{state_of};

    ghost state = { state_of };

    fn read(&mut self, buffer: &mut [u8]) -> Result<usize, Broken>
        requires { CanFail (memory.state_of self.old) }
        ensures reads { Reads (memory.state_of self.old) (memory.state_of self.new) buffer.new result }
        ensures exact { memory.ReadsMemory self.old self.new buffer.new result }
    {
        if is_due(&mut self.until_failure) {
            self.counts.failed_reads += 1;
            self.at_end = false;
            return Err(Broken);
        }
        let end = piece_end(self.ends.as_slice(), self.given, self.replies.len());
        let count = buffer.len().min(end - self.given);
        buffer[..count].copy_from_slice(&self.replies[self.given..self.given + count]);
        self.given += count;
        self.counts = self.counts.after_read(buffer.len(), count);
        self.at_end = finds_end(buffer.len(), count);
        Ok(count)
    }

    fn write(&mut self, bytes: &[u8]) -> Result<usize, Broken>
        requires { CanFail (memory.state_of self.old) }
        ensures writes { Writes (memory.state_of self.old) (memory.state_of self.new) bytes.now result }
        ensures exact { memory.WritesMemory self.old self.new bytes.now result }
    {
        let room = self.room - self.written.len();
        let count = bytes.len().min(self.longest_write).min(room);
        if is_due(&mut self.until_failure) || (count == 0 && !bytes.is_empty()) {
            self.counts.failed_writes += 1;
            return Err(Broken);
        }
        // the room is there
        let Ok(()) = self.written.extend_from_slice(&bytes[..count]) else {
            unreachable!()
        };
        Ok(count)
    }
}

/// The pieces' bytes, and where each piece ends among them.
fn join(alloc: Global, pieces: &[&[u8]]) -> Result<(Vec<u8>, Vec<usize>), OutOfMemory>
    ensures { IfOk result (λ joined. memory.IsJoined (map (λ piece. piece.now) pieces.now) joined.0.items joined.1.items) }
{
    let mut bytes = Vec::new(alloc);
    let mut ends = Vec::new(alloc);
    for piece in pieces {
        bytes.extend_from_slice(piece)?;
        ends.push(bytes.len())?;
    }
    Ok((bytes, ends))
}

/// Whether the call that is made now is the one to fail. It is counted.
fn is_due(until_failure: &mut Option<u64>) -> bool
    ensures due { result ≡ memory.is_due until_failure.old }
    ensures counted { until_failure.new ≡ memory.count_down until_failure.old }
{
    match *until_failure {
        None => false,
        Some(0) => {
            *until_failure = None;
            true
        }
        Some(calls) => {
            *until_failure = Some(calls - 1);
            false
        }
    }
}

/// Where the piece ends that comes next: the first end after `given`, or `len`, and `len` at most.
fn piece_end(ends: &[usize], given: usize, len: usize) -> usize
    requires { given ≤ len }
    ensures end { result ≡ memory.end_after given ends.now len }
    ensures after { given ≤ result }
    ensures within { result ≤ len }
{
    next_end(ends, given).unwrap_or(len).min(len)
}

/// The first end after `given`.
fn next_end(ends: &[usize], given: usize) -> Option<usize>
    ensures end { result ≡ find (λ end. nat_lt given end) ends.now }
    ensures after { IfSome result (λ end. given < end) }
{
    ends.iter().copied().find(|end| given < *end)
}

//! A lane: one connection, with at most one request outstanding.

ghost use Rattle.std.specs.Prelude.{◌≡◌, ◌≤◌, None, Some, [], length, option_map};
ghost use Rattle.mc_lane.specs.Lanes as spec;
ghost use Rattle.mc_lane.specs.Streams.{CanFail};

use crate::Stream;
use crate::traffic::Traffic;
use mc_protocol::{Fault, OutOfMemory, Reply};
use mc_reader::Shape;
use std::alloc::Global;
use std::marker::Model;

/// A connection to a server that carries one request after another, each with its reply, and that records what went over it.
///
/// It is closed for good by the first fault, and by [`close`](Lane::close). Contracts see its record: what was sent and
/// received, how much of this was replies that it answered, the most bytes that it may receive, the fault that closed it, and
/// what its stream tells.
#[derive(Debug)]
pub struct Lane<S: Stream> {
    stream: Option<S>,
    traffic: Traffic,
    fault: Option<Fault>,
}

// One call drops its parts. A derived `Drop` would write them out at each end of each function that holds one.
impl<S: Stream> Drop for Lane<S> {
    fn drop(self) {
        let Lane {
            stream: _,
            traffic: _,
            fault: _,
        } = self;
    }
}

impl<S: Stream> Model for Lane<S> {
    ghost use Rattle.std.specs.Option.{option_map};
    ghost use Rattle.mc_lane.specs.Lanes.{LaneRecord, IsLane};

    ghost Value = { LaneRecord };

    ghost use Rattle.mc_lane.specs.Traffic.{lane_with};

    ghost view = { λ l. lane_with l.traffic l.fault (option_map S.state l.stream) };

    ghost invariant = { λ l. IsLane (lane_with l.traffic l.fault (option_map S.state l.stream)) };
}

impl<S: Stream> Lane<S> {
    /// A lane over `stream` that may receive `max_bytes`, unbuffered. One more failure of the stream, and one more end, can be counted.
    pub fn new(alloc: Global, stream: S, max_bytes: u32) -> Self
        requires { CanFail (S.state stream) }
        ensures { result ≡ record { sent = []; got = []; taken = 0; limit = max_bytes; fault = None; stream = Some (S.state stream) } }
    {
        Lane {
            stream: Some(stream),
            traffic: Traffic {
                sent: Vec::new(alloc),
                got: Vec::new(alloc),
                taken: 0,
                limit: max_bytes as usize,
            },
            fault: None,
        }
    }

    /// Writes a request of this shape, and answers the reply to it. What was received after the reply stays for the next
    /// call.
    ///
    /// The first fault closes the lane for good; from then on, and after [`close`](Lane::close), a call answers
    /// [`Fault::Closed`] and does nothing. No call of the stream is tried again. The faults that close it:
    ///
    /// - [`Fault::WriteFailed`]: a write failed, before all of the request was written;
    /// - [`Fault::ReadFailed`]: a read failed;
    /// - [`Fault::Ended`]: a read found the end of the stream;
    /// - [`Fault::TooMuch`]: as many bytes as the lane may receive were received;
    /// - [`Fault::BadReply`]: what was received begins with no reply that the request may have;
    /// - [`Fault::ErrorLine`]: it begins with a line that reports an error;
    /// - [`Fault::Memory`]: there was no memory.
    ///
    /// After the second to the fourth the reply isn't whole. What was written and received is recorded after each.
    pub fn call(&mut self, request: &[u8], shape: Shape<'_>) -> Result<Reply, Fault>
        ensures { spec.Calls shape.entry.verb shape.entry.key.now request.now self.old self.new result }
    {
        let Lane {
            stream,
            traffic,
            fault,
        } = self;
        if fault.is_some() {
            return Err(Fault::Closed);
        }
        let Some(stream) = stream else {
            return Err(Fault::Closed);
        };
        match traffic.exchange(stream, request, shape) {
            Ok(reply) => Ok(reply),
            Err(reason) => {
                *fault = Some(reason);
                Err(reason)
            }
        }
    }

    /// Makes room in the record for a request of this length, so that a call with it takes no memory before it has written.
    ///
    /// # Errors
    ///
    /// That memory ran out.
    pub fn reserve(&mut self, count: usize) -> Result<(), OutOfMemory>
        ensures { self.new ≡ self.old }
    {
        self.traffic.sent.reserve(count)?;
        Ok(())
    }

    /// What was sent.
    pub fn sent(&self) -> &[u8]
        ensures { result.now ≡ self.now.sent }
    {
        self.traffic.sent.as_slice()
    }

    /// What was received.
    pub fn got(&self) -> &[u8]
        ensures got { result.now ≡ self.now.got }
        ensures within { length result.now ≤ self.now.limit }
    {
        self.traffic.got.as_slice()
    }

    /// How many of the received bytes were the replies that were answered.
    pub fn taken(&self) -> usize
        ensures taken { result ≡ self.now.taken }
        ensures within { result ≤ length self.now.got }
    {
        self.traffic.taken
    }

    /// The fault that closed the lane.
    pub fn fault(&self) -> Option<Fault>
        ensures { result ≡ self.now.fault }
    {
        self.fault
    }

    /// Whether a fault or [`close`](Lane::close) has closed the lane.
    pub fn is_closed(&self) -> bool
        ensures { result ≡ spec.is_closed self.now }
    {
        self.stream.is_none() || self.fault.is_some()
    }

    /// Keeps the record, and hands out the stream, where the lane still has it. This is no fault.
    pub fn close(&mut self) -> Option<S>
        ensures record { self.new ≡ record self.old { stream = None } }
        ensures stream { option_map S.state result ≡ self.old.stream }
    {
        self.stream.take()
    }
}

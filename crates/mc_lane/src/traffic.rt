//! What went over a lane.

ghost use Rattle.std.specs.Prelude.{◌≡◌, ◌≤◌, Some, None, vec_len};
ghost use Rattle.std.specs.Result.{result_err};
ghost use Rattle.mc_lane.specs.{Lanes.Exchanges, Streams.CanFail};

use crate::Stream;
use crate::receiving::receive;
use crate::sending::send;
use mc_protocol::{Fault, Reply};
use mc_reader::Shape;

/// What went over a lane so far.
#[derive(Debug, Drop)]
pub(crate) struct Traffic {
    /// What was sent.
    pub(crate) sent: Vec<u8>,
    /// What was received.
    pub(crate) got: Vec<u8>,
    /// How many of the received bytes were the replies that were answered.
    pub(crate) taken: usize,
    /// How many bytes may be received.
    pub(crate) limit: usize,
}

impl Traffic {
    ghost use Rattle.mc_lane.specs.Traffic.{lane_with};

    /// Sends a request and receives the reply to it.
    pub(crate) fn exchange<S: Stream>(
        &mut self,
        stream: &mut S,
        request: &[u8],
        shape: Shape<'_>,
    ) -> Result<Reply, Fault>
        requires taken { self.old.taken ≤ vec_len self.old.got }
        requires within { vec_len self.old.got ≤ self.old.limit }
        requires can_fail { CanFail (S.state stream.old) }
        ensures { Exchanges shape.entry.verb shape.entry.key.now request.now
            (lane_with self.old None (Some (S.state stream.old))) (lane_with self.new (result_err result) (Some (S.state stream.new)))
            (S.state stream.old) result }
    {
        if let Err(fault) = send(stream, &mut self.sent, request) {
            return Err(fault);
        }
        match receive(stream, &mut self.got, self.taken, self.limit, shape) {
            Ok((reply, end)) => {
                self.taken = end;
                Ok(reply)
            }
            Err(fault) => Err(fault),
        }
    }
}

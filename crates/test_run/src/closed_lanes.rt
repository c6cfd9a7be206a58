//! Lanes that are closed: nothing is sent over them.

use mc_lane::{Lane, MemoryStream};
use mc_protocol::{Fault, Verb};
use mc_reader::Shape;
use mc_run::Lanes;

/// Whether no lane that is closed sends anything in one more call.
pub(crate) fn send_nothing_when_closed(lanes: Lanes<MemoryStream>) -> bool {
    let Lanes {
        mut p,
        mut a,
        mut b,
    } = lanes;
    !sends_when_closed(&mut p) && !sends_when_closed(&mut a) && !sends_when_closed(&mut b)
}

/// Whether a lane that is closed sends anything in one more call.
fn sends_when_closed(lane: &mut Lane<MemoryStream>) -> bool {
    if !lane.is_closed() {
        return false;
    }
    let before = lane.sent().len();
    let shape = Shape {
        verb: Verb::Incr,
        key: b"a",
    };
    lane.call(b"incr a 1\r\n", shape) != Err(Fault::Closed) || lane.sent().len() != before
}

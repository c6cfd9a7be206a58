//! Lanes that carried requests on the key `a`, over streams in memory.

use mc_lane::{Lane, MemoryStream};
use mc_protocol::Verb::*;
use mc_protocol::{Fault, OutOfMemory, Verb};
use mc_reader::Shape;
use std::alloc::{AllocError, Global};

/// Requests on the key `a`.
pub(crate) type Requests = &'static [(Verb, &'static [u8])];

/// What a lane receives, how many bytes it may write, and the requests that it carries.
pub(crate) type Carried = (&'static [u8], usize, Requests);

/// The requests of P, and of a branch.
pub(crate) const OF_P: Requests = &[(Delete, b"delete a\r\n"), (Set, b"set a 0 0 1\r\n5\r\n")];

pub(crate) const ONCE: Requests = &[(Incr, b"incr a 1\r\n")];

/// A lane that carries nothing; that of P, which is done; and that of a branch to which nothing comes, 6, or 7.
pub(crate) const NOTHING: Carried = (b"", 0, &[]);

pub(crate) const P_DONE: Carried = (b"NOT_FOUND\r\nSTORED\r\n", 64, OF_P);

pub(crate) const SILENT: Carried = (b"", 64, ONCE);

pub(crate) const SIX: Carried = (b"6\r\n", 64, ONCE);

pub(crate) const SEVEN: Carried = (b"7\r\n", 64, ONCE);

/// The lane after it has carried the requests.
pub(crate) fn lane_after(
    alloc: Global,
    carried: Carried,
) -> Result<Lane<MemoryStream>, OutOfMemory> {
    let (got, room, requests) = carried;
    let stream = MemoryStream::new(alloc, &[got], room)?;
    let mut lane = Lane::new(alloc, stream, 1_000);
    'carrying: for (verb, text) in requests {
        let shape = Shape {
            verb: *verb,
            key: b"a",
        };
        // other faults are what the tests want
        if lane.call(text, shape) == Err(Fault::Memory) {
            return Err(AllocError);
        }
    }
    Ok(lane)
}

//! Conversations over streams in memory, with what is written and why they end.
ghost use Rattle.std.specs.Prelude.{◌<◌};

use mc_lane::MemoryStream;
use mc_server::{Caller, Served, serve};
use std::alloc::{AllocError, Global};
use std::sync::Wait;

/// What a stream may be written at most.
const ROOM: usize = 4_096;

/// What is written where a client sends these pieces, and what comes of the connection. Where `failing` is given, the call of the
/// stream with this number fails; reads and writes are counted together, from 1.
pub(crate) fn conversation<R: Wait, C: Caller>(
    rt: &R,
    alloc: Global,
    caller: &C,
    pieces: &[&[u8]],
    failing: Option<u64>,
) -> Result<(Vec<u8>, Served), AllocError> {
    let mut stream = MemoryStream::new(alloc, pieces, ROOM)?;
    if let Some(call) = failing {
        if 0 < call {
            stream = stream.with_failure_at(call);
        }
    }
    let served = serve(rt, alloc, &mut stream, caller);
    Ok((Vec::from_slice(alloc, stream.written_bytes())?, served))
}

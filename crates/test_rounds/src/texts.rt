//! The texts of the requests of rounds.

use crate::memory::again;
use mc_protocol::{Bytes, OutOfMemory, Reply, Request, Verb, render_request};
use mc_rounds::{Client, Plan, keys_of, openings};
use std::alloc::Global;

/// Appends the requests that begin a round.
pub(crate) fn write_openings(
    alloc: Global,
    plan: &Plan,
    round: u64,
    out: &mut Vec<u8>,
) -> Result<(), OutOfMemory> {
    let keys = again(|| keys_of(alloc, plan.keys, None))?;
    let requests = again(|| openings(alloc, plan, round, &keys))?;
    write_all(&requests, out)
}

fn write_all(requests: &[Request], out: &mut Vec<u8>) -> Result<(), OutOfMemory> {
    for request in requests {
        render_request(request, out)?;
    }
    Ok(())
}

/// Appends what a client asks in a round.
pub(crate) fn write_requests(
    alloc: Global,
    plan: &Plan,
    round: u64,
    client: u8,
    out: &mut Vec<u8>,
) -> Result<(), OutOfMemory> {
    let keys = again(|| keys_of(alloc, plan.keys, None))?;
    let mut asking = again(|| Client::new(alloc, plan, round, client))?;
    for place in 0..plan.requests {
        write_next(alloc, &mut asking, &keys, place, out)?;
    }
    Ok(())
}

// Appends the request with this place, and has the client hear the reply.
fn write_next(
    alloc: Global,
    asking: &mut Client,
    keys: &[Bytes],
    place: u16,
    out: &mut Vec<u8>,
) -> Result<(), OutOfMemory> {
    let Some(request) = again(|| asking.next(alloc, keys))? else {
        return Ok(());
    };
    render_request(&request, out)?;
    asking.hear(&reply_to(alloc, request.verb, place));
    Ok(())
}

// A `gets` finds an item with a number 100 above its place, but none at each third place.
fn reply_to(alloc: Global, verb: Verb, place: u16) -> Reply {
    if verb != Verb::Gets {
        return Reply::Stored;
    }
    if place % 3 == 2 {
        return Reply::Miss;
    }
    Reply::Hit {
        flags: 0,
        body: Bytes::new(Vec::new(alloc)),
        cas: Some(100 + u64::from(place)),
    }
}

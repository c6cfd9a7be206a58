//! Requests and replies that are written as the lines of a history have them.
use mc_protocol::{Reply, Request, Separator, words_in};
use mc_server::{Caller, StoreFault};
use mc_words::{WordsFault, read_reply_words, read_request_words};
use std::alloc::Global;
use std::sync::Wait;
use std::test::Fail;

pub(crate) fn request_in(alloc: Global, line: &str) -> Result<Request, WordsFault> {
    let words = words_in(alloc, Separator::Space, line.as_bytes())?;
    read_request_words(alloc, words.as_slice())
}

/// Whether this is the reply that the line has.
pub(crate) fn is_reply(alloc: Global, reply: &Reply, line: &str) -> Result<bool, WordsFault> {
    Ok(*reply == reply_in(alloc, line)?)
}

pub(crate) fn reply_in(alloc: Global, line: &str) -> Result<Reply, WordsFault> {
    let words = words_in(alloc, Separator::Space, line.as_bytes())?;
    read_reply_words(alloc, words.as_slice())
}

/// Whether a caller is answered so.
pub(crate) fn answers<R: Wait + AllocGlobal, C: Caller>(
    rt: &R,
    caller: &C,
    line: &str,
    reply: &str,
) -> Result<bool, Fail> {
    let request = request_in(rt.alloc(), line)?;
    let answer = call(rt, caller, &request)?;
    Ok(is_reply(rt.alloc(), &answer, reply)?)
}

/// What a caller is answered. A call that is refused for want of memory is made once more: a refused one changes nothing.
pub(crate) fn call<R: Wait, C: Caller>(
    rt: &R,
    caller: &C,
    request: &Request,
) -> Result<Reply, StoreFault> {
    match caller.call(rt, request) {
        Err(StoreFault::OutOfMemory) => caller.call(rt, request),
        answer => answer,
    }
}

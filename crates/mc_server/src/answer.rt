//! What is written for what a client asks.
ghost use Rattle.std.specs.Prelude.{◌≡◌, []};
ghost use Rattle.mc_lane.specs.Streams.{CanFail};
ghost use Rattle.mc_reader.specs.{AskLines.bare, Asks.ask_of, Asks.Many};
ghost use Rattle.mc_server.specs.Answers as text;
ghost use Rattle.mc_server.specs.Answering as spec;

use crate::blocks::{append_block, append_reply};
use crate::outbox::make_room;
use crate::{Caller, StoreFault, Why};
use mc_lane::Stream;
use mc_protocol::{Bytes, Reply, Request, Verb};
use mc_reader::{Ask, Refuse};
use std::sync::Wait;

/// The line that is written where no number is left.
const USED_UP_LINE: &str = "SERVER_ERROR out of numbers\r\n";

/// Answers what a client asks: the answer is held back after what is held back before, and some of both may be written.
///
/// # Errors
///
/// [`Why::Memory`] where memory ran out, and [`Why::WriteFailed`] where a write failed. Of the answer stands what a retrieval shows
/// of its first keys then, or nothing.
pub(crate) fn answer<R: Wait, S: Stream, C: Caller>(
    rt: &R,
    caller: &C,
    ask: Ask,
    stream: &mut S,
    held: &mut Vec<u8>,
) -> Result<(), Why>
    requires { CanFail (S.state stream.old) }
    ensures { spec.PutsAnswer (ask_of ask) held.old.items held.new.items (S.state stream.old) (S.state stream.new) result }
{
    match ask {
        Ask::One { request, noreply } => reply_to(rt, caller, &request, noreply, stream, held),
        Ask::Many { with_cas, keys } => show_all(rt, caller, with_cas, keys, stream, held),
        Ask::Quit => Ok(()),
        Ask::Refused(refuse) => put(refusal_line(refuse).as_bytes(), stream, held),
    }
}

/// Answers one request.
fn reply_to<R: Wait, S: Stream, C: Caller>(
    rt: &R,
    caller: &C,
    request: &Request,
    noreply: bool,
    stream: &mut S,
    held: &mut Vec<u8>,
) -> Result<(), Why>
    requires { CanFail (S.state stream.old) }
    ensures { spec.PutsWhole (text.MayReply request.now noreply) held.old.items held.new.items
        (S.state stream.old) (S.state stream.new) result }
{
    let reply = match caller.call(rt, request) {
        Ok(reply) => reply,
        Err(StoreFault::OutOfMemory) => return Err(Why::Memory),
        Err(StoreFault::NumbersUsedUp) => return put(USED_UP_LINE.as_bytes(), stream, held),
    };
    if noreply {
        return Ok(());
    }
    make_room(stream, held, body_len(&reply))?;
    append_reply(request.key.as_slice(), &reply, held)?;
    Ok(())
}

/// How many bytes the body has that a reply shows.
fn body_len(reply: &Reply) -> usize {
    match reply {
        Reply::Hit { body, .. } => body.as_slice().len(),
        _ => 0,
    }
}

/// Answers a retrieval of several keys: what is found at each, and a line that ends it.
fn show_all<R: Wait, S: Stream, C: Caller>(
    rt: &R,
    caller: &C,
    with_cas: bool,
    keys: Vec<Bytes>,
    stream: &mut S,
    held: &mut Vec<u8>,
) -> Result<(), Why>
    requires { CanFail (S.state stream.old) }
    ensures { spec.PutsAnswer (Many with_cas keys.items) held.old.items held.new.items (S.state stream.old) (S.state stream.new) result }
{
    'keys: for key in keys {
        if let Err(why) = show(rt, caller, with_cas, key, stream, held) {
            return Err(why);
        }
    }
    put(b"END\r\n", stream, held)
}

/// Shows what is found at a key.
fn show<R: Wait, S: Stream, C: Caller>(
    rt: &R,
    caller: &C,
    with_cas: bool,
    key: Bytes,
    stream: &mut S,
    held: &mut Vec<u8>,
) -> Result<(), Why>
    requires { CanFail (S.state stream.old) }
    ensures { spec.PutsWhole (text.MayShow with_cas key) held.old.items held.new.items (S.state stream.old) (S.state stream.new) result }
{
    let request = retrieval(with_cas, key, Vec::new(*held.allocator()));
    let reply = match caller.call(rt, &request) {
        Ok(reply) => reply,
        Err(StoreFault::OutOfMemory) => return Err(Why::Memory),
        // a retrieval makes no version
        Err(StoreFault::NumbersUsedUp) => unreachable!(),
    };
    let Reply::Hit { flags, body, cas } = reply else {
        return Ok(());
    };
    make_room(stream, held, body.as_slice().len())?;
    append_block(request.key.as_slice(), flags, body.as_slice(), cas, held)?;
    Ok(())
}

/// Appends a line to what is held back.
fn put<S: Stream>(line: &[u8], stream: &mut S, held: &mut Vec<u8>) -> Result<(), Why>
    requires { CanFail (S.state stream.old) }
    ensures { spec.PutsWhole (spec.Is line.now) held.old.items held.new.items (S.state stream.old) (S.state stream.new) result }
{
    make_room(stream, held, line.len())?;
    held.extend_from_slice(line)?;
    Ok(())
}

/// The request for one key of a retrieval.
fn retrieval(with_cas: bool, key: Bytes, no_body: Vec<u8>) -> Request
    requires { no_body.items ≡ [] }
    ensures { result ≡ bare (text.retrieval_verb with_cas) key 0 }
{
    Request {
        verb: if with_cas { Verb::Gets } else { Verb::Get },
        key,
        flags: 0,
        body: Bytes::new(no_body),
        number: 0,
    }
}

/// The line that is written where a request is refused.
fn refusal_line(refuse: Refuse) -> &'static str
    ensures { result.now ≡ text.refusal_line refuse }
{
    match refuse {
        Refuse::Unknown => "ERROR\r\n",
        Refuse::BadLine => "CLIENT_ERROR bad command line format\r\n",
        Refuse::Expiry => "SERVER_ERROR expiry not supported\r\n",
        Refuse::TooLarge => "SERVER_ERROR object too large for cache\r\n",
        Refuse::BadChunk => "CLIENT_ERROR bad data chunk\r\n",
        Refuse::LongLine => "CLIENT_ERROR line too long\r\n",
    }
}

//! What stands at the front of received bytes.
ghost use Rattle.std.specs.Prelude.{◌≡◌, ◌↔◌, ◌≤◌, true, length, drop, IfOk};
ghost use Rattle.std.specs.Option.{option_map};
ghost use Rattle.mc_recorded.specs.Fronts as spec;
ghost use Rattle.mc_recorded.specs.Recorded.{waiting_of};

use mc_model::Sent;
use mc_protocol::{OutOfMemory, Reply, Request};
use mc_reader::{Fed, ReadFault, ReplyReader, Shape};
use std::alloc::{AllocError, Global};

/// What bytes begin with where a reply is due.
#[derive(Drop)]
pub(crate) enum Front {
    /// The whole reply, which takes the first `used` bytes.
    Whole { reply: Reply, used: usize },
    /// No reply that the request may have.
    Malformed,
    /// A line that reports an error.
    ErrorLine,
    /// A reply that isn't whole yet, or nothing.
    Unfinished,
}

/// What the bytes begin with, as the reply to the request.
pub(crate) fn read_front(
    alloc: Global,
    request: &Request,
    bytes: &[u8],
) -> Result<Front, OutOfMemory>
    ensures { IfOk result (spec.BeginsWith request.now.verb request.now.key bytes.now) }
{
    let shape = Shape {
        verb: request.verb,
        key: request.key.as_slice(),
    };
    match ReplyReader::new(alloc, shape).feed(bytes) {
        Ok(Fed::Done { reply, used }) => Ok(Front::Whole { reply, used }),
        Ok(Fed::More) => Ok(Front::Unfinished),
        Err(ReadFault::OutOfMemory) => Err(AllocError),
        Err(ReadFault::ErrorLine(_)) => Ok(Front::ErrorLine),
        Err(_) => Ok(Front::Malformed),
    }
}

/// What the bytes begin with, as the reply to the request that waits, if one waits.
pub(crate) fn read_waiting(
    alloc: Global,
    requests: &[Sent],
    bytes: &[u8],
) -> Result<Option<Front>, OutOfMemory>
    ensures { IfOk result (spec.BeginsForWaiting requests.now bytes.now) }
{
    match find_waiting(requests) {
        Some(sent) => Ok(Some(read_front(alloc, &sent.request, bytes)?)),
        None => Ok(None),
    }
}

/// The request that has no reply yet.
fn find_waiting(requests: &[Sent]) -> Option<&Sent>
    ensures { option_map (λ sent. sent.now) result ≡ waiting_of requests.now }
{
    requests.iter().find(|sent| sent.reply.is_none())
}

/// How many bytes the replies to the requests take, if they stand one after the other at the front of what was received.
pub(crate) fn count_replies(
    alloc: Global,
    requests: &[Sent],
    got: &[u8],
) -> Result<Option<usize>, OutOfMemory>
    ensures { IfOk result (spec.CountsReplies requests.now got.now) }
{
    let mut taken = 0;
    'replies: for sent in requests {
        match count_reply(alloc, sent, bytes_after(got, taken))? {
            Some(count) => taken += count,
            None => return Ok(None),
        }
    }
    Ok(Some(taken))
}

/// How many bytes the reply to the request takes, if it stands at the front; none are taken where there is no reply.
fn count_reply(alloc: Global, sent: &Sent, got: &[u8]) -> Result<Option<usize>, OutOfMemory>
    ensures { IfOk result (spec.CountsReply sent.now.request sent.now.reply got.now) }
{
    let Some(reply) = &sent.reply else {
        return Ok(Some(0));
    };
    match read_front(alloc, &sent.request, got)? {
        Front::Whole { reply: found, used } => {
            if is_same_reply(&found, reply) {
                Ok(Some(used))
            } else {
                Ok(None)
            }
        }
        Front::Malformed | Front::ErrorLine | Front::Unfinished => Ok(None),
    }
}

/// Whether the replies are the same.
fn is_same_reply(found: &Reply, reply: &Reply) -> bool
    ensures { (result ≡ true) ↔ (found.now ≡ reply.now) }
{
    *found == *reply
}

/// The bytes after the first ones.
pub(crate) fn bytes_after(bytes: &[u8], count: usize) -> &[u8]
    requires { count ≤ length bytes.now }
    ensures { result.now ≡ drop count bytes.now }
{
    &bytes[count..]
}

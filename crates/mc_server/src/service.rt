//! How a client is served over one connection.
ghost use Rattle.std.specs.Prelude.{◌≡◌, ◌<◌, [], IfOk, vec_len};
ghost use Rattle.mc_lane.specs.Streams.{CanFail};
ghost use Rattle.mc_reader.specs.AskReading.{InLine};
ghost use Rattle.mc_server.specs.Serving.{ServesStream};

use crate::conversation::Conversation;
use crate::{Caller, RECEIVED_LIMIT, Served, Why};
use mc_lane::Stream;
use mc_protocol::OutOfMemory;
use std::alloc::Global;
use std::sync::Wait;

/// How many bytes are read at once by a connection that waits for its client.
const LEAST_PIECE: usize = 4_096;

/// How many bytes are read at once after a read that found as many as it could take.
const MOST_PIECE: usize = 65_536;

/// Reads requests from the stream until it ends, and writes the answers of the caller to them, in their order. All answers to the
/// requests that came at once are written at once, unless they are long.
///
/// It returns where each call of the stream and of the caller does. It never writes again after a write failed, and never reads again
/// after a read failed or found the end.
pub fn serve<R: Wait, S: Stream, C: Caller>(
    rt: &R,
    alloc: Global,
    stream: &mut S,
    caller: &C,
) -> Served
    requires { CanFail (S.state stream.old) }
    ensures { ServesStream (S.state stream.old) (S.state stream.new) result }
{
    let mut conversation = Conversation::new(alloc);
    let why = converse(rt, alloc, stream, caller, &mut conversation);
    Served {
        requests: conversation.requests(),
        why,
    }
}

/// Reads pieces and answers them, until nothing more is read.
fn converse<R: Wait, S: Stream, C: Caller>(
    rt: &R,
    alloc: Global,
    stream: &mut S,
    caller: &C,
    conversation: &mut Conversation,
) -> Why
    requires can_fail { CanFail (S.state stream.old) }
    requires reader { conversation.old.reader ≡ InLine [] }
    requires held { conversation.old.held.items ≡ [] }
    requires requests { conversation.old.requests ≡ 0 }
    ensures { ServesStream (S.state stream.old) (S.state stream.new) (record { requests = conversation.new.requests; why = result }) }
{
    let Ok(mut piece) = room_for(alloc, LEAST_PIECE) else {
        return conversation.finish(stream, Why::Memory);
    };
    let mut received = 0;
    'pieces: while received < RECEIVED_LIMIT {
        piece.truncate(RECEIVED_LIMIT - received);
        let Ok(count) = stream.read(piece.as_mut_slice()) else {
            return Why::ReadFailed;
        };
        if count == 0 {
            return Why::Ended;
        }
        received += count;
        if let Err(why) = conversation.answer_piece(
            rt,
            caller,
            &piece.as_slice()[..count],
            stream,
        ) {
            return why;
        }
        fit(alloc, &mut piece, count);
    }
    Why::TooMuch
}

/// Room for as many bytes.
fn room_for(alloc: Global, count: usize) -> Result<Vec<u8>, OutOfMemory>
    ensures { IfOk result (λ room. vec_len room ≡ count) }
{
    let mut room = Vec::new(alloc);
    room.resize(count, 0)?;
    Ok(room)
}

/// Makes room for the next piece: the most where the last one filled its room, since more is there already, and else the least, since
/// the next read may wait long. Where there is no memory for it the room stays as it is.
fn fit(alloc: Global, piece: &mut Vec<u8>, count: usize)
    requires { 0 < vec_len piece.old }
    ensures { 0 < vec_len piece.new }
{
    let len = if count == piece.len() {
        MOST_PIECE
    } else {
        LEAST_PIECE
    };
    if len == piece.len() {
        return;
    }
    if let Ok(room) = room_for(alloc, len) {
        *piece = room;
    }
}

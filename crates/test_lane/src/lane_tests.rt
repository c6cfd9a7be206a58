//! What a lane answers and records over streams that are cut, fail or end, and when it closes.

use crate::memory::again;
use mc_lane::{Lane, MemoryStream};
use mc_protocol::{Class, Fault, OutOfMemory, Verb};
use mc_reader::Shape;
use std::alloc::{AllocError, Global};
use std::test::Fail;

static DELETE: &[u8] = b"delete a\r\n";

// One call of a lane: the class of the reply to the request for the key a. Want of memory is an error here: no test expects it.
fn call(
    lane: &mut Lane<MemoryStream>,
    request: &[u8],
    verb: Verb,
) -> Result<Result<Class, Fault>, OutOfMemory> {
    match lane.call(request, Shape { verb, key: b"a" }) {
        Ok(reply) => Ok(Ok(reply.class())),
        Err(Fault::Memory) => close_without_memory(lane),
        Err(fault) => Ok(Err(fault)),
    }
}

// Want of memory, after which the lane is closed. Where it sends something all the same that is no error, and no row wants the fault.
fn close_without_memory(
    lane: &mut Lane<MemoryStream>,
) -> Result<Result<Class, Fault>, OutOfMemory> {
    let sent = lane.sent().len();
    let shape = Shape {
        verb: Verb::Delete,
        key: b"a",
    };
    if lane.call(DELETE, shape) == Err(Fault::Closed) && lane.sent().len() == sent {
        return Err(AllocError);
    }
    Ok(Err(Fault::Memory))
}

fn delete(lane: &mut Lane<MemoryStream>) -> Result<Result<Class, Fault>, OutOfMemory> {
    call(lane, DELETE, Verb::Delete)
}

// What a lane records.
#[derive(Clone, Copy)]
struct Shown {
    sent: &'static [u8],
    got: &'static [u8],
    taken: usize,
    fault: Option<Fault>,
}

fn shows(lane: &Lane<MemoryStream>, shown: &Shown) -> bool {
    lane.sent() == shown.sent
        && lane.got() == shown.got
        && lane.taken() == shown.taken
        && lane.fault() == shown.fault
}

// A lane over a stream in memory, what two calls on it answer, and what it shows after them.
#[derive(Clone, Copy)]
struct Row {
    pieces: &'static [&'static [u8]],
    longest_write: usize,
    failing_call: u64,
    max_bytes: u32,
    answers: [Result<Class, Fault>; 2],
    shown: Shown,
}

// A call of the stream that is never made.
const NEVER: u64 = 100;

static ROWS: &[Row] = &[
    // The write after the first three bytes fails. The stream would take and give bytes after it.
    Row {
        pieces: &[b"DELETED\r\n"],
        longest_write: 3,
        failing_call: 2,
        max_bytes: 64,
        answers: [Err(Fault::WriteFailed), Err(Fault::Closed)],
        shown: Shown {
            sent: b"del",
            got: b"",
            taken: 0,
            fault: Some(Fault::WriteFailed),
        },
    },
    Row {
        pieces: &[b"DELETED\r\n"],
        longest_write: 64,
        failing_call: NEVER,
        max_bytes: 5,
        answers: [Err(Fault::TooMuch), Err(Fault::Closed)],
        shown: Shown {
            sent: b"delete a\r\n",
            got: b"DELET",
            taken: 0,
            fault: Some(Fault::TooMuch),
        },
    },
    // The second reply comes with the first one, so the second call reads nothing: its read would fail.
    Row {
        pieces: &[b"DELETED\r\nNOT_FOUND\r\n"],
        longest_write: 64,
        failing_call: 4,
        max_bytes: 64,
        answers: [Ok(Class::Deleted), Ok(Class::NotFound)],
        shown: Shown {
            sent: b"delete a\r\ndelete a\r\n",
            got: b"DELETED\r\nNOT_FOUND\r\n",
            taken: 20,
            fault: None,
        },
    },
    // One reply for two requests
    Row {
        pieces: &[b"DELETED\r\n"],
        longest_write: 64,
        failing_call: NEVER,
        max_bytes: 9,
        answers: [Ok(Class::Deleted), Err(Fault::TooMuch)],
        shown: Shown {
            sent: b"delete a\r\ndelete a\r\n",
            got: b"DELETED\r\n",
            taken: 9,
            fault: Some(Fault::TooMuch),
        },
    },
    Row {
        pieces: &[b"DELETED\r\n"],
        longest_write: 64,
        failing_call: NEVER,
        max_bytes: 10,
        answers: [Ok(Class::Deleted), Err(Fault::Ended)],
        shown: Shown {
            sent: b"delete a\r\ndelete a\r\n",
            got: b"DELETED\r\n",
            taken: 9,
            fault: Some(Fault::Ended),
        },
    },
    // A write that takes no byte
    Row {
        pieces: &[b"DELETED\r\n"],
        longest_write: 0,
        failing_call: NEVER,
        max_bytes: 64,
        answers: [Err(Fault::WriteFailed), Err(Fault::Closed)],
        shown: Shown {
            sent: b"",
            got: b"",
            taken: 0,
            fault: Some(Fault::WriteFailed),
        },
    },
];

// Whether the lane of the row answers so and shows this then. Calls of a stream are counted from 1.
fn is_met(alloc: Global, row: &Row) -> Result<bool, OutOfMemory> {
    if row.failing_call == 0 {
        return Ok(false);
    }
    let stream = match MemoryStream::new(alloc, row.pieces, 64) {
        Err(AllocError) => MemoryStream::new(alloc, row.pieces, 64)?,
        Ok(stream) => stream,
    };
    let stream = stream
        .with_longest_write(row.longest_write)
        .with_failure_at(row.failing_call);
    let mut lane = Lane::new(alloc, stream, row.max_bytes);
    is_met_by(&mut lane, row)
}

fn is_met_by(lane: &mut Lane<MemoryStream>, row: &Row) -> Result<bool, OutOfMemory> {
    let is_new = !lane.is_closed();
    let answers = [delete(lane)?, delete(lane)?];
    Ok(
        is_new
            && answers == row.answers
            && shows(lane, &row.shown)
            && lane.is_closed() == row.shown.fault.is_some(),
    )
}

#[test]
fn answers_and_records(rt: HostRuntime) -> Result<(), Fail> {
    for (index, row) in ROWS.iter().enumerate() {
        assert!(rt; is_met(rt.alloc(), row)?, "row {index}");
    }
    Ok(())
}

// Which call of the stream fails, the fault that closes the lane, and what it has sent and received then. A write takes 4
// bytes, and the reply comes in two pieces, so the exchange makes 3 writes and 2 reads.
static FAILURES: &[(u64, Fault, &[u8], &[u8])] = &[
    (1, Fault::WriteFailed, b"", b""),
    (2, Fault::WriteFailed, b"dele", b""),
    (3, Fault::WriteFailed, b"delete a", b""),
    (4, Fault::ReadFailed, b"delete a\r\n", b""),
    (5, Fault::ReadFailed, b"delete a\r\n", b"DEL"),
];

// The row of a stream whose call fails.
fn row_of(failing_call: u64, fault: Fault, sent: &'static [u8], got: &'static [u8]) -> Row {
    Row {
        pieces: &[b"DEL", b"ETED\r\n"],
        longest_write: 4,
        failing_call,
        max_bytes: 64,
        answers: [Err(fault), Err(Fault::Closed)],
        shown: Shown {
            sent,
            got,
            taken: 0,
            fault: Some(fault),
        },
    }
}

#[test]
fn closes_at_each_call_that_fails(rt: HostRuntime) -> Result<(), Fail> {
    for (failing_call, fault, sent, got) in FAILURES {
        assert!(rt;
            is_met(rt.alloc(), &row_of(*failing_call, *fault, sent, got))?,
            "{failing_call}"
        );
    }
    Ok(())
}

// A lane over a stream that gives these pieces.
fn lane(
    alloc: Global,
    pieces: &[&[u8]],
    max_bytes: u32,
) -> Result<Lane<MemoryStream>, OutOfMemory> {
    Ok(Lane::new(alloc, MemoryStream::new(alloc, pieces, 64)?, max_bytes))
}

// Whether a lane that is closed between two calls is closed then, answers so, and shows what it did before.
fn keeps_its_record(lane: &mut Lane<MemoryStream>) -> Result<bool, OutOfMemory> {
    let first = delete(lane)?;
    lane.close();
    let is_closed = lane.is_closed();
    let second = delete(lane)?;
    let shown = Shown {
        sent: DELETE,
        got: b"DELETED\r\n",
        taken: 9,
        fault: None,
    };
    Ok(
        is_closed
            && (first, second) == (Ok(Class::Deleted), Err(Fault::Closed))
            && shows(lane, &shown),
    )
}

#[test]
fn keeps_its_record_when_closed(rt: HostRuntime) -> Result<(), Fail> {
    let mut lane = lane(rt.alloc(), &[b"DELETED\r\n", b"DELETED\r\n"], 64)?;
    assert!(rt; keeps_its_record(&mut lane)?);
    Ok(())
}

// Room that is made, and how many bytes were sent and answered before; then a call is made.
static ROOMS: [(usize, usize, usize); 3] = [(0, 0, 0), (10, 10, 9), (100_000, 20, 18)];

fn stays_as_it_is(
    lane: &mut Lane<MemoryStream>,
    room: (usize, usize, usize),
) -> Result<bool, OutOfMemory> {
    let (count, sent, taken) = room;
    again(|| lane.reserve(count))?;
    let is_as_it_was = lane.sent().len() == sent && lane.taken() == taken;
    Ok(delete(lane)? == Ok(Class::Deleted) && is_as_it_was)
}

// The first room at which the lane changes, or answers something else.
fn first_other(lane: &mut Lane<MemoryStream>) -> Result<Option<usize>, OutOfMemory> {
    for room in ROOMS {
        if !stays_as_it_is(lane, room)? {
            return Ok(Some(room.0));
        }
    }
    Ok(None)
}

#[test]
fn makes_room_and_stays_as_it_is(rt: HostRuntime) -> Result<(), Fail> {
    let mut lane = lane(rt.alloc(), &[b"DELETED\r\nDELETED\r\nDELETED\r\n"], 64)?;
    assert_eq!(rt; first_other(&mut lane)?, None);
    Ok(())
}

// The data of the longest reply.
const BODY_BYTES: usize = 65_536;

fn longest_reply(alloc: Global) -> Result<Vec<u8>, OutOfMemory> {
    let data = vec![in alloc; b'x'; BODY_BYTES]?;
    [
        b"VALUE a 0 65536\r\n".as_slice(),
        data.as_slice(),
        b"\r\nEND\r\n",
    ]
    .concat(alloc)
}

// How many bytes a lane may receive, and what the last of four calls answers there. Each reply has its data, a line of 17 bytes
// before it and 7 bytes after it, so four replies have 262,240 bytes.
static LIMITS: &[(u32, Result<Class, Fault>)] = &[
    (262_144, Err(Fault::TooMuch)),
    (262_239, Err(Fault::TooMuch)),
    (262_240, Ok(Class::Hit)),
];

// Whether the lane has received `max_bytes`, has taken the replies that are whole among them, and was closed by `last` where that is
// a fault.
fn has_received(lane: &Lane<MemoryStream>, max_bytes: u32, last: Result<Class, Fault>) -> bool {
    let whole = if last.is_ok() { 262_240 } else { 196_680 };
    lane.got().len() == max_bytes as usize && lane.taken() == whole && lane.fault() == last.err()
}

fn get(lane: &mut Lane<MemoryStream>) -> Result<Result<Class, Fault>, OutOfMemory> {
    call(lane, b"get a\r\n", Verb::Get)
}

fn get_four(lane: &mut Lane<MemoryStream>) -> Result<[Result<Class, Fault>; 4], OutOfMemory> {
    Ok([get(lane)?, get(lane)?, get(lane)?, get(lane)?])
}

// Whether a lane that may receive `max_bytes` answers the first three of four such replies with a hit, and the fourth with `last`.
fn receives_up_to(
    alloc: Global,
    reply: &[u8],
    max_bytes: u32,
    last: Result<Class, Fault>,
) -> Result<bool, OutOfMemory> {
    let mut lane = lane(alloc, &[reply; 4], max_bytes)?;
    let hit = Ok(Class::Hit);
    Ok(get_four(&mut lane)? == [hit, hit, hit, last] && has_received(&lane, max_bytes, last))
}

// The first limit of those above that isn't kept.
fn first_limit_not_kept(alloc: Global) -> Result<Option<u32>, OutOfMemory> {
    let reply = longest_reply(alloc)?;
    for (max_bytes, last) in LIMITS {
        if !receives_up_to(alloc, reply.as_slice(), *max_bytes, *last)? {
            return Ok(Some(*max_bytes));
        }
    }
    Ok(None)
}

#[test]
fn receives_four_of_the_longest_replies(rt: HostRuntime) -> Result<(), Fail> {
    assert_eq!(rt; first_limit_not_kept(rt.alloc())?, None);
    Ok(())
}

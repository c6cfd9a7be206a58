//! What a lane answers to the bytes that it receives, whole and cut.

use mc_lane::{Lane, MemoryStream};
use mc_protocol::{Fault, OutOfMemory, Reply, Verb, render_reply};
use mc_reader::Shape;
use std::alloc::{AllocError, Global};
use std::test::Fail;

// A verb, and a reply that a request of it for the key a may have.
static REPLIES: &[(Verb, &[u8])] = &[
    (Verb::Set, b"STORED\r\n"),
    (Verb::Add, b"NOT_STORED\r\n"),
    (Verb::Cas, b"EXISTS\r\n"),
    (Verb::Cas, b"NOT_FOUND\r\n"),
    (Verb::Delete, b"DELETED\r\n"),
    (Verb::Touch, b"TOUCHED\r\n"),
    (Verb::Incr, b"18446744073709551615\r\n"),
    (
        Verb::Decr,
        b"CLIENT_ERROR cannot increment or decrement non-numeric value\r\n",
    ),
    (Verb::Get, b"END\r\n"),
    (Verb::Get, b"VALUE a 7 2\r\n\r\n\r\nEND\r\n"),
    (Verb::Gets, b"VALUE a 0 1 11\r\n1\r\nEND\r\n"),
];

fn shape(verb: Verb) -> Shape<'static> {
    Shape { verb, key: b"a" }
}

// Whether the reply has this text.
fn is_rendered(alloc: Global, reply: &Reply, text: &[u8]) -> Result<bool, OutOfMemory> {
    let mut out = Vec::new(alloc);
    render_reply(b"a", reply, &mut out)?;
    Ok(out.as_slice() == text)
}

// Whether the lane answers a reply with this text, or this fault. Want of memory is an error here: no test expects it.
fn answers(
    alloc: Global,
    lane: &mut Lane<MemoryStream>,
    verb: Verb,
    wanted: Result<&[u8], Fault>,
) -> Result<bool, OutOfMemory> {
    match (lane.call(b"request", shape(verb)), wanted) {
        (Ok(reply), Ok(text)) => is_rendered(alloc, &reply, text),
        (Err(Fault::Memory), _) => Err(AllocError),
        (Err(fault), Err(expected)) => Ok(fault == expected),
        _ => Ok(false),
    }
}

// Whether the lane has received these bytes, of which a reply was answered, or it has this fault.
fn has_received(lane: &Lane<MemoryStream>, got: &[u8], wanted: Result<&[u8], Fault>) -> bool {
    let taken = if wanted.is_ok() { got.len() } else { 0 };
    lane.got() == got && lane.taken() == taken && lane.fault() == wanted.err()
}

// Whether a lane over these pieces, which are those of `got`, answers a reply with this text, or this fault.
fn is_answered(
    alloc: Global,
    verb: Verb,
    pieces: &[&[u8]],
    got: &[u8],
    wanted: Result<&[u8], Fault>,
) -> Result<bool, OutOfMemory> {
    let stream = MemoryStream::new(alloc, pieces, 8)?.with_longest_write(1);
    let mut lane = Lane::new(alloc, stream, 1_000);
    Ok(answers(alloc, &mut lane, verb, wanted)? && has_received(&lane, got, wanted))
}

// The first number of the reply's bytes at which it is answered otherwise than it should be: all of them, or fewer.
fn first_odd(alloc: Global, verb: Verb, reply: &[u8]) -> Result<Option<usize>, OutOfMemory> {
    for len in 0..=reply.len() {
        let front = &reply[..len];
        let wanted = if len < reply.len() {
            Err(Fault::Ended)
        } else {
            Ok(reply)
        };
        if !is_answered(alloc, verb, &[front], front, wanted)? {
            return Ok(Some(len));
        }
    }
    Ok(None)
}

#[test]
fn answers_whole_replies_alone(rt: HostRuntime) -> Result<(), Fail> {
    for (verb, reply) in REPLIES {
        assert_eq!(rt; first_odd(rt.alloc(), *verb, reply)?, None, "{verb:?}");
    }
    Ok(())
}

// The bytes of a text, each for itself.
fn cut(alloc: Global, text: &[u8]) -> Result<Vec<&[u8]>, OutOfMemory> {
    let mut bytes = Vec::new(alloc);
    for at in 0..text.len() {
        bytes.push(&text[at..at + 1])?;
    }
    Ok(bytes)
}

fn is_joined(alloc: Global, verb: Verb, reply: &[u8]) -> Result<bool, OutOfMemory> {
    let bytes = cut(alloc, reply)?;
    is_answered(alloc, verb, bytes.as_slice(), reply, Ok(reply))
}

#[test]
fn joins_what_is_cut(rt: HostRuntime) -> Result<(), Fail> {
    for (verb, reply) in REPLIES {
        assert!(rt; is_joined(rt.alloc(), *verb, reply)?, "{verb:?}");
    }
    Ok(())
}

// A verb, what was received, and the fault that closes the lane.
static FAULTS: &[(Verb, &[u8], Fault)] = &[
    (Verb::Delete, b"STORED\r\n", Fault::BadReply),
    (Verb::Delete, b"DELETED\n", Fault::BadReply),
    (Verb::Get, b"VALUE b 0 1\r\n1\r\nEND\r\n", Fault::BadReply),
    (Verb::Get, b"VALUE a 0 1\r\n12", Fault::BadReply),
    (Verb::Get, b"ERROR\r\n", Fault::ErrorLine),
    (
        Verb::Set,
        b"CLIENT_ERROR bad data chunk\r\n",
        Fault::ErrorLine,
    ),
    (
        Verb::Incr,
        b"SERVER_ERROR out of memory storing object\r\n",
        Fault::ErrorLine,
    ),
];

#[test]
fn closes_at_what_is_no_reply(rt: HostRuntime) -> Result<(), Fail> {
    for (verb, received, fault) in FAULTS {
        assert!(rt;
            is_answered(rt.alloc(), *verb, &[received], received, Err(*fault))?,
            "{verb:?}"
        );
    }
    Ok(())
}

//! The texts of requests and replies as `protocol.txt` has them, with the time of expiry 0, and what appends them.
use crate::memory::again;
use crate::values::{bytes, request};
use mc_protocol::{
    OutOfMemory, Reply, Request, Verb, append_all, render_reply, render_request, render_value,
    request_len,
};
use std::alloc::Global;
use std::test::Fail;

// Whether the pieces are appended to what was there before.
fn appends(
    alloc: Global,
    before: &[u8],
    pieces: &[&[u8]],
    expected: &[u8],
) -> Result<bool, OutOfMemory> {
    let mut out = Vec::from_slice(alloc, before)?;
    again(|| append_all(&mut out, pieces))?;
    Ok(out.as_slice() == expected)
}

#[test]
fn appends_pieces(rt: HostRuntime) -> Result<(), Fail> {
    assert!(rt; appends(rt.alloc(), b"a", &[b"bc", b"", b"\xff"], b"abc\xff")?);
    Ok(())
}

// A request with the key `a`, its body and number, and its text.
static REQUESTS: &[(Verb, &str, u64, &str)] = &[
    (Verb::Set, "5", 0, "set a 0 0 1\r\n5\r\n"),
    (Verb::Add, "", 0, "add a 0 0 0\r\n\r\n"),
    (Verb::Replace, "5", 0, "replace a 0 0 1\r\n5\r\n"),
    (Verb::Append, "5", 0, "append a 0 0 1\r\n5\r\n"),
    (Verb::Prepend, "5", 0, "prepend a 0 0 1\r\n5\r\n"),
    (Verb::Cas, "2", 11, "cas a 0 0 1 11\r\n2\r\n"),
    (Verb::Get, "", 0, "get a\r\n"),
    (Verb::Gets, "", 0, "gets a\r\n"),
    (Verb::Incr, "", 10, "incr a 10\r\n"),
    (Verb::Decr, "", u64::MAX, "decr a 18446744073709551615\r\n"),
    (Verb::Delete, "", 0, "delete a\r\n"),
    (Verb::Touch, "", 0, "touch a 0\r\n"),
];

fn renders_request(alloc: Global, request: &Request, text: &str) -> Result<bool, OutOfMemory> {
    let mut out = Vec::new(alloc);
    again(|| render_request(request, &mut out))?;
    Ok(out.as_slice() == text.as_bytes())
}

fn has_length(request: &Request, length: usize) -> bool {
    request.key.as_slice().len() <= 250 && request_len(request) == length
}

// Whether the text is rendered, and its length is known; with a key of 250 bytes it is longer by 249.
fn has_text(
    alloc: Global,
    verb: Verb,
    body: &str,
    number: u64,
    text: &str,
) -> Result<bool, OutOfMemory> {
    let short = request(alloc, verb, b"a", body.as_bytes(), number)?;
    let long = request(alloc, verb, &LONG_KEY, body.as_bytes(), number)?;
    Ok(
        renders_request(alloc, &short, text)?
            && has_length(&short, text.len())
            && has_length(&long, text.len() + 249),
    )
}

static LONG_KEY: [u8; 250] = [b'k'; 250];

#[test]
fn renders_requests(rt: HostRuntime) -> Result<(), Fail> {
    for (verb, body, number, text) in REQUESTS {
        assert!(rt; has_text(rt.alloc(), *verb, body, *number, text)?, "{text}");
    }
    Ok(())
}

// A reply that is no hit, and its text.
const REPLIES: [(Reply, &str); 9] = [
    (Reply::Stored, "STORED\r\n"),
    (Reply::NotStored, "NOT_STORED\r\n"),
    (Reply::Exists, "EXISTS\r\n"),
    (Reply::NotFound, "NOT_FOUND\r\n"),
    (Reply::Miss, "END\r\n"),
    (Reply::Deleted, "DELETED\r\n"),
    (Reply::Touched, "TOUCHED\r\n"),
    (Reply::Number(u64::MAX), "18446744073709551615\r\n"),
    (
        Reply::NotNumber,
        "CLIENT_ERROR cannot increment or decrement non-numeric value\r\n",
    ),
];

fn renders_reply(alloc: Global, reply: &Reply, text: &str) -> Result<bool, OutOfMemory> {
    let mut out = Vec::new(alloc);
    again(|| render_reply(b"a", reply, &mut out))?;
    Ok(out.as_slice() == text.as_bytes())
}

#[test]
fn renders_replies(rt: HostRuntime) -> Result<(), Fail> {
    for (reply, text) in REPLIES {
        assert!(rt; renders_reply(rt.alloc(), &reply, text)?, "{text}");
    }
    Ok(())
}

// The flags, body and cas number of a hit, and its text.
static HITS: &[(u32, &str, Option<u64>, &str)] = &[
    (0, "1", Some(11), "VALUE a 0 1 11\r\n1\r\nEND\r\n"),
    (7, "\r\n", None, "VALUE a 7 2\r\n\r\n\r\nEND\r\n"),
];

fn hit(alloc: Global, flags: u32, body: &str, cas: Option<u64>) -> Result<Reply, OutOfMemory> {
    let body = bytes(alloc, body.as_bytes())?;
    Ok(Reply::Hit { flags, body, cas })
}

#[test]
fn renders_hits(rt: HostRuntime) -> Result<(), Fail> {
    for (flags, body, cas, text) in HITS {
        let reply = hit(rt.alloc(), *flags, body, *cas)?;
        assert!(rt; renders_reply(rt.alloc(), &reply, text)?, "{text}");
    }
    Ok(())
}

fn renders_value(
    alloc: Global,
    body: &[u8],
    cas: Option<u64>,
    text: &[u8],
) -> Result<bool, OutOfMemory> {
    let mut out = Vec::new(alloc);
    again(|| render_value(b"a", 0, body, cas, &mut out))?;
    Ok(out.as_slice() == text)
}

#[test]
fn renders_values(rt: HostRuntime) -> Result<(), Fail> {
    assert!(rt; renders_value(rt.alloc(), b"1", Some(11), b"VALUE a 0 1 11\r\n1\r\n")?);
    Ok(())
}

//! The words of requests and replies, as they are read and as they are printed.
use crate::lines::{reply_in, request_in};
use crate::memory::again;
use mc_model::is_key;
use mc_protocol::{Class, Reply, Request, Verb};
use mc_words::{
    WordsFault, WordsKind, print_reply_words, print_request_words, read_body, read_number,
};
use std::alloc::Global;
use std::test::Fail;

/// A request's line, and its parts after the key `k-1`: flags, body and number.
static REQUESTS: &[(&str, Verb, u32, &[u8], u64)] = &[
    ("set k-1 0 =5", Verb::Set, 0, b"5", 0),
    ("add k-1 7 =a%20b", Verb::Add, 7, b"a b", 0),
    ("replace k-1 4294967295 =", Verb::Replace, u32::MAX, b"", 0),
    ("append k-1 10 =%25%0d%0a", Verb::Append, 10, b"%\r\n", 0),
    ("prepend k-1 0 =!~", Verb::Prepend, 0, b"!~", 0),
    ("cas k-1 1 =x 20", Verb::Cas, 1, b"x", 20),
    ("get k-1", Verb::Get, 0, b"", 0),
    ("gets k-1", Verb::Gets, 0, b"", 0),
    (
        "incr k-1 18446744073709551615",
        Verb::Incr,
        0,
        b"",
        u64::MAX,
    ),
    ("decr k-1 0", Verb::Decr, 0, b"", 0),
    ("delete k-1", Verb::Delete, 0, b"", 0),
    ("touch k-1", Verb::Touch, 0, b"", 0),
];

/// Whether the line is read as these parts, and printed of them again.
fn is_request_of(
    alloc: Global,
    line: &str,
    verb: Verb,
    flags: u32,
    body: &[u8],
    number: u64,
) -> Result<bool, WordsFault> {
    let request = request_in(alloc, line)?;
    Ok(has_parts(&request, verb, flags, body, number) && prints_request(alloc, &request, line)?)
}

fn has_parts(request: &Request, verb: Verb, flags: u32, body: &[u8], number: u64) -> bool {
    request.verb == verb
        && request.key.as_slice() == b"k-1".as_slice()
        && request.flags == flags
        && request.body.as_slice() == body
        && request.number == number
}

/// Whether the line was appended to the two bytes that were there.
fn is_appended(out: &[u8], line: &str) -> bool {
    out.strip_prefix(b"> ") == Some(line.as_bytes())
}

fn prints_request(alloc: Global, request: &Request, line: &str) -> Result<bool, WordsFault> {
    let mut out = Vec::from_slice(alloc, b"> ")?;
    again(|| print_request_words(request, &mut out))?;
    Ok(is_appended(out.as_slice(), line))
}

#[test]
fn reads_and_prints_each_verb(rt: HostRuntime) -> Result<(), Fail> {
    for (line, verb, flags, body, number) in REQUESTS {
        assert!(rt;
            is_request_of(rt.alloc(), line, *verb, *flags, body, *number)?,
            "{line}"
        );
    }
    Ok(())
}

/// A reply's line and its class. For most classes there is one reply.
static REPLIES: &[(&str, Class)] = &[
    ("STORED", Class::Stored),
    ("NOT_STORED", Class::NotStored),
    ("EXISTS", Class::Exists),
    ("NOT_FOUND", Class::NotFound),
    ("HIT 3 =%00a%25", Class::Hit),
    ("HIT 0 = 12", Class::Hit),
    ("MISS", Class::Miss),
    ("DELETED", Class::Deleted),
    ("TOUCHED", Class::Touched),
    ("NUMBER 10", Class::Number),
    ("NOT_A_NUMBER", Class::NotNumber),
];

fn prints_reply(alloc: Global, reply: &Reply, line: &str) -> Result<bool, WordsFault> {
    let mut out = Vec::from_slice(alloc, b"> ")?;
    again(|| print_reply_words(reply, &mut out))?;
    Ok(is_appended(out.as_slice(), line))
}

/// Whether the line is read as a reply of this class, and printed of it again.
fn is_reply_of(alloc: Global, line: &str, class: Class) -> Result<bool, WordsFault> {
    let reply = reply_in(alloc, line)?;
    Ok(reply.class() == class && prints_reply(alloc, &reply, line)?)
}

#[test]
fn reads_and_prints_each_reply(rt: HostRuntime) -> Result<(), Fail> {
    for (line, class) in REPLIES {
        assert!(rt; is_reply_of(rt.alloc(), line, *class)?, "{line}");
    }
    Ok(())
}

/// A word, the body that it says, and the reply that is printed of it.
static BODIES: &[(&str, &[u8], &str)] = &[
    ("=", b"", "HIT 0 ="),
    ("=%00", b"\0", "HIT 0 =%00"),
    ("=%25", b"%", "HIT 0 =%25"),
    ("=%7F", b"\x7f", "HIT 0 =%7f"),
    ("=%7F%7f", b"\x7f\x7f", "HIT 0 =%7f%7f"),
    ("=%20", b" ", "HIT 0 =%20"),
    ("=9%20", b"9 ", "HIT 0 =9%20"),
    ("=%61", b"a", "HIT 0 =a"),
    ("=%fF", b"\xff", "HIT 0 =%ff"),
];

fn reads_body(alloc: Global, word: &str, body: &[u8], line: &str) -> Result<bool, WordsFault> {
    let read = again(|| read_body(alloc, word.as_bytes()))?;
    let is_read = read.as_slice() == body;
    let reply = Reply::Hit {
        flags: 0,
        body: read,
        cas: None,
    };
    Ok(is_read && prints_reply(alloc, &reply, line)?)
}

#[test]
fn reads_and_prints_bodies(rt: HostRuntime) -> Result<(), Fail> {
    for (word, body, line) in BODIES {
        assert!(rt; reads_body(rt.alloc(), word, body, line)?, "{word}");
    }
    Ok(())
}

/// A word, and the number below 2^64 that it says.
static NUMBERS: &[(&str, Result<u64, WordsKind>)] = &[
    ("18446744073709551615", Ok(u64::MAX)),
    ("00000000000000000001", Ok(1)),
    ("18446744073709551616", Err(WordsKind::Number)),
    ("000000000000000000001", Err(WordsKind::Number)),
    ("+1", Err(WordsKind::Form)),
];

#[test]
fn reads_numbers(rt: HostRuntime) {
    for (word, expected) in NUMBERS {
        assert!(rt;
            read_number(u64::MAX, word.as_bytes()) == *expected,
            "{word}"
        );
    }
}

static KEYS: &[(&str, bool)] = &[
    ("aaaaaaaaaaaaaaaaaaaaaaaaaaaaaaaaaaaaaaaa", true),
    ("aaaaaaaaaaaaaaaaaaaaaaaaaaaaaaaaaaaaaaaaa", false),
    ("", false),
];

#[test]
fn knows_keys(rt: HostRuntime) {
    for (word, expected) in KEYS {
        assert!(rt; is_key(word.as_bytes()) == *expected, "{word}");
    }
}

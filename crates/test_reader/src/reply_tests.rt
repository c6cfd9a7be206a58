//! Texts that spell a reply.
use crate::cuts::{answers, first_other};
use crate::wanted::{Row, Wanted};
use mc_protocol::{OutOfMemory, Verb};
use mc_reader::{ReplyReader, Shape};
use std::alloc::Global;
use std::test::Fail;

// Replies of one line; `recorded.rt` and `verb_tests.rt` have more.
static LINES: &[Row] = &[
    // Zeros may lead, and are no limit.
    (
        Verb::Incr,
        b"00000000000000000000000000000007\r\n",
        Wanted::Number(7),
    ),
    (
        Verb::Incr,
        b"18446744073709551615\r\n",
        Wanted::Number(18_446_744_073_709_551_615),
    ),
    // A decremented number may be padded with spaces to its old length, which is 20 digits at most.
    (Verb::Decr, b"9 \r\n", Wanted::Number(9)),
    (Verb::Decr, b"9                    \r\n", Wanted::Number(9)),
    (Verb::Incr, b"CLIENT_ERROR\r\n", Wanted::NotNumber),
    (
        Verb::Decr,
        b"CLIENT_ERROR cannot increment or decrement non-numeric value\r\n",
        Wanted::NotNumber,
    ),
    (
        Verb::Incr,
        b"CLIENT_ERROR \x00\xff\r\r\n",
        Wanted::NotNumber,
    ),
];

// Hits, with bodies of any bytes.
static HITS: &[Row] = &[
    (
        Verb::Get,
        b"VALUE a 0 1\r\n1\r\nEND\r\n",
        Wanted::Hit(0, b"1", None),
    ),
    (
        Verb::Gets,
        b"VALUE a 0 1 11\r\n1\r\nEND\r\n",
        Wanted::Hit(0, b"1", Some(11)),
    ),
    (
        Verb::Get,
        b"VALUE a 4294967295 0\r\n\r\nEND\r\n",
        Wanted::Hit(4_294_967_295, b"", None),
    ),
    (
        Verb::Gets,
        b"VALUE a 0000000000000000000000000007 0002 18446744073709551615\r\nxy\r\nEND\r\n",
        Wanted::Hit(7, b"xy", Some(18_446_744_073_709_551_615)),
    ),
    (
        Verb::Get,
        b"VALUE a 5 9\r\n\x00\xff\r\n\x80\rEN\n\r\nEND\r\n",
        Wanted::Hit(5, b"\x00\xff\r\n\x80\rEN\n", None),
    ),
    (
        Verb::Get,
        b"VALUE a 0 5\r\nEND\r\n\r\nEND\r\n",
        Wanted::Hit(0, b"END\r\n", None),
    ),
];

#[test]
fn reads_lines(rt: HostRuntime) -> Result<(), Fail> {
    assert_eq!(rt; first_other(rt.alloc(), LINES)?, None);
    Ok(())
}

#[test]
fn reads_hits(rt: HostRuntime) -> Result<(), Fail> {
    assert_eq!(rt; first_other(rt.alloc(), HITS)?, None);
    Ok(())
}

const ONE: Wanted = Wanted::Hit(0, b"1", None);

// Whether the text is a hit of the key whose body is a one.
fn is_one_of(alloc: Global, key: &[u8], text: &[u8]) -> Result<bool, OutOfMemory> {
    let verb = Verb::Get;
    let mut reader = ReplyReader::new(alloc, Shape { verb, key });
    answers(&mut reader, text, text.len(), &ONE)
}

// Keys may have bytes from 128 on.
#[test]
fn reads_any_key(rt: HostRuntime) -> Result<(), Fail> {
    let text = b"VALUE \xe4\xff-key 0 1\r\n1\r\nEND\r\n";
    assert!(rt; is_one_of(rt.alloc(), b"\xe4\xff-key", text)?);
    Ok(())
}

//! Texts of requests, and texts that are refused. `oracle/request-streams` compares more of them, cut anywhere, with what a second
//! reader reads; those of `oracle/limits.txt` are among them.
use crate::ask_cuts::{asks, first_other, goes_on};
use crate::wanted_ask::{AskRow, WantedAsk};
use mc_protocol::Verb;
use mc_reader::{Refuse, RequestReader};
use std::test::Fail;

// Requests with a block.
static STORES: &[AskRow] = &[
    (
        b"set a 0 0 1\r\n1\r\n",
        WantedAsk::Store(Verb::Set, b"a", 0, b"1", 0, false),
    ),
    (
        b"set a 4294967295 -0 0\n\r\n",
        WantedAsk::Store(Verb::Set, b"a", 4_294_967_295, b"", 0, false),
    ),
    (
        b"add a 007 00 02\r\n\r\n\r\n",
        WantedAsk::Store(Verb::Add, b"a", 7, b"\r\n", 0, false),
    ),
    (
        b"cas a 1 0 3 18446744073709551615\r\n\x00\xff\n\r\n",
        WantedAsk::Store(
            Verb::Cas,
            b"a",
            1,
            b"\x00\xff\n",
            18_446_744_073_709_551_615,
            false,
        ),
    ),
];

// Other requests, and lines that say nothing that can be done.
static LINES: &[AskRow] = &[
    (b"  get   a  \r\n", WantedAsk::Of(Verb::Get, b"a")),
    (b"gets a  b a\n", WantedAsk::Many(b"a b a ", true)),
    (
        b"incr a 18446744073709551615\r\n",
        WantedAsk::Count(Verb::Incr, b"a", 18_446_744_073_709_551_615),
    ),
    (
        b"delete a 0 noreply\r\n",
        WantedAsk::Silent(Verb::Delete, b"a", 0),
    ),
    (b"foo\r\n", WantedAsk::Refused(Refuse::Unknown)),
    (b"get\r\n", WantedAsk::Refused(Refuse::BadLine)),
    (b"set a 0 5 1\r\n1\r\n", WantedAsk::Refused(Refuse::Expiry)),
];

// Nothing is read after these.
static CLOSING: &[AskRow] = &[
    (b"quit\r\n", WantedAsk::Quit),
    (b"set a 0 0 1\r\n12", WantedAsk::Refused(Refuse::BadChunk)),
];

#[test]
fn reads_blocks(rt: HostRuntime) -> Result<(), Fail> {
    assert_eq!(rt; first_other(rt.alloc(), STORES, false)?, None);
    Ok(())
}

#[test]
fn reads_lines(rt: HostRuntime) -> Result<(), Fail> {
    assert_eq!(rt; first_other(rt.alloc(), LINES, false)?, None);
    Ok(())
}

#[test]
fn reads_nothing_after_what_closes(rt: HostRuntime) -> Result<(), Fail> {
    assert_eq!(rt; first_other(rt.alloc(), CLOSING, true)?, None);
    Ok(())
}

// An empty piece brings nothing.
#[test]
fn goes_on_at_an_empty_piece(rt: HostRuntime) -> Result<(), Fail> {
    let mut reader = RequestReader::new(rt.alloc());
    assert!(rt; goes_on(&mut reader, b"")?);
    assert!(rt; asks(&mut reader, b"quit\n", 5, &WantedAsk::Quit)?);
    Ok(())
}

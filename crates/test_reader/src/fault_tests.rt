//! Texts at which a reply fails, each the shortest at which it does.
use crate::cuts::first_other;
use crate::wanted::{Row, Wanted};
use mc_protocol::Verb;
use mc_reader::{ErrorKind, ReadFault};
use std::test::Fail;

const NOT_A_REPLY: Wanted = Wanted::Fault(ReadFault::NotAReply);

const WRONG_KEY: Wanted = Wanted::Fault(ReadFault::WrongKey);

const NUMBER_TOO_LARGE: Wanted = Wanted::Fault(ReadFault::NumberTooLarge);

const DATA_TOO_LONG: Wanted = Wanted::Fault(ReadFault::DataTooLong);

const DATA_NOT_ENDED: Wanted = Wanted::Fault(ReadFault::DataNotEnded);

const ERROR: Wanted = Wanted::Fault(ReadFault::ErrorLine(ErrorKind::Error));

const CLIENT_ERROR: Wanted = Wanted::Fault(ReadFault::ErrorLine(ErrorKind::Client));

const SERVER_ERROR: Wanted = Wanted::Fault(ReadFault::ErrorLine(ErrorKind::Server));

static LINES: &[Row] = &[
    // A line ends with CR LF.
    (Verb::Set, b"STORED\n", NOT_A_REPLY),
    (Verb::Set, b"\n", NOT_A_REPLY),
    (Verb::Set, b"\r\n", NOT_A_REPLY),
    // Words stand as they are.
    (Verb::Set, b"stored\r\n", NOT_A_REPLY),
    (Verb::Set, b"STORED \r\n", NOT_A_REPLY),
    (Verb::Set, b" STORED\r\n", NOT_A_REPLY),
    (Verb::Set, b"STORED\r\r\n", NOT_A_REPLY),
    (Verb::Set, b"\x00\r\n", NOT_A_REPLY),
    (Verb::Get, b"EN\r\n", NOT_A_REPLY),
    // Numbers.
    (Verb::Incr, b"18446744073709551616\r\n", NUMBER_TOO_LARGE),
    (
        Verb::Incr,
        b"99999999999999999999999999999999999\r\n",
        NUMBER_TOO_LARGE,
    ),
    (Verb::Decr, b"9                     \r\n", NOT_A_REPLY),
    (Verb::Incr, b" 9\r\n", NOT_A_REPLY),
    (Verb::Incr, b"+9\r\n", NOT_A_REPLY),
    (Verb::Incr, b"9x\r\n", NOT_A_REPLY),
    (Verb::Incr, b"9 9\r\n", NOT_A_REPLY),
    (Verb::Incr, b"9\t\r\n", NOT_A_REPLY),
    // Errors: the word alone, or a space and any text after it.
    (Verb::Get, b"ERROR\r\n", ERROR),
    (Verb::Incr, b"ERROR \r\n", ERROR),
    (Verb::Set, b"CLIENT_ERROR bad data chunk\r\n", CLIENT_ERROR),
    (Verb::Get, b"SERVER_ERROR\r\n", SERVER_ERROR),
    (
        Verb::Incr,
        b"SERVER_ERROR out of memory in incr\r\n",
        SERVER_ERROR,
    ),
    (Verb::Get, b"ERRORS\r\n", NOT_A_REPLY),
    (Verb::Incr, b"CLIENT_ERROR\tx\r\n", NOT_A_REPLY),
    (Verb::Incr, b"CLIENT_ERROR\n", NOT_A_REPLY),
];

static ITEM_LINES: &[Row] = &[
    (Verb::Get, b"VALUE b 0 1\r\n", WRONG_KEY),
    (Verb::Get, b"VALUE aa 0 1\r\n", WRONG_KEY),
    (Verb::Get, b"VALUE A 0 1\r\n", WRONG_KEY),
    (Verb::Get, b"VALUE a 4294967296 1\r\n", NUMBER_TOO_LARGE),
    (
        Verb::Gets,
        b"VALUE a 0 1 18446744073709551616\r\n",
        NUMBER_TOO_LARGE,
    ),
    (Verb::Get, b"VALUE a 0 65537\r\n", DATA_TOO_LONG),
    (
        Verb::Get,
        b"VALUE a 0 18446744073709551617\r\n",
        DATA_TOO_LONG,
    ),
    // Only gets shows the cas unique.
    (Verb::Get, b"VALUE a 0 1 7\r\n", NOT_A_REPLY),
    (Verb::Gets, b"VALUE a 0 1\r\n", NOT_A_REPLY),
    (Verb::Gets, b"VALUE a 0 1 7 7\r\n", NOT_A_REPLY),
    // One space stands between two words.
    (Verb::Get, b"VALUE  a 0 1\r\n", NOT_A_REPLY),
    (Verb::Get, b"VALUE  0 1\r\n", NOT_A_REPLY),
    (Verb::Get, b"VALUE a 0  1\r\n", NOT_A_REPLY),
    (Verb::Get, b"VALUE a 0 1 \r\n", NOT_A_REPLY),
    (Verb::Get, b"VALUE a\t0 1\r\n", NOT_A_REPLY),
    (Verb::Get, b"VALUE\r\n", NOT_A_REPLY),
    (Verb::Get, b"VALUE a\r\n", NOT_A_REPLY),
    (Verb::Get, b"VALUE a 0\r\n", NOT_A_REPLY),
    (Verb::Get, b"VALUE a -1 1\r\n", NOT_A_REPLY),
    (Verb::Get, b"VALUE a 0 1x\r\n", NOT_A_REPLY),
    (Verb::Get, b"value a 0 1\r\n", NOT_A_REPLY),
    (Verb::Get, b"VALUE a 0 1\n", NOT_A_REPLY),
    // Of two faults the one that stands first in the list of faults.
    (Verb::Get, b"VALUE b x 1\r\n", NOT_A_REPLY),
    (Verb::Get, b"VALUE b 4294967296 65537\r\n", WRONG_KEY),
    (Verb::Get, b"VALUE a 4294967296 65537\r\n", NUMBER_TOO_LARGE),
    (
        Verb::Gets,
        b"VALUE a 0 65537 18446744073709551616\r\n",
        NUMBER_TOO_LARGE,
    ),
];

static BLOCKS: &[Row] = &[
    (Verb::Get, b"VALUE a 0 1\r\n12", DATA_NOT_ENDED),
    (Verb::Get, b"VALUE a 0 1\r\n1\n", DATA_NOT_ENDED),
    (Verb::Get, b"VALUE a 0 1\r\n1\rE", DATA_NOT_ENDED),
    (Verb::Get, b"VALUE a 0 1\r\n1\r\r", DATA_NOT_ENDED),
    (Verb::Get, b"VALUE a 0 0\r\nE", DATA_NOT_ENDED),
    (Verb::Get, b"VALUE a 0 1\r\n1\r\nEN\r\n", NOT_A_REPLY),
    (Verb::Get, b"VALUE a 0 1\r\n1\r\nEND\n", NOT_A_REPLY),
    (Verb::Get, b"VALUE a 0 1\r\n1\r\nEND \r\n", NOT_A_REPLY),
    (Verb::Get, b"VALUE a 0 1\r\n1\r\n\r\n", NOT_A_REPLY),
    (
        Verb::Get,
        b"VALUE a 0 1\r\n1\r\nVALUE a 0 1\r\n",
        NOT_A_REPLY,
    ),
    (Verb::Get, b"VALUE a 0 1\r\n1\r\nERROR\r\n", ERROR),
    (
        Verb::Gets,
        b"VALUE a 0 1 7\r\n1\r\nCLIENT_ERROR x\r\n",
        CLIENT_ERROR,
    ),
    (
        Verb::Get,
        b"VALUE a 0 1\r\n1\r\nSERVER_ERROR x\r\n",
        SERVER_ERROR,
    ),
];

#[test]
fn refuses_lines(rt: HostRuntime) -> Result<(), Fail> {
    assert_eq!(rt; first_other(rt.alloc(), LINES)?, None);
    Ok(())
}

#[test]
fn refuses_lines_of_items(rt: HostRuntime) -> Result<(), Fail> {
    assert_eq!(rt; first_other(rt.alloc(), ITEM_LINES)?, None);
    Ok(())
}

#[test]
fn refuses_blocks(rt: HostRuntime) -> Result<(), Fail> {
    assert_eq!(rt; first_other(rt.alloc(), BLOCKS)?, None);
    Ok(())
}

static FAULTS: &[(ReadFault, u8, &str)] = &[
    (ReadFault::LineTooLong, 1, "LineTooLong"),
    (ReadFault::NotAReply, 2, "NotAReply"),
    (ReadFault::WrongKey, 3, "WrongKey"),
    (ReadFault::NumberTooLarge, 4, "NumberTooLarge"),
    (ReadFault::DataTooLong, 5, "DataTooLong"),
    (ReadFault::DataNotEnded, 6, "DataNotEnded"),
    (ReadFault::ErrorLine(ErrorKind::Server), 7, "ErrorLine"),
    (ReadFault::OutOfMemory, 8, "OutOfMemory"),
    (ReadFault::Failed, 9, "Failed"),
];

#[test]
fn numbers_and_names_faults(rt: HostRuntime) {
    for (fault, number, name) in FAULTS {
        assert!(rt;
            fault.number() == *number && fault.name() == *name,
            "{fault}"
        );
    }
    assert!(rt; ErrorKind::Client.word() == "CLIENT_ERROR");
}

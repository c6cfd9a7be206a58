//! What a real memcached answered: `oracle/ask-memcached/ask.py` records it and says which requests were sent, in the same
//! order; a reply that a verb had before is left out. What each text says was written by hand from `protocol.txt`.
use crate::wanted::{Row, Wanted};
use mc_protocol::Verb;
use mc_reader::{ErrorKind, ReadFault};

const CLIENT_ERROR: Wanted = Wanted::Fault(ReadFault::ErrorLine(ErrorKind::Client));

const NO_NUMBER: &[u8] = b"CLIENT_ERROR cannot increment or decrement non-numeric value\r\n";

// Where nothing is at the key.
pub(crate) static OF_NOTHING: &[Row] = &[
    (Verb::Delete, b"NOT_FOUND\r\n", Wanted::NotFound),
    (Verb::Touch, b"NOT_FOUND\r\n", Wanted::NotFound),
    (Verb::Get, b"END\r\n", Wanted::Miss),
    (Verb::Gets, b"END\r\n", Wanted::Miss),
    (Verb::Incr, b"NOT_FOUND\r\n", Wanted::NotFound),
    (Verb::Cas, b"NOT_FOUND\r\n", Wanted::NotFound),
    (Verb::Replace, b"NOT_STORED\r\n", Wanted::NotStored),
    (Verb::Append, b"NOT_STORED\r\n", Wanted::NotStored),
    (Verb::Add, b"STORED\r\n", Wanted::Stored),
];

// Where a text is at the key.
pub(crate) static OF_TEXTS: &[Row] = &[
    (Verb::Add, b"NOT_STORED\r\n", Wanted::NotStored),
    (
        Verb::Get,
        b"VALUE a 5 3\r\nold\r\nEND\r\n",
        Wanted::Hit(5, b"old", None),
    ),
    (
        Verb::Gets,
        b"VALUE a 5 3 1\r\nold\r\nEND\r\n",
        Wanted::Hit(5, b"old", Some(1)),
    ),
    (Verb::Cas, b"EXISTS\r\n", Wanted::Exists),
    (Verb::Cas, b"STORED\r\n", Wanted::Stored),
    (Verb::Touch, b"TOUCHED\r\n", Wanted::Touched),
    (Verb::Decr, NO_NUMBER, Wanted::NotNumber),
    (Verb::Append, b"STORED\r\n", Wanted::Stored),
    (Verb::Prepend, b"STORED\r\n", Wanted::Stored),
    (
        Verb::Get,
        b"VALUE a 5 5\r\n<new>\r\nEND\r\n",
        Wanted::Hit(5, b"<new>", None),
    ),
];

// Where numbers, nothing at all and any bytes are at the key.
pub(crate) static OF_OTHERS: &[Row] = &[
    (Verb::Set, b"STORED\r\n", Wanted::Stored),
    (Verb::Decr, b"9\r\n", Wanted::Number(9)),
    (
        Verb::Gets,
        b"VALUE a 4294967295 2 6\r\n9 \r\nEND\r\n",
        Wanted::Hit(4_294_967_295, b"9 ", Some(6)),
    ),
    (Verb::Decr, b"0\r\n", Wanted::Number(0)),
    (
        Verb::Incr,
        b"18446744073709551615\r\n",
        Wanted::Number(18_446_744_073_709_551_615),
    ),
    (
        Verb::Get,
        b"VALUE a 4294967295 20\r\n18446744073709551615\r\nEND\r\n",
        Wanted::Hit(4_294_967_295, b"18446744073709551615", None),
    ),
    (
        Verb::Get,
        b"VALUE a 0 0\r\n\r\nEND\r\n",
        Wanted::Hit(0, b"", None),
    ),
    (
        Verb::Get,
        b"VALUE a 0 12\r\n\x00\xff\r\nEND\r\n\x80\r\n\r\nEND\r\n",
        Wanted::Hit(0, b"\x00\xff\r\nEND\r\n\x80\r\n", None),
    ),
    (Verb::Incr, NO_NUMBER, Wanted::NotNumber),
    (Verb::Delete, b"DELETED\r\n", Wanted::Deleted),
];

// Requests that it doesn't take.
pub(crate) static OF_BAD_REQUESTS: &[Row] = &[
    (
        Verb::Incr,
        b"CLIENT_ERROR invalid numeric delta argument\r\n",
        Wanted::NotNumber,
    ),
    (
        Verb::Get,
        b"ERROR\r\n",
        Wanted::Fault(ReadFault::ErrorLine(ErrorKind::Error)),
    ),
    (
        Verb::Get,
        b"CLIENT_ERROR bad command line format\r\n",
        CLIENT_ERROR,
    ),
    (
        Verb::Set,
        b"SERVER_ERROR object too large for cache\r\n",
        Wanted::Fault(ReadFault::ErrorLine(ErrorKind::Server)),
    ),
];

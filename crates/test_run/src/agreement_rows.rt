//! What is noted of the sections, what their lanes carried, and whether it agrees.

use crate::carried::{Carried, NOTHING, OF_P, ONCE, SEVEN, SILENT, SIX};
use crate::counter::Given;
use crate::counter::Given::*;
use mc_protocol::Actor;
use mc_protocol::Actor::*;
use mc_protocol::Fault::*;
use mc_protocol::Verb::*;

/// Events, each of its section.
type Noted = &'static [(Actor, Given)];

/// What is noted of the branches after P is done, what their lanes carry, and whether all of it agrees.
pub(crate) type Branches = (Noted, Carried, Carried, bool);

/// Both branches are done.
pub(crate) const BOTH: Noted = &[(A, Begin), (B, Begin), (A, Number(6)), (B, Number(7))];

/// B is done, and A's call fails.
const ENDED_A: Noted = &[(A, Begin), (B, Begin), (A, Fail(Ended)), (B, Number(7))];

const BAD_REPLY: Noted = &[(A, Begin), (B, Begin), (A, Fail(BadReply)), (B, Number(7))];

const ERROR_LINE: Noted = &[(A, Begin), (B, Begin), (A, Fail(ErrorLine)), (B, Number(7))];

const NO_MEMORY: Noted = &[(A, Begin), (B, Begin), (A, Fail(Memory)), (B, Number(7))];

/// Each ending of the branches, and what may be wrong in it.
pub(crate) static BRANCHES: [Branches; 25] = [
    (BOTH, SIX, SEVEN, true),
    // the lanes of the branches are exchanged
    (BOTH, SEVEN, SIX, false),
    // bytes after the reply that no call looked at
    (
        BOTH,
        (b"6\r\nERROR\r\n", 64, ONCE),
        (b"7\r\n7\r\n", 64, ONCE),
        true,
    ),
    // the notes of B's call, or of its reply, are dropped
    (&[(A, Begin), (A, Number(6))], SIX, SEVEN, false),
    (&[(A, Begin), (B, Begin), (A, Number(6))], SIX, SEVEN, false),
    // A's call is dropped, and its fault isn't
    (
        &[(A, Fail(Ended)), (B, Begin), (B, Number(7))],
        SILENT,
        SEVEN,
        false,
    ),
    // the reply of A is made up: another one came, or none, or no whole one
    (
        &[(A, Begin), (B, Begin), (A, Number(8)), (B, Number(7))],
        SIX,
        SEVEN,
        false,
    ),
    (BOTH, SILENT, SEVEN, false),
    (BOTH, (b"6\r", 64, ONCE), SEVEN, false),
    // both failed as their lanes did: B's stream ended, and A's request was cut
    (
        &[
            (A, Begin),
            (B, Begin),
            (A, Fail(WriteFailed)),
            (B, Fail(Ended)),
        ],
        (b"", 4, ONCE),
        (b"7", 64, ONCE),
        true,
    ),
    // the fault that is noted is another
    (
        &[
            (A, Begin),
            (B, Begin),
            (A, Number(6)),
            (B, Fail(ReadFailed)),
        ],
        SIX,
        (b"7", 64, ONCE),
        false,
    ),
    // the lane of A failed after its reply, which isn't noted
    (
        BOTH,
        (b"6\r\n", 64, &[(Incr, b"incr a 1\r\n"), (Incr, b"")]),
        SEVEN,
        false,
    ),
    // what came is malformed, and A fails so, or as if it were an error line
    (BAD_REPLY, (b"STORED\r\n", 64, ONCE), SEVEN, true),
    (ERROR_LINE, (b"STORED\r\n", 64, ONCE), SEVEN, false),
    // an error line came, and A fails so
    (
        ERROR_LINE,
        (b"SERVER_ERROR busy\r\n", 64, ONCE),
        SEVEN,
        true,
    ),
    // the lane failed so, and no call waits whose reply the bytes could be
    (
        &[(A, Fail(BadReply)), (B, Begin), (B, Number(7))],
        (b"STORED\r\n", 64, &[(Incr, b"")]),
        SEVEN,
        false,
    ),
    // a fault that the lane of A doesn't have
    (ENDED_A, SIX, SEVEN, false),
    // want of memory, where the lane of A has no fault, or another
    (NO_MEMORY, SIX, SEVEN, true),
    (
        &[(A, Fail(Memory)), (B, Begin), (B, Number(7))],
        NOTHING,
        SEVEN,
        true,
    ),
    (NO_MEMORY, SILENT, SEVEN, false),
    // less of A's request was sent, or more, or another one
    (BOTH, (b"6\r\n", 64, &[(Incr, b"incr a 1\r")]), SEVEN, false),
    (
        BOTH,
        (
            b"6\r\n8\r\n",
            64,
            &[(Incr, b"incr a 1\r\n"), (Incr, b"incr a 1\r\n")],
        ),
        SEVEN,
        false,
    ),
    (
        BOTH,
        (b"6\r\n", 64, &[(Incr, b"incr a 2\r\n")]),
        SEVEN,
        false,
    ),
    // a branch that failed sent what no call of it says
    (ENDED_A, (b"", 64, &[(Decr, b"decr a 1\r\n")]), SEVEN, false),
    // neither branch begins
    (&[], NOTHING, NOTHING, false),
];

/// What is noted of P, what the lanes of P and A carry, and whether all of it agrees. B's lane carries nothing.
pub(crate) type Prefix = (Noted, Carried, Carried, bool);

/// P's second call fails so.
const ENDED_P: Noted = &[(P, Begin), (P, NotFound), (P, Begin), (P, Fail(Ended))];

/// Each ending of P, and what may be wrong in it.
pub(crate) static PREFIXES: [Prefix; 5] = [
    // P fails, and the branches never begin
    (ENDED_P, (b"NOT_FOUND\r\n", 64, OF_P), NOTHING, true),
    // a branch sent something all the same
    (ENDED_P, (b"NOT_FOUND\r\n", 64, OF_P), SIX, false),
    // the last request was cut
    (
        &[
            (P, Begin),
            (P, NotFound),
            (P, Begin),
            (P, Fail(WriteFailed)),
        ],
        (b"NOT_FOUND\r\nSTORED\r\n", 12, OF_P),
        NOTHING,
        true,
    ),
    // the request that has a reply was not sent whole
    (
        &[(P, Begin), (P, NotFound), (P, Fail(Memory))],
        (b"NOT_FOUND\r\nSTORED\r\n", 64, &[(Delete, b"delete a\r")]),
        NOTHING,
        false,
    ),
    // a reply that nothing is noted of is no reply of the next call
    (
        &[(P, Begin), (P, NotFound), (P, Begin), (P, Stored)],
        (b"NOT_FOUND\r\nNOT_FOUND\r\nSTORED\r\n", 64, OF_P),
        NOTHING,
        false,
    ),
];

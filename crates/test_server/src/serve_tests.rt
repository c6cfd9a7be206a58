//! What a client is served over one connection, each time by a server that holds nothing. The replies are those of `protocol.txt`; the
//! lines of refusals are this project's own.
use crate::memory::again;
use crate::streams::conversation;
use mc_server::{Served, Shared, Why};
use std::alloc::AllocError;
use std::sync::Wait;
use std::test::Fail;

/// What a client sends, what it is answered, how many requests were read, and why no more.
type Row = (&'static [u8], &'static [u8], u64, Why);

/// Requests, one after another. `cases/serve/talk.txt` has more of them, with those that are refused and those to which no reply is
/// written.
static REQUESTS: &[Row] = &[
    (b"", b"", 0, Why::Ended),
    (
        b"set a 0 0 1\r\n1\r\ngets a\r\n",
        b"STORED\r\nVALUE a 0 1 1\r\n1\r\nEND\r\n",
        2,
        Why::Ended,
    ),
    // each store counts its own numbers: a and q are in one, b in another
    (
        b"set a 0 0 1\r\n1\r\nset b 0 0 1\r\n1\r\nset q 0 0 1\r\n1\r\ngets a b q\r\n",
        b"STORED\r\nSTORED\r\nSTORED\r\nVALUE a 0 1 1\r\n1\r\nVALUE b 0 1 1\r\n1\r\nVALUE q 0 1 2\r\n1\r\nEND\r\n",
        4,
        Why::Ended,
    ),
    (b"get a\r\nquit\r\nget a\r\n", b"END\r\n", 1, Why::Quit),
    (
        b"set a 0 0 1\r\n12\r\nget a\r\n",
        b"CLIENT_ERROR bad data chunk\r\n",
        0,
        Why::Refused,
    ),
    // it ends in a request, which isn't answered
    (b"get a\r\nget a", b"END\r\n", 1, Why::Ended),
    (b"set a 0 0 65537\r\n1", b"", 0, Why::Ended),
];

/// The line with which a server that has no memory ends.
const NO_MEMORY: &[u8] = b"SERVER_ERROR out of memory\r\n";

/// Whether a client that sends these pieces is answered so. Where memory ran out, and the front of the answers was written and then
/// the line that says so, that is an error.
fn is_served<R: Wait + AllocGlobal>(
    rt: &R,
    pieces: &[&[u8]],
    failing: Option<u64>,
    answers: &[u8],
    served: Served,
) -> Result<bool, AllocError> {
    let shared = again(|| Shared::new(rt.alloc()))?;
    let (written, came) = conversation(rt, rt.alloc(), &shared, pieces, failing)?;
    if came.why == Why::Memory && is_front_without_memory(written.as_slice(), answers) {
        return Err(AllocError);
    }
    Ok(written.as_slice() == answers && came == served)
}

/// Whether what was written is a front of the answers and the line after it.
fn is_front_without_memory(written: &[u8], answers: &[u8]) -> bool {
    match written.strip_suffix(NO_MEMORY) {
        Some(front) => answers.starts_with(front),
        None => false,
    }
}

/// The same of a client that sends all at once. Where memory ran out, a new server serves it once more.
fn is_served_again<R: Wait + AllocGlobal>(
    rt: &R,
    sent: &[u8],
    answers: &[u8],
    came: Served,
) -> Result<bool, AllocError> {
    match is_served(rt, &[sent], None, answers, came) {
        Err(AllocError) => is_served(rt, &[sent], None, answers, came),
        answer => answer,
    }
}

fn first_other<R: Wait + AllocGlobal>(
    rt: &R,
    rows: &'static [Row],
) -> Result<Option<&'static [u8]>, AllocError> {
    for (sent, answers, requests, why) in rows {
        let served = Served {
            requests: *requests,
            why: *why,
        };
        if !is_served_again(rt, sent, answers, served)? {
            return Ok(Some(sent));
        }
    }
    Ok(None)
}

#[test]
fn answers_requests(rt: HostRuntime) -> Result<(), Fail> {
    assert_eq!(rt; first_other(&rt, REQUESTS)?, None);
    Ok(())
}

const SENT: &[u8] = b"set a 0 0 1\r\n1\r\ngets a\r\n";

const STORED: &[u8] = b"STORED\r\n";

const ALL: &[u8] = b"STORED\r\nVALUE a 0 1 1\r\n1\r\nEND\r\n";

/// The call of the stream that fails, what is written then, how many requests were read, and why no more.
type Failing = (u64, &'static [u8], u64, Why);

/// Where both requests come at once: they are read, answered by one write, and the end is read.
static AT_ONCE: &[Failing] = &[
    (1, b"", 0, Why::ReadFailed),
    (2, b"", 2, Why::WriteFailed),
    (3, ALL, 2, Why::ReadFailed),
    (4, ALL, 2, Why::Ended),
];

/// Where the second request comes after the reply to the first.
static IN_TURN: &[Failing] = &[
    (1, b"", 0, Why::ReadFailed),
    (2, b"", 1, Why::WriteFailed),
    (3, STORED, 1, Why::ReadFailed),
    (4, STORED, 2, Why::WriteFailed),
    (5, ALL, 2, Why::ReadFailed),
    (6, ALL, 2, Why::Ended),
];

#[test]
fn ends_where_a_call_of_the_stream_fails(rt: HostRuntime) -> Result<(), Fail> {
    assert_eq!(rt; first_odd_call(&rt, &[SENT], AT_ONCE)?, None);
    let pieces = [&SENT[..16], &SENT[16..]];
    assert_eq!(rt; first_odd_call(&rt, &pieces, IN_TURN)?, None);
    Ok(())
}

/// The first of these calls after whose failure something else comes.
fn first_odd_call<R: Wait + AllocGlobal>(
    rt: &R,
    pieces: &[&[u8]],
    rows: &[Failing],
) -> Result<Option<u64>, AllocError> {
    for (call, answers, requests, why) in rows {
        let served = Served {
            requests: *requests,
            why: *why,
        };
        if !is_served(rt, pieces, Some(*call), answers, served)? {
            return Ok(Some(*call));
        }
    }
    Ok(None)
}

//! The longest lines and bodies.
use crate::cuts::{feed, is_over, is_read_in_pieces, last_piece, shape};
use crate::wanted::Wanted;
use mc_protocol::{OutOfMemory, Reply, Verb};
use mc_reader::{ErrorKind, Fed, ReadFault, ReplyReader};
use std::alloc::Global;
use std::test::Fail;

// The lengths of pieces in which the texts are fed.
static LENGTHS: [usize; 5] = [1, 7, 2_047, 4_096, 70_000];

/// `front`, then `byte`, repeated `count` times, and `back`.
struct Text {
    front: &'static [u8],
    byte: u8,
    count: usize,
    back: &'static [u8],
}

fn bytes_of(alloc: Global, text: &Text) -> Result<Vec<u8>, OutOfMemory> {
    let middle = vec![in alloc; text.byte; text.count]?;
    [text.front, middle.as_slice(), text.back].concat(alloc)
}

fn is_read_in_all(
    alloc: Global,
    verb: Verb,
    text: &[u8],
    wanted: &Wanted,
) -> Result<bool, OutOfMemory> {
    for len in LENGTHS.iter() {
        if !is_read_in_pieces(alloc, shape(verb), text, *len, wanted)? {
            return Ok(false);
        }
    }
    Ok(true)
}

const ERROR: Wanted = Wanted::Fault(ReadFault::ErrorLine(ErrorKind::Server));

const TOO_LONG: Wanted = Wanted::Fault(ReadFault::LineTooLong);

// A line has at most 2,048 bytes with its CR LF.
static LONGEST_LINE: Text = Text {
    front: b"SERVER_ERROR ",
    byte: b'x',
    count: 2_033,
    back: b"\r\n",
};

// Texts whose last lines are as long, and longer ones, which fail where the first 2,048 bytes of a line hold no LF, before
// its end comes.
static LONG_LINES: [(Verb, Text, Wanted); 4] = [
    (
        Verb::Get,
        Text {
            front: b"VALUE a 0 1\r\n1\r\nSERVER_ERROR ",
            byte: b'x',
            count: 2_033,
            back: b"\r\n",
        },
        ERROR,
    ),
    (
        Verb::Incr,
        Text {
            front: b"",
            byte: b'0',
            count: 2_045,
            back: b"7\r\n",
        },
        Wanted::Number(7),
    ),
    (
        Verb::Get,
        Text {
            front: b"SERVER_ERROR ",
            byte: b'x',
            count: 2_035,
            back: b"",
        },
        TOO_LONG,
    ),
    (
        Verb::Get,
        Text {
            front: b"VALUE a 0 1\r\n1\r\nSERVER_ERROR ",
            byte: b'x',
            count: 2_035,
            back: b"",
        },
        TOO_LONG,
    ),
];

static ENDED_TOO_LATE: Text = Text {
    front: b"SERVER_ERROR ",
    byte: b'x',
    count: 2_034,
    back: b"\r\n",
};

fn is_text_read(
    alloc: Global,
    verb: Verb,
    text: &Text,
    wanted: &Wanted,
) -> Result<bool, OutOfMemory> {
    let bytes = bytes_of(alloc, text)?;
    is_read_in_all(alloc, verb, bytes.as_slice(), wanted)
}

#[test]
fn reads_the_longest_line(rt: HostRuntime) -> Result<(), Fail> {
    assert_eq!(rt; bytes_of(rt.alloc(), &LONGEST_LINE)?.len(), 2_048);
    assert!(rt; is_text_read(rt.alloc(), Verb::Get, &LONGEST_LINE, &ERROR)?);
    Ok(())
}

#[test]
fn reads_or_refuses_long_lines(rt: HostRuntime) -> Result<(), Fail> {
    for (verb, text, wanted) in &LONG_LINES {
        assert!(rt;
            is_text_read(rt.alloc(), *verb, text, wanted)?,
            "{}",
            text.count
        );
    }
    Ok(())
}

// Whether the bytes are refused for the length of a line, where they are fed in one piece.
fn is_too_long(alloc: Global, bytes: &[u8]) -> Result<bool, OutOfMemory> {
    let mut reader = ReplyReader::new(alloc, shape(Verb::Get));
    Ok(feed(&mut reader, bytes)?.err() == Some(ReadFault::LineTooLong))
}

#[test]
fn refuses_a_longer_line_that_ends(rt: HostRuntime) -> Result<(), Fail> {
    let ended = bytes_of(rt.alloc(), &ENDED_TOO_LATE)?;
    assert!(rt; is_too_long(rt.alloc(), ended.as_slice())?);
    Ok(())
}

// A body has at most 65,536 bytes.
static LONGEST_BODY: Text = Text {
    front: b"VALUE a 0 65536\r\n",
    byte: b'\n',
    count: 65_536,
    back: b"\r\nEND\r\n",
};

// Whether the text is read as a hit with the body that it repeats, in pieces of this length.
fn is_hit_read(alloc: Global, text: &Text, len: usize) -> Result<bool, OutOfMemory> {
    let bytes = bytes_of(alloc, text)?;
    let mut reader = ReplyReader::new(alloc, shape(Verb::Get));
    match last_piece(&mut reader, bytes.as_slice(), len)? {
        Some(last) => is_hit_at(&mut reader, last, text),
        None => Ok(false),
    }
}

// Whether the reader answers the hit at the end of its last piece.
fn is_hit_at(reader: &mut ReplyReader<'_>, last: &[u8], text: &Text) -> Result<bool, OutOfMemory> {
    match feed(reader, last)? {
        Ok(Fed::Done { reply, used }) => {
            Ok(used == last.len() && is_repeated(&reply, text) && is_over(reader)?)
        }
        _ => Ok(false),
    }
}

// Whether the reply is a hit with the body that the text repeats.
fn is_repeated(reply: &Reply, text: &Text) -> bool {
    match reply {
        Reply::Hit { flags, body, cas } => {
            *flags == 0
                && cas.is_none()
                && body.as_slice().len() == text.count
                && body.as_slice().iter().all(|byte| *byte == text.byte)
        }
        _ => false,
    }
}

#[test]
fn reads_the_longest_body(rt: HostRuntime) -> Result<(), Fail> {
    for len in LENGTHS.iter() {
        assert!(rt; is_hit_read(rt.alloc(), &LONGEST_BODY, *len)?, "{len}");
    }
    Ok(())
}

#[test]
fn refuses_a_longer_body(rt: HostRuntime) -> Result<(), Fail> {
    let long = Wanted::Fault(ReadFault::DataTooLong);
    assert!(rt; is_read_in_all(rt.alloc(), Verb::Get, b"VALUE a 0 65537\r\n", &long)?);
    Ok(())
}

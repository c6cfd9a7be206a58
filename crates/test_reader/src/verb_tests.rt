//! Each class of reply to each verb.
use crate::cuts::{is_read, shape};
use crate::wanted::Wanted;
use mc_protocol::{OutOfMemory, Verb};
use mc_reader::{ErrorKind, ReadFault};
use std::alloc::Global;
use std::test::Fail;

// A reply of each class, a hit without and with a cas unique, and errors; each with its outcome where the verb may have it.
static REPLIES: [(&[u8], Wanted); 13] = [
    (b"STORED\r\n", Wanted::Stored),
    (b"NOT_STORED\r\n", Wanted::NotStored),
    (b"EXISTS\r\n", Wanted::Exists),
    (b"NOT_FOUND\r\n", Wanted::NotFound),
    (b"VALUE a 1 1\r\n1\r\nEND\r\n", Wanted::Hit(1, b"1", None)),
    (
        b"VALUE a 1 1 2\r\n1\r\nEND\r\n",
        Wanted::Hit(1, b"1", Some(2)),
    ),
    (b"END\r\n", Wanted::Miss),
    (b"DELETED\r\n", Wanted::Deleted),
    (b"TOUCHED\r\n", Wanted::Touched),
    (b"5\r\n", Wanted::Number(5)),
    (b"CLIENT_ERROR x\r\n", Wanted::NotNumber),
    (
        b"ERROR\r\n",
        Wanted::Fault(ReadFault::ErrorLine(ErrorKind::Error)),
    ),
    (
        b"SERVER_ERROR x\r\n",
        Wanted::Fault(ReadFault::ErrorLine(ErrorKind::Server)),
    ),
];

// The replies that the verb may have, by their places above.
static LEGAL: &[(Verb, &[usize])] = &[
    (Verb::Set, &[0, 1, 2, 3]),
    (Verb::Add, &[0, 1, 2, 3]),
    (Verb::Replace, &[0, 1, 2, 3]),
    (Verb::Append, &[0, 1, 2, 3]),
    (Verb::Prepend, &[0, 1, 2, 3]),
    (Verb::Cas, &[0, 1, 2, 3]),
    (Verb::Get, &[4, 6]),
    (Verb::Gets, &[5, 6]),
    (Verb::Incr, &[3, 9, 10]),
    (Verb::Decr, &[3, 9, 10]),
    (Verb::Delete, &[3, 7]),
    (Verb::Touch, &[3, 8]),
];

// The place of the CLIENT_ERROR line above; all before it are replies, and those after it errors to every verb.
const CLIENT_LINE: usize = 10;

// What the reply at the place is to a verb with these legal replies. A first line that is none fails at its LF.
fn outcome(place: usize, wanted: &Wanted, legal: &[usize]) -> Wanted {
    if legal.contains(&place) || place > CLIENT_LINE {
        *wanted
    } else if place == CLIENT_LINE {
        Wanted::Fault(ReadFault::ErrorLine(ErrorKind::Client))
    } else {
        Wanted::Fault(ReadFault::NotAReply)
    }
}

// The text up to where it ends to the verb: a hit that isn't legal fails at its first line.
fn ended_text(text: &'static [u8], wanted: &Wanted) -> &'static [u8] {
    match (wanted, text.iter().position(|byte| *byte == b'\n')) {
        (Wanted::Fault(_), Some(at)) if at < text.len() => &text[..at + 1],
        _ => text,
    }
}

fn is_ended(
    alloc: Global,
    verb: Verb,
    text: &'static [u8],
    wanted: &Wanted,
) -> Result<bool, OutOfMemory> {
    is_read(alloc, shape(verb), ended_text(text, wanted), wanted)
}

fn answers_all(alloc: Global, verb: Verb, legal: &[usize]) -> Result<bool, OutOfMemory> {
    for (place, (text, reply)) in REPLIES.iter().enumerate() {
        if !is_ended(alloc, verb, text, &outcome(place, reply, legal))? {
            return Ok(false);
        }
    }
    Ok(true)
}

#[test]
fn reads_each_class_for_each_verb(rt: HostRuntime) -> Result<(), Fail> {
    for (verb, legal) in LEGAL {
        assert!(rt; answers_all(rt.alloc(), *verb, legal)?, "{}", verb.word());
    }
    Ok(())
}

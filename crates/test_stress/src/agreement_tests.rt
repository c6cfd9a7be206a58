//! Notes that lanes recorded, and others.
ghost use Rattle.std.specs.Prelude.{IfOk};
ghost use Rattle.mc_lane.specs.{MemoryStreams.state_of, Streams.CanFail};

use mc_lane::{Lane, MemoryStream};
use mc_model::{Note, Sent};
use mc_protocol::{Bytes, Fault, OutOfMemory, Reply, Request, Verb};
use mc_reader::Shape;
use mc_stress::{Played, agreed, sent_by};
use std::alloc::{AllocError, Global};
use std::test::Fail;

/// A note of a client: the request that begins, or the reply that comes.
#[derive(Clone, Copy)]
enum Step {
    Asks(u8, Verb),
    Gets(u8, Answer),
}

/// A reply.
#[derive(Clone, Copy)]
enum Answer {
    NotFound,
    Deleted,
    Miss,
}

use crate::agreement_tests::Answer::{Deleted, Miss, NotFound};
use crate::agreement_tests::Step::{Asks, Gets};

// What was noted of two clients: the first deletes a key, and then each gets it.
static NOTED: [Step; 6] = [
    Asks(0, Verb::Delete),
    Gets(0, NotFound),
    Asks(0, Verb::Get),
    Asks(1, Verb::Get),
    Gets(1, Miss),
    Gets(0, Miss),
];

// Notes that agree too: only the order of the clients differs.
static OTHER_ORDER: [Step; 6] = [
    Asks(0, Verb::Delete),
    Gets(0, NotFound),
    Asks(1, Verb::Get),
    Asks(0, Verb::Get),
    Gets(0, Miss),
    Gets(1, Miss),
];

static WRONG: &[&[Step]] = &[
    // a request is left out, with its reply
    &[
        Asks(0, Verb::Delete),
        Gets(0, NotFound),
        Asks(0, Verb::Get),
        Gets(0, Miss),
    ],
    // a reply is left out
    &[
        Asks(0, Verb::Delete),
        Gets(0, NotFound),
        Asks(0, Verb::Get),
        Asks(1, Verb::Get),
        Gets(0, Miss),
    ],
    // another reply
    &[
        Asks(0, Verb::Delete),
        Gets(0, Deleted),
        Asks(0, Verb::Get),
        Asks(1, Verb::Get),
        Gets(1, Miss),
        Gets(0, Miss),
    ],
    // another request
    &[
        Asks(0, Verb::Delete),
        Gets(0, NotFound),
        Asks(0, Verb::Gets),
        Asks(1, Verb::Get),
        Gets(1, Miss),
        Gets(0, Miss),
    ],
    // a request of the other client
    &[
        Asks(0, Verb::Delete),
        Gets(0, NotFound),
        Asks(1, Verb::Get),
        Gets(1, Miss),
        Asks(1, Verb::Get),
        Gets(1, Miss),
    ],
    // a reply of the other client
    &[
        Asks(0, Verb::Delete),
        Gets(1, NotFound),
        Asks(0, Verb::Get),
        Asks(1, Verb::Get),
        Gets(1, Miss),
        Gets(0, Miss),
    ],
    // a client that isn't there
    &[
        Asks(0, Verb::Delete),
        Gets(0, NotFound),
        Asks(0, Verb::Get),
        Asks(1, Verb::Get),
        Gets(1, Miss),
        Gets(0, Miss),
        Asks(2, Verb::Get),
    ],
    // a reply before its request
    &[
        Asks(0, Verb::Delete),
        Gets(0, NotFound),
        Gets(0, Miss),
        Asks(0, Verb::Get),
        Asks(1, Verb::Get),
        Gets(1, Miss),
    ],
    // a reply more, to which no request waits
    &[
        Asks(0, Verb::Delete),
        Gets(0, NotFound),
        Asks(0, Verb::Get),
        Asks(1, Verb::Get),
        Gets(1, Miss),
        Gets(0, Miss),
        Gets(0, Miss),
    ],
    // nothing
    &[],
];

fn stream(alloc: Global, pieces: &[&[u8]]) -> Result<MemoryStream, OutOfMemory>
    ensures { IfOk result (λ stream. CanFail (state_of stream)) }
{
    MemoryStream::new(alloc, pieces, 100)
}

fn key(alloc: Global) -> Result<Bytes, OutOfMemory> {
    Ok(Bytes::new(Vec::from_slice(alloc, b"a")?))
}

fn note(alloc: Global, step: Step) -> Result<(u8, Note), OutOfMemory> {
    Ok(match step {
        Asks(client, verb) => (
            client,
            Note::Begin(Request {
                verb,
                key: key(alloc)?,
                flags: 0,
                body: Bytes::new(Vec::new(alloc)),
                number: 0,
            }),
        ),
        Gets(client, NotFound) => (client, Note::Reply(Reply::NotFound)),
        Gets(client, Deleted) => (client, Note::Reply(Reply::Deleted)),
        Gets(client, Miss) => (client, Note::Reply(Reply::Miss)),
    })
}

// A lane over which these requests were made.
fn lane(
    alloc: Global,
    pieces: &[&[u8]],
    calls: &[(Verb, &[u8])],
) -> Result<Lane<MemoryStream>, OutOfMemory> {
    let mut lane = Lane::new(alloc, stream(alloc, pieces)?, 1_000);
    for (verb, text) in calls {
        let shape = Shape {
            verb: *verb,
            key: b"a",
        };
        if lane.call(text, shape) == Err(Fault::Memory) {
            return Err(AllocError);
        }
    }
    Ok(lane)
}

// Both clients, the second with this end.
fn clients(
    alloc: Global,
    ended: Option<Fault>,
) -> Result<Vec<Played<Lane<MemoryStream>>>, OutOfMemory> {
    let mut played = Vec::new(alloc);
    played.push(Played {
        client: 0,
        lane: lane(
            alloc,
            &[b"NOT_FOUND\r\n", b"END\r\n"],
            &[(Verb::Delete, b"delete a\r\n"), (Verb::Get, b"get a\r\n")],
        )?,
        ended: None,
    })?;
    played.push(Played {
        client: 1,
        lane: lane(alloc, &[b"END\r\n"], &[(Verb::Get, b"get a\r\n")])?,
        ended,
    })?;
    Ok(played)
}

fn notes_of(alloc: Global, steps: &[Step]) -> Result<Vec<(u8, Note)>, OutOfMemory> {
    let mut notes = Vec::new(alloc);
    for step in steps {
        notes.push(note(alloc, *step)?)?;
    }
    Ok(notes)
}

// How many notes the timeline has, if the notes agree with what the clients' lanes recorded.
fn agree(
    alloc: Global,
    steps: &[Step],
    ended: Option<Fault>,
) -> Result<Option<usize>, OutOfMemory> {
    let notes = notes_of(alloc, steps)?;
    let played = clients(alloc, ended)?;
    match agreed(alloc, notes, played.as_slice())? {
        Some(timeline) => Ok(Some(timeline.notes().len())),
        None => Ok(None),
    }
}

#[test]
fn what_lanes_recorded_agrees(rt: HostRuntime) -> Result<(), Fail> {
    let found = match agree(rt.alloc(), &NOTED, None) {
        Err(AllocError) => agree(rt.alloc(), &NOTED, None)?,
        Ok(found) => found,
    };
    assert!(rt; found == Some(NOTED.len()));
    Ok(())
}

#[test]
fn the_order_of_clients_may_be_another(rt: HostRuntime) {
    assert!(rt; agree(rt.alloc(), &OTHER_ORDER, None) == Ok(Some(OTHER_ORDER.len())));
}

#[test]
fn nothing_else_does(rt: HostRuntime) {
    for steps in WRONG {
        assert!(rt; agree(rt.alloc(), steps, None) == Ok(None));
    }
}

#[test]
fn a_fault_that_the_lane_has_not_does_not(rt: HostRuntime) {
    assert!(rt; agree(rt.alloc(), &NOTED, Some(Fault::Ended)) == Ok(None));
}

// What the first client asked, and was answered.
fn asked_first(alloc: Global) -> Result<Vec<Sent>, OutOfMemory> {
    let notes = notes_of(alloc, &NOTED)?;
    sent_by(alloc, 0, notes.as_slice())
}

// Whether these are its requests with their replies.
fn are_of_the_first(sent: &[Sent]) -> bool {
    match sent {
        [first, second] => {
            first.request.verb == Verb::Delete
                && first.reply == Some(Reply::NotFound)
                && second.request.verb == Verb::Get
                && second.reply == Some(Reply::Miss)
        }
        _ => false,
    }
}

#[test]
fn requests_of_one_client_are_found(rt: HostRuntime) -> Result<(), Fail> {
    let sent = match asked_first(rt.alloc()) {
        Err(AllocError) => asked_first(rt.alloc())?,
        Ok(sent) => sent,
    };
    assert!(rt; are_of_the_first(sent.as_slice()));
    Ok(())
}

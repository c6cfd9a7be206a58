//! Timelines that are made note by note, and the first rule that a note breaks.
use crate::notes::{Broken, Line, push_all};
use mc_model::HistoryKind::{NotCleared, Order, TooMany, UnseenNumber, WrongReply};
use mc_timeline::{Timeline, TimelineBuilder};
use mc_words::WordsFault;
use std::alloc::Global;
use std::test::Fail;

/// Notes, and the first that breaks a rule.
static ROWS: &[(&[Line], Broken)] = &[
    (&[], None),
    // a key begins with a delete or a set, and is used from its answer on
    (&[(1, true, "get b")], Some((0, NotCleared))),
    (&[(1, true, "add b 0 =1")], Some((0, NotCleared))),
    (
        &[(1, true, "delete b"), (2, true, "get b")],
        Some((1, NotCleared)),
    ),
    (
        &[
            (1, true, "set b 0 =1"),
            (1, false, "STORED"),
            (2, true, "get b"),
            (2, false, "HIT 0 =1"),
        ],
        None,
    ),
    // one request of a client at a time
    (&[(1, false, "MISS")], Some((0, Order))),
    (
        &[(1, true, "delete a"), (1, true, "delete b")],
        Some((1, Order)),
    ),
    (
        &[(1, true, "delete a"), (2, false, "NOT_FOUND")],
        Some((1, Order)),
    ),
    (
        &[
            (1, true, "delete a"),
            (1, false, "NOT_FOUND"),
            (1, false, "NOT_FOUND"),
        ],
        Some((2, Order)),
    ),
    (&[(63, true, "delete a"), (63, false, "DELETED")], None),
    (&[(64, true, "delete a")], Some((0, TooMany))),
    (&[(64, false, "DELETED")], Some((0, Order))),
    (
        &[(1, true, "delete a"), (1, false, "STORED")],
        Some((1, WrongReply)),
    ),
    // a number may pass from client to client, once a reply showed it
    (
        &[
            (0, true, "delete a"),
            (0, false, "NOT_FOUND"),
            (1, true, "set a 0 =1"),
            (1, false, "STORED"),
            (2, true, "gets a"),
            (2, false, "HIT 0 =1 7"),
            (3, true, "cas a 0 =2 7"),
            (3, false, "STORED"),
        ],
        None,
    ),
    (
        &[
            (0, true, "delete a"),
            (0, false, "NOT_FOUND"),
            (2, true, "gets a"),
            (3, true, "cas a 0 =2 7"),
        ],
        Some((3, UnseenNumber)),
    ),
    (
        &[
            (0, true, "delete a"),
            (0, false, "NOT_FOUND"),
            (1, true, "set a 0 =1"),
            (1, false, "STORED"),
            (1, true, "gets a"),
            (1, false, "HIT 0 =1 0"),
            (2, true, "cas a 0 =2 0"),
            (2, false, "STORED"),
            (2, true, "cas a 0 =2 1"),
        ],
        Some((8, UnseenNumber)),
    ),
    (
        &[
            (0, true, "set a 0 =1"),
            (0, false, "STORED"),
            (0, true, "set b 0 =1"),
            (0, false, "STORED"),
            (1, true, "gets a"),
            (1, false, "HIT 0 =1 7"),
            (2, true, "cas b 0 =2 7"),
        ],
        Some((6, UnseenNumber)),
    ),
];

fn broken_by(alloc: Global, lines: &[Line]) -> Result<Broken, WordsFault> {
    let mut builder = TimelineBuilder::new(alloc);
    push_all(alloc, &mut builder, lines)
}

/// The first of the rows that is answered otherwise.
fn first_other(alloc: Global) -> Result<Option<usize>, WordsFault> {
    for (row, (lines, wanted)) in ROWS.iter().enumerate() {
        if broken_by(alloc, lines)? != *wanted {
            return Ok(Some(row));
        }
    }
    Ok(None)
}

#[test]
fn names_the_first_rule_that_is_broken(rt: HostRuntime) -> Result<(), Fail> {
    assert_eq!(rt; first_other(rt.alloc())?, None);
    Ok(())
}

/// Whether these are the clients of the notes, in order.
fn has_clients(timeline: &Timeline, clients: &[u8]) -> bool {
    let notes = timeline.notes();
    notes.len() == clients.len()
        && notes
            .iter()
            .zip(clients.iter())
            .all(|(note, client)| note.0 == *client)
}

/// Whether a note that is refused changes nothing.
fn is_refused_alone(alloc: Global) -> Result<bool, WordsFault> {
    let mut builder = TimelineBuilder::new(alloc);
    let refused = push_all(
        alloc,
        &mut builder,
        &[(3, true, "set a 0 =1"), (4, true, "get a")],
    )?;
    let added = push_all(
        alloc,
        &mut builder,
        &[(3, false, "STORED"), (4, true, "get a")],
    )?;
    Ok(
        refused == Some((1, NotCleared))
            && added == None
            && has_clients(&builder.finish(), &[3, 3, 4]),
    )
}

#[test]
fn a_refused_note_changes_nothing(rt: HostRuntime) -> Result<(), Fail> {
    assert!(rt; is_refused_alone(rt.alloc())?);
    Ok(())
}

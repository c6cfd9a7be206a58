//! Claims of explanations, right ones and wrong ones.
use crate::notes::{Line, push_all};
use mc_linearize::{TimelineExplanation, TimelineMove, confirm_timeline};
use mc_model::Choice;
use mc_protocol::Bytes;
use mc_timeline::TimelineBuilder;
use mc_words::WordsFault;
use std::alloc::Global;
use std::test::Fail;

/// A key that held something, with its number.
type Start = (&'static [u8], u64);

/// A client whose next request takes effect, and the number of the version that it makes.
type Step = (u8, u64);

/// A claim, and whether it explains the notes.
type Row = (&'static [Start], &'static [Step], bool);

static COUNT_ROWS: &[Row] = &[
    // the order follows from the replies
    (&[], &[(0, 0), (0, 1), (2, 2), (1, 3), (3, 4)], true),
    (&[], &[(0, 0), (0, 1), (1, 2), (2, 3), (3, 4)], false),
    // an answered request is left out, or there are too many moves
    (&[], &[(0, 0), (0, 1), (2, 2), (1, 3)], false),
    (
        &[],
        &[(0, 0), (0, 1), (2, 2), (1, 3), (3, 4), (3, 5)],
        false,
    ),
    (
        &[],
        &[(0, 0), (0, 1), (2, 2), (1, 3), (3, 4), (200, 5)],
        false,
    ),
    // two versions have one number
    (&[], &[(0, 0), (0, 1), (2, 2), (1, 2), (3, 4)], false),
    // nothing was there before the delete
    (
        &[(b"a", 9)],
        &[(0, 0), (0, 1), (2, 2), (1, 3), (3, 4)],
        false,
    ),
    (
        &[(b"b", 9)],
        &[(0, 0), (0, 1), (2, 2), (1, 3), (3, 4)],
        true,
    ),
    // one key twice
    (
        &[(b"b", 9), (b"b", 8)],
        &[(0, 0), (0, 1), (2, 2), (1, 3), (3, 4)],
        false,
    ),
];

static UNANSWERED_ROWS: &[Row] = &[
    // an unanswered request may have taken effect, and then before another one saw that
    (&[], &[(0, 0), (1, 1), (2, 0)], true),
    (&[], &[(0, 0), (2, 0)], false),
    (&[], &[(0, 0), (2, 0), (1, 1)], false),
];

static BEFORE_ROWS: &[Row] = &[
    // a request that was answered before another one began takes effect before it, on another key too
    (&[], &[(0, 0), (1, 1), (2, 2), (3, 0)], true),
    (&[], &[(0, 0), (2, 2), (1, 1), (3, 0)], false),
];

static NUMBER_ROWS: &[Row] = &[
    // a number passes from client to client
    (&[], &[(0, 0), (1, 0), (1, 7), (2, 0), (3, 8)], true),
    (&[], &[(0, 0), (1, 0), (1, 6), (2, 0), (3, 8)], false),
    (&[], &[(0, 0), (1, 0), (1, 7), (2, 0), (3, 7)], false),
];

// Three increments at once.
static COUNTS: &[Line] = &[
    (0, true, "delete a"),
    (0, false, "NOT_FOUND"),
    (0, true, "set a 0 =5"),
    (0, false, "STORED"),
    (1, true, "incr a 1"),
    (2, true, "incr a 1"),
    (3, true, "incr a 1"),
    (1, false, "NUMBER 7"),
    (2, false, "NUMBER 6"),
    (3, false, "NUMBER 8"),
];

static UNANSWERED: &[Line] = &[
    (0, true, "delete a"),
    (0, false, "NOT_FOUND"),
    (1, true, "set a 0 =1"),
    (2, true, "get a"),
    (2, false, "HIT 0 =1"),
];

static BEFORE: &[Line] = &[
    (0, true, "delete a"),
    (0, false, "NOT_FOUND"),
    (1, true, "set a 0 =1"),
    (1, false, "STORED"),
    (2, true, "set b 0 =1"),
    (2, false, "STORED"),
    (3, true, "get a"),
    (3, false, "HIT 0 =1"),
];

static NUMBERS: &[Line] = &[
    (0, true, "delete a"),
    (0, false, "NOT_FOUND"),
    (1, true, "gets a"),
    (1, false, "MISS"),
    (1, true, "set a 0 =1"),
    (1, false, "STORED"),
    (2, true, "gets a"),
    (2, false, "HIT 0 =1 7"),
    (3, true, "cas a 0 =2 7"),
    (3, false, "STORED"),
];

fn explanation(
    alloc: Global,
    start: &[Start],
    steps: &[Step],
) -> Result<TimelineExplanation, WordsFault> {
    let mut held = Vec::new(alloc);
    for (key, number) in start {
        held.push((Bytes::new(Vec::from_slice(alloc, key)?), *number))?;
    }
    let mut moves = Vec::new(alloc);
    let choice = Choice {
        pad: false,
        read: true,
    };
    for (client, number) in steps {
        moves.push(TimelineMove {
            client: *client,
            choice,
            number: *number,
        })?;
    }
    Ok(TimelineExplanation { start: held, moves })
}

fn confirms(
    alloc: Global,
    lines: &[Line],
    start: &[Start],
    steps: &[Step],
) -> Result<bool, WordsFault> {
    let mut builder = TimelineBuilder::new(alloc);
    push_all(alloc, &mut builder, lines)?;
    let timeline = builder.finish();
    let claim = explanation(alloc, start, steps)?;
    Ok(confirm_timeline(alloc, &timeline, &claim)?)
}

fn confirm_as_expected(alloc: Global, lines: &[Line], rows: &[Row]) -> Result<bool, WordsFault> {
    for (start, steps, expected) in rows {
        if confirms(alloc, lines, start, steps)? != *expected {
            return Ok(false);
        }
    }
    Ok(true)
}

#[test]
fn confirms_counts(rt: HostRuntime) -> Result<(), Fail> {
    assert!(rt; confirm_as_expected(rt.alloc(), COUNTS, COUNT_ROWS)?);
    Ok(())
}

#[test]
fn confirms_with_an_unanswered_request(rt: HostRuntime) -> Result<(), Fail> {
    assert!(rt; confirm_as_expected(rt.alloc(), UNANSWERED, UNANSWERED_ROWS)?);
    Ok(())
}

#[test]
fn confirms_in_real_time_order(rt: HostRuntime) -> Result<(), Fail> {
    assert!(rt; confirm_as_expected(rt.alloc(), BEFORE, BEFORE_ROWS)?);
    Ok(())
}

#[test]
fn confirms_numbers(rt: HostRuntime) -> Result<(), Fail> {
    assert!(rt; confirm_as_expected(rt.alloc(), NUMBERS, NUMBER_ROWS)?);
    Ok(())
}

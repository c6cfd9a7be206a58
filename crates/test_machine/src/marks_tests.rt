//! The calls of two scripts, step by step: the smallest race, and one with every mark. A template's index is its request's place
//! among all requests of the script, those that clear the keys first.

use crate::given::Given::*;
use crate::play::{Row, first_odd};
use mc_protocol::Actor::*;
use std::test::Fail;

// Both branches count, by two templates that are equal.
static COUNTER: &[u8] =
    b"script 1\nkeys a\nbudget P 2 26\nbudget A 1 10\nbudget B 1 10\nP\nset a 0 =5\nA\nincr a 1\nB\nincr a 1\nend\n";

static COUNTER_ROWS: &[Row] = &[
    (&[], P, &[], &[(0, 0)], false, [0, 0]),
    (&[Deleted], P, &[], &[(0, 0), (1, 0)], false, [0, 0]),
    (&[NotFound, Stored], P, &[], &[(0, 0), (1, 0)], true, [0, 0]),
    (&[NotFound, Stored], A, &[], &[(2, 1)], false, [0, 0]),
    (
        &[NotFound, Stored],
        A,
        &[Number(6)],
        &[(2, 1)],
        true,
        [0, 0],
    ),
    (
        &[Deleted, NotStored],
        B,
        &[NotNumber],
        &[(3, 1)],
        true,
        [0, 0],
    ),
    // A branch begins once P is done, and takes no reply that its call can't have.
    (
        &[NotFound],
        A,
        &[Number(6)],
        &[(0, 0), (1, 0)],
        false,
        [0, 0],
    ),
    (&[NotFound, Stored], A, &[Stored], &[(2, 1)], false, [0, 0]),
];

#[test]
fn goes_along_the_counter(rt: HostRuntime) -> Result<(), Fail> {
    assert_eq!(rt; first_odd(rt.alloc(), COUNTER, COUNTER_ROWS)?, None);
    Ok(())
}

static EVERY_MARK: &[u8] = b"script 1\nkeys item\nflags ready done late\nvars unique count\n\
    budget P 2 100\nbudget A 2 100\nbudget B 2 100\nP\nset item 0 =5 +ready\n\
    A\ngets item ?ready miss:gone >unique\ncas item 0 =7 $unique exists:gone +done -ready\ngone:\n\
    B\nincr item 1 !late notfound:gone notnumber:gone\nbind count\ndecr item $count\ngone:\nend\n";

static EVERY_MARK_ROWS: &[Row] = &[
    (
        &[Deleted, Stored],
        A,
        &[Unique(9)],
        &[(2, 0), (3, 9)],
        false,
        [9, 0],
    ),
    (
        &[Deleted, Stored],
        A,
        &[Unique(9), Exists],
        &[(2, 0), (3, 9)],
        true,
        [9, 0],
    ),
    (
        &[Deleted, Stored],
        A,
        &[Unique(18_446_744_073_709_551_615), Stored],
        &[(2, 0), (3, 18_446_744_073_709_551_615)],
        true,
        [18_446_744_073_709_551_615, 0],
    ),
    // The jump goes past the bind and the request that needs its number.
    (&[Deleted, Stored], A, &[Miss], &[(2, 0)], true, [0, 0]),
    (
        &[Deleted, Stored],
        B,
        &[Number(6)],
        &[(4, 1), (5, 6)],
        false,
        [0, 6],
    ),
    (
        &[Deleted, Stored],
        B,
        &[Number(6), Number(0)],
        &[(4, 1), (5, 6)],
        true,
        [0, 6],
    ),
    (&[Deleted, Stored], B, &[NotFound], &[(4, 1)], true, [0, 0]),
    (&[Deleted, Stored], B, &[NotNumber], &[(4, 1)], true, [0, 0]),
];

#[test]
fn goes_along_every_mark(rt: HostRuntime) -> Result<(), Fail> {
    assert_eq!(rt; first_odd(rt.alloc(), EVERY_MARK, EVERY_MARK_ROWS)?, None);
    Ok(())
}

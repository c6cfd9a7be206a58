//! Where each class of reply leads, and which number a request takes.

use crate::given::Given::*;
use crate::play::{Row, first_odd};
use mc_protocol::Actor::*;
use std::test::Fail;

// Each request has a jump on each class but one at most, whose replies go on to the next step.
static JUMPS: &[u8] =
    b"script 1\nkeys a\nvars v w\nbudget P 24 8192\nbudget A 24 8192\nbudget B 24 8192\nP\n\
    A\nset a 0 =1 notstored:two exists:three notfound:four\nget a hit:five miss:six\n\
    two:\ndelete a deleted:five notfound:six\nthree:\ntouch a touched:five notfound:six\n\
    four:\nincr a 3 notfound:five notnumber:six >v\nincr a $v\nhalt\n\
    five:\ndecr a 5\nhalt\nsix:\ndecr a 6\nB\nend\n";

static JUMPS_ROWS: &[Row] = &[
    (
        &[Deleted],
        A,
        &[Stored, Hit, Number(1)],
        &[(1, 0), (2, 0), (7, 5)],
        true,
        [0, 0],
    ),
    (
        &[Deleted],
        A,
        &[Stored, Miss, NotFound],
        &[(1, 0), (2, 0), (8, 6)],
        true,
        [0, 0],
    ),
    (
        &[Deleted],
        A,
        &[NotStored, Deleted, NotNumber],
        &[(1, 0), (3, 0), (7, 5)],
        true,
        [0, 0],
    ),
    (
        &[Deleted],
        A,
        &[NotStored, NotFound],
        &[(1, 0), (3, 0), (8, 6)],
        false,
        [0, 0],
    ),
    (
        &[Deleted],
        A,
        &[Exists, Touched],
        &[(1, 0), (4, 0), (7, 5)],
        false,
        [0, 0],
    ),
    (
        &[Deleted],
        A,
        &[Exists, NotFound],
        &[(1, 0), (4, 0), (8, 6)],
        false,
        [0, 0],
    ),
    (
        &[Deleted],
        A,
        &[NotFound, Number(4)],
        &[(1, 0), (5, 3), (6, 4)],
        false,
        [4, 0],
    ),
    (
        &[Deleted],
        A,
        &[NotFound, Number(4), Number(8)],
        &[(1, 0), (5, 3), (6, 4)],
        true,
        [4, 0],
    ),
    (
        &[Deleted],
        A,
        &[NotFound, NotFound],
        &[(1, 0), (5, 3), (7, 5)],
        false,
        [0, 0],
    ),
    (
        &[Deleted],
        A,
        &[NotFound, NotNumber],
        &[(1, 0), (5, 3), (8, 6)],
        false,
        [0, 0],
    ),
    // A section with no instruction but the last is done where it begins.
    (&[Deleted], B, &[Stored], &[], true, [0, 0]),
];

#[test]
fn goes_where_the_class_leads(rt: HostRuntime) -> Result<(), Fail> {
    assert_eq!(rt; first_odd(rt.alloc(), JUMPS, JUMPS_ROWS)?, None);
    Ok(())
}

// The variable takes a number twice, and a second one takes what was shown last.
static BINDS: &[u8] =
    b"script 1\nkeys a b\nvars v w\nbudget P 24 8192\nbudget A 24 8192\nbudget B 24 8192\n\
    P\nincr a 1 notfound:end notnumber:end >w\nend:\n\
    A\ngets a miss:end >v\ncas a 0 =1 $v\ngets b miss:end >w\ngets a miss:end >v\ncas b 0 =2 $w\ncas a 0 =3 $v\nend:\n\
    B\nget a\nend\n";

static BINDS_ROWS: &[Row] = &[
    (
        &[Deleted, Deleted, NotFound],
        A,
        &[Unique(3), Stored, Unique(7), Unique(4), Stored, Exists],
        &[(3, 0), (4, 3), (5, 0), (6, 0), (7, 7), (8, 4)],
        true,
        [4, 7],
    ),
    // The branches begin with the numbers that P had at its end.
    (
        &[Deleted, Deleted, Number(12)],
        B,
        &[],
        &[(9, 0)],
        false,
        [0, 12],
    ),
    (
        &[Deleted, Deleted, Number(12)],
        A,
        &[Unique(3)],
        &[(3, 0), (4, 3)],
        false,
        [3, 12],
    ),
    (
        &[Deleted, Deleted, NotNumber],
        B,
        &[Hit],
        &[(9, 0)],
        true,
        [0, 0],
    ),
];

#[test]
fn takes_the_number_that_was_shown(rt: HostRuntime) -> Result<(), Fail> {
    assert_eq!(rt; first_odd(rt.alloc(), BINDS, BINDS_ROWS)?, None);
    Ok(())
}

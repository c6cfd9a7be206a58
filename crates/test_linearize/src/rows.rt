//! Timelines whose requests have the key `a`, and whether something explains them.
use crate::notes::Line;

/// The lines that follow those of `CLEARED`, and whether an explanation exists.
pub(crate) type Row = (&'static [Line], bool);

pub(crate) static ROWS: &[Row] = &[
    // the order of increments follows from the replies
    (
        &[
            (0, true, "set a 0 =5"),
            (0, false, "STORED"),
            (1, true, "incr a 1"),
            (2, true, "incr a 1"),
            (3, true, "incr a 1"),
            (1, false, "NUMBER 7"),
            (2, false, "NUMBER 6"),
            (3, false, "NUMBER 8"),
        ],
        true,
    ),
    (
        &[
            (0, true, "set a 0 =5"),
            (0, false, "STORED"),
            (1, true, "incr a 1"),
            (2, true, "incr a 1"),
            (3, true, "incr a 1"),
            (1, false, "NUMBER 7"),
            (2, false, "NUMBER 6"),
            (3, false, "NUMBER 7"),
        ],
        false,
    ),
    // a set takes effect once
    (
        &[
            (1, true, "set a 0 =1"),
            (2, true, "set a 0 =2"),
            (3, true, "get a"),
            (3, false, "HIT 0 =1"),
            (4, true, "get a"),
            (4, false, "HIT 0 =2"),
            (5, true, "get a"),
            (5, false, "HIT 0 =1"),
        ],
        false,
    ),
    // a number passes from client to client
    (
        &[
            (1, true, "gets a"),
            (1, false, "MISS"),
            (1, true, "set a 0 =1"),
            (1, false, "STORED"),
            (2, true, "gets a"),
            (2, false, "HIT 0 =1 7"),
            (3, true, "cas a 0 =2 7"),
            (3, false, "STORED"),
        ],
        true,
    ),
    // 0 is a number
    (
        &[
            (1, true, "set a 0 =1"),
            (1, false, "STORED"),
            (1, true, "gets a"),
            (1, false, "HIT 0 =1 0"),
            (2, true, "cas a 0 =2 0"),
            (2, false, "STORED"),
        ],
        true,
    ),
    // a request that was answered before another one began takes effect before it
    (
        &[
            (1, true, "set a 0 =1"),
            (1, false, "STORED"),
            (2, true, "get a"),
            (2, false, "MISS"),
        ],
        false,
    ),
    (
        &[
            (1, true, "set a 0 =1"),
            (2, true, "get a"),
            (1, false, "STORED"),
            (2, false, "MISS"),
        ],
        true,
    ),
    // an unanswered request may have taken effect before another one saw that, but not before it began
    (
        &[
            (1, true, "set a 0 =1"),
            (2, true, "get a"),
            (2, false, "HIT 0 =1"),
        ],
        true,
    ),
    (
        &[
            (2, true, "get a"),
            (2, false, "HIT 0 =1"),
            (1, true, "set a 0 =1"),
        ],
        false,
    ),
];

/// The lines before those of each row.
pub(crate) static CLEARED: &[Line] = &[(0, true, "delete a"), (0, false, "NOT_FOUND")];

//! The ways in which the branches of a run may meet.

use mc_run::Branch::{self, A, B};
use mc_run::Manner::{self, Each, First, Never};
use mc_run::{Late, Meet};

/// Each way to meet.
pub(crate) fn meets() -> [Meet; 10] {
    [
        meet(Each, A, None),
        meet(Each, B, None),
        meet(First, A, None),
        meet(First, B, None),
        meet(Never, A, None),
        meet(Never, B, None),
        meet(Each, A, SOON_A),
        meet(First, A, ASLEEP_B),
        meet(Each, B, ASLEEP_B),
        meet(Never, B, SOON_A),
    ]
}

fn meet(manner: Manner, apart: Branch, late: Option<Late>) -> Meet {
    Meet {
        manner,
        apart,
        late,
    }
}

/// A is late by so little that it doesn't sleep.
const SOON_A: Option<Late> = Some(Late {
    branch: A,
    nanoseconds: 3_000,
});

/// B is late by so much that it sleeps.
const ASLEEP_B: Option<Late> = Some(Late {
    branch: B,
    nanoseconds: 150_000,
});

//! A section with as many instructions as there may be.

use crate::given::Given::*;
use crate::play::{Row, first_odd};
use mc_protocol::Actor::*;
use mc_protocol::OutOfMemory;
use std::alloc::Global;
use std::test::Fail;

// A sends, binds 125 times and sends again; with its end there are 128 instructions.
fn binds_often(alloc: Global) -> Result<Vec<u8>, OutOfMemory> {
    let mut script = Vec::new(alloc);
    script.extend_from_slice(
        b"script 2\nkeys a\nvars v\nbudget P 24 8192\nbudget A 24 8192\nbudget B 24 8192\nP\nA\n",
    )?;
    script.extend_from_slice(b"gets a miss:end >v\n")?;
    for _ in 0..124u8 {
        script.extend_from_slice(b"bind v\n")?;
    }
    script.extend_from_slice(b"cas a 0 =1 $v\nend:\nB\nend\n")?;
    Ok(script)
}

static ROWS: &[Row] = &[
    (
        &[NotFound],
        A,
        &[Unique(5)],
        &[(1, 0), (2, 5)],
        false,
        [5, 0],
    ),
    (
        &[NotFound],
        A,
        &[Unique(5), Stored],
        &[(1, 0), (2, 5)],
        true,
        [5, 0],
    ),
    (&[NotFound], A, &[Miss], &[(1, 0)], true, [0, 0]),
];

#[test]
fn goes_along_128_instructions(rt: HostRuntime) -> Result<(), Fail> {
    let script = binds_often(rt.alloc())?;
    assert_eq!(rt; first_odd(rt.alloc(), script.as_slice(), ROWS)?, None);
    Ok(())
}

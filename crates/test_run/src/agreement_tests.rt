//! Worlds, and lanes that carried the calls of two increments of one counter, or something else.

use crate::agreement_rows::{BOTH, BRANCHES, Branches, PREFIXES};
use crate::carried::{Carried, NOTHING, P_DONE, SEVEN, SIX, lane_after};
use crate::counter::Given::*;
use crate::counter::{Given, checked, counter, events};
use mc_core::{World, drive};
use mc_lane::MemoryStream;
use mc_protocol::Actor::*;
use mc_protocol::{Actor, OutOfMemory};
use mc_run::{Lanes, agrees};
use mc_sound::Checked;
use std::alloc::Global;
use std::test::Fail;

/// A script whose branches add 2.
const BY_TWO: &[u8] = b"script 1\nkeys a\nbudget P 2 26\nbudget A 1 10\nbudget B 1 10\n\
    P\nset a 0 =5\nA\nincr a 2\nB\nincr a 2\nend\n";

/// What is noted until P is done.
const PREFIX: [(Actor, Given); 4] = [(P, Begin), (P, NotFound), (P, Begin), (P, Stored)];

#[test]
fn branches_agree(rt: HostRuntime) -> Result<(), Fail> {
    assert_eq!(rt; first_odd_branches(rt.alloc())?, None);
    Ok(())
}

/// The first row of branches that isn't met.
fn first_odd_branches(alloc: Global) -> Result<Option<usize>, Fail> {
    let counter = counter(alloc)?;
    Ok(first_odd_branches_in(alloc, &counter)?)
}

fn first_odd_branches_in(alloc: Global, counter: &Checked) -> Result<Option<usize>, OutOfMemory> {
    for (index, row) in BRANCHES.iter().enumerate() {
        if agree_as_branches(alloc, counter, counter, row)? != row.3 {
            return Ok(Some(index));
        }
    }
    Ok(None)
}

#[test]
fn prefixes_agree(rt: HostRuntime) -> Result<(), Fail> {
    assert_eq!(rt; first_odd_prefix(rt.alloc())?, None);
    Ok(())
}

/// The first row of prefixes that isn't met.
fn first_odd_prefix(alloc: Global) -> Result<Option<usize>, Fail> {
    let counter = counter(alloc)?;
    Ok(first_odd_prefix_in(alloc, &counter)?)
}

fn first_odd_prefix_in(alloc: Global, counter: &Checked) -> Result<Option<usize>, OutOfMemory> {
    for (index, (steps, p, a, expected)) in PREFIXES.iter().enumerate() {
        let carried = [*p, *a, NOTHING];
        if agree(alloc, counter, counter, steps, carried)? != *expected {
            return Ok(Some(index));
        }
    }
    Ok(None)
}

/// Where both branches are done.
static BOTH_DONE: Branches = (BOTH, SIX, SEVEN, true);

/// A world of one script is no world of another, whatever the lanes carried.
#[test]
fn other_code_does_not_agree(rt: HostRuntime) -> Result<(), Fail> {
    assert!(rt; agrees_with_its_code_alone(rt.alloc())?);
    Ok(())
}

/// Whether the world in which both branches of the counter are done agrees as one of the counter, and doesn't as one of the script that
/// adds 2.
fn agrees_with_its_code_alone(alloc: Global) -> Result<bool, Fail> {
    let counter = counter(alloc)?;
    agrees_with_it_alone(alloc, &counter)
}

fn agrees_with_it_alone(alloc: Global, counter: &Checked) -> Result<bool, Fail> {
    let by_two = checked(alloc, BY_TWO)?;
    let in_other = agree_as_branches(alloc, counter, &by_two, &BOTH_DONE)?;
    Ok(!in_other && agree_as_branches(alloc, counter, counter, &BOTH_DONE)?)
}

/// Whether the world to which the row's events lead in `code` agrees, as one of `other`, with lanes that carried what the row has, where
/// P is done before.
fn agree_as_branches(
    alloc: Global,
    code: &Checked,
    other: &Checked,
    row: &Branches,
) -> Result<bool, OutOfMemory> {
    let (steps, a, b, _) = *row;
    agree_after_prefix(alloc, code, other, steps, [P_DONE, a, b])
}

/// The same as `agree`, where P is done before these events.
fn agree_after_prefix(
    alloc: Global,
    code: &Checked,
    other: &Checked,
    steps: &[(Actor, Given)],
    carried: [Carried; 3],
) -> Result<bool, OutOfMemory> {
    let mut all = Vec::new(alloc);
    all.extend_from_slice(&PREFIX)?;
    all.extend_from_slice(steps)?;
    agree(alloc, code, other, all.as_slice(), carried)
}

/// Whether the world to which these events lead in `code` agrees, as one of `other`, with lanes that carried this.
fn agree(
    alloc: Global,
    code: &Checked,
    other: &Checked,
    steps: &[(Actor, Given)],
    carried: [Carried; 3],
) -> Result<bool, OutOfMemory> {
    let world = world_after(alloc, code, steps)?;
    let lanes = lanes_after(alloc, carried)?;
    agrees(alloc, other, &world, &lanes)
}

/// The world to which these events lead.
fn world_after(
    alloc: Global,
    code: &Checked,
    steps: &[(Actor, Given)],
) -> Result<World, OutOfMemory> {
    let (world, _) = drive(alloc, code, events(alloc, steps)?)?;
    Ok(world)
}

/// The lanes of P, A and B after they carried this.
fn lanes_after(alloc: Global, carried: [Carried; 3]) -> Result<Lanes<MemoryStream>, OutOfMemory> {
    let [p, a, b] = carried;
    Ok(Lanes {
        p: lane_after(alloc, p)?,
        a: lane_after(alloc, a)?,
        b: lane_after(alloc, b)?,
    })
}

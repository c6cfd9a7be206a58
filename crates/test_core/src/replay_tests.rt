//! Worlds that are led by their notes once more, in the code in which they happened or in another.

use crate::given::Given::*;
use crate::given::{Step, checked, driven};
use crate::memory::again;
use crate::scripts::{COUNTER, LONE_BRANCH};
use mc_core::World;
use mc_protocol::Actor::*;
use mc_protocol::{Fault, OutOfMemory};
use mc_sound::Checked;
use std::alloc::Global;
use std::test::Fail;

/// Events of two increments of one counter, and whether they lead to the same world where the second branch does nothing.
type Row = (&'static [Step], bool);

static ROWS: [Row; 5] = [
    (&[], true),
    (&[(P, Begin), (P, NotFound), (P, Begin)], true),
    // events that are refused leave no note
    (&[(A, Begin), (P, Begin), (P, Begin), (P, NotFound)], true),
    // a branch that begins a call, which the other code doesn't make
    (
        &[
            (P, Begin),
            (P, NotFound),
            (P, Begin),
            (P, Stored),
            (A, Begin),
            (B, Begin),
            (A, Number(6)),
            (B, Fail(Fault::Ended)),
        ],
        false,
    ),
    // a branch that fails, which is done in the other code
    (
        &[
            (P, Begin),
            (P, NotFound),
            (P, Begin),
            (P, Stored),
            (B, Fail(Fault::Closed)),
        ],
        false,
    ),
];

#[test]
fn replays_its_notes(rt: HostRuntime) -> Result<(), Fail> {
    assert_eq!(rt; first_odd(rt.alloc())?, None);
    Ok(())
}

/// The first row that isn't met.
fn first_odd(alloc: Global) -> Result<Option<usize>, Fail> {
    let counter = checked(alloc, COUNTER)?;
    first_odd_of(alloc, &counter)
}

fn first_odd_of(alloc: Global, counter: &Checked) -> Result<Option<usize>, Fail> {
    let lone = checked(alloc, LONE_BRANCH)?;
    Ok(first_odd_in(alloc, counter, &lone)?)
}

fn first_odd_in(
    alloc: Global,
    counter: &Checked,
    lone: &Checked,
) -> Result<Option<usize>, OutOfMemory> {
    for (index, (steps, in_other)) in ROWS.iter().enumerate() {
        if replay_after(alloc, counter, lone, steps)? != (true, *in_other) {
            return Ok(Some(index));
        }
    }
    Ok(None)
}

/// Whether the notes of the world after these steps lead to it once more in its own code, and whether they lead to a world in another.
fn replay_after(
    alloc: Global,
    code: &Checked,
    other: &Checked,
    steps: &[Step],
) -> Result<(bool, bool), OutOfMemory> {
    let (world, _) = driven(alloc, code, steps)?;
    replay_of(alloc, code, other, &world)
}

fn replay_of(
    alloc: Global,
    code: &Checked,
    other: &Checked,
    world: &World,
) -> Result<(bool, bool), OutOfMemory> {
    let in_its_own = replays_itself(alloc, code, world)?;
    Ok((in_its_own, again(|| world.replay(alloc, other))?.is_some()))
}

/// Whether the notes of the world lead to it once more.
fn replays_itself(alloc: Global, code: &Checked, world: &World) -> Result<bool, OutOfMemory> {
    match again(|| world.replay(alloc, code))? {
        Some(replayed) => Ok(is_like(&replayed, world)),
        None => Ok(false),
    }
}

/// Whether the two have the same notes, and in each section the same call waits and the same fault is noted.
fn is_like(one: &World, other: &World) -> bool {
    one.notes() == other.notes()
        && [P, A, B].iter().all(|actor| {
            one.waiting(*actor) == other.waiting(*actor) && one.fault(*actor) == other.fault(*actor)
        })
}

/// What ended P, A and B after these steps.
fn faults_after(alloc: Global, steps: &[Step]) -> Result<[Option<Fault>; 3], Fail> {
    let counter = checked(alloc, COUNTER)?;
    let (world, _) = driven(alloc, &counter, steps)?;
    Ok([world.fault(P), world.fault(A), world.fault(B)])
}

#[test]
fn shows_what_ended_a_section(rt: HostRuntime) -> Result<(), Fail> {
    let steps = [
        (P, Begin),
        (P, NotFound),
        (P, Begin),
        (P, Stored),
        (A, Begin),
        (A, Fail(Fault::WriteFailed)),
        (B, Fail(Fault::Memory)),
    ];
    assert_eq!(rt;
        faults_after(rt.alloc(), &steps)?,
        [None, Some(Fault::WriteFailed), Some(Fault::Memory)]
    );
    Ok(())
}

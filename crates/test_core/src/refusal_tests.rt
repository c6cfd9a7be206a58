//! Which events are refused, and for what; and the call that a section may begin.

ghost use Rattle.std.specs.Prelude.{IfOk};
ghost use Rattle.mc_core.specs.Held.{IsHeldBy};

use crate::given::Given::*;
use crate::given::{Step, checked, driven};
use crate::scripts::{COUNTER, LONE_BRANCH};
use mc_core::StepRefusal::*;
use mc_core::{Event, StepRefusal, World};
use mc_protocol::Actor::*;
use mc_protocol::{Actor, Fault, OutOfMemory, Reply};
use mc_sound::Checked;
use std::alloc::{AllocError, Global};
use std::test::Fail;

/// The steps that lead to a world, an event, and what is against it: `None` where it is taken.
type Row = (&'static [Step], Step, Option<StepRefusal>);

/// P of the counter is done.
const DONE: &[Step] = &[(P, Begin), (P, NotFound), (P, Begin), (P, Stored)];

static ROWS: &[Row] = &[
    // before P's first call
    (&[], (P, Begin), None),
    (&[], (P, NotFound), Some(NotWaiting)),
    (&[], (P, Fail(Fault::Ended)), None),
    (&[], (A, Begin), Some(NotYet)),
    (&[], (B, Number(6)), Some(NotYet)),
    (&[], (A, Fail(Fault::Ended)), Some(NotYet)),
    // while P's first call waits, which is the delete of its key
    (&[(P, Begin)], (P, Begin), Some(Waiting)),
    (&[(P, Begin)], (P, NotFound), None),
    (&[(P, Begin)], (P, Stored), Some(WrongReply)),
    (&[(P, Begin)], (P, Fail(Fault::ReadFailed)), None),
    (&[(P, Begin)], (A, Begin), Some(NotYet)),
    // between P's calls
    (&[(P, Begin), (P, NotFound)], (P, Begin), None),
    (
        &[(P, Begin), (P, NotFound)],
        (P, NotFound),
        Some(NotWaiting),
    ),
    (&[(P, Begin), (P, NotFound)], (B, Begin), Some(NotYet)),
    // P is done
    (DONE, (P, Begin), Some(Over)),
    (DONE, (P, Stored), Some(Over)),
    (DONE, (P, Fail(Fault::Ended)), Some(Over)),
    (DONE, (A, Begin), None),
    (DONE, (A, Number(6)), Some(NotWaiting)),
    (DONE, (B, Fail(Fault::Closed)), None),
    // P failed, with a call that waits, and without one
    (&[(P, Fail(Fault::Ended))], (P, Begin), Some(Over)),
    (
        &[(P, Begin), (P, Fail(Fault::Ended))],
        (P, Begin),
        Some(Over),
    ),
    (
        &[(P, Begin), (P, Fail(Fault::Ended))],
        (P, Stored),
        Some(Over),
    ),
    (
        &[(P, Begin), (P, Fail(Fault::Ended))],
        (P, Fail(Fault::Ended)),
        Some(Over),
    ),
    (
        &[(P, Begin), (P, Fail(Fault::Ended))],
        (A, Begin),
        Some(NotYet),
    ),
];

/// What is against an event.
fn refusal_in(world: &mut World, code: &Checked, step: Step) -> Option<StepRefusal>
    requires held { IsHeldBy code.now.code world.old }
{
    let (actor, given) = step;
    match world.step(code, actor, given.event()) {
        Ok(()) => None,
        Err((refusal, _)) => Some(refusal),
    }
}

/// What is against an event after these steps, and how many of them are refused.
fn refusal_after(
    alloc: Global,
    code: &Checked,
    steps: &[Step],
    step: Step,
) -> Result<(u64, Option<StepRefusal>), OutOfMemory> {
    let (mut world, skipped) = driven(alloc, code, steps)?;
    Ok((skipped, refusal_in(&mut world, code, step)))
}

/// The first row that isn't met, where no step that leads to a world is refused.
fn first_odd(alloc: Global, code: &Checked) -> Result<Option<usize>, OutOfMemory> {
    for (index, (steps, step, expected)) in ROWS.iter().enumerate() {
        if refusal_after(alloc, code, steps, *step)? != (0, *expected) {
            return Ok(Some(index));
        }
    }
    Ok(None)
}

#[test]
fn takes_and_refuses(rt: HostRuntime) -> Result<(), Fail> {
    let code = checked(rt.alloc(), COUNTER)?;
    assert_eq!(rt; first_odd(rt.alloc(), &code)?, None);
    Ok(())
}

/// A new world. A call that finds no memory is made once more.
fn start(alloc: Global, code: &Checked) -> Result<World, OutOfMemory>
    ensures held { IfOk result (λ world. IsHeldBy code.now.code world) }
{
    match World::start(alloc, code) {
        Err(AllocError) => World::start(alloc, code),
        world => world,
    }
}

/// Whether a new world refuses an event, hands it back and notes nothing.
fn is_handed_back(alloc: Global, code: &Checked) -> Result<bool, OutOfMemory> {
    let mut world = start(alloc, code)?;
    Ok(hands_back(&mut world, code, 6) && world.notes().is_empty())
}

/// Whether a reply to B with this number is handed back.
fn hands_back(world: &mut World, code: &Checked, number: u64) -> bool
    requires held { IsHeldBy code.now.code world.old }
{
    match world.step(code, B, Event::Reply(Reply::Number(number))) {
        Ok(()) => false,
        Err((_, event)) => event == Event::Reply(Reply::Number(number)),
    }
}

#[test]
fn hands_back_what_it_refuses(rt: HostRuntime) -> Result<(), Fail> {
    let code = checked(rt.alloc(), COUNTER)?;
    assert!(rt; is_handed_back(rt.alloc(), &code)?);
    Ok(())
}

/// The steps that lead to a world, and the call that P, A and B may begin there: the index of its template, and its number.
type UpcomingRow = (&'static [Step], [Option<(u8, u64)>; 3]);

static UPCOMING: &[UpcomingRow] = &[
    (&[], [Some((0, 0)), None, None]),
    (&[(P, Begin)], [None, None, None]),
    (&[(P, Begin), (P, NotFound)], [Some((1, 0)), None, None]),
    (&[(P, Fail(Fault::Ended))], [None, None, None]),
    (DONE, [None, Some((2, 1)), Some((3, 1))]),
    (A_WAITS, [None, None, Some((3, 1))]),
    (A_IS_DONE, [None, None, Some((3, 1))]),
    (A_FAILED, [None, None, Some((3, 1))]),
];

/// The counter after P is done: A's call waits, A is done, and A failed before its call began.
const A_WAITS: &[Step] = &[
    (P, Begin),
    (P, NotFound),
    (P, Begin),
    (P, Stored),
    (A, Begin),
];

const A_IS_DONE: &[Step] = &[
    (P, Begin),
    (P, NotFound),
    (P, Begin),
    (P, Stored),
    (A, Begin),
    (A, Number(6)),
];

const A_FAILED: &[Step] = &[
    (P, Begin),
    (P, NotFound),
    (P, Begin),
    (P, Stored),
    (A, Fail(Fault::Memory)),
];

/// The call that a section may begin.
fn upcoming_in(world: &World, code: &Checked, actor: Actor) -> Option<(u8, u64)>
    requires held { IsHeldBy code.now.code world.now }
{
    let call = world.upcoming(code, actor)?;
    Some((call.template, call.number))
}

/// The calls that P, A and B may begin after these steps.
fn upcoming_after(
    alloc: Global,
    code: &Checked,
    steps: &[Step],
) -> Result<[Option<(u8, u64)>; 3], OutOfMemory> {
    let (world, _) = driven(alloc, code, steps)?;
    Ok([
        upcoming_in(&world, code, P),
        upcoming_in(&world, code, A),
        upcoming_in(&world, code, B),
    ])
}

/// The first row of upcoming calls that isn't met.
fn first_unlike(alloc: Global, code: &Checked) -> Result<Option<usize>, OutOfMemory> {
    for (index, (steps, expected)) in UPCOMING.iter().enumerate() {
        if upcoming_after(alloc, code, steps)? != *expected {
            return Ok(Some(index));
        }
    }
    Ok(None)
}

#[test]
fn tells_the_call_that_may_begin(rt: HostRuntime) -> Result<(), Fail> {
    let code = checked(rt.alloc(), COUNTER)?;
    assert_eq!(rt; first_unlike(rt.alloc(), &code)?, None);
    Ok(())
}

#[test]
fn tells_no_call_of_a_branch_without_any(rt: HostRuntime) -> Result<(), Fail> {
    let code = checked(rt.alloc(), LONE_BRANCH)?;
    let found = upcoming_after(rt.alloc(), &code, DONE)?;
    assert_eq!(rt; found, [None, Some((2, 1)), None]);
    Ok(())
}

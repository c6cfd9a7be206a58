//! That the branches of a run go on at once, in threads of their own, and that their calls are noted when they are made.

ghost use Rattle.std.specs.Prelude.{IfOk};
ghost use Rattle.mc_run.specs.Running.{AreNew, IsNew};

use crate::counter::counter;
use crate::lanes::{NEVER, Served, lanes, run, stream};
use mc_core::{Ending, Event, World};
use mc_lane::{Lane, MemoryStream};
use mc_protocol::{Actor, OutOfMemory, Reply};
use mc_run::{FreeGate, Gate, Lanes};
use mc_sound::Checked;
use std::alloc::Global;
use std::sync::Wait;
use std::test::Fail;
use std::thread::Threads;
use test_support::{Signal, WaitingStream};

/// What the server answers to P, and the replies to an increment that is the first or the second.
static TO_PREFIX: Served = (&[b"NOT_FOUND\r\n", b"STORED\r\n"], NEVER);

static SIX: Served = (&[b"6\r\n"], NEVER);

static SEVEN: Served = (&[b"7\r\n"], NEVER);

/// A gate that holds A's first call until B's first call has passed.
#[derive(Drop)]
struct BFirst {
    b_passed: Signal,
    missed: Signal,
}

impl Gate for BFirst {
    fn before(&self, actor: Actor, call: u32) {
        if (actor, call) == (Actor::A, 0) {
            self.b_passed.wait(&self.missed);
        }
    }

    fn after(&self, actor: Actor, call: u32) {
        if (actor, call) == (Actor::B, 0) {
            self.b_passed.raise();
        }
    }
}

impl BFirst {
    fn new() -> BFirst {
        BFirst {
            b_passed: Signal::new(),
            missed: Signal::new(),
        }
    }
}

#[test]
fn goes_on_while_a_gate_holds_the_other_branch(rt: HostRuntime) -> Result<(), Fail> {
    assert!(rt; goes_on_at_a_gate(&rt, rt.alloc())?);
    Ok(())
}

/// Whether all sections are done where A is held until B's call has passed, and no thread waits for too long.
fn goes_on_at_a_gate<R: Threads + Wait + Sync>(rt: &R, alloc: Global) -> Result<bool, Fail> {
    let counter = counter(alloc)?;
    run_in_time(rt, alloc, &counter)
}

fn run_in_time<R: Threads + Wait + Sync>(
    rt: &R,
    alloc: Global,
    counter: &Checked,
) -> Result<bool, Fail> {
    let gate = BFirst::new();
    let done = run_both(rt, alloc, counter, &gate)?;
    Ok(done && !gate.missed.is_raised())
}

/// Whether all sections are done where this gate is passed, and B's increment is the first.
fn run_both<R: Threads + Wait + Sync>(
    rt: &R,
    alloc: Global,
    counter: &Checked,
    gate: &BFirst,
) -> Result<bool, Fail> {
    let given = lanes(alloc, &[TO_PREFIX, SEVEN, SIX])?;
    let run = run(rt, alloc, counter, given, gate)?;
    Ok(are_done(&run.world))
}

/// What happens in the threads of a run with waiting streams.
#[derive(Drop)]
struct Signals {
    p_written: Signal,
    a_written: Signal,
    b_written: Signal,
    b_passed: Signal,
    missed: Signal,
}

impl Signals {
    fn new() -> Signals {
        Signals {
            p_written: Signal::new(),
            a_written: Signal::new(),
            b_written: Signal::new(),
            b_passed: Signal::new(),
            missed: Signal::new(),
        }
    }
}

#[test]
fn goes_on_while_the_other_branch_is_read(rt: HostRuntime) -> Result<(), Fail> {
    assert!(rt; goes_on_crosswise(&rt, rt.alloc())?);
    Ok(())
}

/// Whether all sections are done where each branch waits for the other, and no thread waits for too long.
fn goes_on_crosswise<R: Threads + Wait + Sync>(rt: &R, alloc: Global) -> Result<bool, Fail> {
    let counter = counter(alloc)?;
    run_crosswise_in_time(rt, alloc, &counter)
}

fn run_crosswise_in_time<R: Threads + Wait + Sync>(
    rt: &R,
    alloc: Global,
    counter: &Checked,
) -> Result<bool, Fail> {
    let signals = Signals::new();
    let done = run_crosswise(rt, alloc, counter, &signals)?;
    Ok(done && !signals.missed.is_raised())
}

/// Whether all sections are done where each branch's stream is read once the other's was written to.
fn run_crosswise<R: Threads + Wait + Sync>(
    rt: &R,
    alloc: Global,
    counter: &Checked,
    signals: &Signals,
) -> Result<bool, Fail> {
    let given = waiting_lanes(alloc, signals, &signals.b_written)?;
    let run = run(rt, alloc, counter, given, &FreeGate)?;
    Ok(are_done(&run.world))
}

/// A gate that tells when B's first call has passed.
#[derive(Drop)]
struct TellsOfB<'s>(&'s Signal);

impl<'s> Gate for TellsOfB<'s> {
    fn before(&self, _actor: Actor, _call: u32) {}

    fn after(&self, actor: Actor, call: u32) {
        if (actor, call) == (Actor::B, 0) {
            self.0.raise();
        }
    }
}

#[test]
fn notes_that_a_call_begins_before_its_reply_is_read(rt: HostRuntime) -> Result<(), Fail> {
    assert!(rt; notes_in_order(&rt, rt.alloc())?);
    Ok(())
}

/// Whether all sections are done, and A's call was noted to begin before B's reply was, where B's stream is read once A's was written
/// to, and A's once B's reply was noted; and no thread waits for too long.
fn notes_in_order<R: Threads + Wait + Sync>(rt: &R, alloc: Global) -> Result<bool, Fail> {
    let counter = counter(alloc)?;
    notes_in_time(rt, alloc, &counter)
}

fn notes_in_time<R: Threads + Wait + Sync>(
    rt: &R,
    alloc: Global,
    counter: &Checked,
) -> Result<bool, Fail> {
    let signals = Signals::new();
    let are_in_order = run_until_b_passed(rt, alloc, counter, &signals)?;
    Ok(are_in_order && !signals.missed.is_raised())
}

fn run_until_b_passed<R: Threads + Wait + Sync>(
    rt: &R,
    alloc: Global,
    counter: &Checked,
    signals: &Signals,
) -> Result<bool, Fail> {
    let given = waiting_lanes(alloc, signals, &signals.b_passed)?;
    let gate = TellsOfB(&signals.b_passed);
    let run = run(rt, alloc, counter, given, &gate)?;
    Ok(are_done(&run.world) && begins_before(&run.world))
}

/// Whether it was noted that A's call begins before B's reply was.
fn begins_before(world: &World) -> bool {
    let begun = world
        .notes()
        .iter()
        .position(|noted| *noted == (Actor::A, Event::Begin));
    let replied = world.notes().iter().position(|noted| *noted
        == (Actor::B, Event::Reply(Reply::Number(7))));
    begun.is_some() && begun < replied
}

/// New lanes, over streams that tell when they are written to. B's is read once A's was written to, and A's after the signal.
fn waiting_lanes<'s>(
    alloc: Global,
    signals: &'s Signals,
    until: &'s Signal,
) -> Result<Lanes<WaitingStream<'s, MemoryStream>>, OutOfMemory>
    ensures { IfOk result AreNew }
{
    let (to_p, to_a, to_b) = (&signals.p_written, &signals.a_written, &signals.b_written);
    Ok(Lanes {
        p: lane(alloc, TO_PREFIX, to_p, to_p, signals)?,
        a: lane(alloc, SIX, to_a, until, signals)?,
        b: lane(alloc, SEVEN, to_b, to_a, signals)?,
    })
}

/// A new lane over a stream that tells when it is written to, and is read only after a signal.
fn lane<'s>(
    alloc: Global,
    served: Served,
    written: &'s Signal,
    until: &'s Signal,
    signals: &'s Signals,
) -> Result<Lane<WaitingStream<'s, MemoryStream>>, OutOfMemory>
    ensures { IfOk result IsNew }
{
    let stream = WaitingStream {
        inner: stream(alloc, served)?,
        written,
        until,
        missed: &signals.missed,
    };
    Ok(Lane::new(alloc, stream, 1_000))
}

/// Whether all sections came to their ends.
fn are_done(world: &World) -> bool {
    [Actor::P, Actor::A, Actor::B]
        .iter()
        .all(|actor| world.ending(*actor) == Ending::Done)
}

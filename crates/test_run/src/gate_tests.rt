//! What passes the gate of a run: each call of each section by its own number, before and after, and where it fails too.

ghost use Rattle.std.specs.Prelude.{IfOk};
ghost use Rattle.mc_run.specs.Running.{AreNew, IsNew};

use crate::counter::{checked, counter};
use crate::lanes::{NEVER, Served, endings, lanes, run, stream};
use Ending::{Done, Failed, NotBegun};
use mc_core::{Ending, Event, World};
use mc_lane::{Lane, MemoryStream};
use mc_protocol::{Actor, Fault, OutOfMemory, Reply};
use mc_run::{Gate, Lanes};
use mc_sound::Checked;
use std::alloc::Global;
use std::sync::Wait;
use std::sync::atomic::{AtomicU64, Ordering};
use std::test::Fail;
use std::thread::Threads;
use test_support::{Signal, WaitingStream};

/// P deletes, stores and reads, and each branch adds 1 three times.
const THREE_CALLS: &[u8] = b"script 1\nkeys a\nbudget P 3 33\nbudget A 3 30\nbudget B 3 30\n\
    P\nset a 0 =5\nget a\nA\nincr a 1\nincr a 1\nincr a 1\nB\nincr a 1\nincr a 1\nincr a 1\nend\n";

/// What the server answers to P, and to a branch.
const TO_P: &[&[u8]] = &[
    b"NOT_FOUND\r\n",
    b"STORED\r\n",
    b"VALUE a 0 1\r\n5\r\nEND\r\n",
];

const TO_BRANCH: &[&[u8]] = &[b"6\r\n", b"7\r\n", b"8\r\n"];

const P: Served = (TO_P, NEVER);

const BRANCH: Served = (TO_BRANCH, NEVER);

/// A gate that keeps what passes it, in two digits each: `b` before a call and `a` after it, and then the number of the call.
#[derive(Drop)]
struct Passed {
    p: AtomicU64,
    a: AtomicU64,
    b: AtomicU64,
}

impl Passed {
    fn new() -> Passed {
        Passed {
            p: AtomicU64::new(0),
            a: AtomicU64::new(0),
            b: AtomicU64::new(0),
        }
    }

    /// What passed of this section.
    fn of(&self, actor: Actor) -> &AtomicU64 {
        match actor {
            Actor::P => &self.p,
            Actor::A => &self.a,
            Actor::B => &self.b,
        }
    }

    /// Keeps two digits more. One thread alone does this for a section at a time.
    fn keep(&self, actor: Actor, digits: u64) {
        let passed = self.of(actor);
        let before = passed.load(Ordering::SeqCst);
        passed.store((before << 8) | digits, Ordering::SeqCst);
    }

    /// What passed of P, A and B.
    fn all(&self) -> [u64; 3] {
        [Actor::P, Actor::A, Actor::B].map(|actor| self.of(actor).load(Ordering::SeqCst))
    }
}

impl Gate for Passed {
    fn before(&self, actor: Actor, call: u32) {
        self.keep(actor, 0xb0 | u64::from(call));
    }

    fn after(&self, actor: Actor, call: u32) {
        self.keep(actor, 0xa0 | u64::from(call));
    }
}

/// What passes of a section that makes one call, two and three.
const ONE: u64 = 0xb0a0;

const TWO: u64 = 0xb0a0_b1a1;

const THREE: u64 = 0xb0a0_b1a1_b2a2;

/// What is served to P, A and B, how the sections end, and what of them passes the gate.
struct Row {
    p: Served,
    a: Served,
    b: Served,
    ended: [Ending; 3],
    passed: [u64; 3],
}

static ROWS: &[Row] = &[
    Row {
        p: P,
        a: BRANCH,
        b: BRANCH,
        ended: [Done, Done, Done],
        passed: [THREE, THREE, THREE],
    },
    // the last call of a section fails: its write, its read, and by what comes
    Row {
        p: P,
        a: (TO_BRANCH, 5),
        b: BRANCH,
        ended: [Done, Failed(Fault::WriteFailed), Done],
        passed: [THREE, THREE, THREE],
    },
    Row {
        p: P,
        a: BRANCH,
        b: (TO_BRANCH, 6),
        ended: [Done, Done, Failed(Fault::ReadFailed)],
        passed: [THREE, THREE, THREE],
    },
    Row {
        p: P,
        a: (&[b"6\r\n", b"7\r\n", b"8x\r\n"], NEVER),
        b: BRANCH,
        ended: [Done, Failed(Fault::BadReply), Done],
        passed: [THREE, THREE, THREE],
    },
    // an earlier one does
    Row {
        p: P,
        a: (&[b"6\r\n"], NEVER),
        b: (TO_BRANCH, 1),
        ended: [Done, Failed(Fault::Ended), Failed(Fault::WriteFailed)],
        passed: [THREE, TWO, ONE],
    },
    // one of P does, and no branch begins
    Row {
        p: (TO_P, 4),
        a: BRANCH,
        b: BRANCH,
        ended: [Failed(Fault::ReadFailed), NotBegun, NotBegun],
        passed: [TWO, 0, 0],
    },
];

#[test]
fn each_call_passes_by_its_number(rt: HostRuntime) -> Result<(), Fail> {
    assert_eq!(rt; first_odd(&rt, rt.alloc())?, None);
    Ok(())
}

/// The first row that a run doesn't fit, with how its sections end and what passes the gate.
fn first_odd<R: Threads + Wait + Sync>(
    rt: &R,
    alloc: Global,
) -> Result<Option<(usize, [Ending; 3], [u64; 3])>, Fail> {
    let code = checked(alloc, THREE_CALLS)?;
    first_odd_of(rt, alloc, &code)
}

fn first_odd_of<R: Threads + Wait + Sync>(
    rt: &R,
    alloc: Global,
    code: &Checked,
) -> Result<Option<(usize, [Ending; 3], [u64; 3])>, Fail> {
    for (number, row) in ROWS.iter().enumerate() {
        let found = run_through(rt, alloc, code, row)?;
        if found != (row.ended, row.passed) {
            return Ok(Some((number, found.0, found.1)));
        }
    }
    Ok(None)
}

/// How the sections end of a run over the row's streams, and what passes the gate.
fn run_through<R: Threads + Wait + Sync>(
    rt: &R,
    alloc: Global,
    code: &Checked,
    row: &Row,
) -> Result<([Ending; 3], [u64; 3]), Fail> {
    let gate = Passed::new();
    let given = lanes(alloc, &[row.p, row.a, row.b])?;
    let run = run(rt, alloc, code, given, &gate)?;
    Ok((endings(&run), gate.all()))
}

/// A gate that holds A behind its call until B's has passed.
#[derive(Drop)]
struct HoldsA {
    written: Signal,
    a_passes: Signal,
    b_passed: Signal,
    missed: Signal,
}

impl HoldsA {
    fn new() -> HoldsA {
        HoldsA {
            written: Signal::new(),
            a_passes: Signal::new(),
            b_passed: Signal::new(),
            missed: Signal::new(),
        }
    }
}

impl Gate for HoldsA {
    fn before(&self, _actor: Actor, _call: u32) {}

    fn after(&self, actor: Actor, _call: u32) {
        match actor {
            Actor::P => {}
            Actor::A => {
                self.a_passes.raise();
                self.b_passed.wait(&self.missed);
            }
            Actor::B => self.b_passed.raise(),
        }
    }
}

#[test]
fn passes_once_a_fault_is_noted(rt: HostRuntime) -> Result<(), Fail> {
    assert!(rt; notes_the_fault_first(&rt, rt.alloc())?);
    Ok(())
}

/// Whether A's fault is noted before B's reply, where B's stream is read once A is behind its call, and A is held there until B's reply
/// is noted; and no thread waits for too long.
fn notes_the_fault_first<R: Threads + Wait + Sync>(rt: &R, alloc: Global) -> Result<bool, Fail> {
    let counter = counter(alloc)?;
    fails_in_time(rt, alloc, &counter)
}

fn fails_in_time<R: Threads + Wait + Sync>(
    rt: &R,
    alloc: Global,
    counter: &Checked,
) -> Result<bool, Fail> {
    let gate = HoldsA::new();
    let is_first = run_with_a_fault(rt, alloc, counter, &gate)?;
    Ok(is_first && !gate.missed.is_raised())
}

fn run_with_a_fault<R: Threads + Wait + Sync>(
    rt: &R,
    alloc: Global,
    counter: &Checked,
    gate: &HoldsA,
) -> Result<bool, Fail> {
    let given = waiting_lanes(alloc, gate)?;
    let run = run(rt, alloc, counter, given, gate)?;
    Ok(fails_before(&run.world))
}

/// Whether A's fault was noted before B's reply.
fn fails_before(world: &World) -> bool {
    let failed = world
        .notes()
        .iter()
        .position(|noted| *noted == (Actor::A, Event::Fail(Fault::Ended)));
    let replied = world.notes().iter().position(|noted| *noted
        == (Actor::B, Event::Reply(Reply::Number(6))));
    failed.is_some() && failed < replied
}

/// New lanes, of which A's ends at once, and B's is read once A is behind its call.
fn waiting_lanes<'s>(
    alloc: Global,
    gate: &'s HoldsA,
) -> Result<Lanes<WaitingStream<'s, MemoryStream>>, OutOfMemory>
    ensures { IfOk result AreNew }
{
    Ok(Lanes {
        p: lane(alloc, P, &gate.written, gate)?,
        a: lane(alloc, (&[], NEVER), &gate.written, gate)?,
        b: lane(alloc, BRANCH, &gate.a_passes, gate)?,
    })
}

/// A new lane over a stream that is read only after the signal.
fn lane<'s>(
    alloc: Global,
    served: Served,
    until: &'s Signal,
    gate: &'s HoldsA,
) -> Result<Lane<WaitingStream<'s, MemoryStream>>, OutOfMemory>
    ensures { IfOk result IsNew }
{
    let stream = WaitingStream {
        inner: stream(alloc, served)?,
        written: &gate.written,
        until,
        missed: &gate.missed,
    };
    Ok(Lane::new(alloc, stream, 1_000))
}

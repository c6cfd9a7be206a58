//! What the runs of these tests have: lanes over streams in memory, and a gate that both branches come to.

ghost use Rattle.std.specs.Prelude.{◌≡◌, IfOk, Ok};
ghost use Rattle.mc_core.specs.Held.{IsHeldBy};
ghost use Rattle.mc_lane.specs.{MemoryStreams.state_of, Streams.CanFail};
ghost use Rattle.mc_run.specs.Running.{AreNew, IsNew};

use core::thread::Stack;
use mc_core::Ending;
use mc_lane::{Lane, MemoryStream, Stream};
use mc_protocol::{Actor, Fault, OutOfMemory};
use mc_run::{FreeGate, Gate, Lanes, Meet, Run, RunError, run_lanes, run_lanes_with};
use mc_sound::Checked;
use std::alloc::{AllocError, Global};
use std::sync::Wait;
use std::thread::Threads;
use test_support::Signal;

/// What a server answers over one lane, in pieces, and the call of its stream that fails, where reads and writes are counted
/// together from 1.
pub(crate) type Served = (&'static [&'static [u8]], u64);

/// A call that is never made.
pub(crate) const NEVER: u64 = u64::MAX;

/// A stream in memory of a server.
pub(crate) fn stream(alloc: Global, served: Served) -> Result<MemoryStream, OutOfMemory>
    ensures { IfOk result (λ stream. CanFail (state_of stream)) }
{
    let (pieces, failing_call) = served;
    Ok(MemoryStream::new(alloc, pieces, 64)?.with_failure_at(failing_call.max(1)))
}

/// A new lane over it.
fn lane(alloc: Global, served: Served) -> Result<Lane<MemoryStream>, OutOfMemory>
    ensures { IfOk result IsNew }
{
    Ok(Lane::new(alloc, stream(alloc, served)?, 1_000))
}

/// The lanes of P, A and B, in this order.
pub(crate) fn lanes(alloc: Global, served: &[Served; 3]) -> Result<Lanes<MemoryStream>, OutOfMemory>
    ensures { IfOk result AreNew }
{
    let [p, a, b] = *served;
    Ok(Lanes {
        p: lane(alloc, p)?,
        a: lane(alloc, a)?,
        b: lane(alloc, b)?,
    })
}

/// Runs code over these lanes.
pub(crate) fn run<S: Stream + Send, G: Gate, R: Threads + Wait + Sync>(
    rt: &R,
    alloc: Global,
    checked: &Checked,
    lanes: Lanes<S>,
    gate: &G,
) -> Result<Run<S>, RunError>
    requires { AreNew lanes }
    ensures { IfOk result (λ run. IsHeldBy checked.now.code run.world) }
{
    with_memory(run_lanes(rt, alloc, checked, lanes, gate))
}

/// The same, where the branches meet in this way.
pub(crate) fn run_meeting<S: Stream + Send, G: Gate, R: Threads + Wait + Sync>(
    rt: &R,
    alloc: Global,
    checked: &Checked,
    lanes: Lanes<S>,
    gate: &G,
    meet: Meet,
) -> Result<Run<S>, RunError>
    requires { AreNew lanes }
    ensures { IfOk result (λ run. IsHeldBy checked.now.code run.world) }
{
    let found = run_lanes_with(rt, alloc, checked, lanes, gate, Stack::new(), meet);
    if matches!(found, Err(RunError::NoThread)) {
        return Err(RunError::OutOfMemory);
    }
    let (run, _) = found?;
    with_memory(Ok(run))
}

/// Runs code over lanes that are served so. A run consumes its lanes: if it finds no memory, it is made once more over new ones.
pub(crate) fn run_served<R: Threads + Wait + Sync>(
    rt: &R,
    alloc: Global,
    checked: &Checked,
    served: &[Served; 3],
) -> Result<Run<MemoryStream>, RunError>
    ensures { IfOk result (λ run. IsHeldBy checked.now.code run.world) }
{
    match run(rt, alloc, checked, lanes(alloc, served)?, &FreeGate) {
        Err(RunError::OutOfMemory) => run(rt, alloc, checked, lanes(alloc, served)?, &FreeGate),
        found => found,
    }
}

/// The same, where the branches meet in this way.
pub(crate) fn run_served_meeting<R: Threads + Wait + Sync>(
    rt: &R,
    alloc: Global,
    checked: &Checked,
    served: &[Served; 3],
    meet: Meet,
) -> Result<Run<MemoryStream>, RunError>
    ensures { IfOk result (λ run. IsHeldBy checked.now.code run.world) }
{
    match run_meeting(rt, alloc, checked, lanes(alloc, served)?, &FreeGate, meet) {
        Err(RunError::OutOfMemory) => {
            run_meeting(rt, alloc, checked, lanes(alloc, served)?, &FreeGate, meet)
        }
        found => found,
    }
}

/// The run that was found. That memory ran out in a section, or that there was no thread, is want of memory too: none of these tests
/// expects it.
fn with_memory<S: Stream>(found: Result<Run<S>, RunError>) -> Result<Run<S>, RunError>
    ensures { IfOk result (λ run. found ≡ Ok run) }
{
    match found {
        Err(RunError::NoThread) => Err(RunError::OutOfMemory),
        Err(error) => Err(error),
        Ok(run) => {
            has_memory(&run)?;
            Ok(run)
        }
    }
}

/// An error where memory ran out in a section.
pub(crate) fn has_memory<S: Stream>(run: &Run<S>) -> Result<(), AllocError> {
    for actor in [Actor::P, Actor::A, Actor::B] {
        if run.world.ending(actor) == Ending::Failed(Fault::Memory) {
            return Err(AllocError);
        }
    }
    Ok(())
}

/// How the sections of a run stand.
pub(crate) fn endings(run: &Run<MemoryStream>) -> [Ending; 3] {
    [Actor::P, Actor::A, Actor::B].map(|actor| run.world.ending(actor))
}

/// A gate that holds the first call of each branch until both have come to it.
#[derive(Drop)]
pub(crate) struct BothBegin {
    a: Signal,
    b: Signal,
    /// A thread waited for too long.
    pub(crate) missed: Signal,
}

impl BothBegin {
    pub(crate) fn new() -> BothBegin {
        BothBegin {
            a: Signal::new(),
            b: Signal::new(),
            missed: Signal::new(),
        }
    }
}

impl Gate for BothBegin {
    fn before(&self, actor: Actor, call: u32) {
        match (actor, call) {
            (Actor::A, 0) => {
                self.a.raise();
                self.b.wait(&self.missed);
            }
            (Actor::B, 0) => {
                self.b.raise();
                self.a.wait(&self.missed);
            }
            _ => {}
        }
    }

    fn after(&self, _actor: Actor, _call: u32) {}
}

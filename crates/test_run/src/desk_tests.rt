//! Runs of which one branch runs on a thread that is kept.

use crate::counter::counter;
use crate::lanes::{BothBegin, NEVER, Served, endings, has_memory, lanes};
use crate::meet_tests::{TO_BOTH, have_incremented};
use crate::meets::meets;
use Ending::{Done, Failed, NotBegun};
use mc_core::Ending;
use mc_lane::MemoryStream;
use mc_protocol::Fault;
use mc_run::{Desk, FreeGate, Gate, Meet, Run, RunError};
use mc_sound::Checked;
use mc_trial::play_beside;
use std::alloc::{AllocError, Global};
use std::sync::{Arc, Wait};
use std::test::Fail;
use std::thread::{self, Threads};

/// The most turns in which a history is judged.
const LIMIT: u64 = 1_000;

/// What is served where P's first write fails.
static TO_NO_PREFIX: [Served; 3] = [(&[], 1), (&[], NEVER), (&[], NEVER)];

type Code = Arc<Checked, Global>;

#[test]
fn plays_one_run_after_the_other_over_a_desk(rt: HostRuntime) -> Result<(), Fail> {
    assert_eq!(rt; first_odd(&rt, rt.alloc(), 10)?, None);
    Ok(())
}

#[test]
fn plays_over_a_desk(rt: HostRuntime) -> Result<(), Fail> {
    assert_eq!(rt; first_odd(&rt, rt.alloc(), 2)?, None);
    Ok(())
}

/// The first of this many ways to meet in which a run over a desk, or the next one, whose P fails, ends in another way than it should.
fn first_odd<R: Threads + Wait + Sync>(
    rt: &R,
    alloc: Global,
    ways: usize,
) -> Result<Option<Meet>, Fail> {
    let code = Arc::new(alloc, counter(alloc)?)?;
    let (desk, second) = Desk::new(alloc)?;
    thread::scope(
        thread::scope_env(),
        rt,
        move |scope| -> Result<Option<Meet>, Fail> {
            let serve = move || second.serve(rt, alloc, &FreeGate);
            if scope.spawn(serve).is_err() {
                return Err(AllocError.into());
            }
            first_odd_over(rt, alloc, &code, &desk, ways)
        },
    )
}

fn first_odd_over<R: Wait>(
    rt: &R,
    alloc: Global,
    code: &Code,
    desk: &Desk<MemoryStream>,
    ways: usize,
) -> Result<Option<Meet>, Fail> {
    let all = meets();
    for meet in all.iter().take(ways) {
        if !(counts(rt, alloc, code, desk, *meet)? && fails(rt, alloc, code, desk, *meet)?) {
            return Ok(Some(*meet));
        }
    }
    Ok(None)
}

/// Whether both branches send their increments, and each gets what its server answers.
fn counts<R: Wait>(
    rt: &R,
    alloc: Global,
    code: &Code,
    desk: &Desk<MemoryStream>,
    meet: Meet,
) -> Result<bool, Fail> {
    let run = played(rt, alloc, code, &TO_BOTH, &FreeGate, desk, meet)?;
    Ok(have_incremented(&run.lanes) && endings(&run) == [Done, Done, Done])
}

/// Whether no branch begins where P fails.
fn fails<R: Wait>(
    rt: &R,
    alloc: Global,
    code: &Code,
    desk: &Desk<MemoryStream>,
    meet: Meet,
) -> Result<bool, Fail> {
    let run = played(rt, alloc, code, &TO_NO_PREFIX, &FreeGate, desk, meet)?;
    Ok(endings(&run) == [Failed(Fault::WriteFailed), NotBegun, NotBegun])
}

#[test]
fn branches_run_at_once_over_a_desk(rt: HostRuntime) -> Result<(), Fail> {
    assert_eq!(rt; first_in_turn(&rt, rt.alloc())?, None);
    Ok(())
}

/// The first way to meet in which a branch doesn't begin while the other one is held in its first call.
fn first_in_turn<R: Threads + Wait + Sync>(rt: &R, alloc: Global) -> Result<Option<Meet>, Fail> {
    let code = Arc::new(alloc, counter(alloc)?)?;
    let all = meets();
    for meet in &all {
        let gate = BothBegin::new();
        if !begin_at_once(rt, alloc, &code, &gate, *meet)? || gate.missed.is_raised() {
            return Ok(Some(*meet));
        }
    }
    Ok(None)
}

/// Whether a run over a new desk comes to its end.
fn begin_at_once<R: Threads + Wait + Sync>(
    rt: &R,
    alloc: Global,
    code: &Code,
    gate: &BothBegin,
    meet: Meet,
) -> Result<bool, Fail> {
    let (desk, second) = Desk::new(alloc)?;
    thread::scope(
        thread::scope_env(),
        rt,
        move |scope| -> Result<bool, Fail> {
            let serve = move || second.serve(rt, alloc, gate);
            if scope.spawn(serve).is_err() {
                return Err(AllocError.into());
            }
            let run = played(rt, alloc, code, &TO_BOTH, gate, &desk, meet)?;
            Ok(endings(&run) == [Done, Done, Done])
        },
    )
}

#[test]
fn has_no_run_where_the_thread_has_stopped(rt: HostRuntime) -> Result<(), Fail> {
    assert_eq!(rt; first_alone(&rt, rt.alloc())?, None);
    Ok(())
}

/// The first way to meet in which there is a run, though nobody serves the desk.
fn first_alone<R: Threads + Wait>(rt: &R, alloc: Global) -> Result<Option<Meet>, Fail> {
    let code = Arc::new(alloc, counter(alloc)?)?;
    let (desk, second) = Desk::new(alloc)?;
    drop(second);
    let all = meets();
    for meet in &all {
        match played(rt, alloc, &code, &TO_BOTH, &FreeGate, &desk, *meet) {
            Err(RunError::NoThread) => {}
            Err(RunError::OutOfMemory) => return Err(AllocError.into()),
            _ => return Ok(Some(*meet)),
        }
    }
    Ok(None)
}

/// The run over lanes that are served so. A run consumes its lanes: if it finds no memory, it is made once more over new ones.
fn played<G: Gate, R: Wait>(
    rt: &R,
    alloc: Global,
    code: &Code,
    served: &[Served; 3],
    gate: &G,
    desk: &Desk<MemoryStream>,
    meet: Meet,
) -> Result<Run<MemoryStream>, RunError> {
    match play(rt, alloc, code, served, gate, desk, meet) {
        Err(RunError::OutOfMemory) => play(rt, alloc, code, served, gate, desk, meet),
        found => found,
    }
}

fn play<G: Gate, R: Wait>(
    rt: &R,
    alloc: Global,
    code: &Code,
    served: &[Served; 3],
    gate: &G,
    desk: &Desk<MemoryStream>,
    meet: Meet,
) -> Result<Run<MemoryStream>, RunError> {
    let lanes = lanes(alloc, served)?;
    let run = play_beside(rt, alloc, code, lanes, gate, desk, meet, LIMIT)?.run;
    has_memory(&run)?;
    Ok(run)
}

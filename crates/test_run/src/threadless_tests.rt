//! Runs for which no thread can be made: there is none, where one is needed.

use crate::counter::{checked, counter};
use crate::lanes::{NEVER, Served, endings, has_memory, lanes};
use crate::meets::meets;
use Ending::{Done, Failed, NotBegun};
use core::thread::Stack;
use mc_core::Ending;
use mc_lane::MemoryStream;
use mc_model::History;
use mc_protocol::Fault;
use mc_run::{FreeGate, Meet, Run, RunError, run_lanes_with};
use mc_sound::Checked;
use std::alloc::{AllocError, Global};
use std::sync::Wait;
use std::test::Fail;
use std::thread::Threads;

/// P stores 5, A adds 1, and B has nothing to send.
const ALONE: &[u8] = b"script 1\nkeys a\nbudget P 2 26\nbudget A 1 10\nbudget B 0 0\n\
    P\nset a 0 =5\nA\nincr a 1\nB\nend\n";

/// What the server answers to P, and to the first and the second increment.
const TO_PREFIX: Served = (&[b"NOT_FOUND\r\n", b"STORED\r\n"], NEVER);

const SIX: Served = (&[b"6\r\n"], NEVER);

const SEVEN: Served = (&[b"7\r\n"], NEVER);

/// The server ends the connection.
const NOTHING: Served = (&[], NEVER);

/// What is served to P, A and B: to all; to P and A alone; and to the branches alone.
static TO_ALL: [Served; 3] = [TO_PREFIX, SIX, SEVEN];

static TO_A_ALONE: [Served; 3] = [TO_PREFIX, SIX, NOTHING];

static TO_BRANCHES: [Served; 3] = [NOTHING, SIX, SEVEN];

#[test]
fn has_no_run_without_a_thread(rt: HostRuntime) -> Result<(), Fail> {
    let odd = first_odd_of_counter(&rt, rt.alloc(), &TO_ALL, Err(RunError::NoThread))?;
    assert_eq!(rt; odd, None);
    Ok(())
}

#[test]
fn makes_no_thread_where_a_branch_has_nothing_to_send(rt: HostRuntime) -> Result<(), Fail> {
    assert_eq!(rt; first_odd_of_alone(&rt, rt.alloc())?, None);
    Ok(())
}

#[test]
fn makes_no_thread_where_the_prefix_fails(rt: HostRuntime) -> Result<(), Fail> {
    let ended = [Failed(Fault::Ended), NotBegun, NotBegun];
    let odd = first_odd_of_counter(&rt, rt.alloc(), &TO_BRANCHES, Ok(ended))?;
    assert_eq!(rt; odd, None);
    Ok(())
}

/// How the sections of a run end, or why there is none.
type Came = Result<[Ending; 3], RunError>;

/// The first way to meet in which something else comes of a run of the counter, where this is served.
fn first_odd_of_counter<R: Threads + Wait + Sync>(
    rt: &R,
    alloc: Global,
    served: &[Served; 3],
    expected: Came,
) -> Result<Option<Meet>, Fail> {
    let counter = counter(alloc)?;
    first_odd(rt, alloc, &counter, served, expected)
}

/// The first way to meet in which the sections don't come to their ends, where A alone has something to send.
fn first_odd_of_alone<R: Threads + Wait + Sync>(
    rt: &R,
    alloc: Global,
) -> Result<Option<Meet>, Fail> {
    let alone = checked(alloc, ALONE)?;
    first_odd(rt, alloc, &alone, &TO_A_ALONE, Ok([Done, Done, Done]))
}

fn first_odd<R: Threads + Wait + Sync>(
    rt: &R,
    alloc: Global,
    checked: &Checked,
    served: &[Served; 3],
    expected: Came,
) -> Result<Option<Meet>, Fail> {
    let all = meets();
    for meet in &all {
        if run_threadless(rt, alloc, checked, served, *meet)? != expected {
            return Ok(Some(*meet));
        }
    }
    Ok(None)
}

/// How the sections end where no thread can be made, or why there is no run. Want of memory is an error here.
fn run_threadless<R: Threads + Wait + Sync>(
    rt: &R,
    alloc: Global,
    checked: &Checked,
    served: &[Served; 3],
    meet: Meet,
) -> Result<Came, Fail> {
    let given = lanes(alloc, served)?;
    // no thread has such a stack
    let stack = Stack::new().stack_size(usize::MAX);
    let found = run_lanes_with(rt, alloc, checked, given, &FreeGate, stack, meet);
    Ok(came_of(found)?)
}

fn came_of(found: Result<(Run<MemoryStream>, History), RunError>) -> Result<Came, AllocError> {
    match found {
        Ok((run, _)) => Ok(Ok(endings_with_memory(&run)?)),
        Err(RunError::OutOfMemory) => Err(AllocError),
        Err(error) => Ok(Err(error)),
    }
}

fn endings_with_memory(run: &Run<MemoryStream>) -> Result<[Ending; 3], AllocError> {
    has_memory(run)?;
    Ok(endings(run))
}

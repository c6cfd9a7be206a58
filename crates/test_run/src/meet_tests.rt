//! How the branches of a run meet: whichever of them has the thread, and before whichever requests they wait for each other.

use crate::counter::{checked, counter};
use crate::lanes::{BothBegin, NEVER, Served, endings, lanes, run_meeting, run_served_meeting};
use crate::meets::meets;
use Ending::{Done, Failed};
use mc_core::{Ending, Event};
use mc_lane::MemoryStream;
use mc_protocol::{Actor, Fault};
use mc_run::{Branch, Lanes, Late, Manner, Meet, Run};
use mc_sound::Checked;
use std::alloc::Global;
use std::sync::Wait;
use std::test::Fail;
use std::thread::Threads;

/// By how much a branch is late that surely begins after the other one.
const LATE_NANOSECONDS: u32 = 200_000_000;

const INCREMENT: &[u8] = b"incr a 1\r\n";

/// What the server answers to P.
const TO_PREFIX: Served = (&[b"NOT_FOUND\r\n", b"STORED\r\n"], NEVER);

/// What is served to P, A and B, where each branch makes one call.
pub(crate) static TO_BOTH: [Served; 3] = [TO_PREFIX, (&[b"6\r\n"], NEVER), (&[b"7\r\n"], NEVER)];

/// P stores 5, A adds 1 three times, and B once.
const UNEQUAL: &[u8] = b"script 1\nkeys a\nbudget P 2 26\nbudget A 3 30\nbudget B 1 10\n\
    P\nset a 0 =5\nA\nincr a 1\nincr a 1\nincr a 1\nB\nincr a 1\nend\n";

#[test]
fn notes_both_begins_before_any_reply(rt: HostRuntime) -> Result<(), Fail> {
    assert_eq!(rt; first_that_begins_late(&rt, rt.alloc())?, None);
    Ok(())
}

/// The first way to meet in which a reply comes before both calls are noted to begin.
fn first_that_begins_late<R: Threads + Wait + Sync>(
    rt: &R,
    alloc: Global,
) -> Result<Option<Meet>, Fail> {
    let counter = counter(alloc)?;
    first_that_begins_late_in(rt, alloc, &counter)
}

fn first_that_begins_late_in<R: Threads + Wait + Sync>(
    rt: &R,
    alloc: Global,
    counter: &Checked,
) -> Result<Option<Meet>, Fail> {
    let all = meets();
    for meet in &all {
        if !begin_both(rt, alloc, counter, *meet)? {
            return Ok(Some(*meet));
        }
    }
    Ok(None)
}

/// Whether both calls are noted to begin before either has its reply, where a gate holds each until both have begun, and the run
/// comes to its end.
fn begin_both<R: Threads + Wait + Sync>(
    rt: &R,
    alloc: Global,
    counter: &Checked,
    meet: Meet,
) -> Result<bool, Fail> {
    let gate = BothBegin::new();
    let begin = begin_at(rt, alloc, counter, &gate, meet)?;
    Ok(begin && !gate.missed.is_raised())
}

fn begin_at<R: Threads + Wait + Sync>(
    rt: &R,
    alloc: Global,
    counter: &Checked,
    gate: &BothBegin,
    meet: Meet,
) -> Result<bool, Fail> {
    let given = lanes(alloc, &TO_BOTH)?;
    let run = run_meeting(rt, alloc, counter, given, gate, meet)?;
    Ok(have_begun(&run))
}

/// Whether what was noted after P's two calls is that both calls begin, and all sections are done.
fn have_begun(run: &Run<MemoryStream>) -> bool {
    let begun = run
        .world
        .notes()
        .iter()
        .skip(4)
        .take(2)
        .all(|(_, event)| *event == Event::Begin);
    begun && endings(run) == [Done, Done, Done]
}

#[test]
fn runs_whichever_branch_has_the_thread(rt: HostRuntime) -> Result<(), Fail> {
    assert_eq!(rt; first_that_miscounts(&rt, rt.alloc())?, None);
    Ok(())
}

/// The first way to meet in which a branch doesn't send its increment, or gets something else.
fn first_that_miscounts<R: Threads + Wait + Sync>(
    rt: &R,
    alloc: Global,
) -> Result<Option<Meet>, Fail> {
    let counter = counter(alloc)?;
    first_that_miscounts_in(rt, alloc, &counter)
}

fn first_that_miscounts_in<R: Threads + Wait + Sync>(
    rt: &R,
    alloc: Global,
    counter: &Checked,
) -> Result<Option<Meet>, Fail> {
    let all = meets();
    for meet in &all {
        if !count_both(rt, alloc, counter, *meet)? {
            return Ok(Some(*meet));
        }
    }
    Ok(None)
}

/// Whether both branches send their increments, and each gets what its server answers.
fn count_both<R: Threads + Wait + Sync>(
    rt: &R,
    alloc: Global,
    counter: &Checked,
    meet: Meet,
) -> Result<bool, Fail> {
    let run = run_served_meeting(rt, alloc, counter, &TO_BOTH, meet)?;
    Ok(have_incremented(&run.lanes) && endings(&run) == [Done, Done, Done])
}

/// Whether both branches have sent their increments, and each has got what its server answers.
pub(crate) fn have_incremented(lanes: &Lanes<MemoryStream>) -> bool {
    let Lanes { a, b, .. } = lanes;
    let is_sent = a.sent() == INCREMENT && b.sent() == INCREMENT;
    is_sent && a.got() == b"6\r\n".as_slice() && b.got() == b"7\r\n".as_slice()
}

/// The branch that is late, the one that has the thread, and the one that is answered before the late one begins.
static LATE: [(Branch, Branch, Actor); 4] = [
    (Branch::A, Branch::A, Actor::B),
    (Branch::A, Branch::B, Actor::B),
    (Branch::B, Branch::A, Actor::A),
    (Branch::B, Branch::B, Actor::A),
];

#[test]
fn late_branch_begins_after_the_other_one_is_answered(rt: HostRuntime) -> Result<(), Fail> {
    assert_eq!(rt; first_odd_late(&rt, rt.alloc())?, None);
    Ok(())
}

/// The first row of late branches that isn't met.
fn first_odd_late<R: Threads + Wait + Sync>(rt: &R, alloc: Global) -> Result<Option<usize>, Fail> {
    let counter = counter(alloc)?;
    first_odd_late_in(rt, alloc, &counter)
}

fn first_odd_late_in<R: Threads + Wait + Sync>(
    rt: &R,
    alloc: Global,
    counter: &Checked,
) -> Result<Option<usize>, Fail> {
    for (index, (late, apart, other)) in LATE.iter().enumerate() {
        if first_answered(rt, alloc, counter, *late, *apart)? != Some(*other) {
            return Ok(Some(index));
        }
    }
    Ok(None)
}

/// The branch that begins and is answered before the other one begins, if one is, where one of them is late by much.
fn first_answered<R: Threads + Wait + Sync>(
    rt: &R,
    alloc: Global,
    counter: &Checked,
    late: Branch,
    apart: Branch,
) -> Result<Option<Actor>, Fail> {
    let meet = Meet {
        manner: Manner::First,
        apart,
        late: Some(Late {
            branch: late,
            nanoseconds: LATE_NANOSECONDS,
        }),
    };
    let run = run_served_meeting(rt, alloc, counter, &TO_BOTH, meet)?;
    Ok(first_answered_in(&run))
}

fn first_answered_in(run: &Run<MemoryStream>) -> Option<Actor> {
    let mut noted = run.world.notes().iter().skip(4);
    let Some((first, Event::Begin)) = noted.next() else {
        return None;
    };
    match noted.next() {
        Some((second, Event::Reply(_))) if second == first => Some(*first),
        _ => None,
    }
}

#[test]
fn waits_for_no_branch_that_is_over(rt: HostRuntime) -> Result<(), Fail> {
    assert_eq!(rt; first_that_waits(&rt, rt.alloc())?, None);
    Ok(())
}

/// The first way to meet in which A doesn't go on alone.
fn first_that_waits<R: Threads + Wait + Sync>(rt: &R, alloc: Global) -> Result<Option<Meet>, Fail> {
    let unequal = checked(alloc, UNEQUAL)?;
    first_that_waits_in(rt, alloc, &unequal)
}

fn first_that_waits_in<R: Threads + Wait + Sync>(
    rt: &R,
    alloc: Global,
    unequal: &Checked,
) -> Result<Option<Meet>, Fail> {
    let all = meets();
    for meet in &all {
        if !go_on_alone(rt, alloc, unequal, *meet)? {
            return Ok(Some(*meet));
        }
    }
    Ok(None)
}

/// What is served to A, which makes three calls.
const THREE: Served = (&[b"6\r\n", b"7\r\n", b"8\r\n"], NEVER);

/// What is served to P, A and B, where B makes one call.
static BESIDE_ONE: [Served; 3] = [TO_PREFIX, THREE, (&[b"9\r\n"], NEVER)];

/// The same, where B's first write fails.
static BESIDE_NONE: [Served; 3] = [TO_PREFIX, THREE, (&[], 1)];

/// Whether A makes its three calls beside B's one, and beside a B whose first write fails.
fn go_on_alone<R: Threads + Wait + Sync>(
    rt: &R,
    alloc: Global,
    unequal: &Checked,
    meet: Meet,
) -> Result<bool, Fail> {
    let beside_one = end_so(rt, alloc, unequal, &BESIDE_ONE, meet, Done)?;
    let failed = Failed(Fault::WriteFailed);
    Ok(beside_one && end_so(rt, alloc, unequal, &BESIDE_NONE, meet, failed)?)
}

/// Whether P and A are done, and B ends so, where this is served.
fn end_so<R: Threads + Wait + Sync>(
    rt: &R,
    alloc: Global,
    unequal: &Checked,
    served: &[Served; 3],
    meet: Meet,
    ending: Ending,
) -> Result<bool, Fail> {
    let run = run_served_meeting(rt, alloc, unequal, served, meet)?;
    Ok(endings(&run) == [Done, Done, ending])
}

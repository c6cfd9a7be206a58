//! Runs of two increments of one counter, over streams in memory: what they note, what their lanes record, and the verdict. What
//! replies lead to is shown by `cases/run`.

ghost use Rattle.std.specs.Prelude.{IfOk};
ghost use Rattle.mc_core.specs.Held.{IsHeldBy};

use crate::closed_lanes::send_nothing_when_closed;
use crate::counter::counter;
use crate::lanes::{BothBegin, NEVER, Served, endings, lanes, run, run_served};
use crate::memory::again;
use crate::verdict::is_written;
use Ending::{Done, Failed, NotBegun};
use mc_core::Ending;
use mc_lane::MemoryStream;
use mc_protocol::{Fault, OutOfMemory};
use mc_run::{Lanes, Run, agrees};
use mc_sound::Checked;
use mc_trial::judge_run;
use std::alloc::Global;
use std::sync::Wait;
use std::test::Fail;
use std::thread::Threads;

/// What P sends, and what each branch sends.
const PREFIX: &[u8] = b"delete a\r\nset a 0 0 1\r\n5\r\n";

const INCREMENT: &[u8] = b"incr a 1\r\n";

/// What the server answers to P, and the replies to an increment that is the first, the second, or neither.
const TO_PREFIX: &[&[u8]] = &[b"NOT_FOUND\r\n", b"STORED\r\n"];

const SIX: Served = (&[b"6\r\n"], NEVER);

const SEVEN: Served = (&[b"7\r\n"], NEVER);

/// What is served to P, A and B in a run that comes to its end; and the same with something after B's reply.
static TO_ALL: [Served; 3] = [(TO_PREFIX, NEVER), SIX, SEVEN];

static TO_ALL_AND_MORE: [Served; 3] = [(TO_PREFIX, NEVER), SIX, (&[b"7\r\n8\r\n"], NEVER)];

/// What is sent over the lanes of P, A and B then.
static ALL_SENT: [&[u8]; 3] = [PREFIX, INCREMENT, INCREMENT];

/// What the streams of P, A and B do, how the sections end, what is sent over each lane, and the verdict: the lines of an
/// explanation, or a word.
struct Row {
    p: Served,
    a: Served,
    b: Served,
    endings: [Ending; 3],
    sent: [&'static [u8]; 3],
    verdict: &'static str,
}

static ROWS: &[Row] = &[
    // each call of P's stream fails in turn: a write, a read, and both once more
    Row {
        p: (TO_PREFIX, 1),
        a: SIX,
        b: SEVEN,
        endings: [Failed(Fault::WriteFailed), NotBegun, NotBegun],
        sent: [b"", b"", b""],
        verdict: "",
    },
    Row {
        p: (TO_PREFIX, 2),
        a: SIX,
        b: SEVEN,
        endings: [Failed(Fault::ReadFailed), NotBegun, NotBegun],
        sent: [b"delete a\r\n", b"", b""],
        verdict: "",
    },
    Row {
        p: (TO_PREFIX, 3),
        a: SIX,
        b: SEVEN,
        endings: [Failed(Fault::WriteFailed), NotBegun, NotBegun],
        sent: [b"delete a\r\n", b"", b""],
        verdict: "P 0\n",
    },
    Row {
        p: (TO_PREFIX, 4),
        a: SIX,
        b: SEVEN,
        endings: [Failed(Fault::ReadFailed), NotBegun, NotBegun],
        sent: [PREFIX, b"", b""],
        verdict: "P 0\n",
    },
    // each call of a branch's stream
    Row {
        p: (TO_PREFIX, NEVER),
        a: (&[b"6\r\n"], 1),
        b: SIX,
        endings: [Done, Failed(Fault::WriteFailed), Done],
        sent: [PREFIX, b"", INCREMENT],
        verdict: "P 0\nP 1\nB 2\n",
    },
    Row {
        p: (TO_PREFIX, NEVER),
        a: (&[b"6\r\n"], 2),
        b: SIX,
        endings: [Done, Failed(Fault::ReadFailed), Done],
        sent: [PREFIX, INCREMENT, INCREMENT],
        verdict: "P 0\nP 1\nB 2\n",
    },
    Row {
        p: (TO_PREFIX, NEVER),
        a: SIX,
        b: (&[b"7\r\n"], 1),
        endings: [Done, Done, Failed(Fault::WriteFailed)],
        sent: [PREFIX, INCREMENT, b""],
        verdict: "P 0\nP 1\nA 2\n",
    },
    Row {
        p: (TO_PREFIX, NEVER),
        a: SIX,
        b: (&[b"7\r\n"], 2),
        endings: [Done, Done, Failed(Fault::ReadFailed)],
        sent: [PREFIX, INCREMENT, INCREMENT],
        verdict: "P 0\nP 1\nA 2\n",
    },
];

#[test]
fn comes_to_what_its_streams_answer(rt: HostRuntime) -> Result<(), Fail> {
    assert_eq!(rt; first_odd(&rt, rt.alloc())?, None);
    Ok(())
}

// One row, in which A's stream fails: few enough allocations that each of them can be refused.
#[test]
fn comes_to_what_the_streams_of_one_row_answer(rt: HostRuntime) -> Result<(), Fail> {
    assert_eq!(rt; fit_counter(&rt, rt.alloc(), &ROWS[4])?, [true; 5]);
    Ok(())
}

fn fit_counter<R: Threads + Wait + Sync>(
    rt: &R,
    alloc: Global,
    row: &Row,
) -> Result<[bool; 5], Fail> {
    let counter = counter(alloc)?;
    fit(rt, alloc, &counter, row)
}

/// The first row that a run doesn't fit, and what of it is as the row has it.
fn first_odd<R: Threads + Wait + Sync>(
    rt: &R,
    alloc: Global,
) -> Result<Option<(usize, [bool; 5])>, Fail> {
    let counter = counter(alloc)?;
    first_odd_of(rt, alloc, &counter)
}

fn first_odd_of<R: Threads + Wait + Sync>(
    rt: &R,
    alloc: Global,
    counter: &Checked,
) -> Result<Option<(usize, [bool; 5])>, Fail> {
    for (number, row) in ROWS.iter().enumerate() {
        let found = fit(rt, alloc, counter, row)?;
        if found != [true; 5] {
            return Ok(Some((number, found)));
        }
    }
    Ok(None)
}

/// What of a run over the row's streams is as the row has it.
fn fit<R: Threads + Wait + Sync>(
    rt: &R,
    alloc: Global,
    counter: &Checked,
    row: &Row,
) -> Result<[bool; 5], Fail> {
    let run = run_of(rt, alloc, counter, row)?;
    let judged = agrees_and_is_judged(alloc, counter, &run, row)?;
    Ok(fits(run, row, judged))
}

/// A run over the row's streams.
fn run_of<R: Threads + Wait + Sync>(
    rt: &R,
    alloc: Global,
    counter: &Checked,
    row: &Row,
) -> Result<Run<MemoryStream>, Fail>
    ensures { IfOk result (λ run. IsHeldBy counter.now.code run.world) }
{
    Ok(run_served(rt, alloc, counter, &[row.p, row.a, row.b])?)
}

/// Whether the lanes of a run agree with its world, and whether the verdict on it is that of the row.
fn agrees_and_is_judged(
    alloc: Global,
    counter: &Checked,
    run: &Run<MemoryStream>,
    row: &Row,
) -> Result<(bool, bool), Fail>
    requires { IsHeldBy counter.now.code run.now.world }
{
    let agrees = again(|| agrees(alloc, counter, &run.world, &run.lanes))?;
    let is_judged = is_judged_as(alloc, counter, run, 1_000_000, row.verdict.as_bytes())?;
    Ok((agrees, is_judged))
}

/// Whether the sections end as in the row, this was sent over the lanes, they agree, the verdict is that of the row, and nothing is
/// sent in one more call.
fn fits(run: Run<MemoryStream>, row: &Row, judged: (bool, bool)) -> [bool; 5] {
    let (agrees, is_judged) = judged;
    [
        endings(&run) == row.endings,
        have_sent(&run.lanes, row.sent),
        agrees,
        is_judged,
        send_nothing_when_closed(run.lanes),
    ]
}

/// Whether this is the verdict on the run after at most this many turns: the lines of an explanation, or a word.
fn is_judged_as(
    alloc: Global,
    counter: &Checked,
    run: &Run<MemoryStream>,
    limit: u64,
    verdict: &[u8],
) -> Result<bool, Fail>
    requires { IsHeldBy counter.now.code run.now.world }
{
    let (_, found, _) = again(|| judge_run(alloc, counter, run, limit))?;
    Ok(is_written(alloc, &found, verdict)?)
}

#[test]
fn notes_both_increments(rt: HostRuntime) -> Result<(), Fail> {
    assert_eq!(rt;
        increment_once_both_begin(&rt, rt.alloc())?,
        Some([true; 6])
    );
    Ok(())
}

/// What holds of a run whose branches wait for each other, where neither waits for too long.
fn increment_once_both_begin<R: Threads + Wait + Sync>(
    rt: &R,
    alloc: Global,
) -> Result<Option<[bool; 6]>, Fail> {
    let counter = counter(alloc)?;
    increment_in_time(rt, alloc, &counter)
}

fn increment_in_time<R: Threads + Wait + Sync>(
    rt: &R,
    alloc: Global,
    counter: &Checked,
) -> Result<Option<[bool; 6]>, Fail> {
    let gate = BothBegin::new();
    let found = increment_twice(rt, alloc, counter, &gate)?;
    Ok((!gate.missed.is_raised()).then_some(found))
}

/// What holds of a run in which this gate is passed, and something comes after B's reply.
fn increment_twice<R: Threads + Wait + Sync>(
    rt: &R,
    alloc: Global,
    counter: &Checked,
    gate: &BothBegin,
) -> Result<[bool; 6], Fail> {
    let given = lanes(alloc, &TO_ALL_AND_MORE)?;
    let run = run(rt, alloc, counter, given, gate)?;
    has_incremented_twice(alloc, counter, &run)
}

/// Whether all sections are done, all was sent, what came after B's reply wasn't taken, and the verdict is an explanation, where there
/// are turns to search in.
fn has_incremented_twice(
    alloc: Global,
    counter: &Checked,
    run: &Run<MemoryStream>,
) -> Result<[bool; 6], Fail>
    requires { IsHeldBy counter.now.code run.now.world }
{
    let explanation = b"P 0\nP 1\nA 2\nB 3\n".as_slice();
    let is_explained = is_judged_as(alloc, counter, run, 1_000_000, explanation)?;
    let is_undecided = is_judged_as(alloc, counter, run, 0, b"undecided")?;
    Ok([
        endings(run) == [Done, Done, Done],
        have_sent(&run.lanes, ALL_SENT),
        run.lanes.b.got() == b"7\r\n8\r\n".as_slice(),
        run.lanes.b.taken() == 3,
        is_explained,
        is_undecided,
    ])
}

#[test]
fn agrees_with_its_own_lanes_alone(rt: HostRuntime) -> Result<(), Fail> {
    assert!(rt; agrees_in_order_alone(&rt, rt.alloc())?);
    Ok(())
}

/// Whether the lanes of a run agree with its world, and no longer do so with A's and B's exchanged.
fn agrees_in_order_alone<R: Threads + Wait + Sync>(rt: &R, alloc: Global) -> Result<bool, Fail> {
    let counter = counter(alloc)?;
    run_and_exchange(rt, alloc, &counter)
}

fn run_and_exchange<R: Threads + Wait + Sync>(
    rt: &R,
    alloc: Global,
    counter: &Checked,
) -> Result<bool, Fail> {
    let run = run_served(rt, alloc, counter, &TO_ALL)?;
    let in_order = again(|| agrees(alloc, counter, &run.world, &run.lanes))?;
    Ok(in_order && !agree_exchanged(alloc, counter, run)?)
}

/// Whether the lanes of a run agree with its world where A's and B's are exchanged.
fn agree_exchanged(
    alloc: Global,
    counter: &Checked,
    run: Run<MemoryStream>,
) -> Result<bool, OutOfMemory> {
    let Run { world, lanes } = run;
    let Lanes { p, a, b } = lanes;
    let exchanged = Lanes { p, a: b, b: a };
    again(|| agrees(alloc, counter, &world, &exchanged))
}

/// Whether this was sent over the lanes of P, A and B.
fn have_sent(lanes: &Lanes<MemoryStream>, sent: [&[u8]; 3]) -> bool {
    let [p, a, b] = sent;
    lanes.p.sent() == p && lanes.a.sent() == a && lanes.b.sent() == b
}

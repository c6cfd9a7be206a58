//! Trials of two increments of one counter. `cases/drive` has more of them.

use crate::counter::Given::*;
use crate::counter::{Given, counter, events};
use crate::memory::again;
use crate::verdict::is_written;
use mc_protocol::Actor::*;
use mc_protocol::{Actor, Fault};
use mc_sound::Checked;
use mc_trial::trial;
use std::alloc::Global;
use std::test::Fail;

/// Events, the limit of turns, how many of the events are refused, and the verdict: the lines of an explanation, or a word.
type Row = (&'static [(Actor, Given)], u64, u64, &'static str);

static ROWS: [Row; 2] = [
    // an event of A before P is done, one after A failed, and a reply that no increment has; A's call wasn't executed
    (
        &[
            (A, Begin),
            (P, Begin),
            (P, NotFound),
            (P, Begin),
            (P, Stored),
            (A, Begin),
            (A, Fail(Fault::Ended)),
            (A, Begin),
            (B, Begin),
            (B, Stored),
            (B, Number(6)),
        ],
        1_000_000,
        3,
        "P 0\nP 1\nB 2\n",
    ),
    // no turns to search in
    (
        &[(P, Begin), (P, NotFound), (P, Begin), (P, Stored)],
        0,
        0,
        "undecided",
    ),
];

#[test]
fn is_judged(rt: HostRuntime) -> Result<(), Fail> {
    assert_eq!(rt; first_odd(rt.alloc())?, None);
    Ok(())
}

/// The first row that isn't met.
fn first_odd(alloc: Global) -> Result<Option<usize>, Fail> {
    let counter = counter(alloc)?;
    first_odd_of(alloc, &counter)
}

fn first_odd_of(alloc: Global, counter: &Checked) -> Result<Option<usize>, Fail> {
    for (index, row) in ROWS.iter().enumerate() {
        if !is_met(alloc, counter, row)? {
            return Ok(Some(index));
        }
    }
    Ok(None)
}

/// Whether a trial of the row's steps refuses as many of them as the row says, and has its verdict.
fn is_met(alloc: Global, counter: &Checked, row: &Row) -> Result<bool, Fail> {
    let (steps, limit, skipped, verdict) = *row;
    let (found, is_judged) = try_steps(alloc, counter, steps, limit, verdict.as_bytes())?;
    Ok(found == skipped && is_judged)
}

/// How many of the events are refused, and whether this is the verdict. A trial consumes its events, so they are made anew for another.
fn try_steps(
    alloc: Global,
    counter: &Checked,
    steps: &[(Actor, Given)],
    limit: u64,
    verdict: &[u8],
) -> Result<(u64, bool), Fail> {
    let (_, skipped, found) = again(|| trial(alloc, counter, events(alloc, steps)?, limit))?;
    Ok((skipped, is_written(alloc, &found, verdict)?))
}

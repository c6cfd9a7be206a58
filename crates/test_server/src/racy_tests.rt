//! A server with a race: its `incr` reads, and writes later.
use crate::lines::{answers, call, is_reply, reply_in, request_in};
use crate::memory::again;
use mc_protocol::{Reply, Request};
use mc_server::{Between, Caller, FreeBetween, Racy, StoreFault};
use mc_words::WordsFault;
use std::alloc::Global;
use std::sync::Wait;
use std::sync::atomic::{AtomicU64, Ordering};
use std::test::Fail;
use std::thread::{Threads, join, yield_now};

/// How often a thread looks whether the other has read, before it goes on without.
const TURNS: u64 = 1_000_000;

/// Holds each increment until two have read.
#[derive(Drop)]
struct BothRead<'s> {
    read: &'s AtomicU64,
    missed: &'s AtomicU64,
}

impl<'s> Between for BothRead<'s> {
    fn between(&self) {
        self.read.fetch_add(1, Ordering::SeqCst);
        wait_for(self.read, 2, self.missed);
    }
}

/// Waits until the count is this number, or notes that it was missed.
fn wait_for(count: &AtomicU64, number: u64, missed: &AtomicU64) {
    for _ in 0..TURNS {
        if count.load(Ordering::SeqCst) >= number {
            return;
        }
        yield_now();
    }
    missed.store(1, Ordering::SeqCst);
}

/// Holds an increment that has read until what is to happen in between is done.
#[derive(Clone, Copy)]
struct Meantime<'s> {
    read: &'s AtomicU64,
    done: &'s AtomicU64,
    missed: &'s AtomicU64,
}

impl<'s> Between for Meantime<'s> {
    fn between(&self) {
        self.read.store(1, Ordering::SeqCst);
        wait_for(self.done, 1, self.missed);
    }
}

/// Requests and their replies, where nothing else happens.
static ROWS: &[(&str, &str)] = &[
    ("incr a 1", "NOT_FOUND"),
    ("set a 7 =5", "STORED"),
    ("incr a 1", "NUMBER 6"),
    ("gets a", "HIT 7 =6 2"),
    ("decr a 2", "NUMBER 4"),
    ("append a 0 =x", "STORED"),
    ("incr a 1", "NOT_A_NUMBER"),
    ("gets a", "HIT 7 =4x 4"),
];

#[test]
fn is_made_of_stores(rt: HostRuntime) -> Result<(), Fail> {
    again(|| Racy::new(rt.alloc(), FreeBetween))?;
    Ok(())
}

#[test]
fn answers_as_others_do_where_nothing_happens_between(rt: HostRuntime) -> Result<(), Fail> {
    let racy = Racy::new(rt.alloc(), FreeBetween)?;
    for (line, reply) in ROWS {
        assert!(rt; answers(&rt, &racy, line, reply)?, "{line}");
    }
    Ok(())
}

/// Whether two increments at once are both answered with the first one's number, where these are counted.
fn loses_one<R: Threads + Wait + Sync + AllocGlobal>(
    rt: &R,
    read: &AtomicU64,
    missed: &AtomicU64,
) -> Result<bool, Fail> {
    let racy = Racy::new(rt.alloc(), BothRead { read, missed })?;
    loses_one_of_two(rt, &racy)
}

fn loses_one_of_two<R: Threads + Wait + Sync + AllocGlobal, C: Caller + Sync>(
    rt: &R,
    racy: &C,
) -> Result<bool, Fail> {
    let are_six = answers(rt, racy, "set a 0 =5", "STORED")? && both_answer_six(rt, racy)?;
    Ok(are_six && answers(rt, racy, "gets a", "HIT 0 =6 3")?)
}

fn both_answer_six<R: Threads + Wait + Sync + AllocGlobal, C: Caller + Sync>(
    rt: &R,
    racy: &C,
) -> Result<bool, Fail> {
    let increment = request_in(rt.alloc(), "incr a 1")?;
    let (a, b) = call_twice(rt, racy, &increment)?;
    Ok(are_six(rt.alloc(), &a, &b)?)
}

/// What two calls at once are answered.
fn call_twice<R: Threads + Wait + Sync, C: Caller + Sync>(
    rt: &R,
    caller: &C,
    request: &Request,
) -> Result<(Reply, Reply), StoreFault> {
    let (a, b) = join(
        rt,
        || call(rt, caller, request),
        || call(rt, caller, request),
    );
    Ok((a?, b?))
}

fn are_six(alloc: Global, a: &Reply, b: &Reply) -> Result<bool, WordsFault> {
    let six = reply_in(alloc, "NUMBER 6")?;
    Ok(*a == six && *b == six)
}

#[test]
fn loses_an_increment_where_both_read_first(rt: HostRuntime) -> Result<(), Fail> {
    let read = AtomicU64::new(0);
    let missed = AtomicU64::new(0);
    assert!(rt; loses_one(&rt, &read, &missed)?);
    assert_eq!(rt; missed.load(Ordering::SeqCst), 0);
    Ok(())
}

/// Whether an increment that has read writes its item though the key is deleted before it writes. Its number is given when it writes.
fn writes_after_a_delete<R: Threads + Wait + Sync + AllocGlobal>(
    rt: &R,
    gate: Meantime<'_>,
) -> Result<bool, Fail> {
    let racy = Racy::new(rt.alloc(), gate)?;
    writes_all_the_same(rt, &racy, gate)
}

fn writes_all_the_same<R: Threads + Wait + Sync + AllocGlobal, C: Caller + Sync>(
    rt: &R,
    racy: &C,
    gate: Meantime<'_>,
) -> Result<bool, Fail> {
    let are_answered = answers(rt, racy, "set a 7 =5", "STORED")?
        && deletes_between(rt, racy, gate)?;
    Ok(are_answered && answers(rt, racy, "gets a", "HIT 7 =6 2")?)
}

fn deletes_between<R: Threads + Wait + Sync + AllocGlobal, C: Caller + Sync>(
    rt: &R,
    racy: &C,
    gate: Meantime<'_>,
) -> Result<bool, Fail> {
    let increment = request_in(rt.alloc(), "incr a 1")?;
    let delete = request_in(rt.alloc(), "delete a")?;
    are_answered_between(rt, racy, &increment, &delete, gate)
}

fn are_answered_between<R: Threads + Wait + Sync + AllocGlobal, C: Caller + Sync>(
    rt: &R,
    racy: &C,
    increment: &Request,
    delete: &Request,
    gate: Meantime<'_>,
) -> Result<bool, Fail> {
    let (incremented, deleted) = call_between(rt, racy, increment, delete, gate)?;
    Ok(is_reply(rt.alloc(), &incremented, "NUMBER 6")? && deleted == Reply::Deleted)
}

/// What an increment is answered, and what another request is once the increment has read. It goes on afterwards.
fn call_between<R: Threads + Wait + Sync, C: Caller + Sync>(
    rt: &R,
    racy: &C,
    increment: &Request,
    other: &Request,
    gate: Meantime<'_>,
) -> Result<(Reply, Reply), StoreFault> {
    let (a, b) = join(
        rt,
        || call(rt, racy, increment),
        || call_after_a_read(rt, racy, other, gate),
    );
    Ok((a?, b?))
}

fn call_after_a_read<R: Wait, C: Caller>(
    rt: &R,
    racy: &C,
    request: &Request,
    gate: Meantime<'_>,
) -> Result<Reply, StoreFault> {
    wait_for(gate.read, 1, gate.missed);
    let answer = call(rt, racy, request);
    gate.done.store(1, Ordering::SeqCst);
    answer
}

#[test]
fn writes_the_item_of_a_key_that_is_deleted_between(rt: HostRuntime) -> Result<(), Fail> {
    let read = AtomicU64::new(0);
    let done = AtomicU64::new(0);
    let missed = AtomicU64::new(0);
    let gate = Meantime {
        read: &read,
        done: &done,
        missed: &missed,
    };
    assert!(rt; writes_after_a_delete(&rt, gate)?);
    assert_eq!(rt; missed.load(Ordering::SeqCst), 0);
    Ok(())
}

//! What a store answers, and what it holds then. Requests and replies are written as in the lines of a history.
use crate::lines::{is_reply, request_in};
use mc_protocol::{Reply, Request};
use mc_server::{Store, StoreFault};
use std::alloc::Global;
use std::test::Fail;

/// What stands in place of the reply where there is no number left.
const USED_UP: &str = "used up";

/// Whether the store answers so.
fn answers(alloc: Global, store: &mut Store, line: &str, reply: &str) -> Result<bool, Fail> {
    let request = request_in(alloc, line)?;
    is_answer(alloc, &store.call(&request), reply)
}

/// Whether this is the answer of a store. Want of memory is an error.
fn is_answer(alloc: Global, answer: &Result<Reply, StoreFault>, reply: &str) -> Result<bool, Fail> {
    match answer {
        Ok(answer) => Ok(reply != USED_UP && is_reply(alloc, answer, reply)?),
        Err(StoreFault::NumbersUsedUp) => Ok(reply == USED_UP),
        Err(fault) => Err(Fail::from(*fault)),
    }
}

/// Requests with the replies to them.
type Rows = &'static [(&'static str, &'static str)];

/// Each verb, where something is at the key and where nothing is. A number isn't given again after a delete.
const VERBS: Rows = &[
    ("get k", "MISS"),
    ("gets k", "MISS"),
    ("replace k 6 =x", "NOT_STORED"),
    ("append k 6 =x", "NOT_STORED"),
    ("prepend k 6 =x", "NOT_STORED"),
    ("cas k 6 =x 1", "NOT_FOUND"),
    ("incr k 1", "NOT_FOUND"),
    ("decr k 1", "NOT_FOUND"),
    ("touch k", "NOT_FOUND"),
    ("delete k", "NOT_FOUND"),
    ("add k 5 =old", "STORED"),
    ("gets k", "HIT 5 =old 1"),
    ("add k 7 =new", "NOT_STORED"),
    ("touch k", "TOUCHED"),
    ("gets k", "HIT 5 =old 1"),
    ("replace k 6 =x", "STORED"),
    ("append k 0 =y", "STORED"),
    ("prepend k 0 =z", "STORED"),
    ("gets k", "HIT 6 =zxy 4"),
    ("incr k 1", "NOT_A_NUMBER"),
    ("cas k 7 =5 3", "EXISTS"),
    ("gets k", "HIT 6 =zxy 4"),
    ("cas k 7 =5 4", "STORED"),
    ("incr k 6", "NUMBER 11"),
    ("decr k 2", "NUMBER 9"),
    ("gets k", "HIT 7 =9 7"),
    ("delete k", "DELETED"),
    ("gets k", "MISS"),
    ("set k 0 =x", "STORED"),
    ("gets k", "HIT 0 =x 8"),
];

/// No number is left: nothing is stored, and what stores nothing is answered.
const USED_UP_AT_ONCE: Rows = &[
    ("set k 0 =1", USED_UP),
    ("get k", "MISS"),
    ("add k 0 =1", USED_UP),
    ("replace k 0 =1", "NOT_STORED"),
    ("incr k 1", "NOT_FOUND"),
    ("delete k", "NOT_FOUND"),
    ("get k", "MISS"),
];

/// One number is left. What is refused after it changes nothing, and a delete gives no number back.
const ONE_LEFT: Rows = &[
    ("set k 5 =1", "STORED"),
    ("set k 0 =2", USED_UP),
    ("append k 0 =2", USED_UP),
    ("prepend k 0 =2", USED_UP),
    ("incr k 1", USED_UP),
    ("decr k 1", USED_UP),
    ("replace k 0 =2", USED_UP),
    ("cas k 0 =2 18446744073709551614", USED_UP),
    ("cas k 0 =2 1", "EXISTS"),
    ("add k 0 =2", "NOT_STORED"),
    ("add other 0 =2", USED_UP),
    ("get other", "MISS"),
    ("touch k", "TOUCHED"),
    ("gets k", "HIT 5 =1 18446744073709551614"),
    ("delete k", "DELETED"),
    ("set k 0 =2", USED_UP),
    ("get k", "MISS"),
];

/// The number of the first version, and what is answered in turn.
static STORES: &[(u64, Rows)] = &[
    (1, VERBS),
    (u64::MAX, USED_UP_AT_ONCE),
    (u64::MAX - 1, ONE_LEFT),
];

/// The first request that is answered in another way, each asked after those before it.
fn first_other(alloc: Global, next: u64, rows: Rows) -> Result<Option<&'static str>, Fail> {
    let mut store = Store::starting(alloc, next);
    for (line, reply) in rows {
        if !answers(alloc, &mut store, line, reply)? {
            return Ok(Some(line));
        }
    }
    Ok(None)
}

/// The first request of any store's rows that is answered in another way.
fn first_other_of_all(alloc: Global) -> Result<Option<&'static str>, Fail> {
    for (next, rows) in STORES {
        let other = first_other(alloc, *next, rows)?;
        if other.is_some() {
            return Ok(other);
        }
    }
    Ok(None)
}

#[test]
fn answers_in_turn(rt: HostRuntime) -> Result<(), Fail> {
    assert_eq!(rt; first_other_of_all(rt.alloc())?, None);
    Ok(())
}

/// A request that takes memory, the reply to it, and what `gets k` answers after it.
type Taking = (&'static str, &'static str, &'static str);

/// Each is asked of a store that holds `7` at the key k, with the flags 5 and the number 1.
static TAKES_MEMORY: &[Taking] = &[
    ("get k", "HIT 5 =7", "HIT 5 =7 1"),
    ("set k 0 =12345678", "STORED", "HIT 0 =12345678 2"),
    ("append k 0 =12345678", "STORED", "HIT 5 =712345678 2"),
    ("prepend k 0 =12345678", "STORED", "HIT 5 =123456787 2"),
    ("incr k 1", "NUMBER 8", "HIT 5 =8 2"),
    ("set other 0 =1", "STORED", "HIT 5 =7 1"),
];

/// What such a store answers after a call that was refused: the item is there as it was.
const UNCHANGED: Rows = &[("gets k", "HIT 5 =7 1"), ("get other", "MISS")];

/// Whether the store does what the row says.
fn changes_so(alloc: Global, row: &Taking) -> Result<bool, Fail> {
    let mut store = Store::new(alloc);
    let is_stored = answers(alloc, &mut store, "set k 5 =7", "STORED")?;
    Ok(is_stored && is_changed_so(alloc, &mut store, row)?)
}

fn is_changed_so(alloc: Global, store: &mut Store, row: &Taking) -> Result<bool, Fail> {
    let (line, reply, after) = *row;
    let request = request_in(alloc, line)?;
    let is_answered = answers_again(alloc, store, &request, reply)?;
    Ok(is_answered && answers(alloc, store, "gets k", after)?)
}

/// Whether the store answers so. If it finds no memory, it holds what it held before, and is asked once more.
fn answers_again(
    alloc: Global,
    store: &mut Store,
    request: &Request,
    reply: &str,
) -> Result<bool, Fail> {
    match store.call(request) {
        Err(StoreFault::OutOfMemory) => {
            let is_kept = are_answered(alloc, store, UNCHANGED)?;
            Ok(is_kept && is_answer(alloc, &store.call(request), reply)?)
        }
        answer => is_answer(alloc, &answer, reply),
    }
}

fn are_answered(alloc: Global, store: &mut Store, rows: Rows) -> Result<bool, Fail> {
    for (line, reply) in rows {
        if !answers(alloc, store, line, reply)? {
            return Ok(false);
        }
    }
    Ok(true)
}

#[test]
fn keeps_what_is_there_without_memory(rt: HostRuntime) -> Result<(), Fail> {
    for row in TAKES_MEMORY {
        assert!(rt; changes_so(rt.alloc(), row)?, "{}", row.0);
    }
    Ok(())
}

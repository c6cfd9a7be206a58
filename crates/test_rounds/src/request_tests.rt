//! The requests of short rounds, and the keys.

use crate::memory::again;
use crate::texts::{write_openings, write_requests};
use mc_protocol::{Bytes, OutOfMemory};
use mc_rounds::{Client, Plan, keys_of};
use mc_settings::{Mix, Namespace};
use std::alloc::Global;
use std::test::Fail;

const PLAN: Plan = Plan {
    seed: 7,
    clients: 8,
    requests: 16,
    keys: 2,
    mix: Mix::Counters,
};

// `oracle/rounds.py --seed 1 --client 64 --round 5` prints this, and `--round 4` the deletes alone.
const WITH_SETS: &[u8] = b"delete k1\r\ndelete k2\r\nset k1 0 0 2\r\n18\r\nset k2 0 0 2\r\n79\r\n";

const WITHOUT_SETS: &[u8] = b"delete k1\r\ndelete k2\r\n";

// `oracle/rounds.py --seed 7 --round 3 --client 2 --mix counters --requests 16` prints this.
const COUNTING: &[u8] = b"set k2 2 0 1\r
n\r
gets k1\r
incr k1 1\r
incr k1 9\r
decr k2 1\r
gets k1\r
decr k2 6\r
set k1 3 0 2\r
80\r
decr k1 18446744073709551613\r
incr k2 5\r
set k2 3 0 8\r
47764509\r
cas k1 3 0 2 101\r
98\r
gets k1\r
decr k2 6\r
gets k1\r
incr k2 8\r
";

fn openings_text(alloc: Global, round: u64) -> Result<Vec<u8>, OutOfMemory> {
    let plan = Plan { seed: 1, ..PLAN };
    let mut text = Vec::new(alloc);
    write_openings(alloc, &plan, round, &mut text)?;
    Ok(text)
}

#[test]
fn keys_are_set_in_half_of_the_rounds(rt: HostRuntime) -> Result<(), Fail> {
    assert!(rt; openings_text(rt.alloc(), 5)?.as_slice() == WITH_SETS);
    assert!(rt; openings_text(rt.alloc(), 4)?.as_slice() == WITHOUT_SETS);
    Ok(())
}

fn requests_text(alloc: Global) -> Result<Vec<u8>, OutOfMemory> {
    let mut text = Vec::new(alloc);
    write_requests(alloc, &PLAN, 3, 2, &mut text)?;
    Ok(text)
}

#[test]
fn a_cas_has_the_last_number_that_was_heard(rt: HostRuntime) -> Result<(), Fail> {
    assert!(rt; requests_text(rt.alloc())?.as_slice() == COUNTING);
    Ok(())
}

// How often a client has a request on these keys, if it is asked this often.
fn count_of(alloc: Global, keys: &[Bytes], asked: usize) -> Result<usize, OutOfMemory> {
    let mut client = again(|| Client::new(alloc, &PLAN, 1, 0))?;
    let mut count = 0usize;
    for _ in 0..asked {
        if client.next(alloc, keys)?.is_some() {
            count = count.saturating_add(1);
        }
    }
    Ok(count)
}

#[test]
fn a_client_has_as_many_requests_as_are_planned(rt: HostRuntime) -> Result<(), Fail> {
    let keys = keys_of(rt.alloc(), 2, None)?;
    assert_eq!(rt; count_of(rt.alloc(), &keys, 20)?, 16);
    assert_eq!(rt; count_of(rt.alloc(), &[], 20)?, 0);
    Ok(())
}

// Whether this is the last of as many keys behind a name, if that is one.
fn is_last(alloc: Global, count: u8, name: &[u8], last: &[u8]) -> Result<bool, OutOfMemory> {
    let name = Namespace::new(name);
    let mut keys = again(|| keys_of(alloc, count, name.as_ref()))?;
    match keys.pop() {
        Some(key) => Ok(key.as_slice() == last),
        None => Ok(false),
    }
}

#[test]
fn keys_are_numbered_behind_the_name(rt: HostRuntime) -> Result<(), Fail> {
    assert!(rt; is_last(rt.alloc(), 16, b"ci-7", b"ci-7-k16")?);
    assert!(rt; is_last(rt.alloc(), 1, b"no name", b"k1")?);
    Ok(())
}

//! A server with a race, for tests of what looks for one.
ghost use Rattle.std.specs.Prelude.{◌≡◌, Ok, IfOk, vec_len};
ghost use Rattle.mc_protocol.specs.declared.request.Verb.TheVariants.{Incr};
ghost use Rattle.mc_server.specs.Callers.{MayAnswer};

use crate::shared::make_shards;
use crate::{Caller, Store, StoreFault, shard_of};
use mc_protocol::{Bytes, OutOfMemory, Reply, Request, Verb};
use std::alloc::Global;
use std::sync::{Mutex, Wait};

/// What happens between the two steps of an `incr` of a [`Racy`] server.
pub trait Between: Sync {
    /// It is called by each `incr`, after it has read and before it writes, and while it holds no lock.
    fn between(&self);
}

/// Nothing happens between the two steps.
#[derive(Clone, Copy, Debug)]
pub struct FreeBetween;

impl Between for FreeBetween {
    fn between(&self) {}
}

/// Sixteen stores as those of [`Shared`](crate::Shared), of which `incr` alone races: it reads what is at the key, lets the lock go, and
/// takes the lock again to store what it has made of that, whatever has happened to the key in the meantime.
#[derive(Drop)]
pub struct Racy<B: Between + Drop> {
    shards: Vec<Mutex<Store>>,
    alloc: Global,
    between: B,
    ghost all: { vec_len shards ≡ 16 },
}

impl<B: Between + Drop> Racy<B> {
    /// Sixteen stores that hold nothing, with what happens between the steps of an `incr`.
    ///
    /// # Errors
    ///
    /// That memory ran out.
    pub fn new(alloc: Global, between: B) -> Result<Self, OutOfMemory> {
        let shards = make_shards(alloc)?;
        Ok(Racy {
            shards,
            alloc,
            between,
        })
    }
}

impl<B: Between + Drop> Caller for Racy<B> {
    #[tactic(auto, using(crate::proofs::Callers::may_answer, crate::proofs::Callers::may_fail_as))]
    fn call<R: Wait>(&self, rt: &R, request: &Request) -> Result<Reply, StoreFault> {
        let shard = &self.shards[shard_of(request.key.as_slice())];
        if request.verb != Verb::Incr {
            return shard.lock(rt).call(request);
        }
        let (reply, write) = read(rt, self.alloc, shard, request)?;
        self.between.between();
        if let Some(write) = write {
            shard.lock(rt).call(&write)?;
        }
        Ok(reply)
    }
}

/// The first step of an `incr`: the reply, decided on a copy of what the store holds, and the request that stores what it makes.
#[tactic(auto, using(crate::proofs::Callers::may_answer, crate::proofs::Callers::may_fail_as))]
fn read<R: Wait>(
    rt: &R,
    alloc: Global,
    shard: &Mutex<Store>,
    request: &Request,
) -> Result<(Reply, Option<Request>), StoreFault>
    requires { request.now.verb ≡ Incr }
    ensures { IfOk result (λ step. MayAnswer request.now (Ok step.0)) }
{
    let get = bare(alloc, Verb::Get, &request.key)?;
    let found = shard.lock(rt).call(&get)?;
    decide(alloc, request, &get, found)
}

/// The same, where a `get` of the key found this.
#[tactic(auto, using(crate::proofs::Callers::may_answer, crate::proofs::Callers::may_fail_as))]
fn decide(
    alloc: Global,
    request: &Request,
    get: &Request,
    found: Reply,
) -> Result<(Reply, Option<Request>), StoreFault>
    requires { request.now.verb ≡ Incr }
    ensures { IfOk result (λ step. MayAnswer request.now (Ok step.0)) }
{
    let mut copy = store_with(alloc, &request.key, found)?;
    let reply = copy.call(request)?;
    let write = write_of(alloc, &request.key, &reply, copy.call(get)?)?;
    Ok((reply, write))
}

/// A store with what a `get` of the key found, and nothing else.
fn store_with(alloc: Global, key: &Bytes, found: Reply) -> Result<Store, StoreFault> {
    let mut store = Store::new(alloc);
    if let Reply::Hit { flags, body, .. } = found {
        store.call(&set(alloc, key, flags, body)?)?;
    }
    Ok(store)
}

/// The request that stores what was made, where the `incr` was answered with a number.
fn write_of(
    alloc: Global,
    key: &Bytes,
    reply: &Reply,
    made: Reply,
) -> Result<Option<Request>, OutOfMemory> {
    match (reply, made) {
        (Reply::Number(_), Reply::Hit { flags, body, .. }) => {
            Ok(Some(set(alloc, key, flags, body)?))
        }
        _ => Ok(None),
    }
}

/// A request to store an item at the key.
fn set(alloc: Global, key: &Bytes, flags: u32, body: Bytes) -> Result<Request, OutOfMemory> {
    let mut request = bare(alloc, Verb::Set, key)?;
    request.flags = flags;
    request.body = body;
    Ok(request)
}

/// A request with its key alone.
fn bare(alloc: Global, verb: Verb, key: &Bytes) -> Result<Request, OutOfMemory> {
    Ok(Request {
        verb,
        key: key.copy(alloc)?,
        flags: 0,
        body: Bytes::new(Vec::new(alloc)),
        number: 0,
    })
}

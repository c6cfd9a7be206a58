//! Stores that threads share, each under a lock.
ghost use Rattle.std.specs.Prelude.{◌≡◌, IfOk, vec_len};
ghost use Rattle.mc_server.specs.Shards as spec;

use crate::{Caller, Store, StoreFault};
use mc_protocol::{OutOfMemory, Reply, Request};
use std::alloc::Global;
use std::sync::{Mutex, Wait};

/// How many stores there are.
const SHARDS: usize = 16;

/// Sixteen stores, each under a lock of its own, and a key in the one that [`shard_of`] names. A call holds one lock, so calls on keys
/// of different stores don't wait for each other. Each store counts its own numbers from 1.
#[derive(Drop)]
pub struct Shared {
    shards: Vec<Mutex<Store>>,
    ghost all: { vec_len shards ≡ 16 },
}

impl Shared {
    /// Sixteen stores that hold nothing.
    ///
    /// # Errors
    ///
    /// That memory ran out.
    pub fn new(alloc: Global) -> Result<Self, OutOfMemory> {
        let shards = make_shards(alloc)?;
        Ok(Shared { shards })
    }
}

/// Sixteen stores that hold nothing, each under a lock.
pub(crate) fn make_shards(alloc: Global) -> Result<Vec<Mutex<Store>>, OutOfMemory>
    ensures { IfOk result (λ shards. vec_len shards ≡ 16) }
{
    let mut shards = Vec::with_capacity(alloc, SHARDS)?;
    for i in 0..SHARDS {
        shards.push(Mutex::new(Store::new(alloc)))?;
    }
    Ok(shards)
}

/// The store that a key is in, from 0 to 15: the sum of its bytes modulo 16. Nothing is allocated.
pub fn shard_of(key: &[u8]) -> usize
    ensures { result ≡ spec.shard_of key.now }
{
    let mut sum = 0u8;
    for byte in key {
        sum = sum.wrapping_add(*byte);
    }
    usize::from(sum % 16)
}

impl Caller for Shared {
    #[tactic(auto, using(crate::proofs::Callers::may_answer))]
    fn call<R: Wait>(&self, rt: &R, request: &Request) -> Result<Reply, StoreFault> {
        let at = shard_of(request.key.as_slice());
        self.shards[at].lock(rt).call(request)
    }
}
